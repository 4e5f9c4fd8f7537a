//! The machine's files and standard streams. They tell nothing of what they hold.
ghost use Rattle.std.specs.Prelude.{◌≡◌, ◌≢◌, ◌<◌, ◌≤◌, length, vec_len, IfOk, OnOk, IfSome};
ghost use Rattle.std.specs.Prelude.{IfNone, None, Err};
ghost use Rattle.spf_edge.specs.Faults.{Rose};
ghost use Rattle.std.specs.Io.KnownBytes.{Appends};

use crate::{FetchError, Files, PutError, Sink};
use std::alloc::Global;
use std::fs::File;
use std::io::{ErrorKind, Read, Stderr, Stdout, Write};
use std::marker::Model;
use std::{io, rt};

/// The files of the machine. A file that is not there or can't be read is a fault.
#[derive(Drop)]
pub struct RealFiles<'a, R> {
    machine: &'a R,
    faults: u64,
}

impl<'a, R> Model for RealFiles<'a, R> {
    ghost use Rattle.std.specs.Prelude.{ℕ};

    ghost Value = { ℕ };

    ghost view = { λ files. files.faults };
}

impl<'a, R: rt::Files> RealFiles<'a, R> {
    /// Makes the files of this machine, with no fault so far.
    pub fn make(machine: &'a R) -> RealFiles<'a, R>
        ensures { result ≡ 0 }
    {
        RealFiles { machine, faults: 0 }
    }
}

// All that is left to read, or `None` where that is more than `limit` bytes. It reads at most one
// byte more than the limit.
fn read_within<R: Read + Drop>(alloc: Global, reader: R, limit: u64) -> io::Result<Option<Vec<u8>>>
    ensures content { IfOk result (λ read. IfSome read (λ content.
        IfSome (R.remaining reader) (λ all. content.items ≡ all))) }
    ensures within { IfOk result (λ read. IfSome read (λ content. vec_len content ≤ limit)) }
    ensures too_long { IfOk result (λ read. IfNone read
        (IfSome (R.remaining reader) (λ all. limit < length all))) }
{
    let mut content = Vec::new(alloc);
    reader
        .take(limit.saturating_add(1))
        .read_to_end(&mut content)?;
    if content.len() as u64 > limit {
        return Ok(None);
    }
    Ok(Some(content))
}

// The content of the machine's file, or `None` where it is longer than `limit` bytes.
fn read_file<R: rt::Files>(
    machine: &R,
    alloc: Global,
    name: &str,
    limit: u64,
) -> io::Result<Option<Vec<u8>>>
    ensures within { IfOk result (λ read. IfSome read (λ content. vec_len content ≤ limit)) }
{
    read_within(alloc, File::open(machine, name)?, limit)
}

impl<'a, R: rt::Files> Files for RealFiles<'a, R> {
    ghost state = { λ count. record { told = None; fetches = None; faults = count } };

    fn fetch(&mut self, alloc: Global, name: &str, limit: u64) -> Result<Vec<u8>, FetchError> {
        match read_file(self.machine, alloc, name, limit) {
            Ok(Some(content)) => Ok(content),
            Ok(None) => Err(FetchError::TooLong),
            Err(error) if error.kind() == ErrorKind::OutOfMemory => Err(FetchError::OutOfMemory),
            Err(_) => {
                self.faults = self.faults.saturating_add(1);
                Err(FetchError::Failed)
            }
        }
    }
}

/// One of the two standard streams that output goes to.
#[derive(Drop)]
pub enum StandardStream {
    Output(Stdout),
    Error(Stderr),
}

impl Write for StandardStream {
    fn write(&mut self, buf: &[u8]) -> io::Result<usize> {
        match self {
            StandardStream::Output(stream) => stream.write(buf),
            StandardStream::Error(stream) => stream.write(buf),
        }
    }

    fn flush(&mut self) -> io::Result<()> {
        match self {
            StandardStream::Output(stream) => stream.flush(),
            StandardStream::Error(stream) => stream.flush(),
        }
    }
}

/// A stream of the machine as a sink. A stream that takes nothing of a piece that isn't empty has
/// failed.
#[derive(Drop)]
pub struct RealSink<W = StandardStream> {
    stream: W,
    faults: u64,
}

impl<W: Write> RealSink<W> {
    ghost use Rattle.spf_edge.specs.Streams.{stream_of, failure_count};

    /// Makes a sink that writes to this stream, with no fault so far.
    pub fn make(stream: W) -> RealSink<W>
        ensures stream { stream_of result ≡ stream }
        ensures faults { failure_count result ≡ 0 }
    {
        RealSink { stream, faults: 0 }
    }
}

// Writes the whole piece, and flushes the stream.
fn write_piece<W: Write>(stream: &mut W, piece: &[u8]) -> io::Result<()>
    ensures { OnOk result (Appends (W.contents stream.old) (W.contents stream.new) piece.now) }
{
    stream.write_all(piece)?;
    stream.flush()
}

impl<W: Write> Sink for RealSink<W> {
    ghost use Rattle.spf_edge.specs.Streams.{stream_of, failure_count};

    ghost state = { λ sink. record { taken = None; puts = None; faults = failure_count sink } };

    fn put(&mut self, piece: &[u8]) -> Result<(), PutError>
        ensures later { failure_count self.old ≤ failure_count self.new }

        // A stream that tells what it holds has taken the piece.
        ensures added { OnOk result (Appends (W.contents (stream_of self.old))
            (W.contents (stream_of self.new)) piece.now) }
        ensures failed { result ≡ Err PutError.Failed
            → Rose (failure_count self.old) (failure_count self.new) }
        // It needs no memory of its own.
        ensures enough { result ≢ Err PutError.OutOfMemory }
    {
        match write_piece(&mut self.stream, piece) {
            Ok(()) => Ok(()),
            Err(_) => {
                self.faults = self.faults.saturating_add(1);
                Err(PutError::Failed)
            }
        }
    }
}
