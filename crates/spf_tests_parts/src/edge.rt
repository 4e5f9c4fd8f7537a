//! That the calls succeed with memory at hand, and what they do to the machine's files and streams.
use spf_edge::{
    FetchError, Files, MemFiles, MemSink, PutError, PutMade, RealFiles, RealSink, Sink,
    StandardStream,
};
use spf_ticket_gate::{Barrier, Gate, Open, Place};
use std::alloc::{AllocError, Global};
use std::io::Write;
use std::process::Abort;
use std::test::Fail;
use std::{fs, io};

/// Three files, two of which have one name.
fn three_files(alloc: Global) -> Result<Vec<(String, Vec<u8>)>, AllocError> {
    let mut entries = Vec::new(alloc);
    for (name, content) in &[("a", "one"), ("b", ""), ("a", "other")] {
        entries.push((
            String::from_str(alloc, name)?,
            content.as_bytes().to_vec(alloc)?,
        ))?;
    }
    Ok(entries)
}

/// A fetch of this name with this limit, and the content or error that it is to have.
type Fetch<'a> = (&'a str, u64, Result<&'a str, FetchError>);

/// Returns whether a fetch has the result that it is to have.
fn is_fetched<F: Files>(files: &mut F, alloc: Global, fetch: Fetch) -> bool {
    let (name, limit, wanted) = fetch;
    match (files.fetch(alloc, name, limit), wanted) {
        (Ok(content), Ok(text)) => content.as_slice() == text.as_bytes(),
        (Err(error), Err(why)) => error == why,
        _ => false,
    }
}

/// Makes fetches one after another.
fn follow<R: Abort, F: Files>(rt: &R, files: &mut F, alloc: Global, fetches: &[Fetch]) {
    for (number, fetch) in fetches.iter().enumerate() {
        assert!(rt; is_fetched(files, alloc, *fetch), "call {number}");
    }
}

/// The three files in memory. Calls 1 and 4 fail.
fn memory_files(alloc: Global) -> Result<MemFiles, AllocError> {
    let failing = [1, 4].to_vec(alloc)?;
    Ok(MemFiles::make(three_files(alloc)?, failing))
}

/// Returns whether the fetched names are those of a text, with a space between any two.
fn have_fetched(files: &MemFiles, text: &str) -> bool {
    let names = files.fetches().unwrap_or(&[]);
    text.split(' ').eq(names.iter().map(|name| name.as_str()))
}

/// Fetches of the three files.
const MEMORY_FETCHES: [Fetch<'static>; 7] = [
    ("a", 3, Ok("one")),
    ("a", 3, Err(FetchError::Failed)),
    ("c", 3, Err(FetchError::Missing)),
    ("a", 2, Err(FetchError::TooLong)),
    // a missing name doesn't fail, and still counts as a call
    ("c", 3, Err(FetchError::Missing)),
    ("b", 0, Ok("")),
    ("a", 9, Ok("one")),
];

#[test]
fn files_in_memory_answer_by_number(rt: HostRuntime) -> Result<(), Fail> {
    let mut files = memory_files(rt.alloc())?;
    follow(&rt, &mut files, rt.alloc(), &MEMORY_FETCHES);
    assert!(rt; have_fetched(&files, "a a c a c b a"));
    Ok(())
}

/// A piece, how it is to be put, and the bytes that the sink is to have afterwards.
type Put<'a> = (&'a str, Result<(), PutError>, &'a str);

/// Returns whether a piece is put as it is to be.
fn is_put(sink: &mut MemSink, put: Put) -> bool {
    let (piece, wanted, taken) = put;
    sink.put(piece.as_bytes()) == wanted && sink.bytes() == taken.as_bytes()
}

/// Returns whether these numbers are those of the puts: for each the length of its piece, and 10
/// more where the piece was put whole.
fn are_counted(puts: &[PutMade], numbers: &[u64]) -> bool {
    puts.len() == numbers.len()
        && puts.iter().zip(numbers).all(|(put, number)| put.piece.len() as u64
            + u64::from(put.whole) * 10
            == *number)
}

/// Puts on a sink where puts 1 and 3 fail, and keep two bytes.
const PUTS: [Put<'static>; 5] = [
    ("abc", Ok(()), "abc"),
    ("def", Err(PutError::Failed), "abcde"),
    ("", Ok(()), "abcde"),
    ("f", Err(PutError::Failed), "abcdef"),
    ("ghi", Ok(()), "abcdefghi"),
];

#[test]
fn a_sink_in_memory_fails_by_number(rt: HostRuntime) -> Result<(), Fail> {
    let mut sink = MemSink::make([1, 3].to_vec(rt.alloc())?, 2);
    for (number, row) in PUTS.iter().enumerate() {
        assert!(rt; is_put(&mut sink, *row), "put {number}");
    }
    assert!(rt; are_counted(sink.puts(), &[13, 3, 10, 1, 13]));
    Ok(())
}

/// Fetches of a file of the machine, and of one that isn't there.
const MACHINE_FETCHES: [Fetch<'static>; 4] = [
    ("spf_edge_four", 4, Ok("four")),
    ("spf_edge_four", u64::MAX, Ok("four")),
    ("spf_edge_four", 3, Err(FetchError::TooLong)),
    ("spf_edge_none", 4, Err(FetchError::Failed)),
];

#[test]
fn a_file_of_the_machine_is_read(rt: HostRuntime) -> Result<(), Fail> {
    fs::write(&rt, "spf_edge_four", b"four".as_slice())?;
    let mut files = RealFiles::make(&rt);
    follow(&rt, &mut files, rt.alloc(), &MACHINE_FETCHES);
    fs::remove_file(&rt, "spf_edge_four")?;
    Ok(())
}

// A device that takes `room` bytes, and then no more.
#[derive(Drop)]
struct Narrow {
    room: usize,
}

impl Write for Narrow {
    fn write(&mut self, buf: &[u8]) -> io::Result<usize> {
        let count = buf.len().min(self.room);
        self.room -= count;
        Ok(count)
    }

    fn flush(&mut self) -> io::Result<()> {
        Ok(())
    }
}

#[test]
fn streams_take_what_is_put(rt: HostRuntime) {
    let mut output = RealSink::make(StandardStream::Output(rt.stdout()));
    let mut error = RealSink::make(StandardStream::Error(rt.stderr()));
    let mut narrow = RealSink::make(Narrow { room: 3 });
    let puts = [
        output.put(b"to standard output\n"),
        error.put(b"to standard error\n"),
        narrow.put(b"ab"),
        narrow.put(b"cd"),
        narrow.put(b"e"),
        narrow.put(b""),
    ];
    let failed = Err(PutError::Failed);
    assert!(rt; puts == [Ok(()), Ok(()), Ok(()), failed, failed, Ok(())]);
}

// The ends of attempts at a gate, one after another: block, attempt and place.
fn pass<G: Gate + Sync>(gate: &G, ends: &[(u64, u64, Place)]) {
    for &(block, attempt, place) in ends {
        gate.at(block, attempt, place);
    }
}

/// Two first attempts, which begin before one ends.
const ENDS: [(u64, u64, Place); 4] = [
    (0, 1, Place::Begin),
    (1, 1, Place::Begin),
    (0, 1, Place::End),
    (1, 1, Place::End),
];

#[test]
fn a_barrier_is_met_where_all_first_attempts_begin_before_one_ends(rt: HostRuntime) {
    let two = Barrier::make(2, 10);
    pass(&two, &ENDS[..1]);
    let early = two.have_met();
    pass(&two, &ENDS[1..]);
    let three = Barrier::make(3, 10);
    pass(&three, &ENDS);
    pass(&three, &[(2, 1, Place::Begin), (2, 1, Place::End)]);
    pass(&Open, &ENDS);
    assert!(rt; !early && two.have_met() && !three.have_met());
}

/// A first attempt, with second attempts and one of a block that the barrier doesn't count.
const OTHERS: [(u64, u64, Place); 5] = [
    (0, 1, Place::Begin),
    (0, 2, Place::Begin),
    (2, 1, Place::Begin),
    (0, 2, Place::End),
    (2, 1, Place::End),
];

#[test]
fn a_barrier_counts_first_attempts_of_its_blocks_alone(rt: HostRuntime) {
    let barrier = Barrier::make(2, 10);
    pass(&barrier, &OTHERS);
    let early = barrier.have_met();
    pass(&barrier, &[(1, 1, Place::Begin)]);
    assert!(rt; !early && barrier.have_met());
}
