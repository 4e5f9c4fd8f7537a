//! Files and a sink in memory, for tests: the calls that fail are told beforehand.
ghost use Rattle.std.specs.Prelude.{find, bytes_eq, string_bytes, ◌≡◌, ◌≢◌, ◌↔◌, ℕ, [], Some, None};
ghost use Rattle.std.specs.Prelude.{Err, IfOk, OnOk, IsErr, IfErr, vec_len, Contains, IsSome, ◌+◌};
ghost use Rattle.std.specs.Prelude.{◌++◌, option_map, map, option_copied, ◌∷◌, List, take, length};
ghost use Rattle.std.specs.Prelude.{◌<◌, ◌≤◌};
ghost use Rattle.spf_edge.specs.Entries.{lookup, IsLongerThan};
ghost use Rattle.spf_ast_lemmas.specs.Counts.{one_more};
ghost use Rattle.spf_edge.specs.Memory.{entries_of, names_of, puts_of};
ghost use Rattle.spf_edge.specs.Fetches.{HasFetched};
ghost use Rattle.spf_edge.specs.Puts.{HasPut, put_of};

use crate::{FetchError, Files, PutError, Sink};
use std::alloc::{AllocError, Global};
use std::marker::Model;

/// Files in memory. The calls of `fetch` are numbered from 0, and those in a given list fail.
#[derive(Drop)]
pub struct MemFiles {
    entries: Vec<(String, Vec<u8>)>,
    failing: Vec<u64>,
    calls: u64,
    faults: u64,
    names: Option<Vec<String>>,
}

impl Model for MemFiles {
    ghost use Rattle.spf_edge.specs.Memory.{FilesInMemory, entries_of, names_of};

    ghost Value = { FilesInMemory };

    ghost view = { λ files. record {
      entries = entries_of files.entries.items;
      failing = files.failing.items;
      calls = files.calls;
      faults = files.faults;
      fetches = names_of files.names;
    } };
}

// The first entry of that name.
fn find_entry<'a>(entries: &'a [(String, Vec<u8>)], name: &str) -> Option<&'a (String, Vec<u8>)>
    ensures { option_copied result
        ≡ find (λ entry. bytes_eq (string_bytes entry.0) name.now) entries.now }
{
    entries.iter().find(|entry| entry.0.as_str() == name)
}

// The content of the first entry of that name.
#[tactic(auto, using(crate::proofs::Finding::lookup_entries_of))]
fn find_content<'a>(entries: &'a [(String, Vec<u8>)], name: &str) -> Option<&'a [u8]>
    ensures { option_copied result ≡ lookup (entries_of entries.now) name.now }
{
    let entry = find_entry(entries, name)?;
    Some(entry.1.as_slice())
}

impl MemFiles {
    /// Files with these names and contents. The calls of `fetch` whose numbers, from 0, are in
    /// `failing` fail, unless the name is missing; no others do. It takes no memory.
    pub fn make(entries: Vec<(String, Vec<u8>)>, failing: Vec<u64>) -> MemFiles
        ensures entries { result.entries ≡ entries_of entries.items }
        ensures failing { result.failing ≡ failing.items }
        ensures calls { result.calls ≡ 0 }
        ensures faults { result.faults ≡ 0 }
        ensures fetches { result.fetches ≡ Some [] }
    {
        let names = Some(Vec::new(*failing.allocator()));
        MemFiles {
            entries,
            failing,
            calls: 0,
            faults: 0,
            names,
        }
    }

    /// Returns the names that were fetched so far, in order; `None` once there was no memory for
    /// one.
    pub fn fetches(&self) -> Option<&[String]>
        ensures { option_map (map string_bytes) (option_copied result) ≡ self.now.fetches }
    {
        self.names.as_deref()
    }
}

/// The names with one more at their end, where there is memory for it.
fn with_name(alloc: Global, names: Option<Vec<String>>, name: &str) -> Option<Vec<String>>
    ensures { HasFetched (names_of names) (names_of result) (name.now ∷ []) }
{
    let mut known = names?;
    let copy = String::from_str(alloc, name).ok()?;
    known.push(copy).ok()?;
    Some(known)
}

impl Files for MemFiles {
    ghost state = { λ files. record {
      told = Some files.entries;
      fetches = files.fetches;
      faults = files.faults;
    } };

    fn fetch(&mut self, alloc: Global, name: &str, limit: u64) -> Result<Vec<u8>, FetchError>
        ensures entries { self.new.entries ≡ self.old.entries }
        ensures failing { self.new.failing ≡ self.old.failing }
        ensures calls { self.new.calls ≡ one_more self.old.calls }
        ensures fetched { HasFetched self.old.fetches self.new.fetches (name.now ∷ []) }

        // A call fails exactly where its number says so and the name isn't missing.
        ensures fails { Contains self.old.failing self.old.calls
            → IsSome (lookup self.old.entries name.now) → result ≡ Err FetchError.Failed }
        ensures only { result ≡ Err FetchError.Failed
            → Contains self.old.failing self.old.calls }

        // The count of faults is that of the calls that failed.
        ensures counted { result ≡ Err FetchError.Failed
            → self.new.faults ≡ one_more self.old.faults }
        ensures uncounted { result ≢ Err FetchError.Failed
            → self.new.faults ≡ self.old.faults }
        ensures later { self.old.faults ≤ self.new.faults }

        ensures content { IfOk result
            (λ content. lookup self.old.entries name.now ≡ Some content.items) }
        ensures within { IfOk result (λ content. vec_len content ≤ limit) }
        ensures missing { (result ≡ Err FetchError.Missing)
            ↔ (lookup self.old.entries name.now ≡ None) }
        ensures too_long { result ≡ Err FetchError.TooLong
            → IsLongerThan limit (Some self.old.entries) name.now }
    {
        let number = self.calls;
        self.calls = number.saturating_add(1);
        self.names = with_name(alloc, self.names.take(), name);
        let Some(content) = find_content(&self.entries, name) else {
            return Err(FetchError::Missing);
        };
        if self.failing.contains(&number) {
            self.faults = self.faults.saturating_add(1);
            return Err(FetchError::Failed);
        }
        if content.len() as u64 > limit {
            return Err(FetchError::TooLong);
        }
        Ok(content.to_vec(alloc)?)
    }
}

/// A put that a sink in memory was given.
#[derive(Drop)]
pub struct PutMade {
    /// What was supplied.
    pub piece: Vec<u8>,
    /// Whether all of it was taken.
    pub whole: bool,
}

/// A sink in memory. The calls of `put` are numbered from 0, and those in a given list fail.
#[derive(Drop)]
pub struct MemSink {
    bytes: Vec<u8>,
    puts: Vec<PutMade>,
    failing: Vec<u64>,
    keeps: u64,
    calls: u64,
    faults: u64,
}

impl Model for MemSink {
    ghost use Rattle.spf_edge.specs.Memory.{SinkInMemory, puts_of};

    ghost Value = { SinkInMemory };

    ghost view = { λ sink. record {
      taken = sink.bytes.items;
      puts = puts_of sink.puts.items;
      failing = sink.failing.items;
      keeps = sink.keeps;
      calls = sink.calls;
      faults = sink.faults;
    } };
}

impl MemSink {
    /// Makes an empty sink. The calls of `put` whose numbers, from 0, are in `failing` fail, and no
    /// others do. A put that fails first takes `keeps` bytes of its piece, or the whole piece where
    /// that is shorter. It takes no memory.
    pub fn make(failing: Vec<u64>, keeps: u64) -> MemSink
        ensures taken { result.taken ≡ [] }
        ensures puts { result.puts ≡ [] }
        ensures failing { result.failing ≡ failing.items }
        ensures keeps { result.keeps ≡ keeps }
        ensures calls { result.calls ≡ 0 }
        ensures faults { result.faults ≡ 0 }
    {
        let bytes = Vec::new(*failing.allocator());
        let puts = Vec::new(*failing.allocator());
        MemSink {
            bytes,
            puts,
            failing,
            keeps,
            calls: 0,
            faults: 0,
        }
    }

    /// Returns the bytes taken so far.
    pub fn bytes(&self) -> &[u8]
        ensures { result.now ≡ self.now.taken }
    {
        &self.bytes
    }

    /// Returns the puts so far, but for those for which there was no memory.
    pub fn puts(&self) -> &[PutMade]
        ensures { puts_of result.now ≡ self.now.puts }
    {
        &self.puts
    }

    /// Takes some first bytes of a piece, and notes the put.
    fn receive(&mut self, piece: &[u8], count: usize, whole: bool) -> Result<(), AllocError>
        requires count { count ≤ length piece.now }
        ensures failing { self.new.failing ≡ self.old.failing }
        ensures keeps { self.new.keeps ≡ self.old.keeps }
        ensures calls { self.new.calls ≡ self.old.calls }
        ensures faults { self.new.faults ≡ self.old.faults }
        ensures taken { OnOk result (self.new.taken ≡ self.old.taken ++ take count piece.now) }
        ensures puts { OnOk result
            (self.new.puts ≡ self.old.puts ++ record { piece = piece.now; whole = whole } ∷ []) }
        ensures nothing { IfErr result (λ _.
            (self.new.taken ≡ self.old.taken) × (self.new.puts ≡ self.old.puts)) }
    {
        let alloc = *self.bytes.allocator();
        let copy = piece.to_vec(alloc)?;
        self.puts.push(PutMade { piece: copy, whole })?;
        match self.bytes.extend_from_slice(&piece[..count]) {
            Ok(()) => Ok(()),
            Err(error) => {
                self.puts.pop();
                Err(error)
            }
        }
    }
}

impl Sink for MemSink {
    ghost state = { λ sink. record {
      taken = Some sink.taken;
      puts = Some sink.puts;
      faults = sink.faults;
    } };

    fn put(&mut self, piece: &[u8]) -> Result<(), PutError>
        ensures failing { self.new.failing ≡ self.old.failing }
        ensures keeps { self.new.keeps ≡ self.old.keeps }
        ensures calls { self.new.calls ≡ one_more self.old.calls }

        // A call fails where its number says so, unless there is no memory, and nowhere else.
        ensures fails { Contains self.old.failing self.old.calls → IsErr result }
        ensures only { result ≡ Err PutError.Failed → Contains self.old.failing self.old.calls }

        // The count of faults is that of the calls that failed.
        ensures counted { result ≡ Err PutError.Failed
            → self.new.faults ≡ one_more self.old.faults }
        ensures uncounted { result ≢ Err PutError.Failed → self.new.faults ≡ self.old.faults }
        ensures later { self.old.faults ≤ self.new.faults }

        ensures added { OnOk result (self.new.taken ≡ self.old.taken ++ piece.now) }
        ensures kept { result ≡ Err PutError.Failed
            → self.new.taken ≡ self.old.taken ++ take self.old.keeps piece.now }
        ensures nothing { result ≡ Err PutError.OutOfMemory
            → self.new.taken ≡ self.old.taken }

        // One put was made of it, or none where there was no memory.
        ensures made { self.new.puts ≡ self.old.puts ++ put_of piece.now result }
    {
        let number = self.calls;
        self.calls = number.saturating_add(1);
        if self.failing.contains(&number) {
            let kept = piece.len().min(self.keeps as usize);
            self.receive(piece, kept, false)?;
            self.faults = self.faults.saturating_add(1);
            return Err(PutError::Failed);
        }
        self.receive(piece, piece.len(), true)?;
        Ok(())
    }
}
