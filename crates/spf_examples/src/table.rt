//! The table of command lines.
//!
//! `answers.txt` is the table. `#` begins a comment. Lines that aren't indented say what the files
//! are, and what the command line is:
//!
//! - `program TEXT`: the file `P` has this text; or `program` alone, and then its lines, each after
//!   `|`;
//! - `lines COUNT TEXT`: COUNT more lines of it, in each of which `#` stands for the line's number,
//!   counted from 0;
//! - `input TEXT`: the file `I` has this text; `bytes 1 2 0*65`: it has these bytes, here 0 65
//!   times; the file `M` is the toy machine;
//! - `file NAME 1 2 0*65`: a further file, of this name, has these bytes; it stays;
//! - `words WORDS`: the command line, with a space between any two words.
//!
//! The indented lines after it are what is wanted:
//!
//! - `status N`, where it isn't 0; `> LINE`: a line of the output; `bytes ..`: bytes of the output;
//! - `! LINE`: a line of the error stream; `part TEXT`: a part of one;
//! - `fetch N`: this fetch fails, counted from 0; `put N K` and `line N K`: this put on the output
//!   or on the error stream fails after K bytes;
//! - `fetched NAMES`: these files are fetched, in this order, and no others;
//! - `pieces N N`: the output is put in pieces of N bytes each, including the piece that fails.
//!
//! `end` is the last line.

use std::alloc::{AllocError, Global};

/// A command line, and what is wanted of it.
#[derive(Drop)]
pub struct Row<'a> {
    /// The words, with a space between any two.
    pub words: &'a str,
    pub status: u64,
    pub output: Vec<u8>,
    pub messages: Vec<u8>,
    /// The numbers of the fetches that fail.
    pub failing_fetches: Vec<u64>,
    /// The number of the put on the output that fails, and how many bytes it takes.
    pub failing_put: Option<(u64, u64)>,
    /// The number of the put on the error stream that fails, and how many bytes it takes.
    pub failing_line: Option<(u64, u64)>,
    /// The names that are fetched, with a space between any two, where the table says it.
    pub fetched: Option<&'a str>,
    /// How long the pieces of the output are, with a space between any two, where the table says
    /// it.
    pub pieces: Option<&'a str>,
}

/// The files of the command lines that follow, and the one whose lines are being read.
#[derive(Drop)]
pub struct Reader<'a> {
    alloc: Global,
    /// The content of the file `P`.
    pub program: Vec<u8>,
    /// The content of the file `I`.
    pub input: Vec<u8>,
    /// The further files: names and contents.
    pub others: Vec<(&'a str, Vec<u8>)>,
    row: Option<Row<'a>>,
}

/// The words of a line.
pub fn words(alloc: Global, line: &str) -> Result<Vec<String>, AllocError> {
    let mut words = Vec::new(alloc);
    if !line.is_empty() {
        for word in line.split(' ') {
            words.push(String::from_str(alloc, word)?)?;
        }
    }
    Ok(words)
}

/// A number of a line; one that isn't there or can't be read is greater than any that is wanted.
fn number(word: Option<&str>) -> u64 {
    match word {
        Some(word) => word.parse::<u64>().unwrap_or(u64::MAX),
        None => u64::MAX,
    }
}

/// Two numbers of a line.
fn pair(text: &str) -> (u64, u64) {
    let mut words = text.split(' ');
    let first = number(words.next());
    (first, number(words.next()))
}

/// Adds bytes, each written as a decimal number, or as `NUMBER*COUNT` where it stands COUNT times.
fn add_bytes(bytes: &mut Vec<u8>, text: &str) -> Result<(), AllocError> {
    for word in text.split(' ') {
        let mut parts = word.split('*');
        let byte = number(parts.next()).min(255) as u8;
        let count = match parts.next() {
            Some(count) => number(Some(count)).min(65_536),
            None => 1,
        };
        for _ in 0..count {
            bytes.push(byte)?;
        }
    }
    Ok(())
}

/// Adds a line and its end.
fn add_line(bytes: &mut Vec<u8>, line: &str) -> Result<(), AllocError> {
    bytes.extend_from_slice(line.as_bytes())?;
    bytes.push(b'\n')?;
    Ok(())
}

/// Adds the lines of `COUNT TEXT`: COUNT lines, in each of which `#` stands for its number, counted
/// from 0.
fn add_lines(alloc: Global, bytes: &mut Vec<u8>, text: &str) -> Result<(), AllocError> {
    let Some((count, line)) = text.split_once(' ') else {
        return Ok(());
    };
    for at in 0..number(Some(count)).min(65_536) {
        let digits = format!(in alloc; "{at}")?;
        for byte in line.bytes() {
            if byte == b'#' {
                bytes.extend_from_slice(digits.as_bytes())?;
            } else {
                bytes.push(byte)?;
            }
        }
        bytes.push(b'\n')?;
    }
    Ok(())
}

impl<'a> Row<'a> {
    /// A command line that is to end with status 0, with nothing on both streams.
    fn of(alloc: Global, words: &'a str) -> Row<'a> {
        Row {
            words,
            status: 0,
            output: Vec::new(alloc),
            messages: Vec::new(alloc),
            failing_fetches: Vec::new(alloc),
            failing_put: None,
            failing_line: None,
            fetched: None,
            pieces: None,
        }
    }

    /// Reads a line of what is wanted.
    fn read(&mut self, line: &'a str) -> Result<(), AllocError> {
        if let Some(line) = line.strip_prefix("! ") {
            return add_line(&mut self.messages, line);
        }
        if let Some(part) = line.strip_prefix("part ") {
            return self.messages.extend_from_slice(part.as_bytes());
        }
        if let Some(line) = line.strip_prefix("> ") {
            return add_line(&mut self.output, line);
        }
        if let Some(bytes) = line.strip_prefix("bytes ") {
            return add_bytes(&mut self.output, bytes);
        }
        if let Some(fetch) = line.strip_prefix("fetch ") {
            self.failing_fetches.push(number(Some(fetch)))?;
        } else if let Some(put) = line.strip_prefix("put ") {
            self.failing_put = Some(pair(put));
        } else if let Some(put) = line.strip_prefix("line ") {
            self.failing_line = Some(pair(put));
        } else if let Some(names) = line.strip_prefix("fetched ") {
            self.fetched = Some(names);
        } else if let Some(lengths) = line.strip_prefix("pieces ") {
            self.pieces = Some(lengths);
        } else {
            self.status = number(line.strip_prefix("status "));
        }
        Ok(())
    }
}

impl<'a> Reader<'a> {
    /// A reader at the start of a table.
    pub fn make(alloc: Global) -> Reader<'a> {
        Reader {
            alloc,
            program: Vec::new(alloc),
            input: Vec::new(alloc),
            others: Vec::new(alloc),
            row: None,
        }
    }

    /// Gives the command line whose lines end before this one, if any.
    pub fn ended(&mut self, line: &str) -> Option<Row<'a>> {
        if line.starts_with("  ") {
            None
        } else {
            self.row.take()
        }
    }

    /// Reads a line of the table.
    pub fn read(&mut self, line: &'a str) -> Result<(), AllocError> {
        if let Some(wanted) = line.strip_prefix("  ") {
            return match &mut self.row {
                Some(row) => row.read(wanted),
                None => Ok(()),
            };
        }
        if let Some(line) = line.strip_prefix("|") {
            return add_line(&mut self.program, line);
        }
        if let Some(text) = line.strip_prefix("lines ") {
            return add_lines(self.alloc, &mut self.program, text);
        }
        if let Some(words) = line.strip_prefix("words ") {
            self.row = Some(Row::of(self.alloc, words));
        } else if let Some(text) = line.strip_prefix("program") {
            self.program.clear();
            let text = text.strip_prefix(" ").unwrap_or(text);
            self.program.extend_from_slice(text.as_bytes())?;
        } else if let Some(text) = line.strip_prefix("input") {
            self.input.clear();
            let text = text.strip_prefix(" ").unwrap_or(text);
            self.input.extend_from_slice(text.as_bytes())?;
        } else if let Some(bytes) = line.strip_prefix("bytes ") {
            self.input.clear();
            add_bytes(&mut self.input, bytes)?;
        } else if let Some(file) = line.strip_prefix("file ") {
            let (name, bytes) = file.split_once(' ').unwrap_or((file, ""));
            let mut content = Vec::new(self.alloc);
            if !bytes.is_empty() {
                add_bytes(&mut content, bytes)?;
            }
            self.others.push((name, content))?;
        }
        Ok(())
    }
}
