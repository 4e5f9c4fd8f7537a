//! The program `spf`: runs programs whose loops look sequential but whose state is easy to guess.
#![tactic(auto)]

use spf_cli_answers::{Status, number};
use spf_cli_shell::run_words;
use spf_edge::{RealFiles, RealSink, StandardStream};
use std::process::ExitCode;
use std::{env, io};

/// The words after the program's name. Words that aren't text can't be those of a command, so the
/// list is empty then.
fn words(rt: &(impl env::Env + AllocGlobal)) -> io::Result<Vec<String>> {
    let mut words = Vec::new(rt.alloc());
    let args = match env::args(rt) {
        Err(error) if error.kind() == io::ErrorKind::InvalidData => return Ok(words),
        args => args?,
    };
    for word in args.skip(1) {
        words.push(word)?;
    }
    Ok(words)
}

fn main(rt: HostRuntime) -> ExitCode {
    let alloc = rt.alloc();
    let Ok(words) = words(&rt) else {
        return ExitCode::from(number(Status::NoMemory));
    };
    let mut files = RealFiles::make(&rt);
    let mut out = RealSink::make(StandardStream::Output(rt.stdout()));
    let mut err = RealSink::make(StandardStream::Error(rt.stderr()));
    ExitCode::from(run_words(&rt, alloc, &words, &mut files, &mut out, &mut err))
}
