//! Reads logs.
ghost use Rattle.std.specs.Prelude.{◌≡◌, ◌≤◌, ◌<◌, ◌+◌, ◌*◌, ◌++◌, ◌↔◌, IsTrue, length};
ghost use Rattle.std.specs.Prelude.{take, drop, MatchResult, IfOk, IfErr, OnOk, [], ◌∷◌};
ghost use Rattle.std.specs.Int.{cast_signed, w64};
ghost use Rattle.spf_replay_log.specs.Log.{event_with, step_bytes, section_bytes, sections_of};
ghost use Rattle.spf_replay_log.specs.Log.{signature, IsKind, IsStep, IsSection, IsLog};
ghost use Rattle.spf_replay_log.specs.Refusals.{count_size, step_size, StepBreaksAt};
ghost use Rattle.spf_replay_log.specs.Refusals.{IsNoSection, IsNoLog};

use crate::log::{Event, LogError, MAX_BLOCKS, Step};
use crate::number::{eight_at, two_at};
use crate::writer::SIGNATURE;
use std::alloc::{AllocError, Global};

/// How many bytes the number of a section's steps has.
const COUNT_SIZE: usize = 8;

/// How many bytes a step has.
const STEP_SIZE: usize = 19;

/// The event with these fields.
fn event_of(kind: u8, cell: u64, content: u64) -> Event
    requires { IsKind kind }
    ensures { result ≡ event_with kind cell content }
{
    match kind {
        1 => Event::Load {
            cell,
            word: content.cast_signed(),
        },
        2 => Event::Store {
            cell,
            word: content.cast_signed(),
        },
        _ => Event::Turn { number: content },
    }
}

/// The step that the bytes begin with.
///
/// # Errors
///
/// Where the first wrong field begins, or the number of bytes where they end before.
fn read_step(bytes: &[u8]) -> Result<Step, usize>
    ensures { MatchResult result
        (λ s. IsStep s × (step_size ≤ length bytes.now) × (step_bytes s ≡ take step_size bytes.now))
        (StepBreaksAt bytes.now) }
{
    let size = bytes.len();
    if size < 1 {
        return Err(size);
    }
    let kind = bytes[0];
    if kind < 1 || kind > 3 {
        return Err(0);
    }
    if size < 3 {
        return Err(size);
    }
    let block = two_at(bytes, 1);
    if block >= MAX_BLOCKS {
        return Err(1);
    }
    if size < 11 {
        return Err(size);
    }
    let cell = eight_at(bytes, 3);
    if kind == 3 && cell != 0 {
        return Err(3);
    }
    if size < STEP_SIZE {
        return Err(size);
    }
    let content = eight_at(bytes, 11);
    Ok(Step {
        block: block as u64,
        event: event_of(kind, cell, content),
    })
}

/// Appends a step.
fn push_step(steps: &mut Vec<Step>, step: Step) -> Result<(), AllocError>
    ensures { OnOk result (steps.new.items ≡ steps.old.items ++ step ∷ []) }
{
    steps.push(step)?;
    Ok(())
}

/// Appends a section.
fn push_section(log: &mut Vec<Vec<Step>>, section: Vec<Step>) -> Result<(), AllocError>
    ensures { OnOk result (log.new.items ≡ log.old.items ++ section ∷ []) }
{
    log.push(section)?;
    Ok(())
}

/// The section that the bytes from an offset on begin with.
fn read_section(alloc: Global, bytes: &[u8], at: usize) -> Result<Vec<Step>, LogError>
    requires { at ≤ length bytes.now }
    ensures section { IfOk result (λ s. IsSection s.items
        × (at + count_size + step_size * length s.items ≤ length bytes.now)
        × (drop at bytes.now ≡ section_bytes s.items
        ++ drop (at + count_size + step_size * length s.items) bytes.now)) }
    ensures refused { IfErr result (IsNoSection bytes.now at) }
{
    if bytes.len() - at < COUNT_SIZE {
        return Err(LogError::NotLog {
            at: bytes.len() as u64,
        });
    }
    let count = eight_at(bytes, at);
    let mut steps = Vec::new(alloc);
    for index in 0..count {
        let begin = at + COUNT_SIZE + STEP_SIZE * index as usize;
        match read_step(&bytes[begin..]) {
            Ok(step) => push_step(&mut steps, step)?,
            Err(offset) => {
                return Err(LogError::NotLog {
                    at: (begin + offset) as u64,
                });
            }
        }
    }
    Ok(steps)
}

/// Returns whether bytes that are long enough begin with the signature.
fn is_signed(bytes: &[u8]) -> bool
    requires { length signature ≤ length bytes.now }
    ensures { IsTrue result ↔ (take (length signature) bytes.now ≡ signature) }
{
    &bytes[..4] == SIGNATURE
}

/// Reads the log that the bytes are.
///
/// # Errors
///
/// - `NotLog` where they are none. Its offset is where the first wrong field begins: the signature,
///   a kind, a block, or the cell of a turn. Where the bytes end inside a field or a section, it is
///   their number.
/// - `OutOfMemory` where memory runs out.
pub fn read_log(alloc: Global, bytes: &[u8]) -> Result<Vec<Vec<Step>>, LogError>
    ensures log { IfOk result (λ log. IsLog (sections_of log.items) bytes.now) }
    ensures refused { IfErr result (IsNoLog bytes.now) }
{
    if bytes.len() < 4 {
        return Err(LogError::NotLog {
            at: bytes.len() as u64,
        });
    }
    if !is_signed(bytes) {
        return Err(LogError::NotLog { at: 0 });
    }
    let mut log = Vec::new(alloc);
    let mut at = 4;
    while at < bytes.len() {
        let section = read_section(alloc, bytes, at)?;
        at = at + COUNT_SIZE + STEP_SIZE * section.len();
        push_section(&mut log, section)?;
    }
    Ok(log)
}
