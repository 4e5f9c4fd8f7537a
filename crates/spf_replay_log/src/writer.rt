//! Writes logs.
ghost use Rattle.std.specs.Prelude.{◌≡◌, ◌<◌, ◌++◌, OnOk, IfOk};
ghost use Rattle.std.specs.List.{All};
ghost use Rattle.spf_replay_log.specs.Log.{max_blocks, kind_of as kind_field};
ghost use Rattle.spf_replay_log.specs.Log.{cell_of as cell_field, content_of as content_field};
ghost use Rattle.spf_replay_log.specs.Log.{step_bytes, section_bytes, sections_of};
ghost use Rattle.spf_replay_log.specs.Log.{IsStep, IsSection, IsLog};

use crate::log::{Event, Step};
use std::alloc::{AllocError, Global};

/// What a log begins with.
pub(crate) const SIGNATURE: &[u8] = b"SPL1";

/// The number of an event's kind.
fn kind_of(event: Event) -> u8
    ensures { result ≡ kind_field event }
{
    match event {
        Event::Load { .. } => 1,
        Event::Store { .. } => 2,
        Event::Turn { .. } => 3,
    }
}

/// The cell of an event, and 0 for a turn.
fn cell_of(event: Event) -> u64
    ensures { result ≡ cell_field event }
{
    match event {
        Event::Load { cell, .. } => cell,
        Event::Store { cell, .. } => cell,
        Event::Turn { .. } => 0,
    }
}

/// The bits of an event's word, or a turn's number.
fn content_of(event: Event) -> u64
    ensures { result ≡ content_field event }
{
    match event {
        Event::Load { word, .. } => word.cast_unsigned(),
        Event::Store { word, .. } => word.cast_unsigned(),
        Event::Turn { number } => number,
    }
}

/// Appends the bytes of a step.
fn push_step(bytes: &mut Vec<u8>, step: Step) -> Result<(), AllocError>
    requires { step.block < max_blocks }
    ensures bytes { OnOk result (bytes.new.items ≡ bytes.old.items ++ step_bytes step) }
    ensures is { IsStep step }
{
    bytes.push(kind_of(step.event))?;
    bytes.extend_from_slice(&(step.block as u16).to_be_bytes())?;
    bytes.extend_from_slice(&cell_of(step.event).to_be_bytes())?;
    bytes.extend_from_slice(&content_of(step.event).to_be_bytes())
}

/// Appends the bytes of a section.
fn push_section(bytes: &mut Vec<u8>, section: &[Step]) -> Result<(), AllocError>
    requires { All (λ s. s.block < max_blocks) section.now }
    ensures bytes { OnOk result (bytes.new.items ≡ bytes.old.items ++ section_bytes section.now) }
    ensures is { OnOk result (IsSection section.now) }
{
    bytes.extend_from_slice(&(section.len() as u64).to_be_bytes())?;
    for step in section {
        push_step(bytes, *step)?;
    }
    Ok(())
}

/// Returns the bytes of a log whose blocks are below `MAX_BLOCKS`.
///
/// # Errors
///
/// Fails where memory runs out.
pub fn write_log(alloc: Global, log: &[Vec<Step>]) -> Result<Vec<u8>, AllocError>
    requires { All (λ section. All (λ s. s.block < max_blocks) section.items) log.now }
    ensures { IfOk result (λ bytes. IsLog (sections_of log.now) bytes.items) }
{
    let mut bytes = Vec::new(alloc);
    bytes.extend_from_slice(SIGNATURE)?;
    for section in log {
        push_section(&mut bytes, section)?;
    }
    Ok(bytes)
}
