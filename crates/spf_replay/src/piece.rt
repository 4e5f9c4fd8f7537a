//! Pieces of an attempt's record: up to a turn.
ghost use Rattle.std.specs.Prelude.{◌≡◌, ◌≤◌, ◌<◌, ◌++◌, List, [], ◌∷◌, length, map};
ghost use Rattle.std.specs.Prelude.{Some, None, OnOk, if◌then◌else◌};
ghost use Rattle.spf_ast.specs.Event.{Event as AskedEvent};
ghost use Rattle.spf_replay.specs.Reading.{event_of};
ghost use Rattle.spf_replay.specs.Schedule.{piece, after_piece, is_turn as is_turn_event};
ghost use Rattle.spf_replay.specs.SeenSteps.{seen_step};
ghost use Rattle.spf_replay.specs.Going.{IsPieceEnd, BeginsPiece, Appends};

use spf_replay_log::log::{Event, Step};
use std::alloc::AllocError;

/// Returns whether an event is a turn.
fn is_turn(event: Event) -> bool
    ensures turn { result ≡ is_turn_event (event_of event) }
    ensures piece { (rest : List AskedEvent) → after_piece (event_of event ∷ rest)
        ≡ if result then Some rest else after_piece rest }
{
    match event {
        Event::Turn { .. } => true,
        _ => false,
    }
}

/// The index after the next turn from an index on, where there is one.
pub(crate) fn piece_end(events: &[Event], from: usize) -> Option<usize>
    requires { from ≤ length events.now }
    ensures { IsPieceEnd events.now from result }
{
    for i in from..events.len() {
        if is_turn(events[i]) {
            return Some(i + 1);
        }
    }
    None
}

/// The step of a block that an event is, with this number where it is a turn.
fn step_of(block: u64, event: Event, number: u64) -> Step
    ensures { BeginsPiece block number (event_of event) (seen_step result) }
{
    match event {
        Event::Turn { .. } => Step {
            block,
            event: Event::Turn { number },
        },
        _ => Step { block, event },
    }
}

/// Appends a step.
fn push_step(steps: &mut Vec<Step>, step: Step) -> Result<(), AllocError>
    ensures { OnOk result (steps.new.items ≡ steps.old.items ++ step ∷ []) }
{
    steps.push(step)?;
    Ok(())
}

/// Appends the piece at the front of these events as steps of a block, whose turn polls this
/// number.
pub(crate) fn push_piece(
    steps: &mut Vec<Step>,
    block: u64,
    events: &[Event],
    number: u64,
) -> Result<(), AllocError>
    ensures { OnOk result
        (Appends steps.old block (piece number (map event_of events.now)) steps.new) }
{
    for event in events {
        push_step(steps, step_of(block, *event, number))?;
        if is_turn(*event) {
            return Ok(());
        }
    }
    Ok(())
}
