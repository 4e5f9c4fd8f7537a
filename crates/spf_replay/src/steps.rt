//! Steps of a section on one memory.
ghost use Rattle.std.specs.Prelude.{◌≡◌, ◌↔◌, IsTrue, length, slice_set};
ghost use Rattle.spf_ast.specs.Event.{word_at, IsConsistent};
ghost use Rattle.spf_speculation.specs.Steps.{events_of, AreBelow};
ghost use Rattle.spf_replay.specs.Reading.{event_of};
ghost use Rattle.spf_replay.specs.SeenSteps.{seen_steps};
ghost use Rattle.spf_replay.specs.Sections.{TellsEvent};

use spf_replay_log::log::{Event, Step};

/// The word of a cell, or 0 where there is no such cell.
pub(crate) fn word_of(memory: &[i64], cell: u64) -> i64
    ensures { result ≡ word_at memory.now cell }
{
    memory.get(cell as usize).copied().unwrap_or(0)
}

/// Stores a word to a cell; does nothing where there is no such cell.
pub(crate) fn set_word(memory: &mut [i64], cell: u64, word: i64)
    ensures { memory.new ≡ slice_set memory.old cell word }
{
    let cell = cell as usize;
    if cell < memory.len() {
        memory[cell] = word;
    }
}

/// Makes an event on a memory. Tells whether the memory gives what the event says.
fn is_next(memory: &mut [i64], event: Event) -> bool
    ensures next { TellsEvent (event_of event) memory.old result memory.new }
    ensures size { length memory.new ≡ length memory.old }
{
    match event {
        Event::Load { cell, word } => word_of(memory, cell) == word,
        Event::Store { cell, word } => {
            set_word(memory, cell, word);
            true
        }
        Event::Turn { .. } => true,
    }
}

/// Makes the steps on a memory. Tells whether the memory gives what they say.
pub(crate) fn are_consistent(memory: &mut [i64], steps: &[Step]) -> bool
    ensures consistent { IsTrue result
        ↔ IsConsistent (events_of (seen_steps steps.now)) memory.old }
    ensures size { length memory.new ≡ length memory.old }
{
    for step in steps {
        if !is_next(memory, step.event) {
            return false;
        }
    }
    true
}

/// Returns whether each step belongs to one of the first `blocks` blocks.
pub(crate) fn are_below(steps: &[Step], blocks: u64) -> bool
    ensures { IsTrue result ↔ AreBelow blocks (seen_steps steps.now) }
{
    for step in steps {
        if step.block >= blocks {
            return false;
        }
    }
    true
}
