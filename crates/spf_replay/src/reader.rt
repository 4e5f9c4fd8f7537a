//! The next event of a log.
ghost use Rattle.std.specs.Prelude.{◌≡◌, ◌≤◌, ◌<◌, ◌+◌, List, map, drop, length, Some, None};
ghost use Rattle.std.specs.Prelude.{IfSome, if◌then◌else◌};
ghost use Rattle.std.specs.Option.{option_map};
ghost use Rattle.spf_ast.specs.Event.{Event as AskedEvent};
ghost use Rattle.spf_region.specs.Cells.{in_spans};
ghost use Rattle.spf_replay.specs.Reading.{event_of, with_front, next_load, next_store, next_turn};

use spf_region::span::Span;
use spf_replay_log::log::Event;

/// Returns whether a cell is in one of the spans.
pub(crate) fn is_in(spans: &[Span], cell: u64) -> bool
    ensures { result ≡ in_spans spans.now cell }
{
    spans.iter().any(|span| span.from <= cell && cell < span.to)
}

/// The event at an index of a log, where there is one.
pub(crate) fn event_at(log: &[Event], at: usize) -> Option<Event>
    requires { at ≤ length log.now }
    ensures front { map event_of (drop at log.now)
        ≡ with_front result (map event_of (drop (at + 1) log.now)) }
    ensures inside { IfSome result (λ e. at < length log.now) }
{
    if at < log.len() { Some(log[at]) } else { None }
}

/// The word that an event gave, where it is a load of this cell.
pub(crate) fn word_loaded(event: Option<Event>, cell: u64) -> Option<i64>
    ensures { (rest : List AskedEvent) → next_load cell (with_front event rest)
        ≡ option_map (λ word. (word, rest)) result }
{
    match event {
        Some(Event::Load { cell: at, word }) => { if cell == at { Some(word) } else { None } }
        Some(Event::Store { .. }) => None,
        Some(Event::Turn { .. }) => None,
        None => None,
    }
}

/// Returns whether an event is a store of this word to this cell.
pub(crate) fn is_store(event: Option<Event>, cell: u64, value: i64) -> bool
    ensures { (rest : List AskedEvent) → next_store cell value (with_front event rest)
        ≡ (if result then Some rest else None) }
{
    match event {
        Some(Event::Store { cell: at, word }) => cell == at && value == word,
        Some(Event::Load { .. }) => false,
        Some(Event::Turn { .. }) => false,
        None => false,
    }
}

/// The number that an event polled, where it is a turn.
pub(crate) fn number_polled(event: Option<Event>) -> Option<u64>
    ensures { (rest : List AskedEvent) → next_turn (with_front event rest)
        ≡ option_map (λ number. (number, rest)) result }
{
    match event {
        Some(Event::Turn { number }) => Some(number),
        Some(Event::Load { .. }) => None,
        Some(Event::Store { .. }) => None,
        None => None,
    }
}
