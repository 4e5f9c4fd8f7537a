//! The logs of all blocks of a section, in one pass over its steps.
ghost use Rattle.std.specs.Prelude.{◌≡◌, ◌<◌, ℕ, [], ◌∷◌, ◌++◌, length, map};
ghost use Rattle.std.specs.Prelude.{IfOk, OnOk};
ghost use Rattle.spf_speculation.specs.Steps.{log_of, AreBelow};
ghost use Rattle.spf_replay.specs.Reading.{event_of};
ghost use Rattle.spf_replay.specs.SeenSteps.{seen_steps, log_at};
ghost use Rattle.spf_replay.specs.Sections.{HasOneMore};

use spf_replay_log::log::{Event, Step};
use std::alloc::{AllocError, Global};

/// Appends an event to one of the logs.
fn push_event(logs: &mut Vec<Vec<Event>>, block: u64, event: Event) -> Result<(), AllocError>
    requires { block < length logs.old.items }
    ensures { OnOk result (HasOneMore block (event_of event) logs.old.items logs.new.items) }
{
    logs[block as usize].push(event)?;
    Ok(())
}

/// Appends a log.
fn push_log(logs: &mut Vec<Vec<Event>>, log: Vec<Event>) -> Result<(), AllocError>
    ensures { OnOk result (logs.new.items ≡ logs.old.items ++ log ∷ []) }
{
    logs.push(log)?;
    Ok(())
}

/// Makes `blocks` empty logs.
fn empty_logs(alloc: Global, blocks: u64) -> Result<Vec<Vec<Event>>, AllocError>
    ensures size { IfOk result (λ logs. length logs.items ≡ blocks) }
    ensures empty { IfOk result (λ logs. (n : ℕ) → log_at logs.items n ≡ []) }
{
    let mut logs = Vec::new(alloc);
    for i in 0..blocks {
        let _ = i;
        push_log(&mut logs, Vec::new(alloc))?;
    }
    Ok(logs)
}

/// The events of each of the first `blocks` blocks among the steps, in their order.
pub(crate) fn logs_of(
    alloc: Global,
    steps: &[Step],
    blocks: u64,
) -> Result<Vec<Vec<Event>>, AllocError>
    requires below { AreBelow blocks (seen_steps steps.now) }
    ensures size { IfOk result (λ logs. length logs.items ≡ blocks) }
    ensures logs { IfOk result
        (λ logs. (n : ℕ) → log_at logs.items n ≡ log_of n (seen_steps steps.now)) }
{
    let mut logs = empty_logs(alloc, blocks)?;
    for step in steps {
        push_event(&mut logs, step.block, step.event)?;
    }
    Ok(logs)
}

/// One of the logs.
pub(crate) fn log_in(logs: &[Vec<Event>], n: u64) -> &[Event]
    requires { n < length logs.now }
    ensures { map event_of result.now ≡ log_at logs.now n }
{
    &logs[n as usize]
}
