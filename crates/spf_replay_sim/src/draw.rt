//! The visitor that draws a schedule for each construct.
ghost use Rattle.std.specs.Prelude.{◌≡◌, ◌+◌, ◌≤◌, ◌++◌, ◌∷◌, [], OnOk, length};
ghost use Rattle.spf_replay.specs.Limits.{max_steps};
ghost use Rattle.spf_replay_log.specs.Log.{sections_of};
ghost use Rattle.spf_replay_sim.specs.Drawing.{HasDrawn};

use crate::drawn::Drawn;
use spf_replay::entered::EnteredConstruct;
use spf_replay::schedule::{Schedule, ScheduleError, schedule_of};
use spf_replay::scratch::Scratch;
use spf_replay_walk::visitor::Visitor;
use std::alloc::{AllocError, Global};

/// No schedule yet, from a seed.
pub(crate) fn nothing_drawn(alloc: Global, seed: u64) -> Drawn
    ensures state { result.state ≡ seed }
    ensures drawn { HasDrawn seed [] result }
{
    Drawn {
        log: Vec::new(alloc),
        state: seed,
        counted: 0,
        over: false,
    }
}

/// Adds a schedule.
fn add(drawn: &mut Drawn, schedule: Schedule) -> Result<(), AllocError>
    requires few { drawn.old.counted + length schedule.steps.items ≤ max_steps }
    ensures log { OnOk result (sections_of drawn.new.log.items
        ≡ sections_of drawn.old.log.items ++ schedule.steps.items ∷ []) }
    ensures state { OnOk result (drawn.new.state ≡ schedule.state) }
    ensures counted { OnOk result (drawn.new.counted
        ≡ drawn.old.counted + length schedule.steps.items) }
    ensures over { OnOk result (drawn.new.over ≡ drawn.old.over) }
{
    let count = schedule.steps.len();
    drawn.log.push(schedule.steps)?;
    drawn.state = schedule.state;
    drawn.counted = drawn.counted + count;
    Ok(())
}

impl Visitor for Drawn {
    ghost use Rattle.spf_replay_sim.specs.Drawing.{HasDrawn};

    ghost has_visited = { λ first passed now. HasDrawn first.state passed now };

    fn visit(
        &mut self,
        alloc: Global,
        entered: &EnteredConstruct,
        scratch: &mut Scratch,
    ) -> Result<(), AllocError> {
        // Law: a construct has exactly one schedule from each state of the generator.
        spf_replay::laws::each_construct_has_one_schedule();
        // Law: the steps of a schedule are a speculative run.
        spf_replay::laws::schedules_are_runs();
        if self.over {
            return Ok(());
        }
        match schedule_of(alloc, entered, self.state, self.counted, scratch) {
            Ok(schedule) => add(self, schedule),
            Err(ScheduleError::TooManySteps) => {
                self.over = true;
                Ok(())
            }
            Err(ScheduleError::OutOfMemory) => Err(AllocError),
        }
    }
}
