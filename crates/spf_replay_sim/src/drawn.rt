//! The schedules that were drawn so far.
ghost use Rattle.std.specs.Prelude.{◌≤◌};
ghost use Rattle.spf_replay.specs.Limits.{max_steps};

use spf_replay::Step;

/// The schedules of the constructs with blocks that a walk has passed.
#[derive(Drop)]
pub(crate) struct Drawn {
    /// A section for each of them.
    pub(crate) log: Vec<Vec<Step>>,
    /// The state of the generator.
    pub(crate) state: u64,
    /// How many steps the sections have together.
    pub(crate) counted: usize,
    /// Whether there would be too many steps with the schedule that came next. None is drawn then.
    pub(crate) over: bool,
    ghost few: { counted ≤ max_steps },
}
