//! Where a walk stands at the blocks of a construct.
use spf_ast::construct::TopConstruct;
use spf_exec::frame::Frame;
use spf_exec_instance::instance::Instance;
use spf_replay::scratch::Scratch;

/// The construct at which a run stands, but for the run's cells.
#[derive(Clone, Copy)]
pub(crate) struct Position<'a> {
    pub(crate) instance: &'a Instance<'a>,
    pub(crate) construct: TopConstruct<'a>,
    /// Which of the program's top constructs it is, counted from 0.
    pub(crate) index: u32,
    /// The slots of `main`, with room for calls.
    pub(crate) frame: &'a Frame,
}

/// The memory of a walk beside the run's own. Each list has as many words as there are cells.
#[derive(Drop)]
pub(crate) struct Spare {
    /// What the blocks of a construct left in their cells.
    pub(crate) after: Vec<i64>,
    /// What attempts are made over; also the words of the blocks' cells before them.
    pub(crate) scratch: Scratch,
}
