//! What a seat of the table knows: plain data for proofs and contracts alone. No value of these
//! types is made at run time.
use spf_region::span::Span;
use std::collections::LinkedList;

/// One entry of a lane's log.
pub enum LogEntry {
    /// A load of this cell gave this word.
    Load(u64, i64),
    /// This word was stored to this cell.
    Store(u64, i64),
    /// A poll of the block's flag gave this number.
    Turn(u64),
}

/// What is fixed when the cells are made.
pub struct Setting {
    /// The spans of each block.
    pub plan: LinkedList<LinkedList<Span>>,
    /// The words of all cells of the memory, before any step.
    pub entry: LinkedList<i64>,
    /// The blocks whose flags may be raised.
    pub raisable: LinkedList<u64>,
}

/// A lane that the warden has taken over.
pub struct TakenLane {
    /// The lane's block.
    pub block: u64,
    /// The lane's whole log.
    pub log: LinkedList<LogEntry>,
}

/// What the warden knows.
pub struct WardenView {
    /// The blocks below it were handed out to lanes.
    pub made: u64,
    /// The flag of each block.
    pub flags: LinkedList<u64>,
    /// The lanes that were taken over, in that order.
    pub taken: LinkedList<TakenLane>,
}

/// What a seat is for.
pub enum Role {
    /// Nothing: the lane was taken over.
    Spent,
    /// The steps of one block, with the log of those made so far.
    Lane(u64, LinkedList<LogEntry>),
    /// Raising flags and taking over lanes.
    Warden(WardenView),
}

/// What a seat knows.
pub struct View {
    /// What is fixed.
    pub setting: Setting,
    /// What the seat is for, and what it knows by its own steps.
    pub role: Role,
}
