//! What a turn of a mate answers.

/// Why a mate did nothing.
#[derive(Clone, Copy, PartialEq, Eq, Debug)]
pub enum Why {
    /// It has a report, and found this sequence number.
    ChainOut { seen: u64 },
    /// Each deque was seen empty.
    Empty,
    /// Each deque was seen empty, or busy: a ticket was given to it that wasn't counted as taken.
    Again,
}

/// What a turn came to.
#[derive(Clone, Copy, PartialEq, Eq, Debug)]
pub enum Turn {
    /// The mate filed its report, or ran one attempt.
    Worked,
    /// It did nothing.
    Idle { why: Why },
    /// The chain has ended.
    Ended,
}
