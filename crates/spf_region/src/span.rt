//! Spans of cells, and which spans the blocks of a construct write.

/// The cells from `from` up to but excluding `to`.
#[derive(Clone, Copy, PartialEq, Eq, Debug)]
pub struct Span {
    pub from: u64,
    pub to: u64,
}

/// The spans of each block, in the order of the blocks.
#[derive(Drop)]
pub struct Plan {
    pub blocks: Vec<Vec<Span>>,
}
