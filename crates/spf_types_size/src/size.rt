//! How large forms are, with calls unfolded.

ghost use Rattle.spf_types_size.specs.Sizes.{IsBeside, IsWithin};

/// How many statements and expressions a form has, how deeply they are nested, and how many slots a
/// chain of its calls has at most. A number that doesn't fit is the largest.
#[derive(Clone, Copy)]
pub struct Size {
    /// The statements and expressions.
    pub nodes: u64,
    /// How deeply they are nested at most.
    pub depth: u64,
    /// The slots that the longest chain of calls has.
    pub slots: u64,
}

/// The size of nothing.
pub const NONE: Size = Size {
    nodes: 0,
    depth: 0,
    slots: 0,
};

/// Returns the size of two forms beside each other.
pub fn beside(one: Size, other: Size) -> Size
    ensures { IsBeside one other result }
{
    Size {
        nodes: one.nodes.saturating_add(other.nodes),
        depth: one.depth.max(other.depth),
        slots: one.slots.max(other.slots),
    }
}

/// Returns the size of a form around others.
pub fn within(inner: Size) -> Size
    ensures { IsWithin inner result }
{
    Size {
        nodes: inner.nodes.saturating_add(1),
        depth: inner.depth.saturating_add(1),
        slots: inner.slots,
    }
}
