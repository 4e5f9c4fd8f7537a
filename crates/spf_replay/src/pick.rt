//! The block that a draw picks.
ghost use Rattle.std.specs.Prelude.{◌≡◌, ◌≤◌, ◌%◌, slice_get, Some, length};

/// The index that a draw picks among the indices of the blocks that are out.
pub(crate) fn pick(out: &[u64], draw: u32) -> u64
    requires { 1 ≤ length out.now }
    ensures { slice_get out.now (draw % length out.now) ≡ Some result }
{
    out[draw as usize % out.len()]
}
