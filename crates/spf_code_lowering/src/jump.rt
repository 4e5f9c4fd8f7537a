//! Code that goes on in one of two ways.

ghost use Rattle.std.specs.Prelude.{◌≡◌, ◌++◌, IfOk};
ghost use Rattle.spf_code_lowering.specs.Adding.{AddsJumps, Spares, NeitherSets};
ghost use Rattle.spf_code_lowering.specs.Decision.{two_blocks, until_other};

use crate::expression::{add, after, count_of};
use spf_code::node::{Choice, Node, unless};
use std::alloc::AllocError;

/// Appends these instructions.
pub(crate) fn append(more: Vec<Node>, out: &mut Vec<Node>) -> Result<(), AllocError>
    ensures appended { IfOk result (λ _. out.new.items ≡ out.old.items ++ more.items) }
{
    let mut more = more;
    out.append(&mut more)
}

/// How many instructions of two blocks come before those of the second one: those of the first one,
/// and the jump at its end.
pub(crate) fn until(one: &[Node], other: &[Node]) -> Result<u32, AllocError>
    ensures { IfOk result (λ n. n ≡ until_other one.now other.now) }
{
    let count = count_of(one)?;
    if other.is_empty() {
        return Ok(count);
    }
    after(count)
}

/// Appends the code of a block, and then that of another one. Where there is any, a jump at the end
/// of the first leaves it out.
pub(crate) fn add_blocks(
    one: Vec<Node>,
    other: Vec<Node>,
    out: &mut Vec<Node>,
) -> Result<(), AllocError>
    ensures appended { IfOk result (λ _. out.new.items ≡ out.old.items ++ two_blocks one.items
        other.items) }
{
    if other.is_empty() {
        return append(one, out);
    }
    let left_out = count_of(&other)?;
    append(one, out)?;
    add(out, Node::Jump { count: left_out })?;
    append(other, out)
}

/// Appends the code of one block where a choice holds, and of another one where it doesn't. An
/// instruction leaves out the first block, and a jump at its end the second one.
pub(crate) fn add_choice(
    choice: Choice,
    one: Vec<Node>,
    other: Vec<Node>,
    out: &mut Vec<Node>,
) -> Result<(), AllocError>
    ensures wrote { AddsJumps choice one other out.old out.new result }
    ensures spares { Spares (NeitherSets one other) out.old out.new result }
{
    let past_one = until(&one, &other)?;
    add(out, unless(choice, past_one))?;
    add_blocks(one, other, out)
}
