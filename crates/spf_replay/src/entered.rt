//! Constructs that a run has reached.
ghost use Rattle.std.specs.Prelude.{◌≡◌, ◌≤◌, ◌<◌, ◌+ℤ◌, ◌≤ℤ◌, ℕ, pos, slice_get};
ghost use Rattle.spf_ast.specs.Carried.{Carried};
ghost use Rattle.spf_ast.specs.Meaning.{max_blocks};
ghost use Rattle.spf_region.specs.Cells.{in_spans};
ghost use Rattle.spf_speculation_entry.specs.Entry.{begins_at, own};
ghost use Rattle.spf_replay.specs.Entered.{entry_of, IsEntered, HasGuesses};

use crate::context::BlockContext;
use spf_ast::construct::TopConstruct;
use spf_ast::row::Row;
use spf_exec::frame::Frame;
use spf_exec::pieces::Header;
use spf_exec_instance::instance::Instance;
use spf_guess_statistics::guess::Guess;
use spf_region::span::Plan;

/// A top construct that a run has reached, with its header done, and what its blocks come to when
/// they are run plainly.
#[derive(Clone, Copy)]
pub struct EnteredConstruct<'a> {
    /// The program with its input.
    pub instance: &'a Instance<'a>,
    /// The construct.
    pub construct: TopConstruct<'a>,
    /// Which of the program's top constructs it is, counted from 0.
    pub index: u32,
    /// The header: the first block number, how many blocks there are, and the first row.
    pub header: Header,
    /// The slots of `main` at the entry, with room for calls.
    pub frame: &'a Frame,
    /// The word of each cell at the entry.
    pub cells: &'a [i64],
    /// The spans of each block.
    pub plan: &'a Plan,
    /// The guesses for the blocks from 1 on.
    pub guesses: &'a [Guess],
    /// The real rows: those at which the blocks begin that the plain run reaches.
    pub reals: &'a [Row],
}

/// The number of the block at an index.
pub(crate) fn number_at(low: i64, n: u64) -> i64
    requires few { n ≤ max_blocks }
    requires fits { (low +ℤ pos n) ≤ℤ i64.MAX }
    ensures { result ≡ low +ℤ pos n }
{
    low + n as i64
}

/// The row at which the first attempt of a block begins.
pub(crate) fn first_row(entered: &EnteredConstruct, n: u64) -> Row
    requires is { IsEntered entered.now }
    requires block { n < entered.now.header.blocks }
    ensures { (guess : ℕ → Carried) → HasGuesses entered.now guess
        → result ≡ begins_at (entry_of entered.now) guess n }
{
    if n == 0 {
        return entered.header.start;
    }
    entered.guesses[n as usize - 1].value
}

/// The real row of a block, where it has one.
pub(crate) fn real_row(entered: &EnteredConstruct, n: u64) -> Option<Row>
    ensures { result ≡ slice_get entered.now.reals.now n }
{
    entered.reals.get(n as usize).copied()
}

/// What attempts of a block are read with.
pub(crate) fn context_of<'a>(entered: &EnteredConstruct<'a>, n: u64) -> BlockContext<'a>
    requires is { IsEntered entered.now }
    requires block { n < entered.now.header.blocks }
    ensures instance { result.instance.now ≡ entered.now.instance.now }
    ensures frame { result.frame.now ≡ entered.now.frame.now }
    ensures entry { result.entry.now ≡ entered.now.cells.now }
    ensures spans { (cell : ℕ) → in_spans result.spans.now cell
        ≡ own (entry_of entered.now) n cell }
{
    BlockContext {
        instance: entered.instance,
        frame: entered.frame,
        entry: entered.cells,
        spans: &entered.plan.blocks[n as usize],
    }
}
