//! The spans that the blocks of a construct write.
ghost use Rattle.std.specs.Prelude.{◌≡◌, ◌<◌, ◌≤◌, ◌+◌, ◌^◌, ◌+ℤ◌, ◌≤ℤ◌, ℕ, true, Some, length};
ghost use Rattle.std.specs.Prelude.{slice_get, pos, map, IfOk};
ghost use Rattle.spf_ast.specs.Meaning.{max_blocks};
ghost use Rattle.std.specs.List.{All};
ghost use Rattle.spf_region.specs.Ranges.{has_array};
ghost use Rattle.spf_ast.specs.View.{program as seen_program};
ghost use Rattle.spf_ast.specs.Construct.{Construct, constructs_in};
ghost use Rattle.spf_exec_instance.specs.Layout.{IsLayoutOf};
ghost use Rattle.spf_check.specs.Plans.{AreBlocksOf, IsPlanOf};
ghost use Rattle.spf_check.specs.Writing.{list_of, AreListed};

use crate::checked::{Checked, Writes};
use spf_exec_instance::layout::Layout;
use spf_region::list::RangeList;
use spf_region::span::{Plan, Span};
use std::alloc::{AllocError, Global};

impl Writes {
    /// What a block may write: of a pair, block 0 runs the producer; any other block runs the part
    /// that begins from a guess.
    fn of_block(&self, block: u64) -> &RangeList
        ensures { result.now ≡ list_of self.now block }
    {
        match &self.producer {
            Some(producer) if block == 0 => producer,
            _ => &self.guessed,
        }
    }
}

/// The number of the block at an index: `block` above the first one's.
fn number_of(low: i64, block: u64) -> i64
    requires few { block ≤ max_blocks }
    requires fits { (low +ℤ pos block) ≤ℤ i64.MAX }
    ensures { result ≡ low +ℤ pos block }
{
    low + block as i64
}

/// The spans of the first `blocks` blocks.
fn spans_of(
    alloc: Global,
    writes: &Writes,
    extents: &[(u64, u64)],
    low: i64,
    blocks: u64,
) -> Result<Vec<Vec<Span>>, AllocError>
    requires inside { (block array : ℕ) → has_array (list_of writes.now block) array ≡ true
        → array < length extents.now }
    requires fits { All (λ e. e.0 + e.1 < 2 ^ 64) extents.now }
    requires few { blocks ≤ max_blocks }
    requires numbers { (low +ℤ pos blocks) ≤ℤ i64.MAX }
    ensures { IfOk result (λ plan.
        AreListed writes.now extents.now low blocks (map (λ spans. spans.items) plan.items)) }
{
    let mut plan = Vec::with_capacity(alloc, blocks as usize)?;
    for block in 0..blocks {
        let number = number_of(low, block);
        let spans = writes.of_block(block).spans_at(alloc, extents, number)?;
        plan.push(spans)?;
    }
    Ok(plan)
}

impl Checked {
    /// Returns the spans of the first `blocks` blocks of a top construct, whose first block number
    /// is `low`: block n of a fold has those of what its body may write at `low` + n; of a pair,
    /// block 0 has the producer's and block 1 the consumer's. No cell is in the spans of two
    /// blocks.
    ///
    /// # Errors
    ///
    /// `AllocError` where there is no memory for the spans.
    pub fn plan(
        &self,
        alloc: Global,
        construct: u32,
        layout: &Layout,
        low: i64,
        blocks: u64,
    ) -> Result<Plan, AllocError>
        requires construct { (c : Construct)
            × (slice_get (constructs_in (seen_program self.now).main) construct ≡ Some c)
            × AreBlocksOf c blocks }
        requires layout { (len : ℕ) × IsLayoutOf (seen_program self.now) len layout.now }
        requires few { blocks ≤ max_blocks }
        requires numbers { (low +ℤ pos blocks) ≤ℤ i64.MAX }
        ensures { (c : Construct)
            → slice_get (constructs_in (seen_program self.now).main) construct ≡ Some c
            → IfOk result (λ plan. IsPlanOf (seen_program self.now) c layout.now.extents
            layout.now.cells low blocks (map (λ spans. spans.items) plan.blocks.items)) }
    {
        // Law: what keeps the seven rules is rollback free.
        spf_check_rules::laws::the_rules_set_free();
        let Some(writes) = self.writes.get(construct as usize) else {
            unreachable!();
        };
        Ok(Plan {
            blocks: spans_of(alloc, writes, layout.extents(), low, blocks)?,
        })
    }
}
