//! How far the blocks of a chain are validated.
ghost use Rattle.std.specs.Prelude.{◌≡◌, ◌≤◌, length, ℕ};
ghost use Rattle.spf_ast.specs.Carried.{Carried as CarriedValue};
ghost use Rattle.spf_ast.specs.declared.outcome.Trap.{Trap as SeenTrap};
ghost use Rattle.spf_speculation_entry.specs.Entry.{Entry, IsEntry};
ghost use Rattle.spf_cells.specs.Values.{CellsValue};
ghost use Rattle.spf_chain.specs.declared.block.Settled.TheVariants.{Trapped};
ghost use Rattle.spf_chain.specs.Homes.{AreHomes};
ghost use Rattle.spf_chain.specs.Standing.{IsValidationOf, IsDone, GrowsTo};

use crate::block::{ChainBlock, Settled};
use crate::home::result_at;
use spf_ticket::ticket::Report;

/// How far the blocks of a chain are validated.
#[derive(Drop)]
pub(crate) struct Validation {
    // each block with its guess: the first `count` with their real rows, the others with those of
    // their first attempts
    pub(crate) blocks: Vec<ChainBlock>,
    // how many blocks are validated
    pub(crate) count: usize,
    // the real row of the next block, or the trap of the last validated one
    pub(crate) settled: Settled,
}

impl Validation {
    // Validates blocks while the next one is home and was run at its real row.
    pub(crate) fn advance(&mut self, homes: &[Option<Report>])
        requires size { length self.old.blocks.items ≡ length homes.now }
        requires within { self.old.count ≤ length homes.now }
        ensures stands { (e : Entry) (guess : ℕ → CarriedValue) (c : CellsValue) → IsEntry e
            → AreHomes e guess c homes.now → IsValidationOf e guess homes.now self.old
            → IsValidationOf e guess homes.now self.new }
        ensures done { IsDone homes.now self.new.count self.new.settled }
        ensures grown { GrowsTo self.old self.new }
        ensures trapped { (t : SeenTrap) → self.old.settled ≡ Trapped t → self.new ≡ self.old }
        ensures stays { self.new.count ≡ self.old.count → self.new.settled ≡ self.old.settled }
        ensures size { length self.new.blocks.items ≡ length homes.now }
        ensures within { self.new.count ≤ length homes.now }
    {
        // Law: the plain run stands where the validated prefix leaves it.
        spf_speculation::laws::prefixes_grow();
        for block in self.count..homes.len() {
            let settled = self.settled;
            let Settled::Carried(real) = settled else {
                return;
            };
            let Some(result) = result_at(&homes[block], real) else {
                return;
            };
            self.blocks[block].row = real;
            self.count = block + 1;
            self.settled = result;
        }
    }
}
