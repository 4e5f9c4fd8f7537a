//! The validated blocks.
ghost use Rattle.std.specs.Prelude.{◌≡◌};
ghost use Rattle.spf_chain.specs.Histories.{IsHistory, HasItsHomes, AreExclusive};

use crate::block::ChainBlock;
use crate::chain::Chain;

impl Chain {
    /// Returns the validated blocks, from block 0 on. No block that is out is among them.
    pub fn history(&self) -> &[ChainBlock]
        ensures history { result.now ≡ self.now.history }
        ensures validated { IsHistory self.now }
        ensures homes { HasItsHomes self.now }
    {
        &self.validation.blocks[..self.validation.count]
    }

    /// At most one answer is right of a chain.
    pub fn answers_are_exact(&self)
        ensures { AreExclusive self.now }
    {
        let _ = &self.again;
    }
}
