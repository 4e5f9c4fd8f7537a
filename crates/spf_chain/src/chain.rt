//! The chain: which reports are home, and how far the blocks are validated.
ghost use Rattle.std.specs.Prelude.{◌≡◌, ◌↔◌, IsTrue};
ghost use Rattle.spf_chain.specs.declared.chain.Filed.TheVariants.{Ended as HasSaidEnded};

use crate::block::ChainBlock;
use crate::validation::Validation;
use spf_cells::lane::Lane;
use spf_cells::warden::Warden;
use spf_cells_key::key::GhostKey;
use spf_speculation_entry::site::Site;
use spf_ticket::ticket::{Report, Ticket};
use std::marker::Model;

/// What is to be done after a report was filed.
#[derive(Drop)]
pub enum Filed {
    /// The next block was run at a wrong guess: it is to be run again, by this ticket.
    Rerun(Ticket),
    /// The ticket of this block is awaited.
    Waiting { block: u64 },
    /// All tickets are home, and no block is left to be validated.
    Ended,
}

impl Filed {
    /// Returns whether the chain has ended.
    pub fn is_ended(&self) -> bool
        ensures { IsTrue result ↔ (self.now ≡ HasSaidEnded) }
    {
        matches!(self, Filed::Ended)
    }
}

/// The validation chain of one construct.
///
/// Contracts see of it the site, the warden, the reports that are home, whether the next block's
/// second attempt is out, how far the blocks are validated, and how many reports were filed; that
/// number saturates at 2^64 - 1.
#[derive(Drop)]
pub struct Chain {
    pub(crate) site: GhostKey<Site>,
    pub(crate) warden: Warden,
    // the report of each block that is home
    pub(crate) homes: Vec<Option<Report>>,
    // room for the lanes, which is allocated when the chain starts
    pub(crate) room: Vec<Lane>,
    // whether the next block is out with its second attempt
    pub(crate) again: bool,
    pub(crate) validation: Validation,
    // how many reports were filed
    pub(crate) reports: u64,
}

impl Model for Chain {
    ghost use Rattle.std.specs.Coded.{codes};
    ghost use Rattle.spf_speculation_entry.specs.contracts.site.Site as site_row;
    ghost use Rattle.spf_ticket.specs.contracts.ticket.Report as report_row;
    ghost use Rattle.spf_chain.specs.Chains.{ChainValue};

    ghost coded = { Prim.hlevel (codes, site_row.the_row.coded, report_row.the_row.coded) };

    ghost Value = { ChainValue };

    ghost use Rattle.spf_chain.specs.Kept.{chain_value, IsKept};

    ghost view = { chain_value };

    ghost invariant = { IsKept };
}
