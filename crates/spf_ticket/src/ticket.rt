//! Tickets, and the reports of their runs.
ghost use Rattle.std.specs.Prelude.{◌≡◌};

use spf_ast::row::Row;
use spf_cells::lane::Lane;
use spf_exec::frame::Frame;
use spf_exec::stop::Stop;

/// The right to make one attempt of one block. It owns the block's only lane, so two attempts of
/// one block can't run at the same time.
#[derive(Drop)]
pub struct Ticket {
    pub(crate) block: u64,
    pub(crate) number: i64,
    pub(crate) attempt: u64,
    pub(crate) carried: Row,
    pub(crate) lane: Lane,
    pub(crate) frame: Frame,
    pub(crate) ghost own: { lane.block ≡ block },
}

/// A ticket after its attempt, with how the attempt ended.
#[derive(Drop)]
pub struct Report {
    pub ticket: Ticket,
    pub stop: Stop,
}

impl Ticket {
    /// Makes the ticket of a block's first attempt: the block's index and number, the carried row
    /// at which it begins, its lane, and a frame with the slots of the entry.
    pub fn make(block: u64, number: i64, carried: Row, lane: Lane, frame: Frame) -> Ticket
        requires lane { lane.block ≡ block }
        ensures block { result.block ≡ block }
        ensures number { result.number ≡ number }
        ensures attempt { result.attempt ≡ 1 }
        ensures carried { result.carried ≡ carried }
        ensures lane { result.lane ≡ lane }
        ensures frame { result.frame ≡ frame }
    {
        Ticket {
            block,
            number,
            attempt: 1,
            carried,
            lane,
            frame,
        }
    }

    /// Returns the block's index, from 0 on.
    pub fn block(&self) -> u64
        ensures { result ≡ self.now.block }
    {
        self.block
    }

    /// Returns which attempt of the block this is: 1 or 2.
    pub fn attempt(&self) -> u64
        ensures { result ≡ self.now.attempt }
    {
        self.attempt
    }

    /// Returns the carried row at which the attempt begins.
    pub fn carried(&self) -> Row
        ensures { result ≡ self.now.carried }
    {
        self.carried
    }

    /// Returns the ticket of the block's second attempt, at its real row. All else stays.
    pub fn again(mut self, real: Row) -> Ticket
        requires first { self.attempt ≡ 1 }
        ensures block { result.block ≡ self.block }
        ensures number { result.number ≡ self.number }
        ensures attempt { result.attempt ≡ 2 }
        ensures carried { result.carried ≡ real }
        ensures lane { result.lane ≡ self.lane }
        ensures frame { result.frame ≡ self.frame }
    {
        self.attempt = 2;
        self.carried = real;
        self
    }

    /// Returns the block's lane.
    pub fn into_lane(self) -> Lane
        ensures lane { result ≡ self.lane }
        ensures block { result.block ≡ self.block }
    {
        self.lane
    }
}
