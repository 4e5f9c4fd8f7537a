//! A mate's seat at the chain: it takes the chain, files a report, and gives the chain back. It
//! neither waits nor takes memory.
ghost use Rattle.std.specs.Prelude.{◌≡◌, ◌≢◌, ◌⊎◌, ◌+◌, ◌*◌, ◌<◌, ◌≤◌, true, false, [], IfOk};
ghost use Rattle.std.specs.Prelude.{IfErr, if◌then◌else◌};
ghost use Rattle.spf_crew.specs.Limits.{last_sequence, max_reports};
ghost use Rattle.spf_crew.specs.Rule.{expected, half_of, IsChainOf};
ghost use Rattle.spf_crew.specs.Endings.{has_ended};
ghost use Rattle.spf_crew.specs.Seats.{IsSeatOf, Rests, HasTakenChain, HoldsNow};
ghost use Rattle.spf_crew.specs.Tickets.{IsLawfulOf};
ghost use Rattle.spf_crew.specs.Values.{IsChainSeatOf};
ghost use Rattle.spf_crew.specs.Filing.{IsFiledAt, read_after};

use crate::crew::Crew;
use crate::rule::{Announces, CrewSeat, Gives, Looks, Reads, Takes};
use crate::view::CrewSetting;
use spf_cells_key::key::GhostKey;
use spf_chain::chain::{Chain, Filed};
use spf_ticket::ticket::Report;
use std::marker::Model;

const SEQUENCE: usize = 0;

const ENDING: usize = 1;

// The last sequence number, at which no report is taken.
const LAST: u64 = 16_384;

/// A seat at the chain of a crew.
///
/// Contracts see of it its crew's table and setting, its numbers, the sequence number that it saw last,
/// and whether it has read 1 in the ending word.
#[derive(Drop)]
pub struct ChainSeat {
    pub(crate) key: GhostKey<CrewSetting>,
    pub(crate) seen: u64,
    pub(crate) table_seat: CrewSeat,
}

impl Model for ChainSeat {
    ghost use Rattle.std.specs.Coded.{codes};
    ghost use Rattle.spf_crew.specs.contracts.view.CrewSetting as setting_row;

    ghost coded = { Prim.hlevel (codes, setting_row.the_row.coded) };

    ghost use Rattle.spf_crew.specs.Values.{ChainSeatValue};

    ghost Value = { ChainSeatValue };

    ghost use Rattle.spf_crew.specs.ChainSeat.{chain_seat_value, IsChainSeat};

    ghost view = { chain_seat_value };

    ghost invariant = { IsChainSeat };
}

// Takes the chain where the sequence number is the one expected. Otherwise the seat has seen another
// number.
fn take_chain(seat: &mut CrewSeat, crew: &Crew, half: u64) -> Result<Chain, u64>
    requires own { IsSeatOf crew.now.table seat.old.table_id }
    requires rests { Rests crew.now.setting seat.old.me }
    requires room { half < max_reports }
    ensures same { seat.new.table_id ≡ seat.old.table_id }
    ensures taken { IfOk result (λ c.
        HasTakenChain (2 * half + 1) (has_ended c) crew.now.setting seat.old.me seat.new.me
        × (c.reports ≡ half) × IsChainOf crew.now.setting c) }
    ensures out { IfErr result (λ n. (n ≢ 2 * half) × (n ≤ last_sequence)
        × (seat.new.me ≡ (record seat.old.me.0 { seen = n }, []))) }
{
    let shared = &crew.table.shared;
    let found = shared.compare_exchange::<Takes>(seat, SEQUENCE, 2 * half, 2 * half + 1);
    if found != 2 * half {
        return Err(found);
    }
    Ok(shared.exchange(seat, 0, None).unwrap())
}

// Announces the end, if it has come. The seat holds the chain.
fn announce(seat: &mut CrewSeat, crew: &Crew, ended: bool)
    requires own { IsSeatOf crew.now.table seat.old.table_id }
    requires holds { HoldsNow crew.now.setting seat.old.me }
    ensures same { seat.new.table_id ≡ seat.old.table_id }
    ensures announced { seat.new.me ≡ (
      record seat.old.me.0 {
        announced = if ended then true else seat.old.me.0.announced;
        read = if ended then true else seat.old.me.0.read;
      },
      seat.old.me.1,
    ) }
{
    if ended {
        let shared = &crew.table.shared;
        shared.store::<Announces>(seat, ENDING, 1);
    }
}

// Gives back the chain, which was given one more report.
fn give_chain(seat: &mut CrewSeat, crew: &Crew, half: u64, chain: Chain)
    requires own { IsSeatOf crew.now.table seat.old.table_id }
    requires holds { HoldsNow crew.now.setting seat.old.me × (seat.old.me.0.seen ≡ 2 * half + 1) }
    requires chain { (chain.reports ≡ half + 1) × IsChainOf crew.now.setting chain
        × (seat.old.me.0.announced ≡ true → has_ended chain ≡ true) }
    requires room { half < max_reports }
    ensures same { seat.new.table_id ≡ seat.old.table_id }
    ensures given { seat.new.me
        ≡ (record seat.old.me.0 { seen = 2 * half + 2; holds = false; announced = false }, []) }
{
    let shared = &crew.table.shared;
    shared.exchange(seat, 0, Some(chain));
    shared.store::<Gives>(seat, SEQUENCE, 2 * half + 2);
}

impl ChainSeat {
    // Looks at the sequence word once, where it is expected to be the last number.
    fn look(&mut self, crew: &Crew) -> u64
        requires own { IsChainSeatOf crew.now self.old }
        ensures last { result ≤ last_sequence }
        ensures seen { self.new ≡ record self.old { seen = result } }
    {
        let shared = &crew.table.shared;
        self.seen = shared.compare_exchange::<Looks>(&mut self.table_seat, SEQUENCE, LAST, LAST);
        self.seen
    }

    // Files a report where the sequence number is the one expected. Otherwise the report comes back,
    // with the number that was found.
    fn take_turn(&mut self, crew: &Crew, half: u64, report: Report) -> Result<Filed, (Report, u64)>
        requires own { IsChainSeatOf crew.now self.old }
        requires lawful { IsLawfulOf self.old.setting report }
        requires room { half < max_reports }
        ensures filed { IfOk result (λ f. IsFiledAt self.old.setting half report f
            × (self.new
            ≡ record self.old { seen = 2 * half + 2; read = read_after f self.old.read })) }
        ensures out { IfErr result
            (λ r. (r.0 ≡ report) × (r.1 ≢ 2 * half) × (self.new ≡ record self.old { seen = r.1 })) }
    {
        match take_chain(&mut self.table_seat, crew, half) {
            Ok(mut chain) => {
                let filed = chain.file(&crew.cells, report);
                announce(&mut self.table_seat, crew, filed.is_ended());
                give_chain(&mut self.table_seat, crew, half, chain);
                self.seen = 2 * half + 2;
                Ok(filed)
            }
            Err(found) => {
                self.seen = found;
                Err((report, found))
            }
        }
    }

    /// Files a report where the sequence number is the one expected. Otherwise the report comes back,
    /// with the number that was found.
    pub(crate) fn file(&mut self, crew: &Crew, report: Report) -> Result<Filed, (Report, u64)>
        requires own { IsChainSeatOf crew.now self.old }
        requires lawful { IsLawfulOf self.old.setting report }
        ensures filed { IfOk result (λ f.
            IsFiledAt self.old.setting (half_of self.old.seen) report f
            × (self.new
            ≡ record self.old
            { seen = expected self.old.seen + 2; read = read_after f self.old.read })) }
        ensures out { IfErr result (λ r. (r.0 ≡ report)
            × ((r.1 ≡ last_sequence) ⊎ (r.1 ≢ expected self.old.seen))
            × (self.new ≡ record self.old { seen = r.1 })) }
    {
        let half = (self.seen + 1) / 2;
        if half < LAST / 2 {
            self.take_turn(crew, half, report)
        } else {
            let found = self.look(crew);
            Err((report, found))
        }
    }

    /// Returns whether the ending word is 1.
    pub(crate) fn reads_end(&mut self, crew: &Crew) -> bool
        requires own { IsChainSeatOf crew.now self.old }
        ensures read { self.new ≡ record self.old { read = result } }
        ensures again { self.old.read ≡ true → result ≡ true }
    {
        let shared = &crew.table.shared;
        shared.load::<Reads>(&mut self.table_seat, ENDING) == 1
    }
}
