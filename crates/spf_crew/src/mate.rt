//! A mate: it takes tickets, runs them, and files their reports.
ghost use Rattle.std.specs.Prelude.{◌≡◌, true};
ghost use Rattle.spf_crew.specs.declared.held.Held.TheVariants as held;
ghost use Rattle.spf_crew.specs.declared.turn.Turn.TheVariants as turn;
ghost use Rattle.spf_ticket.specs.declared.ticket.Report.{Report as SeenReport};
ghost use Rattle.spf_crew.specs.Tickets.{IsFreshOf, IsLawfulOf, IsAttemptBy};
ghost use Rattle.spf_crew.specs.Mates.{IsMateOf, IsTurn};

use crate::attempt::Attempter;
use crate::crew::Crew;
use crate::held::Held;
use crate::seat::ChainSeat;
use crate::turn::{Turn, Why};
use crate::view::CrewSetting;
use spf_chain::chain::Filed;
use spf_pool::hand::Hand;
use spf_pool::next::Next;
use spf_ticket::ticket::{Report, Ticket};
use std::marker::Model;
use std::mem;

/// One worker of a crew, for one thread.
///
/// Contracts see of it its seat at the chain, what its hand has seen, and what it holds. Of the
/// seat they see the numbers of its mate, the sequence number that it saw last, and whether it has
/// read 1 in the ending word.
#[derive(Drop)]
pub struct Mate {
    pub(crate) seat: ChainSeat,
    pub(crate) hand: Hand<Ticket, CrewSetting>,
    pub(crate) held: Held,
}

impl Model for Mate {
    ghost use Rattle.std.specs.Coded.{codes};
    ghost use Rattle.spf_crew.specs.contracts.view.CrewSetting as setting_row;
    ghost use Rattle.spf_crew.specs.contracts.held.Held as held_row;

    ghost coded = { Prim.hlevel (codes, setting_row.the_row.coded, held_row.the_row.coded) };

    ghost use Rattle.spf_crew.specs.Mates.{MateValue};

    ghost Value = { MateValue };

    ghost use Rattle.spf_crew.specs.Mate.{mate_value, IsMate};

    ghost view = { mate_value };

    ghost invariant = { IsMate };
}

impl Mate {
    // A mate that holds nothing.
    pub(crate) fn new(seat: ChainSeat, hand: Hand<Ticket, CrewSetting>) -> Mate
        requires { hand.key ≡ seat.setting }
        ensures { result ≡ record { seat = seat; hand = hand; held = held.Nothing } }
    {
        Mate {
            seat,
            hand,
            held: Held::Nothing,
        }
    }

    pub(crate) fn into_seat(self) -> ChainSeat
        ensures { result ≡ self.seat }
    {
        let Mate {
            seat,
            hand: _,
            held: _,
        } = self;
        seat
    }

    // Tries to file a report.
    fn file(&mut self, crew: &Crew, report: Report) -> Turn
        requires own { IsMateOf crew.now self.old }
        requires free { self.old.held ≡ held.Nothing }
        requires lawful { IsLawfulOf self.old.seat.setting report }
        ensures turn { IsTurn (record self.old { held = held.Report report }) result self.new }
        ensures own { IsMateOf crew.now self.new }
        ensures numbers { (self.new.seat.from ≡ self.old.seat.from)
            × (self.new.seat.to ≡ self.old.seat.to) }
    {
        match self.seat.file(crew, report) {
            Ok(filed) => match filed {
                Filed::Rerun(ticket) => {
                    self.held = Held::Ticket(ticket);
                    Turn::Worked
                }
                Filed::Waiting { .. } => Turn::Worked,
                Filed::Ended => Turn::Worked,
            },
            Err((report, seen)) => {
                self.held = Held::Report(report);
                Turn::Idle {
                    why: Why::ChainOut { seen },
                }
            }
        }
    }

    // Runs a ticket.
    fn run<A: Attempter>(&mut self, crew: &Crew, attempter: &A, ticket: Ticket) -> Turn
        requires own { IsMateOf crew.now self.old }
        requires serves { A.serves crew.now.setting attempter.now }
        requires fresh { IsFreshOf self.old.seat.setting ticket }
        ensures worked { result ≡ turn.Worked }
        ensures report { (r : SeenReport) × IsAttemptBy self.old.seat.setting ticket r
            × (self.new ≡ record self.old { held = held.Report r }) }
    {
        self.held = Held::Report(attempter.attempt(crew, ticket));
        Turn::Worked
    }

    // Checks whether the chain has ended; if not, looks for a ticket.
    fn look<A: Attempter>(&mut self, crew: &Crew, attempter: &A) -> Turn
        requires own { IsMateOf crew.now self.old }
        requires serves { A.serves crew.now.setting attempter.now }
        requires free { self.old.held ≡ held.Nothing }
        ensures turn { IsTurn self.old result self.new }
        ensures own { IsMateOf crew.now self.new }
        ensures numbers { (self.new.seat.from ≡ self.old.seat.from)
            × (self.new.seat.to ≡ self.old.seat.to) }
        ensures ended { self.old.seat.read ≡ true → result ≡ turn.Ended }
    {
        if self.seat.reads_end(crew) {
            return Turn::Ended;
        }
        match self.hand.next() {
            Next::Got(ticket) => self.run(crew, attempter, ticket),
            Next::Empty => Turn::Idle { why: Why::Empty },
            Next::Again => Turn::Idle { why: Why::Again },
        }
    }

    /// Takes one turn. A mate with a report tries once to take the chain, and files it. A mate with
    /// a ticket to rerun runs it. Any other mate checks whether the chain has ended; if not, it
    /// takes a ticket and runs it. `attempter` makes the attempts.
    ///
    /// `Ended` comes only where the mate held nothing and read 1 in the ending word, and from then
    /// on. `Idle` with `ChainOut` comes only where it has a report and found another sequence number
    /// than the even one at or after that which it saw last, or 16,384, at which no report is
    /// filed; it keeps the report. `Idle` with `Empty` or `Again` comes only where it held nothing
    /// and its hand found no ticket. It neither takes memory nor waits.
    pub fn turn<A: Attempter>(&mut self, crew: &Crew, attempter: &A) -> Turn
        requires own { IsMateOf crew.now self.old }
        requires serves { A.serves crew.now.setting attempter.now }
        ensures turn { IsTurn self.old result self.new }
        ensures own { IsMateOf crew.now self.new }
        ensures numbers { (self.new.seat.from ≡ self.old.seat.from)
            × (self.new.seat.to ≡ self.old.seat.to) }
        ensures ended { self.old.held ≡ held.Nothing → self.old.seat.read ≡ true
            → result ≡ turn.Ended }
    {
        match mem::replace(&mut self.held, Held::Nothing) {
            Held::Report(report) => self.file(crew, report),
            Held::Ticket(ticket) => self.run(crew, attempter, ticket),
            Held::Nothing => self.look(crew, attempter),
        }
    }
}
