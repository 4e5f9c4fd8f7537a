//! Makes a crew.
ghost use Rattle.std.specs.Prelude.{◌≡◌, ◌+◌, ◌<◌, ◌≤◌, length, slice_index, IfOk};
ghost use Rattle.spf_pool.specs.Limits.{max_capacity};
ghost use Rattle.spf_ast_lemmas.specs.Limits.{max_workers};
ghost use Rattle.std.specs.List.{All};
ghost use Rattle.spf_chain.specs.Beginning.{IsStarted};
ghost use Rattle.spf_pool.specs.Hands.{after_giving};
ghost use Rattle.spf_pool.specs.Made.{AreNewHands};
ghost use Rattle.spf_crew.specs.Tickets.{IsFreshOf};
ghost use Rattle.spf_crew.specs.Values.{setting_of};
ghost use Rattle.spf_crew.specs.Crews.{AreAllMates, AreNewMates, IsDealtTo, capacities_for};

use crate::crew::Crew;
use crate::mate::Mate;
use crate::mates::enlist_all;
use crate::open::key_of;
use crate::view::CrewSetting;
use spf_cells::cells::Cells;
use spf_chain::chain::Chain;
use spf_pool::hand::Hand;
use spf_pool::pool::Pool;
use spf_ticket::ticket::Ticket;
use std::alloc::{AllocError, Global};

// Makes the hands of a pool. The first may give `capacity` tickets, and the others none.
fn hands_of(
    alloc: Global,
    chain: &Chain,
    workers: u64,
    capacity: u64,
) -> Result<Vec<Hand<Ticket, CrewSetting>>, AllocError>
    requires workers { (0 < workers) × (workers ≤ max_workers) }
    requires capacity { capacity ≤ max_capacity }
    ensures { IfOk result
        (λ v. AreNewHands (setting_of chain.now workers) (capacities_for workers capacity)
        v.items) }
{
    let key = key_of(chain, workers);
    let mut capacities = Vec::from_elem(alloc, 0, workers as usize)?;
    capacities[0] = capacity;
    Pool::make::<Ticket, CrewSetting>(alloc, &key, capacities.as_slice())
}

// Puts a ticket at the back of the hand's own deque.
fn give_one(hand: &mut Hand<Ticket, CrewSetting>, ticket: Ticket)
    requires fresh { IsFreshOf hand.old.key ticket }
    requires room { slice_index hand.old.given hand.old.own < hand.old.capacity }
    ensures { hand.new ≡ after_giving hand.old }
{
    match hand.give(ticket) {
        Ok(()) => {}
        Err(_) => unreachable!(),
    }
}

// Puts all tickets into one hand's deque, in their order.
fn give_all(hand: &mut Hand<Ticket, CrewSetting>, tickets: Vec<Ticket>)
    requires fresh { All (IsFreshOf hand.old.key) tickets.items }
    requires room { hand.old.capacity ≡ length tickets.items }
    requires own { (hand.old.own < length hand.old.given)
        × (slice_index hand.old.given hand.old.own ≡ 0) }
    ensures { IsDealtTo hand.old.key (length tickets.items) hand.new }
{
    for ticket in tickets {
        give_one(hand, ticket);
    }
}

impl Crew {
    /// Makes a crew of 1 to 64 mates over a chain that has just started, with its cells and its
    /// tickets. All tickets go into the first mate's deque, in their order, and the chain into its
    /// slot. The other mates' deques have room for none. All memory of the crew is taken here.
    ///
    /// # Errors
    ///
    /// `AllocError` where there is no memory for it.
    pub fn make(
        alloc: Global,
        chain: Chain,
        cells: Cells,
        tickets: Vec<Ticket>,
        workers: u64,
    ) -> Result<(Crew, Vec<Mate>), AllocError>
        requires workers { (0 < workers) × (workers ≤ max_workers) }
        requires started { IsStarted chain.site chain cells tickets.items }
        ensures setting { IfOk result (λ r. r.0.setting ≡ setting_of chain workers) }
        ensures all { IfOk result (λ r. AreAllMates r.0 r.1.items) }
        ensures new { IfOk result (λ r. AreNewMates (length tickets.items) r.1.items) }
    {
        let count = tickets.len() as u64;
        let mut hands = hands_of(alloc, &chain, workers, count)?;
        give_all(&mut hands[0], tickets);
        let (crew, founder) = Crew::open(alloc, chain, cells, workers)?;
        let mates = enlist_all(alloc, &crew, founder, hands, count)?;
        Ok((crew, mates))
    }
}
