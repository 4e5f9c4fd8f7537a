//! Makes a pool and its hands.
ghost use Rattle.std.specs.Prelude.{◌≡◌, ◌+◌, ◌<◌, ◌≤◌, true, false, [], ◌∷◌, length, map, IfOk};
ghost use Rattle.std.specs.List.{All};
ghost use Rattle.spf_pool.specs.Limits.{max_capacity};
ghost use Rattle.spf_ast_lemmas.specs.Limits.{max_workers};
ghost use mathlib.Core.Option.{some};
ghost use lib.ListN.{get_elem?};
ghost use Rattle.spf_pool.specs.Ends.{EndValue};
ghost use Rattle.spf_pool.specs.Counter.{ledger_of};
ghost use Rattle.spf_pool.specs.Deque.{tag_of};
ghost use Rattle.spf_pool.specs.Made.{new_end, new_hand, as_guest, AreOpen, AreNewEnds, AreRows};
ghost use Rattle.spf_pool.specs.Made.{IsLoneHand, AreNewHands, capacities_of};

use crate::counter::Counter;
use crate::end::End;
use crate::hand::Hand;
use crate::parcel::Tag;
use crate::rule::Item;
use crate::side::Side;
use spf_cells_key::key::{GhostKey, ghost_key};
use std::alloc::{AllocError, Global};

// The tag of a deque.
fn tag_for<K>(key: &GhostKey<K>, counter: &Counter) -> GhostKey<Tag<K>>
    ensures { result.value ≡ tag_of key.now.value (ledger_of counter.now) }
{
    tag_key(key, counter)
}

// A ghost value is named by a call's arguments alone, so they are passed here.
fn tag_key<K>(key: &GhostKey<K>, counter: &Counter) -> GhostKey<Tag<K>>
    ghost value: { Tag K }
    ensures { result.value ≡ value }
{
    let _ = key;
    let _ = counter;
    ghost_key::<Tag<K>>()
}

// A new deque: the end of its own hand, which is the only one.
fn deck<T: Item<K>, K>(
    alloc: Global,
    key: &GhostKey<K>,
    capacity: u64,
) -> Result<End<T, K>, AllocError>
    requires { capacity ≤ max_capacity }
    ensures { IfOk result (λ e. e ≡ new_end key.now.value e.deque capacity true true) }
{
    let counter = Counter::make(alloc)?;
    let tag = tag_for(key, &counter);
    let side = Side::make(alloc, capacity as usize, tag.again())?;
    Ok(End {
        tag,
        counter,
        side,
        capacity,
    })
}

// The ends of all deques' own hands.
fn decks<T: Item<K>, K>(
    alloc: Global,
    key: &GhostKey<K>,
    capacities: &[u64],
) -> Result<Vec<End<T, K>>, AllocError>
    requires { All (λ c. c ≤ max_capacity) capacities.now }
    ensures { IfOk result (λ v. (capacities_of v.items ≡ capacities.now)
        × AreNewEnds key.now.value true v.items) }
{
    let mut owners = Vec::new(alloc);
    for capacity in capacities {
        let mut owner = deck::<T, K>(alloc, key, *capacity)?;
        owner.open();
        owners.push(owner)?;
    }
    Ok(owners)
}

impl<T: Item<K>, K> End<T, K> {
    fn capacity(&self) -> u64
        ensures { result ≡ self.now.capacity }
    {
        self.capacity
    }

    // Allows ends of the deque for other hands from now on.
    fn open(&mut self)
        requires { self.old.owner ≡ true }
        ensures { self.new ≡ record self.old { solo = false } }
    {
        self.counter.open();
        self.side.open();
    }

    // Another hand's end of the same deque.
    fn guest(&mut self) -> Result<End<T, K>, AllocError>
        requires { (self.old.owner ≡ true) × (self.old.solo ≡ false) }
        ensures same { self.new ≡ self.old }
        ensures guest { IfOk result (λ e. e ≡ as_guest self.old) }
    {
        let tag = self.tag.again();
        let counter = self.counter.guest()?;
        let side = self.side.guest(&tag)?;
        Ok(End {
            tag,
            counter,
            side,
            capacity: self.capacity,
        })
    }
}

// An end of each deque, for one hand.
fn row<T: Item<K>, K>(alloc: Global, owners: &mut [End<T, K>]) -> Result<Vec<End<T, K>>, AllocError>
    requires { AreOpen owners.old }
    ensures same { owners.new ≡ owners.old }
    ensures row { IfOk result (λ v. v.items ≡ map as_guest owners.old) }
{
    let mut ends = Vec::new(alloc);
    let mut index = 0;
    while index < owners.len() {
        ends.push(owners[index].guest()?)?;
        index += 1;
    }
    Ok(ends)
}

// A hand, of its own end and its ends of all deques.
fn hand_of<T: Item<K>, K>(
    key: &GhostKey<K>,
    owner: End<T, K>,
    mut ends: Vec<End<T, K>>,
    own: usize,
) -> Hand<T, K>
    requires size { (own < length ends.items) × (1 < length ends.items)
        × (owner.capacity ≤ max_capacity) }
    requires owner { owner ≡ new_end key.now.value owner.deque owner.capacity true false }
    requires ends { AreNewEnds key.now.value false ends.items }
    requires same { (e : EndValue K) → get_elem? ends.items own ≡ some e → owner.deque ≡ e.deque }
    ensures { result
        ≡ new_hand key.now.value owner.capacity (map (λ e. e.deque) ends.items) own }
{
    let capacity = owner.capacity();
    ends[own] = owner;
    Hand {
        key: key.again(),
        own,
        given: 0,
        capacity,
        ends,
    }
}

// A row of ends for each hand.
fn rows<T: Item<K>, K>(
    alloc: Global,
    owners: &mut [End<T, K>],
    workers: usize,
) -> Result<Vec<Vec<End<T, K>>>, AllocError>
    requires { AreOpen owners.old }
    ensures same { owners.new ≡ owners.old }
    ensures rows { IfOk result (λ v. (length v.items ≡ workers) × AreRows owners.old v.items) }
{
    let mut rows = Vec::new(alloc);
    for _ in 0..workers {
        rows.push(row(alloc, owners)?)?;
    }
    Ok(rows)
}

// A hand of each own end and a row of ends.
fn hands_of<T: Item<K>, K>(
    alloc: Global,
    key: &GhostKey<K>,
    owners: Vec<End<T, K>>,
    mut rows: Vec<Vec<End<T, K>>>,
) -> Result<Vec<Hand<T, K>>, AllocError>
    requires size { (1 < length owners.items) × (length rows.items ≡ length owners.items) }
    requires capacities { All (λ c. c ≤ max_capacity) (capacities_of owners.items) }
    requires owners { AreNewEnds key.now.value true owners.items }
    requires rows { AreRows owners.items rows.items }
    ensures { IfOk result (λ v. AreNewHands key.now.value (capacities_of owners.items) v.items) }
{
    let mut hands = Vec::new(alloc);
    for owner in owners {
        let ends = rows.pop().unwrap();
        let own = hands.len();
        hands.push(hand_of(key, owner, ends, own))?;
    }
    Ok(hands)
}

// Two hands or more.
fn many<T: Item<K>, K>(
    alloc: Global,
    key: &GhostKey<K>,
    capacities: &[u64],
) -> Result<Vec<Hand<T, K>>, AllocError>
    requires size { 1 < length capacities.now }
    requires capacities { All (λ c. c ≤ max_capacity) capacities.now }
    ensures { IfOk result (λ v. AreNewHands key.now.value capacities.now v.items) }
{
    let mut owners = decks::<T, K>(alloc, key, capacities)?;
    let rows = rows(alloc, owners.as_mut_slice(), capacities.len())?;
    hands_of(alloc, key, owners, rows)
}

// The only hand.
fn alone<T: Item<K>, K>(
    alloc: Global,
    key: &GhostKey<K>,
    capacity: u64,
) -> Result<Hand<T, K>, AllocError>
    requires { capacity ≤ max_capacity }
    ensures { IfOk result (λ h. IsLoneHand key.now.value capacity h) }
{
    let mut ends = Vec::new(alloc);
    ends.push(deck::<T, K>(alloc, key, capacity)?)?;
    Ok(Hand {
        key: key.again(),
        own: 0,
        given: 0,
        capacity,
        ends,
    })
}

// A list of this hand alone.
fn one<T: Item<K>, K>(
    alloc: Global,
    key: &GhostKey<K>,
    capacity: u64,
) -> Result<Vec<Hand<T, K>>, AllocError>
    requires { capacity ≤ max_capacity }
    ensures { IfOk result (λ v. AreNewHands key.now.value (capacity ∷ []) v.items) }
{
    let mut hands = Vec::new(alloc);
    hands.push(alone(alloc, key, capacity)?)?;
    Ok(hands)
}

/// What makes hands.
pub struct Pool;

impl Pool {
    /// Makes the hands of a new pool, one for each of 1 to 64 capacities. A hand can give as many
    /// items as its capacity says, at most 8,192, to a deque of its own, and takes from all deques.
    /// Nothing is given yet. Contracts compare items with the key's value. All memory of the pool
    /// is taken here.
    ///
    /// # Errors
    ///
    /// `AllocError` where there is no memory for the deques.
    pub fn make<T: Item<K>, K>(
        alloc: Global,
        key: &GhostKey<K>,
        capacities: &[u64],
    ) -> Result<Vec<Hand<T, K>>, AllocError>
        requires workers { (0 < length capacities.now) × (length capacities.now ≤ max_workers) }
        requires capacities { All (λ c. c ≤ max_capacity) capacities.now }
        ensures made { IfOk result (λ v. AreNewHands key.now.value capacities.now v.items) }
    {
        if capacities.len() == 1 {
            return one(alloc, key, capacities[0]);
        }
        many(alloc, key, capacities)
    }
}
