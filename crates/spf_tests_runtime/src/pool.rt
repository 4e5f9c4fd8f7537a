//! One hand, two in turn, and four in threads, where all items were given by one, and where each
//! gives its own.
ghost use Rattle.std.specs.Prelude.{◌<◌, ◌≤◌, length};
ghost use Rattle.std.specs.List.{All};
ghost use Rattle.spf_pool.specs.Limits.{max_capacity};
ghost use Rattle.spf_ast_lemmas.specs.Limits.{max_workers};

use spf_cells_key::key::{GhostKey, ghost_key};
use spf_pool::hand::Hand;
use spf_pool::next::Next;
use spf_pool::pool::Pool;
use spf_pool::rule::Item;
use std::alloc::{AllocError, Global};
use std::thread::{Threads, for_each_mut};

/// A numbered item, of which nothing is asked.
#[derive(Drop)]
struct Numbered {
    number: u64,
}

impl Item<()> for Numbered {
    ghost meets = { λ k x. Unit {0} };
}

/// A hand, how many items it is still to give, how many came back to it, and how many it found,
/// with the sum of their numbers.
#[derive(Drop)]
struct Busy {
    hand: Hand<Numbered, ()>,
    gives: u64,
    refused: u64,
    count: u64,
    sum: u64,
}

fn hands(alloc: Global, capacities: &[u64]) -> Result<Vec<Busy>, AllocError>
    requires workers { (0 < length capacities.now) × (length capacities.now ≤ max_workers) }
    requires capacities { All (λ c. c ≤ max_capacity) capacities.now }
{
    let key: GhostKey<()> = ghost_key::<()>();
    let hands = Pool::make::<Numbered, ()>(alloc, &key, capacities)?;
    let mut all = Vec::new(alloc);
    for hand in hands {
        all.push(Busy {
            hand,
            gives: 0,
            refused: 0,
            count: 0,
            sum: 0,
        })?;
    }
    Ok(all)
}

/// A call of the hand with this index.
#[derive(Clone, Copy)]
enum Call {
    /// It gives an item with this number.
    Give(usize, u64),
    /// It takes the next item.
    Next(usize),
}

/// The number of the item that was found; 1000 stands for `Empty`, and 2000 for `Again`.
fn number(found: Next<Numbered>) -> u64 {
    match found {
        Next::Got(item) => item.number,
        Next::Empty => 1000,
        Next::Again => 2000,
    }
}

/// The number of the item that came back, or 0.
fn number_refused(given: Result<(), Numbered>) -> u64 {
    match given {
        Ok(()) => 0,
        Err(item) => item.number,
    }
}

/// What a call answers; 3000 stands for a hand that doesn't exist.
fn answer(all: &mut [Busy], call: Call) -> u64 {
    let (Call::Give(hand, _) | Call::Next(hand)) = call;
    let Some(busy) = all.get_mut(hand) else {
        return 3000;
    };
    match call {
        Call::Give(_, number) => number_refused(busy.hand.give(Numbered { number })),
        Call::Next(_) => number(busy.hand.next()),
    }
}

/// The first of these calls that isn't answered as it is to be, and its answer, where hands of a
/// new pool are called one after another.
fn first_wrong(
    alloc: Global,
    capacities: &[u64],
    calls: &[(Call, u64)],
) -> Result<Option<(usize, u64)>, AllocError>
    requires workers { (0 < length capacities.now) × (length capacities.now ≤ max_workers) }
    requires capacities { All (λ c. c ≤ max_capacity) capacities.now }
{
    let mut all = hands(alloc, capacities)?;
    for (index, (call, wanted)) in calls.iter().enumerate() {
        let found = answer(&mut all, *call);
        if found != *wanted {
            return Ok(Some((index, found)));
        }
    }
    Ok(None)
}

/// Gives items with the numbers below `count`.
fn give_below(busy: &mut Busy, count: u64) {
    for number in 0..count {
        if busy.hand.give(Numbered { number }).is_err() {
            busy.refused = busy.refused.wrapping_add(1);
        }
    }
}

/// Gives an item, if one is to be given.
fn give_one(busy: &mut Busy) {
    if busy.gives == 0 {
        return;
    }
    busy.gives -= 1;
    if busy.hand.give(Numbered { number: busy.gives }).is_err() {
        busy.refused = busy.refused.wrapping_add(1);
    }
}

/// Gives and takes, until all own items were given and each deque was seen empty.
fn work(busy: &mut Busy) {
    for _ in 0..u64::MAX {
        give_one(busy);
        match busy.hand.next() {
            Next::Got(item) => {
                busy.count = busy.count.wrapping_add(1);
                busy.sum = busy.sum.wrapping_add(item.number);
            }
            Next::Empty => {
                if busy.gives == 0 {
                    return;
                }
            }
            Next::Again => {}
        }
    }
}

/// How many items came back to each of four hands, and the number that it finds next.
fn ends(all: &mut [Busy]) -> [(u64, u64); 4] {
    let mut ends = [(0, 0); 4];
    for (end, busy) in ends.iter_mut().zip(all) {
        *end = (busy.refused, number(busy.hand.next()));
    }
    ends
}

/// How many items were found, and the sum of their numbers.
fn totals(all: &[Busy]) -> (u64, u64) {
    let mut count = 0u64;
    let mut sum = 0u64;
    for busy in all {
        count = count.wrapping_add(busy.count);
        sum = sum.wrapping_add(busy.sum);
    }
    (count, sum)
}

/// What four threads leave: how many hands there are, how many items were found, with the sum of
/// their numbers, and for each hand how many items came back to it and the number that it finds
/// next.
type Left = (usize, (u64, u64), [(u64, u64); 4]);

/// What four threads leave whose hands have these capacities, where the first hand gave `by_first`
/// items before, and each hand gives `by_each` items.
fn in_four<R: Threads + Sync>(
    rt: &R,
    alloc: Global,
    capacities: [u64; 4],
    by_first: u64,
    by_each: u64,
) -> Result<Left, AllocError>
    requires { All (λ c. c ≤ max_capacity) capacities }
{
    let mut all = hands(alloc, &capacities)?;
    if let Some(first) = all.first_mut() {
        give_below(first, by_first);
    }
    for busy in all.iter_mut() {
        busy.gives = by_each;
    }
    for_each_mut(rt, all.as_mut_slice(), 4, &|_, busy| work(busy));
    Ok((all.len(), totals(&all), ends(&mut all)))
}

/// One hand alone.
const ALONE: [(Call, u64); 11] = [
    (Call::Give(0, 1), 0),
    (Call::Give(0, 2), 0),
    (Call::Give(0, 3), 0),
    (Call::Give(0, 4), 4),
    (Call::Next(0), 1),
    (Call::Next(0), 2),
    (Call::Next(0), 3),
    (Call::Next(0), 1000),
    (Call::Next(0), 1000),
    (Call::Give(0, 5), 5),
    (Call::Next(1), 3000),
];

/// A thief takes the oldest item, and can give none.
const THIEF: [(Call, u64); 11] = [
    (Call::Give(1, 71), 71),
    (Call::Give(0, 1), 0),
    (Call::Give(0, 2), 0),
    (Call::Give(0, 3), 0),
    (Call::Give(0, 4), 4),
    (Call::Next(1), 1),
    (Call::Next(0), 2),
    (Call::Next(0), 3),
    (Call::Next(0), 1000),
    (Call::Give(0, 5), 5),
    (Call::Next(2), 3000),
];

/// The own deque comes first, and each has a capacity of its own.
const OWN_FIRST: [(Call, u64); 14] = [
    (Call::Next(1), 1000),
    (Call::Give(0, 1), 0),
    (Call::Give(1, 71), 0),
    (Call::Give(0, 2), 0),
    (Call::Give(0, 3), 3),
    (Call::Give(1, 72), 0),
    (Call::Give(2, 91), 91),
    (Call::Next(1), 71),
    (Call::Next(0), 1),
    (Call::Next(2), 2),
    (Call::Next(0), 72),
    (Call::Next(1), 1000),
    (Call::Next(2), 1000),
    (Call::Next(3), 3000),
];

#[test]
fn hands_answer_in_turn(rt: HostRuntime) {
    let alloc = rt.alloc();
    assert!(rt; first_wrong(alloc, &[3], &ALONE) == Ok(None), "alone");
    assert!(rt; first_wrong(alloc, &[3, 0], &THIEF) == Ok(None), "a thief");
    assert!(rt;
        first_wrong(alloc, &[2, 3, 0], &OWN_FIRST) == Ok(None),
        "own first"
    );
}

#[test]
fn four_threads_take_each_item_once(rt: HostRuntime) {
    let alloc = rt.alloc();
    // the items of one deque; the other hands can give none
    let one = in_four(&rt, alloc, [8192, 0, 0, 0], 8192, 0);
    assert!(rt; one == Ok((4, (8192, 8192 * 8191 / 2), [(0, 1000); 4])));
    // each gives and takes; the last 8 items of each come back to it
    let each = in_four(&rt, alloc, [8192; 4], 0, 8200);
    let all = (4 * 8192, 4 * (8200 * 8199 / 2 - 28));
    assert!(rt; each == Ok((4, all, [(8, 1000); 4])));
}
