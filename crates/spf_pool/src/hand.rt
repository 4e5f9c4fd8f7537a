//! A hand: it gives items to its own deque, and takes them from any.
ghost use Rattle.std.specs.Prelude.{◌≡◌, ◌+◌, ◌<◌, length, slice_index, MatchResult};
ghost use Rattle.spf_pool.specs.Ends.{MatchFound};
ghost use Rattle.spf_pool.specs.Hands.{TookNone, TookOne, HandValue, after_giving, LaterHand};
ghost use Rattle.spf_pool.specs.Hands.{SeenEmpty, SeenBusy, SeenAllEmpty, SeenAllEmptyOrBusy};
ghost use Rattle.spf_pool.specs.Hands.{OthersEmpty, OthersEmptyOrBusy, OwnKept, MatchNext};

use crate::end::{End, Found};
use crate::next::Next;
use crate::rule::Item;
use crate::sweep::sweep;
use spf_cells_key::key::GhostKey;
use std::marker::Model;

/// A hand of a pool, for one thread.
///
/// Contracts see of it the key and the deques of its pool, which deque is its own, how many items
/// it may give, how many items it has seen given to and taken from each deque, how many it took
/// itself, and how often it has looked at these numbers.
pub struct Hand<T: Item<K>, K> {
    pub(crate) key: GhostKey<K>,
    pub(crate) own: usize,
    pub(crate) given: u64,
    pub(crate) capacity: u64,
    pub(crate) ends: Vec<End<T, K>>,
}

impl<T: Item<K>, K> Model for Hand<T, K> {
    ghost use Rattle.spf_pool.specs.Hands.{HandValue};

    ghost Value = { HandValue K };

    ghost use Rattle.spf_pool.specs.Hand.{hand_value, IsHand};

    ghost view = { hand_value };

    ghost invariant = { IsHand };
}

impl<T: Item<K>, K> Drop for Hand<T, K> {
    fn drop(self) {
        let Hand {
            key,
            own: _,
            given: _,
            capacity: _,
            ends,
        } = self;
        drop(key);
        drop(ends);
    }
}

impl<T: Item<K>, K> Hand<T, K> {
    /// Puts an item at the back of the hand's own deque. It takes no memory.
    ///
    /// # Errors
    ///
    /// The item comes back exactly where the hand has given `capacity` items before.
    pub fn give(&mut self, item: T) -> Result<(), T>
        requires item { T.meets self.old.key item }
        ensures given { MatchResult result (λ _.
            (slice_index self.old.given self.old.own < self.old.capacity)
            × (self.new ≡ after_giving self.old)) (λ x. (x ≡ item)
            × (slice_index self.old.given self.old.own ≡ self.old.capacity)
            × (self.new ≡ self.old)) }
    {
        if self.given == self.capacity {
            return Err(item);
        }
        self.ends[self.own].put(item, self.given);
        self.given += 1;
        Ok(())
    }

    // Takes the front of the hand's own deque.
    fn pop(&mut self) -> Found<T>
        ensures found { MatchFound result (T.meets self.old.key)
            (SeenEmpty self.old self.new self.new.own)
            (SeenBusy self.old self.new self.new.own × (1 < length self.new.given)) }
        ensures took { MatchFound result (λ _. TookOne self.old self.new)
            (TookNone self.old self.new) (TookNone self.old self.new) }
        ensures later { LaterHand self.old self.new }
    {
        self.ends[self.own].find()
    }

    // Takes the front of another hand's deque.
    fn steal(&mut self) -> Found<T>
        ensures found { MatchFound result (T.meets self.old.key) (OthersEmpty self.old self.new)
            (OthersEmptyOrBusy self.old self.new) }
        ensures took { MatchFound result (λ _. TookOne self.old self.new)
            (TookNone self.old self.new) (TookNone self.old self.new) }
        ensures later { LaterHand self.old self.new }
        ensures kept { OwnKept self.old self.new }
    {
        sweep(self.ends.as_mut_slice(), self.own)
    }

    /// Takes the front of the hand's own deque, or else the front of another one. It takes no
    /// memory and doesn't wait.
    ///
    /// `Empty` comes only where each deque was seen empty in this call: at a look as many items
    /// were taken from it as were given. `Again` comes only where there are two hands or more, and
    /// each deque was looked at in this call and seen empty, or busy: an item was given to it that
    /// wasn't counted as taken. It may be on its way into the deque or out of it, given after this
    /// hand tried, or missed since another hand was at the front just then. No clause says which; a
    /// caller that may wait calls again.
    pub fn next(&mut self) -> Next<T>
        ensures next { MatchNext result (T.meets self.old.key) (SeenAllEmpty self.old self.new)
            (SeenAllEmptyOrBusy self.old self.new) }
        ensures took { MatchNext result (λ _. TookOne self.old self.new)
            (TookNone self.old self.new) (TookNone self.old self.new) }
        ensures later { LaterHand self.old self.new }
    {
        match self.pop() {
            Found::Got(item) => Next::Got(item),
            Found::Empty => match self.steal() {
                Found::Got(item) => Next::Got(item),
                Found::Empty => Next::Empty,
                Found::Busy => Next::Again,
            },
            Found::Busy => match self.steal() {
                Found::Got(item) => Next::Got(item),
                Found::Empty => Next::Again,
                Found::Busy => Next::Again,
            },
        }
    }
}
