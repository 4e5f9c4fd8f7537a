//! A hand's end of a deque: it gives to its own deque, and takes from any.
ghost use Rattle.std.specs.Prelude.{◌≡◌, ◌+◌, ◌<◌, ◌≤◌, true};
ghost use Rattle.spf_pool.specs.Limits.{max_capacity};
ghost use Rattle.spf_pool.specs.Ends.{EndValue, Later, MatchFound, IsSeenEmpty, IsSeenBusy};

use crate::counter::Counter;
use crate::parcel::{Parcel, Tag};
use crate::rule::Item;
use crate::side::Side;
use spf_cells_key::key::GhostKey;
use std::marker::Model;

/// What a look for an item in a deque came to.
pub(crate) enum Found<T> {
    /// This item.
    Got(T),
    /// All items given were taken.
    Empty,
    /// An item was given and isn't counted as taken.
    Busy,
}

/// A hand's end of a deque.
pub(crate) struct End<T: Item<K>, K> {
    pub(crate) tag: GhostKey<Tag<K>>,
    pub(crate) counter: Counter,
    pub(crate) side: Side<T, K>,
    pub(crate) capacity: u64,
}

impl<T: Item<K>, K> Model for End<T, K> {
    ghost use Rattle.spf_pool.specs.Ends.{EndValue};

    ghost Value = { EndValue K };

    ghost use Rattle.spf_pool.specs.End.{end_value, IsEnd};

    ghost view = { end_value };

    ghost invariant = { IsEnd };
}

impl<T: Item<K>, K> Drop for End<T, K> {
    fn drop(self) {
        let End {
            tag,
            counter,
            side,
            capacity: _,
        } = self;
        drop(tag);
        drop(side);
        drop(counter);
    }
}

impl<T: Item<K>, K> End<T, K> {
    /// Puts an item, with its receipt, at the back of the hand's own deque, to which `given` items
    /// were given before.
    pub(crate) fn put(&mut self, item: T, given: u64)
        requires owner { self.old.owner ≡ true }
        requires room { (self.old.given < self.old.capacity) × (self.old.capacity ≤ max_capacity) }
        requires given { given ≡ self.old.given }
        requires item { T.meets self.old.key item }
        ensures { self.new ≡ record self.old { given = self.old.given + 1 } }
    {
        let receipt = self.counter.issue(given);
        let parcel = Parcel {
            tag: self.tag.again(),
            load: Some((item, receipt)),
        };
        self.side.put(parcel);
    }

    /// Takes the item at the front, and counts it as taken. Where it finds none, it looks at the
    /// numbers.
    pub(crate) fn find(&mut self) -> Found<T>
        ensures later { Later self.old self.new }
        ensures found { MatchFound result (T.meets self.old.key) (IsSeenEmpty self.old self.new)
            (IsSeenBusy self.old self.new) }
        ensures took { MatchFound result (λ _. self.new.took ≡ self.old.took + 1)
            (self.new.took ≡ self.old.took) (self.new.took ≡ self.old.took) }
    {
        match self.side.take() {
            Some(parcel) => {
                let (item, receipt) = parcel.into_load().unwrap();
                self.counter.redeem(receipt);
                Found::Got(item)
            }
            None => {
                if self.counter.look() {
                    Found::Empty
                } else {
                    Found::Busy
                }
            }
        }
    }
}
