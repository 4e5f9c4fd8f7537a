//! A hand's side of a deque: it puts parcels into its own, and takes them from any.
ghost use Rattle.std.specs.Prelude.{◌≡◌, ◌+◌, ◌<◌, ◌≤◌, true, false, IfOk, MatchOption};
ghost use Rattle.spf_pool.specs.Limits.{max_capacity};
ghost use Rattle.spf_pool.specs.Deque.{IsFor, NoneLeft, grown, shrunk, opened, knows_tag};
ghost use Rattle.spf_pool.specs.Side.{is_own, stage, index, room, IsSide, SameSide};
ghost use Rattle.spf_pool.specs.declared.parcel.Stage.TheVariants.{Alone, Shared};

use crate::parcel::{Parcel, Stage, Tag};
use crate::rule::{Begins, Item, ItemRule, Opens, Puts, Steals, Takes, Tells};
use crossbeam_deque::{Pass, Steal, Stealer, Worker};
use spf_cells_key::key::GhostKey;
use std::alloc::{AllocError, Global};

/// The owner's side of a deque.
pub type ItemWorker<T, K> = Worker<Parcel<T, K>, Global, Stage<K>, ItemRule>;

/// A handle of it for other hands.
pub type ItemStealer<T, K> = Stealer<Parcel<T, K>, Global, Stage<K>, ItemRule>;

/// A pass of another hand.
pub type ItemPass<T, K> = Pass<Parcel<T, K>, Stage<K>>;

/// A hand's side of a deque.
pub enum Side<T: Item<K>, K> {
    Own(ItemWorker<T, K>),
    Other(ItemStealer<T, K>, ItemPass<T, K>),
}

impl<T: Item<K>, K> Drop for Side<T, K> {
    fn drop(self) {
        match self {
            Side::Own(worker) => drop(worker),
            Side::Other(stealer, pass) => {
                drop(stealer);
                drop(pass);
            }
        }
    }
}

impl<T: Item<K>, K> Side<T, K> {
    /// The owner's side of a new deque, in which there is room for `capacity` parcels beside the
    /// first. That one is put in and taken out again, and tells the tag.
    pub(crate) fn make(
        alloc: Global,
        capacity: usize,
        tag: GhostKey<Tag<K>>,
    ) -> Result<Side<T, K>, AllocError>
        requires { capacity ≤ max_capacity }
        ensures { IfOk result (λ s. IsSide s × (is_own s ≡ true) × (stage s ≡ Alone tag.value 0)
            × (index s ≤ 1) × (capacity + 1 ≤ room s)) }
    {
        let mut worker = ItemWorker::<T, K>::fifo_as(alloc, capacity + 1)?;
        worker.push_as::<Tells>(Parcel { tag, load: None }).unwrap();
        let _ = worker.pop_as::<Begins>();
        Ok(Side::Own(worker))
    }

    /// Allows passes of other hands from now on.
    pub(crate) fn open(&mut self)
        requires side { IsSide self.old × (is_own self.old ≡ true) }
        requires stage { (t : Tag K) × knows_tag t (stage self.old) }
        ensures same { SameSide self.old self.new }
        ensures stage { stage self.new ≡ opened (stage self.old) }
    {
        match self {
            Side::Own(worker) => {
                let _ = worker.another::<Opens>();
            }
            Side::Other(..) => unreachable!(),
        }
    }

    /// Another hand's side of the same deque.
    pub(crate) fn guest(&mut self, tag: &GhostKey<Tag<K>>) -> Result<Side<T, K>, AllocError>
        requires side { IsSide self.old × (is_own self.old ≡ true) }
        requires stage { stage self.old ≡ Shared tag.now.value }
        ensures same { SameSide self.old self.new × (stage self.new ≡ stage self.old) }
        ensures guest { IfOk result
            (λ s. IsSide s × (is_own s ≡ false) × (stage s ≡ stage self.old)) }
    {
        let _ = tag;
        match self {
            Side::Own(worker) => {
                let stealer = worker.stealer()?;
                let pass = worker.another::<Opens>();
                Ok(Side::Other(stealer, pass))
            }
            Side::Other(..) => unreachable!(),
        }
    }

    /// Puts a parcel at the back of the hand's own deque.
    pub(crate) fn put(&mut self, parcel: Parcel<T, K>)
        requires side { IsSide self.old × (is_own self.old ≡ true) }
        requires room { index self.old < room self.old }
        requires item { IsFor T.meets (stage self.old) parcel }
        ensures side { IsSide self.new × (is_own self.new ≡ true) }
        ensures room { (index self.new ≡ index self.old + 1) × (room self.old ≤ room self.new) }
        ensures stage { stage self.new ≡ grown (stage self.old) }
    {
        match self {
            Side::Own(worker) => worker.push_as::<Puts>(parcel).unwrap(),
            Side::Other(..) => unreachable!(),
        }
    }

    /// Takes the parcel at the front. It tries once.
    ///
    /// `None` comes also where the deque says `Retry`. The clause for that answer says that a
    /// parcel left since the pass last looked, or only what the pass would learn of an empty deque,
    /// which is nothing. So no number is known to fall with each try, and a loop of tries is not
    /// known to end. Whether items are left is told by the look at the ledger that follows.
    pub(crate) fn take(&mut self) -> Option<Parcel<T, K>>
        requires side { IsSide self.old }
        requires stage { (t : Tag K) × knows_tag t (stage self.old) }
        ensures same { SameSide self.old self.new }
        ensures found { MatchOption result ((stage self.new ≡ stage self.old)
            × (is_own self.old ≡ true → NoneLeft (stage self.old)))
            (λ x. (stage self.new ≡ shrunk (stage self.old)) × IsFor T.meets (stage self.old) x) }
    {
        match self {
            Side::Own(worker) => worker.pop_as::<Takes>(),
            Side::Other(stealer, pass) => match stealer.steal_as::<Steals>(pass) {
                Steal::Success(parcel) => Some(parcel),
                Steal::Empty => None,
                Steal::Retry => None,
            },
        }
    }
}
