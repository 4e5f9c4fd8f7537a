//! What lies in the deques.
ghost use Rattle.std.specs.Prelude.{◌≡◌};
ghost use Rattle.atomic_table.specs.Seated.{TableId, table_id_coded};
ghost use base.Fml.{ftrue};

use crate::ledger::LedgerSeat;
use spf_cells_key::key::GhostKey;
use std::marker::{Model, PhantomData};

/// The name of a ledger, which only contracts see.
pub struct LedgerName {
    marker: PhantomData<()>,
    pub ghost id: { TableId } by { table_id_coded },
}

impl Model for LedgerName {
    ghost also_owns = { λ _. ftrue };
}

/// What all users of a deque know: the key of the pool, and the deque's ledger. No value of it is
/// made at run time.
pub struct Tag<K> {
    pub key: K,
    pub ledger: LedgerName,
}

/// What a pass of a deque knows. No value of it is made at run time.
pub enum Stage<K> {
    /// Nothing was put into the deque.
    Fresh,
    /// It holds the parcel that tells of this tag.
    Opening(Tag<K>),
    /// It is the only pass, and the deque holds this many items.
    Alone(Tag<K>, u64),
    /// There may be other passes.
    Shared(Tag<K>),
}

/// An item with its receipt, or with none the tag, which is put into a new deque and taken from it
/// at once.
pub struct Parcel<T, K> {
    pub(crate) tag: GhostKey<Tag<K>>,
    pub(crate) load: Option<(T, LedgerSeat)>,
}

impl<T: Drop, K> Drop for Parcel<T, K> {
    fn drop(self) {
        let Parcel { tag, load } = self;
        drop(tag);
        drop(load);
    }
}

impl<T, K> Parcel<T, K> {
    /// The item with its receipt.
    pub(crate) fn into_load(self) -> Option<(T, LedgerSeat)>
        ensures { result ≡ self.load }
    {
        let Parcel { tag, load } = self;
        drop(tag);
        load
    }
}
