//! What is kept in a store.
ghost use Rattle.std.specs.Prelude.{◌≡◌, IfOk};
ghost use Rattle.spf_guess.specs.Stores.{stored_of, takes, put_into, KeepsAlike, IsEmptyStore};

use crate::store::Store;
use std::alloc::{AllocError, Global};
use std::collections::HashMap;

impl<V: Copy> Store<V> {
    /// An empty store with this room.
    pub(crate) fn make(alloc: Global, room: usize) -> Result<Store<V>, AllocError>
        ensures { IfOk result (λ store. IsEmptyStore room (stored_of store)) }
    {
        let values = HashMap::with_capacity(alloc, room)?;
        Ok(Store { values, room })
    }

    /// The value under a key.
    pub(crate) fn get(&self, key: i64) -> Option<V>
        ensures { result ≡ (stored_of self.now).value key }
    {
        self.values.get(&key).copied()
    }

    /// Puts a value under a key, where the key is kept already or there is room for it, and says
    /// whether it did.
    pub(crate) fn put(&mut self, key: i64, value: V) -> bool
        ensures taken { result ≡ takes (stored_of self.old) key }
        ensures put { KeepsAlike (put_into (stored_of self.old) key value) (stored_of self.new) }
    {
        if let Some(old) = self.values.get_mut(&key) {
            *old = value;
            return true;
        }
        if self.values.len() < self.room {
            self.values.insert(key, value).is_ok()
        } else {
            false
        }
    }
}
