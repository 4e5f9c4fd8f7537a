//! A value that only clauses see.
ghost use Rattle.std.specs.Prelude.{◌≡◌};
ghost use base.Fml.{ftrue};

use std::marker::{Model, PhantomData};

/// A `V` that only clauses see. It has no bytes and owns nothing.
pub struct GhostKey<V> {
    marker: PhantomData<V>,
    pub ghost value: { V },
}

impl<V> Model for GhostKey<V> {
    ghost also_owns = { λ _. ftrue };
}

impl<V> Drop for GhostKey<V> {
    fn drop(self) {
        let Self { marker: _ } = self;
    }
}

/// Makes a key with whatever value the caller names.
pub fn ghost_key<V>() -> GhostKey<V>
    ghost named: { V }
    ensures { result.value ≡ named }
{
    GhostKey {
        marker: PhantomData,
    }
}

// SAFETY: a key has no bytes and owns nothing, whatever its value is.
unsafe impl<V> Send for GhostKey<V> {}

impl<V> GhostKey<V> {
    /// Returns the same key.
    pub fn again(&self) -> GhostKey<V>
        ensures { result.value ≡ self.now.value }
    {
        self.with()
    }

    // A ghost value is named by a call's arguments alone, so the key is passed here.
    fn with(&self) -> GhostKey<V>
        ghost named: { V }
        ensures { result.value ≡ named }
    {
        let _ = self;
        ghost_key::<V>()
    }
}
