//! A map for the first keys that come.
ghost use Rattle.std.specs.Prelude.{◌≤◌, ◌+◌};
ghost use Rattle.std.specs.HashMap.{hash_map_len, spare};

use std::collections::HashMap;

/// Values under the first `room` different keys that come. The room is taken when it is made, and
/// later keys are dropped.
#[derive(Drop)]
pub(crate) struct Store<V> {
    pub(crate) values: HashMap<i64, V>,
    pub(crate) room: usize,
    ghost has_room: { room ≤ hash_map_len values + spare values },
}
