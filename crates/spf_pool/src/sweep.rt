//! Takes from the deques of other hands.
ghost use Rattle.std.specs.Prelude.{◌≡◌, ◌+◌, ◌<◌, true, false, ◌||◌, length, MatchResult};
ghost use Rattle.spf_pool.specs.Ends.{MatchFound};
ghost use Rattle.spf_pool.specs.Hands.{TookNoneOf, TookOneOf, Swept, LookedAt, TookAt, AreOrdered};
ghost use Rattle.spf_pool.specs.Hands.{MeetsAtSome, AreLater};

use crate::end::{End, Found};
use crate::rule::Item;

fn either(one: bool, other: bool) -> bool
    ensures { result ≡ (one || other) }
{
    one || other
}

// Looks into one deque, unless it is the hand's own. Returns whether an item was given to it that
// isn't counted as taken, or, as the error, the item that was taken.
fn look_at<T: Item<K>, K>(ends: &mut [End<T, K>], own: usize, index: usize) -> Result<bool, T>
    requires order { AreOrdered ends.old }
    requires within { index < length ends.old }
    ensures looked { MatchResult result (λ busy. LookedAt own index busy ends.old ends.new)
        (λ x. MeetsAtSome T.meets ends.old x × TookAt own index ends.old ends.new) }
    ensures took { MatchResult result (λ _. TookNoneOf ends.old ends.new)
        (λ _. TookOneOf ends.old ends.new) }
{
    if index == own {
        return Ok(false);
    }
    match ends[index].find() {
        Found::Got(item) => Err(item),
        Found::Empty => Ok(false),
        Found::Busy => Ok(true),
    }
}

// Looks into each deque but the hand's own, and takes the first front that it can.
pub(crate) fn sweep<T: Item<K>, K>(ends: &mut [End<T, K>], own: usize) -> Found<T>
    requires order { AreOrdered ends.old }
    requires within { own < length ends.old }
    ensures swept { MatchFound result
        (λ x. MeetsAtSome T.meets ends.old x × AreLater own ends.old ends.new)
        (Swept own (length ends.old) false ends.old ends.new)
        (Swept own (length ends.old) true ends.old ends.new) }
    ensures took { MatchFound result (λ _. TookOneOf ends.old ends.new)
        (TookNoneOf ends.old ends.new) (TookNoneOf ends.old ends.new) }
{
    let mut busy = false;
    let mut index = 0;
    while index < ends.len() {
        match look_at(ends, own, index) {
            Err(item) => return Found::Got(item),
            Ok(also) => {
                busy = either(busy, also);
                index += 1;
            }
        }
    }
    if busy { Found::Busy } else { Found::Empty }
}
