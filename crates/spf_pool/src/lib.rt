//! A pool of items: each hand has a deque of its own, first in first out, and takes from all others
//! where its own is empty.
//!
//! Beside each deque stands a ledger of two words: how many items were given to the deque, and how
//! many were taken from it. An item travels with a receipt, a seat on the ledger that stands for
//! one item given and not counted as taken. The owner counts an item as given before it pushes it,
//! and whoever takes it spends its receipt to count it as taken. So no more is ever counted as
//! taken than was given, whatever the deque holds, and that a deque was seen empty is a fact about
//! two loads.
#![tactic(auto)]

mod counter;
mod end;
pub mod hand;
pub mod ledger;
pub mod next;
pub mod parcel;
pub mod pool;
pub mod rule;
mod side;
mod sweep;
pub mod view;
