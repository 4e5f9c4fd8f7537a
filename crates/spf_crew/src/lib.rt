//! A crew of mates over one validation chain, without a lock.
//!
//! The chain stands in a slot of a table of shared words, beside a sequence word and an ending word. A
//! mate takes it by one compare-and-exchange of the sequence word, files a report, and gives it back by
//! one store. The sequence word is even while the chain is in its slot, and is then twice the number of
//! reports filed. A mate without a report takes a ticket from a pool and runs it.
#![tactic(auto)]

pub mod attempt;
mod close;
pub mod crew;
pub mod held;
mod item;
mod make;
pub mod mate;
mod mates;
pub mod merged;
mod open;
mod rule;
mod seat;
pub mod turn;
pub mod view;
