//! From the words of a command line to its answer, before any of it is put; and the same for a run
//! over bytes at hand.
#![tactic(auto)]

mod answer;
mod at_hand;
mod batch;
mod batching;
mod context;
mod decoding;
pub mod laws;
mod message;
mod programs;
mod reading;
mod replaying;
mod reply;
mod status;
mod texts;

pub use answer::{Answer, answer_words};
pub use at_hand::answer_text;
pub use batch::Batch;
pub use batching::Ending;
pub use context::Context;
pub use reply::Reply;
pub use status::{Status, number};
