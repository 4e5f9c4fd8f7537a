//! Predictors that the caller supplies: they guess parts of the row at which a block begins, and
//! learn from the real ones.
//!
//! `Fixed` guesses one value, `Last` the value told last, and `Most` the value told most often,
//! whatever the block. `Table` guesses the value told last for a block of this number, and `Vote`
//! the value told most often for it.
#![tactic(auto)]

pub mod fixed;
pub mod hosts;
mod keep;
pub mod last;
pub mod missing;
pub mod most;
pub mod predictor;
mod store;
pub mod table;
pub mod vote;
mod voting;

pub use fixed::Fixed;
pub use last::Last;
pub use most::Most;
pub use predictor::Predictor;
pub use table::Table;
pub use vote::Vote;
