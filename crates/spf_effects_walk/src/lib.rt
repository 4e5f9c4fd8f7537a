//! The walk over the forms of a part, which enters functions at calls.
#![tactic(auto)]

mod bounds;
pub mod context;
pub mod slot_sets;
pub mod slots;
mod sweeps;
pub mod walk;
