//! Simulated runs by blocks: a seed draws which block goes on, and the log of that run comes out.
#![tactic(auto)]

mod draw;
mod drawn;
pub mod error;
pub mod laws;
mod simulation;

pub use error::SimError;
pub use simulation::{Simulated, sim, simulate_instance};
