//! Walks over whole programs, and what is made of them: the verdict on a log.
//!
//! A walk is a run in pieces like that of the engine, with the same steps from construct to
//! construct. Where the engine has workers run the blocks of a construct, a walk runs them plainly,
//! one after another, and has a visitor take the construct: one that judges the log's next section,
//! or one that draws a schedule.
#![tactic(auto)]

mod judging;
mod plainly;
mod position;
pub mod replay;
pub mod visitor;
pub mod walk;
mod walker;

pub use spf_engine::error::EngineError as ReplayError;
pub use spf_replay::verdict::Verdict;
