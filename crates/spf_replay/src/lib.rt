//! Checks logs of speculative runs, and defines schedules of such runs.
//!
//! A log has a section for each construct with blocks that a run reaches. A section is right where
//! its steps are a speculative run of the construct's blocks, from the guesses for them. Whether
//! they are is decided by the log and the program alone: what a block polled, and where it was
//! stopped, is in its log.
#![tactic(auto)]

mod attempt;
mod block;
mod context;
pub mod copying;
pub mod entered;
mod filing;
pub mod laws;
mod logs;
mod memory;
mod pick;
mod piece;
pub mod plain;
mod reader;
mod record;
mod recording;
mod runner;
pub mod schedule;
pub mod scratch;
pub mod section;
mod steps;
pub mod verdict;

pub use spf_replay_log::log::{Event, LogError, Step};
pub use spf_replay_log::reader::read_log;
pub use spf_replay_log::writer::write_log;
