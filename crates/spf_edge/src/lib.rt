//! The edge of the program: where files come from, and where output goes.
#![tactic(auto)]

mod files;
mod memory;
mod real;
mod sink;

pub use files::{FetchError, Files};
pub use memory::{MemFiles, MemSink, PutMade};
pub use real::{RealFiles, RealSink, StandardStream};
pub use sink::{PutError, Sink};
