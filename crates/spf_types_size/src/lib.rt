//! How large programs are, with calls unfolded.
//!
//! A size is counted form by form, in one pass: `functions::sizes` measures all functions of a
//! program, each once, and `measure::block` and `measure::expression` then measure any form of it.
#![tactic(auto)]

pub mod functions;
pub mod measure;
pub mod size;
