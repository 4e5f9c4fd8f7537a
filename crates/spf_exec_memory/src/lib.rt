//! What an interpreter performs on.
//!
//! A program is performed on a `memory::Memory`: cells, an output, and a poll at each turn.
//! `specs/Performs.antt` says what it means that code performed something on a memory. `plain` has
//! a memory of its own, `quiet` memories that emit nothing, and `primitives` what each interpreter
//! is made of: registers, cells, traps, turns and output.
#![tactic(auto)]

pub mod memory;
pub mod plain;
pub mod primitives;
pub mod quiet;
