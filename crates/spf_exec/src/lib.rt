//! The interpreter.
//!
//! The code of a program is performed on a memory (`spf_exec_memory::memory::Memory`): cells, an
//! output, and a poll at each turn. What the program asks of it, in which order, and how it ends:
//! that is what the program means. `plain_run::run_plain` runs a whole program on a memory of its
//! own, `block_run::exec_block` one block of a top construct on any memory, and `pieces::Run` a
//! program in pieces.
#![tactic(auto)]

pub mod block_run;
mod context;
mod cost;
mod entry;
pub mod frame;
pub mod pieces;
pub mod plain_run;
pub mod stop;
pub mod tables;
mod untouched;
