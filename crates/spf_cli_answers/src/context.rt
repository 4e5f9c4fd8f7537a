//! What commands run with.

use spf_ticket_gate::Gate;
use std::alloc::Global;
use std::sync::Wait;
use std::thread::Threads;

/// What commands run with.
#[derive(Drop)]
pub struct Context<'a, R: Threads + Wait + Sync, G: Gate + Sync> {
    /// What starts threads.
    pub rt: &'a R,
    /// Where memory is allocated.
    pub alloc: Global,
    /// What is called before and after each attempt of a block.
    pub gate: &'a G,
}
