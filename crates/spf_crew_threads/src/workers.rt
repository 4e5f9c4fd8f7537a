//! What runs the blocks of constructs.
ghost use Rattle.std.specs.Prelude.{◌≡◌, ◌<◌, ◌≤◌};
ghost use Rattle.spf_ast_lemmas.specs.Limits.{max_workers};

use spf_ticket_gate::Gate;
use std::alloc::Global;
use std::sync::Wait;
use std::thread::Threads;

/// 1 to 64 workers, with all that they need beside a construct.
#[derive(Drop)]
pub struct Workers<'a, R: Threads + Wait + Sync, G: Gate + Sync> {
    /// What starts their threads.
    pub rt: &'a R,
    /// Where their memory is allocated.
    pub alloc: Global,
    /// The number of workers.
    pub count: u64,
    /// What is called before and after each attempt.
    pub gate: &'a G,
    ghost few: { (0 < count) × (count ≤ max_workers) },
}

impl<'a, R: Threads + Wait + Sync, G: Gate + Sync> Workers<'a, R, G> {
    /// Makes `count` workers.
    pub fn new(rt: &'a R, alloc: Global, count: u64, gate: &'a G) -> Workers<'a, R, G>
        requires few { (0 < count) × (count ≤ max_workers) }
        ensures count { result.count ≡ count }
    {
        Workers {
            rt,
            alloc,
            count,
            gate,
        }
    }
}
