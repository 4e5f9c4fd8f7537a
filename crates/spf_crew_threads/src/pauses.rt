//! What a mate does between turns that are idle.

use crossbeam_utils::Backoff;
use std::sync::Wait;
use std::thread::Parker;
use std::time::Duration;

/// How many times an idle mate spins or yields its core before it sleeps: for about 0.1 ms.
const PATIENCE: u32 = 128;
/// How long it sleeps at a time, in microseconds.
const NAP: u64 = 100;

/// The pauses of a mate since its last turn that was not idle.
#[derive(Drop)]
pub(crate) struct Pauses {
    backoff: Backoff,
    parker: Parker,
    /// How many there were, up to `PATIENCE`.
    count: u32,
}

impl Pauses {
    /// No pause yet.
    pub(crate) fn new() -> Pauses {
        Pauses {
            backoff: Backoff::new(),
            parker: Parker::new(),
            count: 0,
        }
    }

    /// Begins anew, after a turn that was not idle.
    pub(crate) fn reset(&mut self) {
        self.backoff.reset();
        self.count = 0;
    }

    /// Pauses once: a mate spins at first, then yields its core, and at last sleeps.
    pub(crate) fn pause<R: Wait>(&mut self, rt: &R) {
        if self.count < PATIENCE {
            self.count += 1;
            self.backoff.snooze();
        } else {
            self.parker.park_timeout(rt, Duration::from_micros(NAP));
        }
    }
}
