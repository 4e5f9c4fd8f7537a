//! Gates: with them a test watches attempts and holds them.
#![tactic(auto)]

use std::hint::spin_loop;
use std::sync::atomic::{AtomicU64, Ordering};

/// Which end of an attempt a gate is called at.
#[derive(Clone, Copy, PartialEq, Eq, Debug)]
pub enum Place {
    /// Before its first event.
    Begin,
    /// After its last event.
    End,
}

/// What the runtime calls at the start and at the end of each attempt of a block. It has no effect
/// on any answer.
///
/// A gate always returns and takes no memory: it may hold an attempt for a while, and can't wait
/// for another thread forever.
pub trait Gate {
    /// Called where this attempt of the block begins or ends; attempts count from 1.
    fn at(&self, block: u64, attempt: u64, place: Place);
}

/// The gate that does nothing.
#[derive(Clone, Copy, Drop)]
pub struct Open;

impl Gate for Open {
    fn at(&self, _block: u64, _attempt: u64, _place: Place) {}
}

/// A gate that holds the first attempt of each of some blocks until all of them have begun, each
/// for a bounded time.
///
/// No clause can say what an atomic shared by threads holds, so what a barrier does is shown by
/// tests alone.
#[derive(Drop)]
pub struct Barrier {
    /// The blocks below this number are held.
    blocks: u64,
    /// How many iterations a hold lasts at most.
    limit: u64,
    /// How many of their first attempts have begun.
    begun: AtomicU64,
    /// How many of those ended before all had begun.
    early: AtomicU64,
}

impl Barrier {
    /// Makes a barrier for the blocks below `blocks`, which holds each first attempt for at most
    /// `limit` iterations. Each of these blocks is to begin its first attempt once.
    pub fn make(blocks: u64, limit: u64) -> Barrier {
        Barrier {
            blocks,
            limit,
            begun: AtomicU64::new(0),
            early: AtomicU64::new(0),
        }
    }

    /// Returns whether all first attempts had begun before one of them ended.
    pub fn have_met(&self) -> bool {
        self.have_all_begun() && self.early.load(Ordering::SeqCst) == 0
    }

    fn have_all_begun(&self) -> bool {
        self.begun.load(Ordering::SeqCst) >= self.blocks
    }

    /// Begins a first attempt, which goes on once all have begun, or after `limit` iterations.
    fn begin(&self) {
        self.begun.fetch_add(1, Ordering::SeqCst);
        for _ in 0..self.limit {
            if self.have_all_begun() {
                return;
            }
            spin_loop();
        }
    }

    /// Ends a first attempt.
    fn end(&self) {
        if !self.have_all_begun() {
            self.early.fetch_add(1, Ordering::SeqCst);
        }
    }
}

impl Gate for Barrier {
    fn at(&self, block: u64, attempt: u64, place: Place) {
        if block >= self.blocks || attempt != 1 {
            return;
        }
        match place {
            Place::Begin => self.begin(),
            Place::End => self.end(),
        }
    }
}
