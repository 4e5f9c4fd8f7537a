//! What only threads show: attempts that run at the same time.
use crate::programs::{GUESSED, gave, run};
use spf_ticket_gate::Barrier;
use std::test::Fail;

#[test]
fn two_workers_attempt_two_blocks_at_once(rt: HostRuntime) -> Result<(), Fail> {
    let barrier = Barrier::make(2, 100_000_000);
    let mut hosts = Vec::new(rt.alloc());
    let report = run(&rt, rt.alloc(), GUESSED, 2, &mut hosts, &barrier)?;
    assert!(rt; gave(&report.outcome, &[32]));
    assert!(rt; barrier.have_met());
    Ok(())
}

#[test]
fn one_worker_attempts_one_block_at_a_time(rt: HostRuntime) -> Result<(), Fail> {
    let barrier = Barrier::make(2, 1_000);
    let mut hosts = Vec::new(rt.alloc());
    let report = run(&rt, rt.alloc(), GUESSED, 1, &mut hosts, &barrier)?;
    assert!(rt; gave(&report.outcome, &[32]));
    assert!(rt; !barrier.have_met());
    Ok(())
}
