//! What each kind of predictor answers, and what hosts in a list answer after they were told
//! something.
ghost use Rattle.std.specs.List.{last_or};
ghost use Rattle.std.specs.Prelude.{◌≡◌, Some, unwrap_or, IfOk, length, pos};
ghost use Rattle.spf_guess.specs.Kinds.{blocks_told};

use spf_guess::hosts::{ask, tell};
use spf_guess::{Fixed, Last, Most, Predictor, Table};
use std::alloc::{AllocError, Global};
use std::process::Abort;
use std::test::Fail;

/// The guesses for the blocks 1, 2 and 3.
fn guesses<P: Predictor>(predictor: &mut P) -> [i64; 3] {
    [predictor.guess(1), predictor.guess(2), predictor.guess(3)]
}

/// Tells pairs of a block and its real value one after another, each of which is to be followed by
/// these guesses.
fn follow<R: Abort, P: Predictor>(rt: &R, predictor: &mut P, rows: &[(i64, i64, [i64; 3])]) {
    for (block, real, wanted) in rows {
        predictor.tell(*block, *real);
        assert!(rt; guesses(predictor) == *wanted, "after {block}, {real}");
    }
}

/// What a `Fixed` of -7 is told.
const FIXED: [(i64, i64, [i64; 3]); 4] = [
    (3, 4, [-7; 3]),
    (3, -2, [-7; 3]),
    (3, 0, [-7; 3]),
    (3, 9, [-7; 3]),
];

/// What a `Last` is told.
const LAST: [(i64, i64, [i64; 3]); 4] = [
    (3, 4, [4; 3]),
    (3, -2, [-2; 3]),
    (3, 0, [0; 3]),
    (3, 9, [9; 3]),
];

/// What a `Most` for two values is told: the smallest of the values that were told most often is
/// guessed; 9 has no room.
const MOST: [(i64, i64, [i64; 3]); 10] = [
    (1, 5, [5; 3]),
    (1, 3, [3; 3]),
    (1, 5, [5; 3]),
    (1, 9, [5; 3]),
    (1, 9, [5; 3]),
    (1, 9, [5; 3]),
    (1, 3, [3; 3]),
    (1, 3, [3; 3]),
    (1, 5, [3; 3]),
    (1, 5, [5; 3]),
];

/// What a `Table` of two blocks is told; block 3 has no room.
const TABLE: [(i64, i64, [i64; 3]); 6] = [
    (1, 7, [7, 0, 0]),
    (2, 8, [7, 8, 0]),
    (3, 9, [7, 8, 0]),
    (1, 6, [6, 8, 0]),
    (3, 9, [6, 8, 0]),
    (2, 0, [6, 0, 0]),
];

#[test]
fn each_kind_answers_by_its_rule(rt: HostRuntime) -> Result<(), Fail> {
    let mut fixed = Fixed::make(-7);
    let mut last = Last::make();
    let mut most = Most::make(rt.alloc(), 2)?;
    let mut table = Table::make(rt.alloc(), 2)?;
    assert!(rt; [fixed.guess(3), last.guess(3), most.guess(0)] == [-7, 0, 0]);
    follow(&rt, &mut fixed, &FIXED);
    follow(&rt, &mut last, &LAST);
    follow(&rt, &mut most, &MOST);
    follow(&rt, &mut table, &TABLE);
    Ok(())
}

// A predictor of the caller's own: it guesses the number of the block that it was told last.
#[derive(Drop)]
struct LastBlock {
    block: i64,
}

impl Predictor for LastBlock {
    ghost answer = { λ last pairs _.
        unwrap_or (last_or (Some last.block) (blocks_told pairs)) (pos 0) };

    fn guess(&mut self, _block: i64) -> i64 {
        self.block
    }

    fn tell(&mut self, block: i64, _real: i64) {
        self.block = block;
    }
}

/// The value that was told last, a table, and the block that was told last.
fn three_hosts(alloc: Global) -> Result<Vec<Box<dyn Predictor>>, AllocError>
    ensures { IfOk result (λ hosts. length hosts.items ≡ 3) }
{
    let mut hosts: Vec<Box<dyn Predictor>> = Vec::new(alloc);
    hosts.push(Box::new(alloc, Last::make())?)?;
    hosts.push(Box::new(alloc, Table::make(alloc, 8)?)?)?;
    hosts.push(Box::new(alloc, LastBlock { block: 0 })?)?;
    Ok(hosts)
}

#[test]
fn hosts_in_a_list_are_asked_and_told_by_their_numbers(rt: HostRuntime) -> Result<(), Fail> {
    let mut hosts = three_hosts(rt.alloc())?;
    tell(&mut hosts, 0, 1, 5);
    tell(&mut hosts, 1, 5, 50);
    tell(&mut hosts, 2, -1, 1);
    tell(&mut hosts, 1, 6, 60);
    tell(&mut hosts, 2, 1, 3);
    let before = ask(&mut hosts, 0, 9);
    tell(&mut hosts, 0, 4, 8);
    let after = [
        ask(&mut hosts, 0, 9),
        ask(&mut hosts, 1, 5),
        ask(&mut hosts, 1, 6),
        ask(&mut hosts, 1, 7),
        ask(&mut hosts, 2, 7),
    ];
    assert!(rt; before == 5 && after == [8, 50, 60, 0, 1]);
    Ok(())
}
