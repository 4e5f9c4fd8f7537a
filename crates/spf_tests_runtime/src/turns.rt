//! Turns of two mates on one thread, in a given order.
ghost use Rattle.std.specs.Prelude.{◌≡◌, ◌<◌, Some, length, slice_get};
ghost use Rattle.std.specs.List.{All};
ghost use Rattle.spf_ast.specs.View.{program as seen_program};
ghost use Rattle.spf_ast.specs.Construct.{constructs_in};
ghost use Rattle.spf_ast.specs.ConstructView.{construct as seen_construct};
ghost use Rattle.spf_ast.specs.Program.{cell_count_of};
ghost use Rattle.spf_crew.specs.Mates.{IsMateOf};
ghost use Rattle.spf_exec_instance.specs.Instance.{program_of};

use crate::jobs::{Task, comes_right};
use crate::starting::start;
use spf_check::checked::Checked;
use spf_crew::attempt::{Attempter, GatedJob};
use spf_crew::crew::Crew;
use spf_crew::mate::Mate;
use spf_crew::turn::{Turn, Why};
use spf_ticket::run::Job;
use spf_ticket_gate::Open;
use std::alloc::{AllocError, Global};
use std::test::Fail;

/// Each of five blocks doubles the carried value.
const DOUBLING: &[u8] =
    b"main { specfold s = 1 for k in 0..5 predict 1 << k { next s * 2; } emit s; }";

/// A number for each answer. For a mate that found the chain out it has the turn number that it
/// saw.
fn code(turn: Turn) -> u64 {
    match turn {
        Turn::Worked => 1,
        Turn::Idle { why: Why::Empty } => 2,
        Turn::Idle { why: Why::Again } => 3,
        Turn::Ended => 4,
        Turn::Idle {
            why: Why::ChainOut { seen },
        } => 100 + seen % 100_000,
    }
}

/// One turn of a mate.
fn take_turn<A: Attempter>(crew: &Crew, attempter: &A, mates: &mut [Mate], mate: usize) -> u64
    requires all { All (IsMateOf crew.now) mates.old }
    requires serves { A.serves crew.now.setting attempter.now }
    requires inside { mate < length mates.old }
    ensures all { All (IsMateOf crew.now) mates.new }
    ensures size { length mates.new ≡ length mates.old }
{
    code(mates[mate].turn(crew, attempter))
}

/// The answers of mates that take turns in this order.
fn answers<A: Attempter>(
    alloc: Global,
    crew: &Crew,
    attempter: &A,
    mates: &mut [Mate],
    order: &[usize],
) -> Result<Vec<u64>, AllocError>
    requires all { All (IsMateOf crew.now) mates.old }
    requires serves { A.serves crew.now.setting attempter.now }
{
    let mut answers = Vec::new(alloc);
    for mate in order {
        if *mate < mates.len() {
            answers.push(take_turn(crew, attempter, mates, *mate))?;
        }
    }
    Ok(answers)
}

/// Returns whether two mates that take turns over the blocks of a job answer as their row says.
pub(crate) fn answer_right(
    alloc: Global,
    checked: &Checked,
    job: Job,
    row: &Row,
) -> Result<bool, Fail>
    requires program { program_of job.instance.now ≡ seen_program checked.now }
    requires construct { slice_get (constructs_in (program_of job.instance.now).main) job.index
        ≡ Some (seen_construct job.construct) }
    requires entry { length job.entry.now
        ≡ cell_count_of (program_of job.instance.now) (length job.instance.now.input) }
{
    let (guesses, order, wanted) = *row;
    let (chain, cells, tickets) = start(alloc, checked, &job, 1, guesses)?;
    let (crew, mut mates) = Crew::make(alloc, chain, cells, tickets, 2)?;
    let attempter = GatedJob {
        instance: &job.instance,
        construct: &job.construct,
        index: job.index,
        entry: job.entry,
        gate: &Open,
    };
    let answers = answers(alloc, &crew, &attempter, mates.as_mut_slice(), order)?;
    Ok(answers.as_slice() == wanted)
}

/// The guesses at which the later blocks begin, the order in which mates take turns, and their
/// answers.
pub(crate) type Row<'a> = (&'a [i64], &'a [usize], &'a [u64]);

const RIGHT: &[i64] = &[2, 4, 8, 16];

const ROWS: [Row<'static>; 5] = [
    // one mate does all where the guesses are right
    (
        RIGHT,
        &[0, 0, 0, 0, 0, 0, 0, 0, 0, 0, 0, 1],
        &[1, 1, 1, 1, 1, 1, 1, 1, 1, 1, 4, 4],
    ),
    // one mate runs each block again where its guess is wrong
    (
        &[1, 2, 3, 4],
        &[0, 0, 0, 0, 0, 0, 0, 0, 0, 0, 0, 0, 0, 0, 0, 0, 0, 0, 0, 1],
        &[1, 1, 1, 1, 1, 1, 1, 1, 1, 1, 1, 1, 1, 1, 1, 1, 1, 1, 4, 4],
    ),
    // a mate keeps its report once where the chain was taken
    (RIGHT, &[0, 1, 0, 1, 1], &[1, 1, 1, 102, 1]),
    // a mate steals all tickets
    (
        RIGHT,
        &[1, 1, 1, 1, 1, 1, 1, 1, 1, 1, 1, 0],
        &[1, 1, 1, 1, 1, 1, 1, 1, 1, 1, 4, 4],
    ),
    // a mate steals the tickets that the other leaves
    (
        RIGHT,
        &[0, 1, 1, 1, 1, 1, 1, 1, 1, 1, 0, 0, 0, 1],
        &[1, 1, 1, 1, 1, 1, 1, 1, 1, 2, 108, 1, 4, 4],
    ),
];

#[test]
fn mates_answer_in_turn(rt: HostRuntime) -> Result<(), Fail> {
    for (number, row) in ROWS.iter().enumerate() {
        let right = comes_right(&rt, rt.alloc(), DOUBLING, Task::Turns(row))?;
        assert!(rt; right, "row {number}");
    }
    Ok(())
}
