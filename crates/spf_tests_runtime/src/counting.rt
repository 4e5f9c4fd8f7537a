//! Attempts of a block that only makes turns, on one thread.
ghost use Rattle.std.specs.Prelude.{◌≡◌, [], ◌∷◌, ◌++◌, length, pos, IfOk, map, replicate};
ghost use Rattle.spf_ast.specs.Carried.{Carried as CarriedValue};
ghost use Rattle.spf_ast.specs.Syntax.{Fold as fold_form, Number, By, argument, no_more};
ghost use Rattle.spf_ast.specs.View.{program as seen_program, block as seen_block};
ghost use Rattle.spf_ast.specs.View.{statement as seen_statement, arguments as seen_arguments};
ghost use Rattle.spf_ast.specs.View.{predictor};
ghost use Rattle.spf_ast.specs.GoingOn.{IsOrderly};
ghost use Rattle.spf_ast.specs.ConstructView.{construct as seen_construct};
ghost use Rattle.spf_exec_instance.specs.Frame.{frame_size};
ghost use Rattle.spf_exec_instance.specs.Instance.{program_of};
ghost use Rattle.spf_exec.specs.declared.stop.Stop.TheVariants as stop;
ghost use Rattle.spf_cells.specs.Log.{events};
ghost use Rattle.spf_cells.specs.Made.{spans_in, new_warden, new_lane};
ghost use Rattle.spf_ticket.specs.Tickets.{IsSameTicket, IsTicketAt};
ghost use Rattle.spf_tests_runtime.specs.CountingFold.{counting, counting_head, counting_body};
ghost use Rattle.spf_tests_runtime.specs.CountingFold.{counting_fold as fold_of_counting};
ghost use Rattle.spf_tests_runtime.specs.CountingFold.{counting_entry, counting_setting, no_cells};
ghost use Rattle.spf_tests_runtime.specs.CountingFold.{five_turns};

use crate::threads::attempt_meanwhile;
use spf_ast::construct::find_construct;
use spf_ast::row::Row;
use spf_ast::syntax::{Expr, Fold, Name, Predict, Program, Stmt, StmtKind};
use spf_cells::cells::Cells;
use spf_cells::lane::Lane;
use spf_cells::warden::Warden;
use spf_exec::frame::Frame;
use spf_exec::stop::Stop;
use spf_exec_instance::instance::Instance;
use spf_region::span::Plan;
use spf_ticket::run::Job;
use spf_ticket::ticket::{Report, Ticket};
use spf_ticket_gate::Open;
use std::alloc::{AllocError, Global};
use std::test::Fail;
use std::thread::Threads;

fn name(alloc: Global, byte: u8) -> Result<Name, AllocError>
    ensures { IfOk result (λ n. n.bytes.items ≡ byte ∷ []) }
{
    let mut bytes = Vec::new(alloc);
    bytes.push(byte)?;
    Ok(Name { bytes })
}

/// for i in 0..s { }
fn loop_to_carried(alloc: Global) -> Result<Vec<Stmt>, AllocError>
    ensures { IfOk result (λ v. seen_block v.items ≡ counting_body) }
{
    let mut body = Vec::new(alloc);
    body.push(Stmt {
        line: 1,
        kind: StmtKind::For(2, Expr::Number(0), Expr::Local(0), Vec::new(alloc)),
    })?;
    Ok(body)
}

/// The slots of a row that is kept in slot 0.
fn first_slot(alloc: Global) -> Result<Vec<u32>, AllocError>
    ensures { IfOk result (λ v. v.items ≡ 0 ∷ []) }
{
    Ok(vec![in alloc; 0]?)
}

/// A list of one expression: a number.
fn one_number(alloc: Global, number: i64) -> Result<Vec<Expr>, AllocError>
    ensures { IfOk result (λ v. seen_arguments v.items ≡ argument (Number number) no_more) }
{
    Ok(vec![in alloc; Expr::Number(number)]?)
}

/// The guess of a row of one part: 5.
fn guess_of_five(alloc: Global) -> Result<Vec<Predict>, AllocError>
    ensures { IfOk result (λ v. map predictor v.items ≡ By (Number (pos 5)) ∷ []) }
{
    Ok(vec![in alloc; Predict::Expr(Expr::Number(5))]?)
}

/// specfold s = 1 for k in 0..2 predict 5 { for i in 0..s { } next 1; }
fn counting_fold(alloc: Global) -> Result<StmtKind, AllocError>
    ensures { IfOk result (λ kind. seen_statement kind ≡ fold_form counting_head counting_body) }
{
    let fold = Fold {
        carried: first_slot(alloc)?,
        start: one_number(alloc, 1)?,
        block: 1,
        low: Expr::Number(0),
        high: Expr::Number(2),
        predict: guess_of_five(alloc)?,
        body: loop_to_carried(alloc)?,
        next: one_number(alloc, 1)?,
        next_line: 1,
    };
    Ok(StmtKind::Fold(Box::new(alloc, fold)?))
}

/// The names of the slots: `s`, `k` and `i`.
fn names(alloc: Global) -> Result<Vec<Name>, AllocError>
    ensures { IfOk result (λ v. map (λ n. n.bytes.items) v.items ≡ counting.slots) }
{
    let mut slots = Vec::new(alloc);
    slots.push(name(alloc, b's')?)?;
    slots.push(name(alloc, b'k')?)?;
    slots.push(name(alloc, b'i')?)?;
    Ok(slots)
}

/// The fold, and then `emit s;`.
pub(crate) fn counting(alloc: Global) -> Result<Program, AllocError>
    ensures version { IfOk result (λ p. (seen_program p).version ≡ 1) }
    ensures arrays { IfOk result (λ p. (seen_program p).arrays ≡ []) }
    ensures functions { IfOk result (λ p. (seen_program p).functions ≡ []) }
    ensures slots { IfOk result (λ p. (seen_program p).slots ≡ counting.slots) }
    ensures main { IfOk result (λ p. (seen_program p).main ≡ counting.main) }
    ensures orderly { IfOk result (λ p. IsOrderly (seen_program p)) }
{
    let mut main = Vec::new(alloc);
    main.push(Stmt {
        line: 1,
        kind: counting_fold(alloc)?,
    })?;
    main.push(Stmt {
        line: 1,
        kind: StmtKind::Emit(Expr::Local(0)),
    })?;
    Ok(Program {
        version: 1,
        arrays: Vec::new(alloc),
        functions: Vec::new(alloc),
        slots: names(alloc)?,
        main,
    })
}

/// Cells of two blocks that have none, with the lane of block 1, which may be raised.
pub(crate) fn lane_of_block_one(alloc: Global) -> Result<(Cells, Warden, Lane), AllocError>
    ensures setting { IfOk result (λ r. r.0.setting ≡ counting_setting) }
    ensures warden { IfOk result (λ r. r.1 ≡ new_warden r.0 2) }
    ensures lane { IfOk result (λ r. r.2 ≡ new_lane r.0 1) }
{
    let mut blocks = Vec::new(alloc);
    blocks.push(Vec::new(alloc))?;
    blocks.push(Vec::new(alloc))?;
    let plan = Plan { blocks };
    let (cells, warden, mut lanes) = Cells::make(alloc, &[], &plan)?;
    let lane = lanes.pop().unwrap();
    Ok((cells, warden, lane))
}

/// An attempt of block 1. A first one, at the guess 5, that ends has made five turns, none of which
/// polled a raised flag.
pub(crate) fn attempt(cells: &Cells, job: &Job, ticket: Ticket) -> Report
    requires program { program_of job.now.instance.now ≡ counting }
    requires input { job.now.instance.now.input ≡ [] }
    requires construct { seen_construct job.now.construct ≡ fold_of_counting }
    requires index { job.now.index ≡ 0 }
    requires entry { job.now.entry.now ≡ [] }
    requires setting { cells.now.setting ≡ counting_setting }
    requires table { ticket.lane.table ≡ cells.now.table }
    requires block { ticket.block ≡ 1 }
    requires frame { length ticket.frame ≡ frame_size counting }
    ensures same { IsSameTicket counting fold_of_counting ticket result.ticket }
    ensures turns { (value : CarriedValue) → IsTicketAt counting_entry cells.now ticket
        → ticket.attempt ≡ 1 → ticket.carried ≡ pos 5 ∷ [] → result.stop ≡ stop.Ended value
        → events result.ticket.lane.log ≡ events ticket.lane.log ++ five_turns }
{
    // Law: what keeps the seven rules is rollback free.
    spf_check_rules::laws::the_rules_set_free();
    ticket.run(cells, job, &Open)
}

/// The first attempt of block 1, at the guess 5.
fn first_attempt(cells: &Cells, job: &Job, lane: Lane, frame: Frame) -> Report
    requires program { program_of job.now.instance.now ≡ counting }
    requires input { job.now.instance.now.input ≡ [] }
    requires construct { seen_construct job.now.construct ≡ fold_of_counting }
    requires index { job.now.index ≡ 0 }
    requires entry { job.now.entry.now ≡ [] }
    requires setting { cells.now.setting ≡ counting_setting }
    requires lane { lane ≡ new_lane cells.now 1 }
    requires frame { frame ≡ replicate (frame_size counting) (pos 0) }
    ensures turns { (value : CarriedValue) → result.stop ≡ stop.Ended value
        → events result.ticket.lane.log ≡ five_turns }
    ensures attempt { result.ticket.attempt ≡ 1 }
    ensures block { result.ticket.block ≡ 1 }
    ensures table { result.ticket.lane.table ≡ cells.now.table }
    ensures frame { length result.ticket.frame ≡ frame_size counting }
{
    attempt(cells, job, Ticket::make(1, 1, Row::one(5), lane, frame))
}

/// Both attempts of this job's block 1 on fresh cells, the second one at 1, where the first one was
/// raised or not: how they ended.
fn attempt_both(alloc: Global, job: &Job, raised: bool) -> Result<(Stop, Stop), AllocError>
    requires program { program_of job.now.instance.now ≡ counting }
    requires input { job.now.instance.now.input ≡ [] }
    requires construct { seen_construct job.now.construct ≡ fold_of_counting }
    requires index { job.now.index ≡ 0 }
    requires entry { job.now.entry.now ≡ [] }
{
    let frame = Frame::make(alloc, job.instance)?;
    let (cells, mut warden, lane) = lane_of_block_one(alloc)?;
    if raised {
        warden.raise(&cells, 1, 1);
    }
    let first = first_attempt(&cells, job, lane, frame);
    let second = attempt(&cells, job, first.ticket.again(Row::one(1)));
    Ok((first.stop, second.stop))
}

/// When the flag of block 1 is raised.
#[derive(Clone, Copy)]
pub(crate) enum Raised {
    Never,
    /// Before the first attempt.
    Before,
    /// In a thread of its own, while a first attempt runs that would take minutes.
    Meanwhile,
}

/// Both attempts of block 1 of the counting program's fold: how they ended.
fn attempt_fold<R: Threads + Sync>(
    rt: &R,
    alloc: Global,
    program: &Program,
    instance: &Instance,
    raised: Raised,
) -> Result<Option<(Stop, Stop)>, AllocError>
    requires program { seen_program program.now ≡ counting }
    requires instance { program_of instance.now ≡ counting }
    requires input { instance.now.input ≡ [] }
{
    let Some(construct) = find_construct(&program.main, 0) else {
        return Ok(None);
    };
    let job = Job {
        instance,
        construct,
        index: 0,
        entry: &[],
    };
    let stops = match raised {
        Raised::Never => attempt_both(alloc, &job, false),
        Raised::Before => attempt_both(alloc, &job, true),
        Raised::Meanwhile => attempt_meanwhile(rt, alloc, &job),
    };
    Ok(Some(stops?))
}

/// Both attempts of the counting program's block 1: how they ended.
pub(crate) fn both_attempts<R: Threads + Sync>(
    rt: &R,
    alloc: Global,
    raised: Raised,
) -> Result<Option<(Stop, Stop)>, AllocError> {
    let program = counting(alloc)?;
    let Ok(instance) = Instance::make(alloc, &program, &[]) else {
        return Ok(None);
    };
    attempt_fold(rt, alloc, &program, &instance, raised)
}

#[test]
fn an_attempt_that_is_not_raised_makes_all_its_turns(rt: HostRuntime) -> Result<(), Fail> {
    let stops = both_attempts(&rt, rt.alloc(), Raised::Never)?;
    assert!(rt; stops == Some((Stop::Ended(Row::one(1)), Stop::Ended(Row::one(1)))));
    Ok(())
}

#[test]
fn a_flag_of_one_stops_a_first_attempt_alone(rt: HostRuntime) -> Result<(), Fail> {
    let stops = both_attempts(&rt, rt.alloc(), Raised::Before)?;
    assert!(rt; stops == Some((Stop::Cancelled { seen: 1 }, Stop::Ended(Row::one(1)))));
    Ok(())
}
