//! Runs in order: in pieces, and whole.

ghost use Rattle.std.specs.Prelude.{◌<◌, ◌^◌, length, IfOk};
ghost use Rattle.spf_ast.specs.View.{program as seen_program};
ghost use Rattle.spf_ast.specs.GoingOn.{IsOrderly};
ghost use Rattle.spf_ast.specs.Construct.{constructs_in};
ghost use Rattle.spf_exec_instance.specs.Instance.{program_of};

use spf_ast::outcome::Outcome;
use spf_ast::syntax::Program;
use spf_exec::frame::Frame;
use spf_exec::pieces::{Pause, Run};
use spf_exec::plain_run::run_plain;
use spf_exec_instance::instance::Instance;
use spf_exec_instance::layout::RunError;
use spf_parse::parse;
use spf_types::resolve;
use std::alloc::{AllocError, Global};
use std::test::Fail;

/// The program of a text, which can be run.
fn program_of(alloc: Global, text: &[u8]) -> Result<Program, Fail>
    ensures orderly { IfOk result (λ p. IsOrderly (seen_program p)) }
    ensures few { IfOk result (λ p. length (constructs_in (seen_program p).main) < 2 ^ 32) }
{
    let raw = parse(alloc, text)?;
    let program = resolve(alloc, raw)?;
    // Law: no `break` of a lawful program leaves `main` or a part.
    spf_ast::laws::breaks_stay_in_their_loops();
    // Law: functions emit nothing, and there are fewer than 2^32 top constructs.
    spf_ast::laws::lawful_programs_are_quiet_and_small();
    Ok(program)
}

/// Returns whether a run ended with this output.
fn is_done_with(outcome: &Outcome, wanted: &[u8]) -> bool {
    match outcome {
        Outcome::Done { output, .. } => output.as_slice() == wanted,
        Outcome::Trapped { .. } => false,
    }
}

#[test]
fn a_program_is_run_whole(rt: HostRuntime) -> Result<(), Fail> {
    let alloc = rt.alloc();
    let text =
        b"main { let n = 0; specfold s = 0 for k in 0..2 predict 0 { n = n + 1; next s; } emit n; }";
    let program = program_of(alloc, text)?;
    let outcome = run_plain(alloc, &program, &[])?;
    assert!(rt; is_done_with(&outcome, &[2]));
    Ok(())
}

/// Returns whether the program of a text is not run, since it has this many cells.
fn has_too_many_cells(alloc: Global, text: &str, count: u128) -> Result<bool, Fail> {
    let program = program_of(alloc, text.as_bytes())?;
    let error = run_plain(alloc, &program, &[]).err();
    Ok(error == Some(RunError::TooManyCells { count }))
}

/// Programs, and how many cells they have.
const WIDE: [(&str, u128); 2] = [
    ("array a[4194305]; main { }", 4_194_305),
    ("version 2; array a[16777217]; main { }", 16_777_217),
];

#[test]
fn a_program_with_a_cell_too_many_is_not_run(rt: HostRuntime) -> Result<(), Fail> {
    for (text, count) in &WIDE {
        assert!(rt;
            has_too_many_cells(rt.alloc(), text, *count)?,
            "{count} cells"
        );
    }
    Ok(())
}

/// Whether a run's first piece is its last one, how many cells it leaves, and its output.
fn first_piece(alloc: Global, instance: &Instance) -> Result<(bool, usize, Vec<u8>), AllocError>
    requires few { length (constructs_in (program_of instance.now).main) < 2 ^ 32 }
{
    let mut run = Run::start(alloc, instance)?;
    let is_last = matches!(run.advance(instance)?, Pause::Finished);
    let (cells, output) = run.finish();
    Ok((is_last, cells.len(), output))
}

#[test]
fn a_run_in_pieces_comes_to_its_end(rt: HostRuntime) -> Result<(), Fail> {
    let program = program_of(rt.alloc(), b"main { emit 65; }")?;
    let instance = Instance::make(rt.alloc(), &program, &[])?;
    let (is_last, cells, output) = first_piece(rt.alloc(), &instance)?;
    assert!(rt; is_last && cells == 0 && output.as_slice() == [65].as_slice());
    Ok(())
}

/// Makes a frame equal to a copy of it.
fn restore_copy(alloc: Global, instance: &Instance) -> Result<(), AllocError> {
    let mut frame = Frame::make(alloc, instance)?;
    let copy = frame.copy(alloc)?;
    frame.restore(&copy);
    Ok(())
}

#[test]
fn a_frame_is_copied_and_restored(rt: HostRuntime) -> Result<(), Fail> {
    let program = program_of(rt.alloc(), b"main { let a = 1; }")?;
    let instance = Instance::make(rt.alloc(), &program, &[])?;
    assert!(rt; restore_copy(rt.alloc(), &instance).is_ok());
    Ok(())
}
