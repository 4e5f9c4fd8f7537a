//! Whole programs on a memory of their own.

ghost use Rattle.std.specs.Prelude.{◌≡◌, ◌<◌, ◌≤◌, ◌^◌, length, IfOk, IfErr};
ghost use Rattle.std.specs.Prelude.{IsErrAnd};
ghost use Rattle.spf_ast.specs.View.{program as seen_program};
ghost use Rattle.spf_ast.specs.GoingOn.{IsOrderly};
ghost use Rattle.spf_ast.specs.Meaning.{main_means};
ghost use Rattle.spf_ast.specs.Program.{cell_count_of, outcome};
ghost use Rattle.spf_ast.specs.Program.{seen_outcome};
ghost use Rattle.spf_exec_instance.specs.declared.layout.RunError.TheVariants.{OutOfMemory};
ghost use Rattle.spf_exec_instance.specs.Frame.{frame_size};
ghost use Rattle.spf_exec_instance.specs.Instance.{program_of};
ghost use Rattle.spf_exec_instance.specs.RunErrors.{IsTooMany};
ghost use Rattle.spf_exec.specs.Instances.{cells_for, cell_limit, statements_between, PerformsIn};
ghost use Rattle.spf_exec.specs.Instances.{RunsBetween};

use crate::entry;
use crate::frame::Frame;
use spf_ast::outcome::Outcome;
use spf_ast::syntax::Program;
use spf_exec_instance::instance::Instance;
use spf_exec_instance::layout::RunError;
use spf_exec_memory::memory::{Halt, Memory};
use spf_exec_memory::plain::Plain;
use std::alloc::{AllocError, Global};

/// Performs the statements of `main` from one index up to another one.
fn perform_statements<M: Memory>(
    instance: &Instance,
    from: usize,
    to: usize,
    registers: &mut [i64],
    memory: &mut M,
) -> Result<(), Halt>
    requires cells { M.cell_count memory.old
        ≡ cell_count_of (program_of instance.now) (length instance.now.input) }
    requires frame { length registers.old ≡ frame_size (program_of instance.now) }
    requires order { from ≤ to }
    requires within { to ≤ length instance.now.source.main.items }
    ensures performs { PerformsIn instance.now M.leads M.stop M.may_lack_memory M.output
        (λ g. main_means g (statements_between instance.now from to)) registers.old registers.new
        memory.old memory.new result }
    ensures cells { M.cell_count memory.new ≡ M.cell_count memory.old }
{
    let code = instance.code();
    for index in from..to {
        entry::run(instance, &code.main[index], registers, memory)?;
    }
    Ok(())
}

/// Performs the statements of `main` from one index up to another one, on a memory of its own.
pub(crate) fn run_main(
    instance: &Instance,
    from: usize,
    to: usize,
    registers: &mut [i64],
    memory: &mut Plain,
) -> Result<(), Halt>
    requires cells { length memory.old.cells.items
        ≡ cell_count_of (program_of instance.now) (length instance.now.input) }
    requires frame { length registers.old ≡ frame_size (program_of instance.now) }
    requires order { from ≤ to }
    requires within { to ≤ length instance.now.source.main.items }
    ensures outcome { RunsBetween instance.now from to registers.old registers.new memory.old
        memory.new result }
    ensures cells { length memory.new.cells.items ≡ length memory.old.cells.items }
{
    perform_statements(instance, from, to, registers, memory)
}

/// Runs an instance: the plain meaning of its program on its input, in which predictors don't
/// occur.
///
/// # Errors
///
/// `AllocError` where there is no memory for the run.
pub fn run_instance(alloc: Global, instance: &Instance) -> Result<Outcome, AllocError>
    ensures { IfOk result
        (λ o. seen_outcome o ≡ outcome (program_of instance.now) instance.now.input) }
{
    let mut frame = Frame::make(alloc, instance)?;
    let cells = vec![in alloc; 0i64; instance.layout().cells() as usize]?;
    let mut memory = Plain {
        cells,
        output: Vec::new(alloc),
    };
    let count = instance.program().main.len();
    match run_main(instance, 0, count, &mut frame.registers, &mut memory) {
        Ok(()) => Ok(Outcome::Done {
            cells: memory.cells,
            output: memory.output,
        }),
        Err(Halt::Trapped(trap)) => Ok(Outcome::Trapped {
            trap,
            output: memory.output,
        }),
        Err(Halt::Cancelled { .. }) => unreachable!(),
        Err(Halt::NoMemory) => Err(AllocError),
        Err(Halt::Broken) => unreachable!(),
    }
}

/// Runs a whole program on an input: its plain meaning, in which predictors don't occur.
///
/// # Errors
///
/// `TooManyCells` where the arrays have more cells than a run of the program's version may have,
/// and `OutOfMemory`.
pub fn run_plain(alloc: Global, program: &Program, input: &[u8]) -> Result<Outcome, RunError>
    requires short { length input.now < 2 ^ 63 }
    requires orderly { IsOrderly (seen_program program.now) }
    ensures outcome { IfOk result
        (λ o. seen_outcome o ≡ outcome (seen_program program.now) input.now) }
    ensures too_many { cell_limit program.now < cells_for program.now input.now
        → IsErrAnd result (IsTooMany (cells_for program.now input.now)) }
    ensures few { cells_for program.now input.now ≤ cell_limit program.now
        → IfErr result (λ why. why ≡ OutOfMemory) }
{
    let instance = Instance::make(alloc, program, input)?;
    let outcome = run_instance(alloc, &instance)?;
    Ok(outcome)
}
