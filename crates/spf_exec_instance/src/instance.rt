//! Programs with an input that they run on.

ghost use Rattle.std.specs.Prelude.{◌≡◌, ℕ, ◌<◌, ◌≤◌, ◌^◌, length, IfOk, IfErr, IsErrAnd};
ghost use Rattle.spf_ast.specs.View.{program as seen_program};
ghost use Rattle.spf_ast.specs.GoingOn.{IsOrderly};
ghost use Rattle.spf_ast.specs.Meaning.{call_before};
ghost use Rattle.spf_ast.specs.Program.{cell_count_of, extents_of, max_cells};
ghost use Rattle.spf_exec_instance.specs.declared.layout.RunError.TheVariants.{OutOfMemory};
ghost use Rattle.spf_code_lowering.specs.Lowering.{IsCodeOfProgram};
ghost use Rattle.spf_code_lowering.specs.Tables.{HasAnswers, HaveAnswers};
ghost use Rattle.spf_exec_instance.specs.Frame.{frame_size as size_of_frame};
ghost use Rattle.spf_exec_instance.specs.Layout.{IsLayoutOf};
ghost use Rattle.spf_exec_instance.specs.Instance.{program_of};
ghost use Rattle.spf_exec_instance.specs.RunErrors.{IsTooMany};

use crate::arrays::layout;
use crate::layout::{Layout, RunError};
use spf_ast::syntax::Program;
use spf_code::function::Tables;
use spf_code::program::ProgramCode;
use spf_code_lowering::program::lower;
use spf_code_registers::program::program_needs;
use std::alloc::Global;
use std::marker::Model;

/// A program with an input that it runs on, and what follows from both once: where its arrays lie,
/// its code, and how many registers a frame has.
#[derive(Drop)]
pub struct Instance<'a> {
    program: &'a Program,
    input: &'a [u8],
    layout: Layout,
    code: ProgramCode,
    frame_size: usize,
}

impl<'a> Model for Instance<'a> {
    ghost use Rattle.spf_ast.specs.View.{program as seen_program};
    ghost use Rattle.spf_exec_instance.specs.Instance.{InstanceValue, IsInstance};
    ghost use Rattle.spf_ast.specs.contracts.syntax.Program as row;
    ghost use Rattle.std.specs.Coded.{codes};

    ghost coded = { Prim.hlevel (codes, row.the_row.coded) };

    ghost Value = { InstanceValue };

    ghost view = { λ i. record { source = i.program.now; input = i.input.now } };

    ghost invariant = { λ i.
        IsInstance (seen_program i.program.now) i.input.now i.layout i.code i.frame_size };
}

impl<'a> Instance<'a> {
    /// Lays out the arrays of a program for an input, lowers the program, and counts the registers
    /// of a frame.
    ///
    /// # Errors
    ///
    /// `TooManyCells` where the arrays have more cells than a run of the program's version may
    /// have, and `OutOfMemory`.
    pub fn make(
        alloc: Global,
        program: &'a Program,
        input: &'a [u8],
    ) -> Result<Instance<'a>, RunError>
        requires orderly { IsOrderly (seen_program program.now) }
        ensures program { IfOk result (λ i. program_of i ≡ seen_program program.now) }
        ensures input { IfOk result (λ i. i.input ≡ input.now) }
        ensures too_many { max_cells (seen_program program.now)
            < cell_count_of (seen_program program.now) (length input.now)
            → IsErrAnd result
            (IsTooMany (cell_count_of (seen_program program.now) (length input.now))) }
        ensures few { cell_count_of (seen_program program.now) (length input.now)
            ≤ max_cells (seen_program program.now) → IfErr result (λ why. why ≡ OutOfMemory) }
    {
        let layout = layout(alloc, program, input.len() as u64)?;
        let code = lower(alloc, program)?;
        let frame_size = program_needs(alloc, program)?;
        Ok(Instance {
            program,
            input,
            layout,
            code,
            frame_size,
        })
    }

    /// Returns the program.
    pub fn program(&self) -> &'a Program
        ensures { result.now ≡ self.now.source }
    {
        self.program
    }

    /// Returns the input.
    pub fn input(&self) -> &'a [u8]
        ensures same { result.now ≡ self.now.input }
        ensures short { length self.now.input < 2 ^ 63 }
    {
        self.input
    }

    /// Returns where the arrays lie, which have no more cells than a run may have.
    pub fn layout(&self) -> &Layout
        ensures { IsLayoutOf (program_of self.now) (length self.now.input) result.now }
    {
        &self.layout
    }

    /// Returns the program's code.
    pub fn code(&self) -> &ProgramCode
        ensures code { IsCodeOfProgram (program_of self.now) result.now }
        ensures orderly { IsOrderly (program_of self.now) }
        ensures tables { HaveAnswers self.now.input
            (extents_of (program_of self.now) (length self.now.input))
            (program_of self.now).functions result.now.functions.items }
    {
        &self.code
    }

    /// Gives a function its tables: calls with arguments that they have an answer for are looked up
    /// from now on, and mean the same.
    pub fn set_tables(&mut self, function: usize, tables: Tables)
        requires answers { (below : ℕ) → function < below → HasAnswers tables
            (call_before self.old.input (extents_of (program_of self.old) (length self.old.input))
            (program_of self.old).functions below function) }
        ensures same { self.new ≡ self.old }
    {
        if function < self.code.functions.len() {
            self.code.functions[function].tables = tables;
        }
    }

    /// Returns how many registers a frame has: those of `main`, and those of its deepest chain of
    /// calls.
    pub fn frame_size(&self) -> usize
        ensures { result ≡ size_of_frame (program_of self.now) }
    {
        self.frame_size
    }
}
