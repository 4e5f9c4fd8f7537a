//! Performances of a program's code, in terms of the source.

ghost use Rattle.std.specs.Prelude.{◌≡◌, ◌≤◌, ◌+◌, length};
ghost use Rattle.spf_ast.specs.Carried.{IsWidth};
ghost use Rattle.spf_ast.specs.Meaning.{count_of, arguments_mean, expression_means};
ghost use Rattle.spf_ast.specs.Program.{cell_count_of};
ghost use Rattle.spf_ast.specs.View.{expression as seen_expression, arguments as seen_arguments};
ghost use Rattle.spf_code_registers.specs.Registers.{needs, arguments_need};
ghost use Rattle.spf_exec_instance.specs.Frame.{main_slots};
ghost use Rattle.spf_exec_instance.specs.Instance.{program_of};
ghost use Rattle.spf_code.specs.Code.{code_sets};
ghost use Rattle.spf_code.specs.Fits.{CodeFits};
ghost use Rattle.spf_code.specs.NodeView.{code as seen_code};
ghost use Rattle.spf_code_lowering.specs.Lowering.{SetsNoSlot};
ghost use Rattle.spf_exec_memory.specs.Leaves.{Leaves};
ghost use Rattle.spf_exec.specs.Instances.{slot_count, rooms_in, RowCodeIn, ExpressionCodeIn};
ghost use Rattle.spf_exec.specs.Instances.{PerformsIn, RunPerforms, ValuePerforms, RowPerforms};

use crate::context::context_of;
use spf_ast::row::Row;
use spf_ast::syntax::Expr;
use spf_code::node::Node;
use spf_code::program::{RowCode, ValueCode};
use spf_exec_instance::instance::Instance;
use spf_exec_machine::machine::perform;
use spf_exec_memory::memory::{Halt, Memory};
use spf_exec_memory::primitives::read;

/// Performs code that does what a form does.
pub(crate) fn run<M: Memory>(
    instance: &Instance,
    code: &[Node],
    registers: &mut [i64],
    memory: &mut M,
) -> Result<(), Halt>
    requires cells { M.cell_count memory.old
        ≡ cell_count_of (program_of instance.now) (length instance.now.input) }
    requires fits { CodeFits (rooms_in instance.now) (length registers.old) (seen_code code.now) }
    ensures performs { RunPerforms instance.now M.leads M.stop M.may_lack_memory M.output code.now
        registers.old registers.new memory.old memory.new result }
    ensures cells { M.cell_count memory.new ≡ M.cell_count memory.old }
    ensures others { Leaves (λ r. code_sets r (seen_code code.now)) registers.old registers.new }
{
    let context = context_of(instance);
    perform(&context, context.functions.len(), code, registers, memory)
}

/// Performs code that gives a value as a form does.
pub(crate) fn value_of<M: Memory>(
    instance: &Instance,
    code: &ValueCode,
    registers: &mut [i64],
    memory: &mut M,
) -> Result<i64, Halt>
    requires cells { M.cell_count memory.old
        ≡ cell_count_of (program_of instance.now) (length instance.now.input) }
    requires fits { CodeFits (rooms_in instance.now) (length registers.old)
        (seen_code code.now.nodes.items) }
    ensures performs { ValuePerforms instance.now M.leads M.stop M.may_lack_memory M.output code.now
        registers.old registers.new memory.old memory.new result }
    ensures cells { M.cell_count memory.new ≡ M.cell_count memory.old }
    ensures others { Leaves (λ r. code_sets r (seen_code code.now.nodes.items)) registers.old
        registers.new }
{
    let context = context_of(instance);
    perform(
        &context,
        context.functions.len(),
        &code.nodes,
        registers,
        memory,
    )?;
    Ok(read(registers, code.register))
}

/// Performs code that gives a row as a form does.
pub(crate) fn row_of<M: Memory>(
    instance: &Instance,
    code: &RowCode,
    registers: &mut [i64],
    memory: &mut M,
) -> Result<Row, Halt>
    requires cells { M.cell_count memory.old
        ≡ cell_count_of (program_of instance.now) (length instance.now.input) }
    requires fits { CodeFits (rooms_in instance.now) (length registers.old)
        (seen_code code.now.nodes.items) }
    requires width { IsWidth code.now.width }
    requires room { code.now.register + code.now.width ≤ length registers.old }
    ensures performs { RowPerforms instance.now M.leads M.stop M.may_lack_memory M.output code.now
        registers.old registers.new memory.old memory.new result }
    ensures cells { M.cell_count memory.new ≡ M.cell_count memory.old }
    ensures others { Leaves (λ r. code_sets r (seen_code code.now.nodes.items)) registers.old
        registers.new }
{
    let context = context_of(instance);
    perform(
        &context,
        context.functions.len(),
        &code.nodes,
        registers,
        memory,
    )?;
    let from = code.register as usize;
    Ok(Row::of(&registers[from..from + code.width as usize]))
}

/// Performs the words of a row, whose code sets no slot.
pub(crate) fn row<M: Memory>(
    instance: &Instance,
    code: &RowCode,
    line: u32,
    words: &[Expr],
    registers: &mut [i64],
    memory: &mut M,
) -> Result<Row, Halt>
    requires cells { M.cell_count memory.old
        ≡ cell_count_of (program_of instance.now) (length instance.now.input) }
    requires code { RowCodeIn instance.now line (seen_arguments words.now) code.now }
    requires sets { SetsNoSlot (slot_count instance.now) (seen_code code.now.nodes.items) }
    requires width { IsWidth (count_of (seen_arguments words.now)) }
    requires room { slot_count instance.now + arguments_need (rooms_in instance.now)
        (seen_arguments words.now) ≤ length registers.old }
    ensures performs { PerformsIn instance.now M.leads M.stop M.may_lack_memory M.output
        (λ g. arguments_mean g line (seen_arguments words.now)) registers.old registers.old
        memory.old memory.new result }
    ensures cells { M.cell_count memory.new ≡ M.cell_count memory.old }
    ensures kept { main_slots (program_of instance.now) registers.new
        ≡ main_slots (program_of instance.now) registers.old }
{
    row_of(instance, code, registers, memory)
}

/// Performs an expression, whose code sets no slot.
pub(crate) fn expression<M: Memory>(
    instance: &Instance,
    code: &ValueCode,
    line: u32,
    value: &Expr,
    registers: &mut [i64],
    memory: &mut M,
) -> Result<i64, Halt>
    requires cells { M.cell_count memory.old
        ≡ cell_count_of (program_of instance.now) (length instance.now.input) }
    requires code { ExpressionCodeIn instance.now line (seen_expression value.now) code.now }
    requires sets { SetsNoSlot (slot_count instance.now) (seen_code code.now.nodes.items) }
    requires room { slot_count instance.now
        + (1 + needs (rooms_in instance.now) (seen_expression value.now)) ≤ length registers.old }
    ensures performs { PerformsIn instance.now M.leads M.stop M.may_lack_memory M.output
        (λ g. expression_means g line (seen_expression value.now)) registers.old registers.old
        memory.old memory.new result }
    ensures cells { M.cell_count memory.new ≡ M.cell_count memory.old }
    ensures kept { main_slots (program_of instance.now) registers.new
        ≡ main_slots (program_of instance.now) registers.old }
{
    value_of(instance, code, registers, memory)
}
