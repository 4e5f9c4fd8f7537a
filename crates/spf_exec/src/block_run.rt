//! Runs of single blocks of a program's top constructs.

ghost use Rattle.std.specs.Prelude.{◌≡◌, ◌≢◌, ◌≤◌, ◌+◌, ℤ, length, map, slice_get, Some};
ghost use Rattle.spf_ast.specs.declared.syntax.Part.TheVariants.{Predictor};
ghost use Rattle.spf_ast.specs.View.{predictor};
ghost use Rattle.spf_ast.specs.ConstructView.{construct as seen_construct};
ghost use Rattle.spf_ast.specs.Construct.{constructs_in, guess_means, guess_at};
ghost use Rattle.spf_ast.specs.Construct.{guess_part_means};
ghost use Rattle.spf_ast.specs.Carried.{IsWidth, no_row};
ghost use Rattle.spf_ast.specs.GoingOn.{StatementIsOrderly};
ghost use Rattle.spf_ast.specs.Program.{cell_count_of};
ghost use Rattle.spf_ast.specs.Silence.{FunctionsAreSilent, PartIsSilent};
ghost use Rattle.spf_code_registers.specs.Registers.{predictor_needs, predictors_need};
ghost use Rattle.spf_code.specs.NodeView.{code as seen_code};
ghost use Rattle.spf_code_lowering.specs.Lowering.{SetsNoSlot};
ghost use Rattle.spf_exec_instance.specs.Frame.{frame_size, main_slots};
ghost use Rattle.spf_exec_instance.specs.Instance.{program_of};
ghost use Rattle.spf_exec.specs.Sources.{ConstructIsOrderly};
ghost use Rattle.spf_exec.specs.BlockRuns.{IsQuietRun, stop_result};
ghost use Rattle.spf_code_lowering.specs.Adding.{fold_statement, pair_statement};
ghost use Rattle.spf_exec.specs.Instances.{slot_count, rooms_in};
ghost use Rattle.spf_exec.specs.Instances.{fold_of, pair_of, statement_room, construct_room};
ghost use Rattle.spf_exec.specs.Instances.{GuessCodeIn, GuessCodesIn, ConstructCodeIn, FoldCodeIn};
ghost use Rattle.spf_exec.specs.Instances.{PairCodeIn, KeepsOtherSlots, PerformsIn, block_part};
ghost use Rattle.spf_exec.specs.Instances.{fold_part, pair_part, block_asks, guess_in};

use crate::entry;
use crate::frame::Frame;
use crate::stop::Stop;
use spf_ast::construct::{ConstructKind, TopConstruct};
use spf_ast::outcome::Trap;
use spf_ast::row::{Row, set_carried};
use spf_ast::syntax::{Fold, Pair, Part, Predict};
use spf_code::program::{ConstructCode, ValueCode};
use spf_exec_instance::instance::Instance;
use spf_exec_memory::memory::{Halt, Memory};
use spf_exec_memory::primitives::write;
use spf_exec_memory::quiet::{Quiet, ReadOnly};

/// One block of a top construct: which part of the construct it runs, and with which block number
/// and carried row.
#[derive(Clone, Copy)]
pub struct BlockRun<'a> {
    pub construct: TopConstruct<'a>,
    /// Which of the program's top constructs it is, counted from 0.
    pub index: u32,
    pub part: Part,
    pub number: i64,
    pub value: Row,
}

/// Performs a guess. One that is supplied is 0 here.
fn perform_guess<M: Memory>(
    instance: &Instance,
    code: &ValueCode,
    line: u32,
    predict: &Predict,
    registers: &mut [i64],
    memory: &mut M,
) -> Result<i64, Halt>
    requires cells { M.cell_count memory.old
        ≡ cell_count_of (program_of instance.now) (length instance.now.input) }
    requires code { GuessCodeIn instance.now line (predictor predict.now) code.now }
    requires sets { SetsNoSlot (slot_count instance.now) (seen_code code.now.nodes.items) }
    requires room { slot_count instance.now + predictor_needs (rooms_in instance.now)
        (predictor predict.now) ≤ length registers.old }
    ensures performs { PerformsIn instance.now M.leads M.stop M.may_lack_memory M.output
        (λ g. guess_means g line (predictor predict.now)) registers.old registers.new memory.old
        memory.new result }
    ensures kept { main_slots (program_of instance.now) registers.new
        ≡ main_slots (program_of instance.now) registers.old }
{
    match predict {
        Predict::Expr(guess) => {
            entry::expression(instance, code, line, guess, registers, memory)
        }
        Predict::Host(_) => Ok(0),
    }
}

/// A row of zeros, one for each of these slots.
fn zeros(carried: &[u32]) -> Row
    requires { IsWidth (length carried.now) }
    ensures { result ≡ no_row (length carried.now) }
{
    Row::zeros(carried.len() as u32)
}

/// Performs the body of a fold. A part that it doesn't have gives zeros.
fn perform_fold<M: Memory>(
    instance: &Instance,
    code: &ConstructCode,
    block: &BlockRun,
    fold: &Fold,
    registers: &mut [i64],
    memory: &mut M,
) -> Result<Row, Halt>
    requires cells { M.cell_count memory.old
        ≡ cell_count_of (program_of instance.now) (length instance.now.input) }
    requires code { FoldCodeIn instance.now block.now.construct.line fold.now code.now }
    requires room { statement_room instance.now (fold_statement fold.now) ≤ length registers.old }
    requires orderly { StatementIsOrderly (fold_statement fold.now) }
    requires run { block.now.part ≢ Predictor }
    ensures performs { PerformsIn instance.now M.leads M.stop M.may_lack_memory M.output
        (fold_part block.now fold.now) registers.old registers.new memory.old memory.new result }
    ensures kept { KeepsOtherSlots instance.now (fold_of block.now fold.now) block.now.part
        registers.old registers.new }
{
    match block.part {
        Part::Body => {
            write(registers, fold.block, block.number);
            set_carried(registers, &fold.carried, block.value.words());
            entry::row_of(instance, &code.first, registers, memory)
        }
        Part::Predictor => unreachable!(),
        Part::Producer => Ok(zeros(&fold.carried)),
        Part::Consumer => Ok(zeros(&fold.carried)),
    }
}

/// Performs the producer or the consumer of a pair. A part that it doesn't have gives zeros.
fn perform_pair<M: Memory>(
    instance: &Instance,
    code: &ConstructCode,
    block: &BlockRun,
    pair: &Pair,
    registers: &mut [i64],
    memory: &mut M,
) -> Result<Row, Halt>
    requires cells { M.cell_count memory.old
        ≡ cell_count_of (program_of instance.now) (length instance.now.input) }
    requires code { PairCodeIn instance.now block.now.construct.line pair.now code.now }
    requires room { statement_room instance.now (pair_statement pair.now) ≤ length registers.old }
    requires orderly { StatementIsOrderly (pair_statement pair.now) }
    requires run { block.now.part ≢ Predictor }
    ensures performs { (number : ℤ)
        → PerformsIn instance.now M.leads M.stop M.may_lack_memory M.output
        (pair_part block.now pair.now number) registers.old registers.new memory.old memory.new
        result }
    ensures kept { KeepsOtherSlots instance.now (pair_of block.now pair.now) block.now.part
        registers.old registers.new }
{
    match block.part {
        Part::Producer => entry::row_of(instance, &code.first, registers, memory),
        Part::Consumer => {
            set_carried(registers, &pair.carried, block.value.words());
            entry::run(instance, &code.consumer, registers, memory)?;
            Ok(block.value)
        }
        Part::Predictor => unreachable!(),
        Part::Body => Ok(zeros(&pair.carried)),
    }
}

/// Performs a part of a top construct by its code.
fn perform_part<M: Memory>(
    instance: &Instance,
    code: &ConstructCode,
    block: &BlockRun,
    registers: &mut [i64],
    memory: &mut M,
) -> Result<Row, Halt>
    requires cells { M.cell_count memory.old
        ≡ cell_count_of (program_of instance.now) (length instance.now.input) }
    requires code { ConstructCodeIn instance.now (seen_construct block.now.construct) code.now }
    requires room { construct_room instance.now (seen_construct block.now.construct)
        ≤ length registers.old }
    requires orderly { ConstructIsOrderly (seen_construct block.now.construct) }
    requires run { block.now.part ≢ Predictor }
    ensures performs { PerformsIn instance.now M.leads M.stop M.may_lack_memory M.output
        (block_part block.now) registers.old registers.new memory.old memory.new result }
    ensures kept { KeepsOtherSlots instance.now (seen_construct block.now.construct) block.now.part
        registers.old registers.new }
{
    match block.construct.kind {
        ConstructKind::Fold(fold) => perform_fold(instance, code, block, fold, registers, memory),
        ConstructKind::Pair(pair) => perform_pair(instance, code, block, pair, registers, memory),
    }
}

/// Performs a part of a top construct over the slots of `main`.
fn run_part<M: Memory>(
    instance: &Instance,
    block: &BlockRun,
    frame: &mut Frame,
    memory: &mut M,
) -> Result<Row, Halt>
    requires construct { slice_get (constructs_in (program_of instance.now).main) block.now.index
        ≡ Some (seen_construct block.now.construct) }
    requires cells { M.cell_count memory.old
        ≡ cell_count_of (program_of instance.now) (length instance.now.input) }
    requires frame { length frame.old ≡ frame_size (program_of instance.now) }
    requires run { block.now.part ≢ Predictor }
    ensures performs { PerformsIn instance.now M.leads M.stop M.may_lack_memory M.output
        (block_part block.now) frame.old frame.new memory.old memory.new result }
    ensures kept { KeepsOtherSlots instance.now (seen_construct block.now.construct) block.now.part
        frame.old frame.new }
    ensures size { length frame.new ≡ length frame.old }
{
    let code = &instance.code().constructs[block.index as usize];
    perform_part(instance, code, block, &mut frame.registers, memory)
}

/// Performs a part of a top construct that holds no `emit`.
fn run_quietly<M: Memory>(
    instance: &Instance,
    block: &BlockRun,
    frame: &mut Frame,
    quiet: &mut Quiet<M>,
) -> Result<Row, Halt>
    requires construct { slice_get (constructs_in (program_of instance.now).main) block.now.index
        ≡ Some (seen_construct block.now.construct) }
    requires cells { M.cell_count quiet.old.memory.now
        ≡ cell_count_of (program_of instance.now) (length instance.now.input) }
    requires frame { length frame.old ≡ frame_size (program_of instance.now) }
    requires silent { PartIsSilent (seen_construct block.now.construct) block.now.part }
    requires functions_silent { FunctionsAreSilent (program_of instance.now).functions }
    requires run { block.now.part ≢ Predictor }
    ensures performs { IsQuietRun M.leads M.stop (block_asks instance.now block.now frame.old)
        quiet.old.memory.now quiet.new.memory.now result }
    ensures same_reference { quiet.new.memory.ghost_name ≡ quiet.old.memory.ghost_name }
    ensures output { M.output quiet.new.memory.now ≡ M.output quiet.old.memory.now }
    ensures kept { KeepsOtherSlots instance.now (seen_construct block.now.construct) block.now.part
        frame.old frame.new }
    ensures size { length frame.new ≡ length frame.old }
{
    run_part(instance, block, frame, quiet)
}

/// Runs one block of a top construct: a body, a producer or a consumer that holds no `emit`, with a
/// block number and a carried row. It asks the memory for what the block means, event by event, and
/// is stopped at a turn whose number reaches the memory's stopping number. However it ends, a slot
/// of `main` that the part neither declares nor assigns is as before, and nothing is put into the
/// memory's output.
pub fn exec_block<M: Memory>(
    instance: &Instance,
    block: &BlockRun,
    frame: &mut Frame,
    memory: &mut M,
) -> Stop
    requires construct { slice_get (constructs_in (program_of instance.now).main) block.now.index
        ≡ Some (seen_construct block.now.construct) }
    requires cells { M.cell_count memory.old
        ≡ cell_count_of (program_of instance.now) (length instance.now.input) }
    requires frame { length frame.old ≡ frame_size (program_of instance.now) }
    requires silent { PartIsSilent (seen_construct block.now.construct) block.now.part }
    requires functions_silent { FunctionsAreSilent (program_of instance.now).functions }
    requires run { block.now.part ≢ Predictor }
    ensures performs { IsQuietRun M.leads M.stop (block_asks instance.now block.now frame.old)
        memory.old memory.new (stop_result result) }
    ensures output { M.output memory.new ≡ M.output memory.old }
    ensures cells { M.cell_count memory.new ≡ M.cell_count memory.old }
    ensures kept { KeepsOtherSlots instance.now (seen_construct block.now.construct) block.now.part
        frame.old frame.new }
    ensures size { length frame.new ≡ length frame.old }
{
    let mut quiet = Quiet { memory };
    match run_quietly(instance, block, frame, &mut quiet) {
        Ok(row) => Stop::Ended(row),
        Err(Halt::Trapped(trap)) => Stop::Trapped(trap),
        Err(Halt::Cancelled { seen }) => Stop::Cancelled { seen },
        Err(Halt::NoMemory) => unreachable!(),
        Err(Halt::Broken) => unreachable!(),
    }
}

/// Performs the guess of one part of a row. A part that isn't there gives 0.
fn guess_of<M: Memory>(
    instance: &Instance,
    codes: &[ValueCode],
    line: u32,
    predict: &[Predict],
    part: u32,
    registers: &mut [i64],
    memory: &mut M,
) -> Result<i64, Halt>
    requires cells { M.cell_count memory.old
        ≡ cell_count_of (program_of instance.now) (length instance.now.input) }
    requires codes { GuessCodesIn instance.now line (map predictor predict.now) codes.now }
    requires room { slot_count instance.now + predictors_need (rooms_in instance.now)
        (map predictor predict.now) ≤ length registers.old }
    ensures performs { PerformsIn instance.now M.leads M.stop M.may_lack_memory M.output
        (λ g. guess_at g line (slice_get (map predictor predict.now) part)) registers.old
        registers.new memory.old memory.new result }
    ensures kept { main_slots (program_of instance.now) registers.new
        ≡ main_slots (program_of instance.now) registers.old }
{
    let part = part as usize;
    if part >= predict.len() {
        return Ok(0);
    }
    perform_guess(
        instance,
        &codes[part],
        line,
        &predict[part],
        registers,
        memory,
    )
}

/// Performs the guess of one part of a top construct's row.
fn perform_guess_at<M: Memory>(
    instance: &Instance,
    code: &ConstructCode,
    construct: TopConstruct,
    number: i64,
    part: u32,
    registers: &mut [i64],
    memory: &mut M,
) -> Result<i64, Halt>
    requires cells { M.cell_count memory.old
        ≡ cell_count_of (program_of instance.now) (length instance.now.input) }
    requires code { ConstructCodeIn instance.now (seen_construct construct) code.now }
    requires room { construct_room instance.now (seen_construct construct) ≤ length registers.old }
    ensures performs { PerformsIn instance.now M.leads M.stop M.may_lack_memory M.output
        (λ g. guess_part_means g (seen_construct construct.entry) part number) registers.old
        registers.new memory.old memory.new result }
    ensures kept { KeepsOtherSlots instance.now (seen_construct construct.entry) Predictor
        registers.old registers.new }
{
    let line = construct.line;
    let codes = &code.guesses;
    match construct.kind {
        ConstructKind::Fold(fold) => {
            write(registers, fold.block, number);
            guess_of(
                instance,
                codes,
                line,
                &fold.predict,
                part,
                registers,
                memory,
            )
        }
        ConstructKind::Pair(pair) => {
            guess_of(
                instance,
                codes,
                line,
                &pair.predict,
                part,
                registers,
                memory,
            )
        }
    }
}

/// Performs the guess of one part of a top construct's row, for a block number, over cells that are
/// only read: a function that stores doesn't change them, and a load gives the word that is there.
/// A guess that is supplied is 0 here. A slot of `main` that isn't the block name is as
/// before.
///
/// # Errors
///
/// The trap, where the guess traps.
pub fn exec_predictor(
    instance: &Instance,
    construct: TopConstruct,
    index: u32,
    part: u32,
    number: i64,
    frame: &mut Frame,
    cells: &[i64],
) -> Result<i64, Trap>
    requires construct { slice_get (constructs_in (program_of instance.now).main) index
        ≡ Some (seen_construct construct) }
    requires cells { length cells.now
        ≡ cell_count_of (program_of instance.now) (length instance.now.input) }
    requires frame { length frame.old ≡ frame_size (program_of instance.now) }
    requires functions_silent { FunctionsAreSilent (program_of instance.now).functions }
    ensures guess { result
        ≡ guess_in instance.now (seen_construct construct.entry) frame.old cells.now number part }
    ensures kept { KeepsOtherSlots instance.now (seen_construct construct.entry) Predictor frame.old
        frame.new }
    ensures size { length frame.new ≡ length frame.old }
{
    let code = &instance.code().constructs[index as usize];
    let mut memory = ReadOnly { cells };
    match perform_guess_at(
        instance,
        code,
        construct,
        number,
        part,
        &mut frame.registers,
        &mut memory,
    ) {
        Ok(value) => Ok(value),
        Err(Halt::Trapped(trap)) => Err(trap),
        Err(Halt::Cancelled { .. }) => unreachable!(),
        Err(Halt::NoMemory) => unreachable!(),
        Err(Halt::Broken) => unreachable!(),
    }
}
