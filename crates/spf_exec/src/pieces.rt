//! Plain runs in pieces: `main` is run from one top construct to the next, and each construct is
//! settled by whoever runs it.

ghost use Rattle.std.specs.Prelude.{◌≡◌, ◌+◌, ◌<◌, ◌≤◌, ◌^◌, ◌+ℤ◌, ◌≤ℤ◌, length, pos, drop};
ghost use Rattle.std.specs.Prelude.{take, slice_get, Some, IfOk, IfErr, MatchOption};
ghost use Rattle.std.specs.Borrow.{Lends, Array, sem, i64 as word};
ghost use Rattle.spf_exec.specs.contracts.pieces.Run.{the_row};
ghost use Rattle.spf_exec.specs.declared.pieces.Pause.TheVariants.{AtConstruct, Finished};
ghost use Rattle.spf_ast.specs.View.{block as seen_block, fold_head};
ghost use Rattle.spf_ast.specs.Carried.{IsWidth};
ghost use Rattle.spf_ast.specs.Meaning.{count_of, max_blocks};
ghost use Rattle.spf_ast.specs.Syntax.{end};
ghost use Rattle.spf_ast.specs.Construct.{constructs_in, header_means};
ghost use Rattle.spf_ast.specs.ConstructView.{construct as seen_construct};
ghost use Rattle.spf_ast.specs.Pieces.{before_construct, from_construct, construct_first};
ghost use Rattle.spf_ast.specs.Program.{cell_count_of};
ghost use Rattle.spf_ast.specs.Silence.{FunctionsAreSilent};
ghost use Rattle.spf_exec_instance.specs.Frame.{frame_size, main_slots};
ghost use Rattle.spf_exec_instance.specs.Instance.{program_of};
ghost use Rattle.spf_exec_memory.specs.Performs.{IsDecided};
ghost use Rattle.spf_exec.specs.Pieces.{RunState, IsStateOf, refilled, IsInitial, Advanced};
ghost use Rattle.spf_exec.specs.Pieces.{header_result, run_state, HeaderDone};
ghost use Rattle.spf_exec.specs.Pieces.{IsSettled, IsCutShort, ahead};
ghost use Rattle.spf_code_lowering.specs.Adding.{fold_statement};
ghost use Rattle.spf_exec.specs.Instances.{HasPassed, fold_at, from_first};
ghost use Rattle.spf_exec.specs.Instances.{StandsFirst, statement_room, FoldCodeIn, PerformsIn};
ghost use Rattle.spf_exec.specs.Instances.{RunsBetween, AdvancedTo, header_cells, HeaderEnds};
ghost use Rattle.spf_exec.specs.Instances.{HeaderAnswers, HeaderDoneAnywhere, LeftShort};

use crate::entry;
use crate::frame::Frame;
use crate::plain_run::run_main;
use spf_ast::construct::{ConstructKind, TopConstruct, as_construct};
use spf_ast::outcome::{Trap, TrapKind};
use spf_ast::row::Row;
use spf_ast::syntax::{Fold, Stmt};
use spf_code::program::ConstructCode;
use spf_exec_instance::instance::Instance;
use spf_exec_memory::memory::{Halt, Memory};
use spf_exec_memory::plain::Plain;
use spf_exec_memory::primitives::{are_too_many, block_count};
use spf_exec_memory::quiet::Quiet;
use std::alloc::{AllocError, Global};
use std::marker::Model;
use std::mem;

/// A top construct whose header is done.
#[derive(Clone, Copy, PartialEq, Eq, Debug)]
pub struct Header {
    /// The first block number.
    pub low: i64,
    /// The number of blocks.
    pub blocks: u64,
    /// The row at which the first block begins.
    pub start: Row,
}

/// Where a run in pieces pauses.
#[derive(Clone, Copy)]
pub enum Pause<'a> {
    /// This top construct stands next.
    AtConstruct {
        /// Its number: how many top constructs stand before it.
        number: u32,
        construct: TopConstruct<'a>,
    },
    /// No statement is left.
    Finished,
    /// A statement trapped.
    Trapped(Trap),
}

/// A plain run of a program that is made in pieces. It stands between two statements of `main`.
#[derive(Drop)]
pub struct Run {
    frame: Frame,
    memory: Plain,
    place: usize,
    passed: usize,
}

impl Model for Run {
    ghost use Rattle.spf_exec.specs.Pieces.{RunState};

    ghost Value = { RunState };

    ghost view = { λ r. record {
      frame = r.frame;
      cells = r.memory.cells.items;
      output = r.memory.output.items;
      place = r.place;
      passed = r.passed;
    } };
}

/// The statements before the first top construct among some.
#[derive(Clone, Copy)]
struct Prefix<'a> {
    /// The number of these statements.
    count: usize,
    /// The top construct, where there is one.
    construct: Option<TopConstruct<'a>>,
}

/// The statements before the first top construct among these.
fn plain_prefix<'a>(statements: &'a [Stmt]) -> Prefix<'a>
    ensures within { result.count ≤ length statements.now }
    ensures before { seen_block (take result.count statements.now)
        ≡ before_construct (seen_block statements.now) }
    ensures rest { seen_block (drop result.count statements.now)
        ≡ from_construct (seen_block statements.now) }
    ensures construct { MatchOption result.construct (from_first statements.now ≡ end)
        (StandsFirst (from_first statements.now)) }
{
    let mut count = 0;
    for statement in statements {
        if let Some(construct) = as_construct(statement) {
            return Prefix {
                count,
                construct: Some(construct),
            };
        }
        count += 1;
    }
    Prefix {
        count,
        construct: None,
    }
}

impl<'a> Prefix<'a> {
    /// The pause after these statements: at the construct that stands next, which has this number,
    /// or at the end.
    fn pause(self, number: u32) -> Pause<'a>
        ensures { MatchOption self.entry.construct (result ≡ Finished)
            (λ c. result ≡ AtConstruct number c) }
    {
        match self.construct {
            Some(construct) => Pause::AtConstruct { number, construct },
            None => Pause::Finished,
        }
    }
}

/// Performs some of the statements of `main`.
fn perform_between(
    instance: &Instance,
    from: usize,
    to: usize,
    frame: &mut Frame,
    memory: &mut Plain,
) -> Result<(), Halt>
    requires cells { length memory.old.cells.items
        ≡ cell_count_of (program_of instance.now) (length instance.now.input) }
    requires frame { length frame.old ≡ frame_size (program_of instance.now) }
    requires order { from ≤ to }
    requires within { to ≤ length instance.now.source.main.items }
    ensures outcome { RunsBetween instance.now from to frame.old frame.new memory.old memory.new
        result }
    ensures cells { length memory.new.cells.items ≡ length memory.old.cells.items }
    ensures size { length frame.new ≡ length frame.old }
{
    run_main(instance, from, to, &mut frame.registers, memory)
}

/// Performs the statements of `main` up to the next top construct, and gives the index that was
/// reached.
fn advance_from<'a>(
    instance: &Instance<'a>,
    place: usize,
    passed: usize,
    frame: &mut Frame,
    memory: &mut Plain,
) -> Result<(usize, Pause<'a>), AllocError>
    requires cells { length memory.old.cells.items
        ≡ cell_count_of (program_of instance.now) (length instance.now.input) }
    requires frame { length frame.old ≡ frame_size (program_of instance.now) }
    requires within { place ≤ length instance.now.source.main.items }
    requires passed { HasPassed instance.now place passed }
    requires few_constructs { length (constructs_in (program_of instance.now).main) < 2 ^ 32 }
    ensures advanced { IfOk result (AdvancedTo instance.now
        (run_state frame.old memory.old place passed) frame.new memory.new) }
    ensures cut_short { IfErr result (λ why. LeftShort instance.now
        (run_state frame.old memory.old place passed) frame.new memory.new) }
    ensures place { IfOk result (λ r. r.0 ≤ length instance.now.source.main.items) }
    ensures passed { IfOk result (λ r. HasPassed instance.now r.0 passed) }
    ensures cells { length memory.new.cells.items ≡ length memory.old.cells.items }
    ensures size { length frame.new ≡ length frame.old }
{
    let prefix = plain_prefix(&instance.program().main[place..]);
    let next = place + prefix.count;
    match perform_between(instance, place, next, frame, memory) {
        Ok(()) => Ok((next, prefix.pause(passed as u32))),
        Err(Halt::Trapped(trap)) => Ok((place, Pause::Trapped(trap))),
        Err(Halt::Cancelled { .. }) => unreachable!(),
        Err(Halt::NoMemory) => Err(AllocError),
        Err(Halt::Broken) => unreachable!(),
    }
}

/// Performs the header of a fold.
fn perform_header<M: Memory>(
    instance: &Instance,
    code: &ConstructCode,
    line: u32,
    fold: &Fold,
    registers: &mut [i64],
    memory: &mut M,
) -> Result<Header, Halt>
    requires cells { M.cell_count memory.old
        ≡ cell_count_of (program_of instance.now) (length instance.now.input) }
    requires code { FoldCodeIn instance.now line fold.now code.now }
    requires room { statement_room instance.now (fold_statement fold.now) ≤ length registers.old }
    requires width { IsWidth (count_of (fold_head fold.now).start) }
    ensures performs { PerformsIn instance.now M.leads M.stop M.may_lack_memory M.output
        (λ g. header_means g (fold_at line fold.now)) registers.old registers.old memory.old
        memory.new (header_result result) }
    ensures cells { M.cell_count memory.new ≡ M.cell_count memory.old }
    ensures kept { main_slots (program_of instance.now) registers.new
        ≡ main_slots (program_of instance.now) registers.old }
    ensures few { IfOk result (λ h. h.blocks ≤ max_blocks) }
    ensures numbers { IfOk result (λ h. (h.low +ℤ pos h.blocks) ≤ℤ i64.MAX) }
{
    let header = &code.header;
    let start = entry::row(
        instance,
        &header.start,
        line,
        &fold.start,
        registers,
        memory,
    )?;
    let low = entry::expression(instance, &header.low, line, &fold.low, registers, memory)?;
    let high = entry::expression(instance, &header.high, line, &fold.high, registers, memory)?;
    if are_too_many(low, high) {
        return Err(Halt::Trapped(Trap {
            kind: TrapKind::Blocks,
            line,
        }));
    }
    Ok(Header {
        low,
        blocks: block_count(low, high),
        start,
    })
}

/// Performs the header of a fold on a memory that emits nothing.
fn header_quietly(
    instance: &Instance,
    code: &ConstructCode,
    line: u32,
    fold: &Fold,
    frame: &mut Frame,
    quiet: &mut Quiet<Plain>,
) -> Result<Header, Halt>
    requires cells { length quiet.old.memory.now.cells.items
        ≡ cell_count_of (program_of instance.now) (length instance.now.input) }
    requires frame { length frame.old ≡ frame_size (program_of instance.now) }
    requires code { FoldCodeIn instance.now line fold.now code.now }
    requires room { statement_room instance.now (fold_statement fold.now)
        ≤ frame_size (program_of instance.now) }
    requires width { IsWidth (count_of (fold_head fold.now).start) }
    requires silent { FunctionsAreSilent (program_of instance.now).functions }
    ensures outcome { HeaderEnds instance.now line fold.now frame.old quiet.old.memory.now
        quiet.new.memory.now result }
    ensures decided { IsDecided result }
    ensures memory { quiet.new.memory.now.cells.items
        ≡ header_cells instance.now line fold.now frame.old quiet.old.memory.now }
    ensures same_reference { quiet.new.memory.ghost_name ≡ quiet.old.memory.ghost_name }
    ensures output { quiet.new.memory.now.output.items ≡ quiet.old.memory.now.output.items }
    ensures cells { length quiet.new.memory.now.cells.items
        ≡ length quiet.old.memory.now.cells.items }
    ensures kept { main_slots (program_of instance.now) frame.new
        ≡ main_slots (program_of instance.now) frame.old }
    ensures size { length frame.new ≡ length frame.old }
    ensures few { IfOk result (λ h. h.blocks ≤ max_blocks) }
    ensures numbers { IfOk result (λ h. (h.low +ℤ pos h.blocks) ≤ℤ i64.MAX) }
{
    perform_header(instance, code, line, fold, &mut frame.registers, quiet)
}

/// Performs the header of a fold.
fn fold_header(
    instance: &Instance,
    code: &ConstructCode,
    line: u32,
    fold: &Fold,
    frame: &mut Frame,
    memory: &mut Plain,
) -> Result<Header, Trap>
    requires cells { length memory.old.cells.items
        ≡ cell_count_of (program_of instance.now) (length instance.now.input) }
    requires frame { length frame.old ≡ frame_size (program_of instance.now) }
    requires code { FoldCodeIn instance.now line fold.now code.now }
    requires room { statement_room instance.now (fold_statement fold.now)
        ≤ frame_size (program_of instance.now) }
    requires width { IsWidth (count_of (fold_head fold.now).start) }
    requires silent { FunctionsAreSilent (program_of instance.now).functions }
    ensures answer { HeaderAnswers instance.now line fold.now frame.old memory.old result }
    ensures memory { memory.new.cells.items
        ≡ header_cells instance.now line fold.now frame.old memory.old }
    ensures output { memory.new.output.items ≡ memory.old.output.items }
    ensures cells { length memory.new.cells.items ≡ length memory.old.cells.items }
    ensures kept { main_slots (program_of instance.now) frame.new
        ≡ main_slots (program_of instance.now) frame.old }
    ensures size { length frame.new ≡ length frame.old }
    ensures few { IfOk result (λ h. h.blocks ≤ max_blocks) }
    ensures numbers { IfOk result (λ h. (h.low +ℤ pos h.blocks) ≤ℤ i64.MAX) }
{
    let mut quiet = Quiet { memory };
    match header_quietly(instance, code, line, fold, frame, &mut quiet) {
        Ok(header) => Ok(header),
        Err(Halt::Trapped(trap)) => Err(trap),
        Err(Halt::Cancelled { .. }) => unreachable!(),
        Err(Halt::NoMemory) => unreachable!(),
        Err(Halt::Broken) => unreachable!(),
    }
}

/// Performs the header of a top construct.
fn header_of(
    instance: &Instance,
    construct: TopConstruct,
    index: usize,
    frame: &mut Frame,
    memory: &mut Plain,
) -> Result<Header, Trap>
    requires cells { length memory.old.cells.items
        ≡ cell_count_of (program_of instance.now) (length instance.now.input) }
    requires frame { length frame.old ≡ frame_size (program_of instance.now) }
    requires construct { slice_get (constructs_in (program_of instance.now).main) index
        ≡ Some (seen_construct construct) }
    requires silent { FunctionsAreSilent (program_of instance.now).functions }
    ensures header { HeaderDoneAnywhere instance.now (seen_construct construct.entry) frame.old
        memory.old frame.new memory.new result }
    ensures output { memory.new.output.items ≡ memory.old.output.items }
    ensures cells { length memory.new.cells.items ≡ length memory.old.cells.items }
    ensures kept { main_slots (program_of instance.now) frame.new
        ≡ main_slots (program_of instance.now) frame.old }
    ensures size { length frame.new ≡ length frame.old }
    ensures few { IfOk result (λ h. h.blocks ≤ max_blocks) }
    ensures numbers { IfOk result (λ h. (h.low +ℤ pos h.blocks) ≤ℤ i64.MAX) }
{
    let code = &instance.code().constructs[index];
    let line = construct.line;
    match construct.kind {
        ConstructKind::Fold(fold) => fold_header(instance, code, line, fold, frame, memory),
        ConstructKind::Pair(pair) => Ok(Header {
            low: 0,
            blocks: 2,
            start: Row::zeros(pair.carried.len() as u32),
        }),
    }
}

impl Run {
    /// Begins a run of a program: all cells and slots are 0, nothing was emitted, and the first
    /// statement of `main` stands next.
    ///
    /// # Errors
    ///
    /// `AllocError` where there is no memory for it.
    pub fn start(alloc: Global, instance: &Instance) -> Result<Run, AllocError>
        ensures run { IfOk result
            (λ r. IsStateOf (program_of instance.now) (length instance.now.input) r) }
        ensures begins { IfOk result
            (λ r. IsInitial (program_of instance.now) (length instance.now.input) r) }
    {
        let frame = Frame::make(alloc, instance)?;
        let cells = vec![in alloc; 0i64; instance.layout().cells() as usize]?;
        let memory = Plain {
            cells,
            output: Vec::new(alloc),
        };
        Ok(Run {
            frame,
            memory,
            place: 0,
            passed: 0,
        })
    }

    /// Performs statements of `main` up to the next top construct, to the end or to a trap. After a
    /// trap or an error the run is of no further use, but for its output.
    ///
    /// # Errors
    ///
    /// `AllocError` where there is no memory for the output, which is a prefix of the whole then.
    pub fn advance<'a>(&mut self, instance: &Instance<'a>) -> Result<Pause<'a>, AllocError>
        requires run { IsStateOf (program_of instance.now) (length instance.now.input) self.old }
        requires few_constructs { length (constructs_in (program_of instance.now).main) < 2 ^ 32 }
        ensures advanced { IfOk result (λ pause.
            Advanced (program_of instance.now) instance.now.input self.old self.new pause) }
        ensures cut_short { IfErr result (λ why.
            IsCutShort (program_of instance.now) instance.now.input self.old self.new) }
        ensures run { IsStateOf (program_of instance.now) (length instance.now.input) self.new }
    {
        let (place, pause) = advance_from(
            instance,
            self.place,
            self.passed,
            &mut self.frame,
            &mut self.memory,
        )?;
        self.place = place;
        Ok(pause)
    }

    /// Performs the header of the top construct that stands next: of a fold its start and its
    /// range; a pair has two blocks.
    ///
    /// # Errors
    ///
    /// The trap, where one comes, also where there are more than 4,096 blocks. The run is of no
    /// further use then, but for its output.
    pub fn header(&mut self, instance: &Instance, construct: TopConstruct) -> Result<Header, Trap>
        requires run { IsStateOf (program_of instance.now) (length instance.now.input) self.old }
        requires silent { FunctionsAreSilent (program_of instance.now).functions }
        requires construct { construct_first (ahead (program_of instance.now) self.old)
            ≡ Some (seen_construct construct) }
        ensures header { HeaderDone (program_of instance.now) instance.now.input
            (seen_construct construct.entry) self.old self.new result }
        ensures place { self.new.place ≡ self.old.place }
        ensures run { IsStateOf (program_of instance.now) (length instance.now.input) self.new }
        ensures few { IfOk result (λ h. h.blocks ≤ max_blocks) }
        ensures numbers { IfOk result (λ h. (h.low +ℤ pos h.blocks) ≤ℤ i64.MAX) }
    {
        header_of(
            instance,
            construct,
            self.passed,
            &mut self.frame,
            &mut self.memory,
        )
    }

    /// Settles the top construct that stands next: puts its row into its carried slots and goes
    /// past it.
    pub fn settle(&mut self, instance: &Instance, construct: TopConstruct, value: Row)
        requires run { IsStateOf (program_of instance.now) (length instance.now.input) self.old }
        requires construct { construct_first (ahead (program_of instance.now) self.old)
            ≡ Some (seen_construct construct) }
        ensures settled { IsSettled (program_of instance.now) (seen_construct construct.entry)
            self.old self.new value }
        ensures run { IsStateOf (program_of instance.now) (length instance.now.input) self.new }
    {
        let statements = instance.program().main.len();
        prove!(self.place < statements);
        self.frame.set_carried(construct.carried_slots(), value);
        self.place += 1;
        self.passed += 1;
    }

    /// Returns the slots of `main`, with room for calls.
    pub fn frame(&self) -> &Frame
        ensures { result.now ≡ self.now.frame }
    {
        &self.frame
    }

    /// Returns the word of each cell.
    pub fn cells(&self) -> &[i64]
        ensures { result.now ≡ self.now.cells }
    {
        &self.memory.cells
    }

    /// Returns the word of each cell, to be changed by whoever settles a construct.
    pub fn cells_mut(&mut self) -> &mut [i64]
        ensures* writes_back { sem 𝓛 (Lends the_row (Array word 0) self.entry result
            (λ w. record self.old { cells = refilled self.old.cells w })) }
        ensures value { result.now ≡ self.old.cells }
    {
        self.memory.cells.as_mut_slice()
    }

    /// Exchanges the words of the cells for those of a vector, so that whoever settles a construct
    /// can keep the cells in a memory of its own meanwhile.
    pub fn swap_cells(&mut self, cells: &mut Vec<i64>)
        ensures run { self.new ≡ record self.old { cells = cells.old.items } }
        ensures cells { cells.new.items ≡ self.old.cells }
    {
        mem::swap(&mut self.memory.cells, cells);
    }

    /// Ends the run: its cells and what it emitted.
    pub fn finish(self) -> (Vec<i64>, Vec<u8>)
        ensures cells { result.0.items ≡ self.cells }
        ensures output { result.1.items ≡ self.output }
    {
        (self.memory.cells, self.memory.output)
    }
}
