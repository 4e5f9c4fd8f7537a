//! LEX1 machines, run in blocks.
ghost use Rattle.std.specs.Prelude.{◌≡◌, ◌≤◌, ◌<◌, ◌^◌, IfOk};
ghost use Rattle.spf_apps_programs.specs.Laws.{max_count};
ghost use Rattle.spf_ast.specs.Lawful.{IsLawful};
ghost use Rattle.spf_ast.specs.Syntax.{Fold};
ghost use Rattle.spf_ast.specs.View.{expression, block as seen_block, program as seen_program};
ghost use Rattle.spf_ast.specs.View.{statement, function as seen_function};
ghost use Rattle.spf_apps_programs.specs.Lexer.{entry_at as entry_form};
ghost use Rattle.spf_apps_programs.specs.Lexer.{look_byte as look_byte_form, look as look_form};
ghost use Rattle.spf_apps_programs.specs.Lexer.{block_begin as begin_form, block_end as end_form};
ghost use Rattle.spf_apps_programs.specs.Lexer.{content as content_form, step as step_form};
ghost use Rattle.spf_apps_programs.specs.Lexer.{one_byte as byte_form, body as body_form};
ghost use Rattle.spf_apps_programs.specs.Lexer.{head as head_form, offset_byte as offset_byte_form};
ghost use Rattle.spf_apps_programs.specs.Lexer.{token as token_form, output as output_form};
ghost use Rattle.spf_apps_programs.specs.Lexer.{program_for as program_form, lexer_program};

use crate::blocks::blocks_for;
use spf_apps_builder::expression::{binary, call, compare, input, length, load, local, number};
use spf_apps_builder::name::{name, names, sized_array};
use spf_apps_builder::program::{Signature, function, one_array, one_function, program};
use spf_apps_builder::statement::{
    Carried, assign, count, declare, emit, fill, fold, on_line, only, rows_of_one, store, when,
};
use spf_ast::syntax::{Expr, Function, Op, Program, Stmt, StmtKind, Test};
use std::alloc::{AllocError, Global};

/// The array of marks by offset.
const MARK: u32 = 0;

/// The function.
const LOOK: u32 = 0;

// The slots of `look`.
const LOOK_END: u32 = 0;

const LOOK_STATE: u32 = 1;

const LOOK_OFFSET: u32 = 2;

// The slots of `main`.
const CARRIED: u32 = 0;

const BLOCK: u32 = 1;

const STATE: u32 = 2;

const OFFSET: u32 = 3;

const ENTRY: u32 = 4;

const OUT_OFFSET: u32 = 5;

/// What a program is made for: blocks of a size, and machines with a number of classes, whose files
/// have this length.
#[derive(Clone, Copy)]
struct Sizes {
    block: u64,
    classes: u64,
    machine: u64,
    ghost some: { 1 ≤ block },
    ghost few: { block ≤ 65536 },
    ghost few_classes: { classes ≤ max_count },
    ghost short: { machine ≤ 65536 },
}

/// The offset of the entry for the state in one slot and the byte at the offset in another slot.
fn entry_at(alloc: Global, sizes: Sizes, state: u32, at: u32) -> Result<Expr, AllocError>
    ensures { IfOk result (λ e. expression e ≡ entry_form sizes.classes sizes.machine state at) }
{
    let behind = binary(alloc, Op::Add, number(sizes.machine), local(at));
    let byte = input(alloc, behind);
    let class = input(alloc, binary(alloc, Op::Add, number(6), byte));
    let row = binary(alloc, Op::Mul, local(state), number(sizes.classes));
    let index = binary(alloc, Op::Add, row, class);
    let offset = binary(alloc, Op::Mul, number(2), index);
    binary(alloc, Op::Add, number(262), offset)
}

/// A byte in `look`.
fn look_byte(alloc: Global, sizes: Sizes) -> Result<Vec<Stmt>, AllocError>
    ensures { IfOk result (λ v. seen_block v.items ≡ look_byte_form sizes.classes sizes.machine) }
{
    let next = input(alloc, entry_at(alloc, sizes, LOOK_STATE, LOOK_OFFSET));
    let step = only(alloc, 5, assign(LOOK_STATE, next));
    let is_inside = compare(alloc, Test::Ge, local(LOOK_OFFSET), number(0));
    only(alloc, 5, when(alloc, is_inside, step))
}

/// The statements of `look`.
fn look_body(alloc: Global, sizes: Sizes) -> Result<Vec<Stmt>, AllocError>
    ensures { IfOk result (λ v. seen_block v.items ≡ (look_form sizes.classes sizes.machine).body) }
{
    let begun = declare(LOOK_STATE, number(0));
    let low = binary(alloc, Op::Sub, local(LOOK_END), number(32));
    let bytes = count(LOOK_OFFSET, low, local(LOOK_END), look_byte(alloc, sizes));
    on_line(alloc, 3, begun, only(alloc, 4, bytes))
}

/// `look`, which runs the machine over the 32 bytes before an offset.
fn look(alloc: Global, sizes: Sizes) -> Result<Function, AllocError>
    ensures { IfOk result (λ f. seen_function f ≡ look_form sizes.classes sizes.machine) }
{
    let signature = Signature {
        line: 2,
        params: 1,
        answer: LOOK_STATE,
        answer_line: 7,
    };
    let slots = names(alloc, &[b"p", b"q", b"i"]);
    function(
        signature,
        name(alloc, b"look"),
        slots,
        look_body(alloc, sizes),
    )
}

/// The first offset of a block: its number times the size.
fn block_begin(alloc: Global, sizes: Sizes) -> Result<Expr, AllocError>
    ensures { IfOk result (λ e. expression e ≡ begin_form sizes.block) }
{
    binary(alloc, Op::Mul, number(sizes.block), local(BLOCK))
}

/// The offset after a block.
fn block_end(alloc: Global, sizes: Sizes) -> Result<Expr, AllocError>
    ensures { IfOk result (λ e. expression e ≡ end_form sizes.block) }
{
    binary(
        alloc,
        Op::Add,
        block_begin(alloc, sizes),
        number(sizes.block),
    )
}

/// How many bytes are read.
fn content(alloc: Global, sizes: Sizes) -> Result<Expr, AllocError>
    ensures { IfOk result (λ e. expression e ≡ content_form sizes.machine) }
{
    binary(alloc, Op::Sub, length(), number(sizes.machine))
}

/// A step of the machine.
fn step(alloc: Global, sizes: Sizes) -> Result<Vec<Stmt>, AllocError>
    ensures { IfOk result (λ v. seen_block v.items ≡ step_form sizes.classes sizes.machine) }
{
    let entry = declare(ENTRY, entry_at(alloc, sizes, STATE, OFFSET));
    let mark = input(alloc, binary(alloc, Op::Add, local(ENTRY), number(1)));
    let marked = store(MARK, local(OFFSET), mark);
    let next = only(alloc, 17, assign(STATE, input(alloc, local(ENTRY))));
    on_line(alloc, 15, entry, on_line(alloc, 16, marked, next))
}

/// A byte of a block.
fn one_byte(alloc: Global, sizes: Sizes) -> Result<Vec<Stmt>, AllocError>
    ensures { IfOk result (λ v. seen_block v.items ≡ byte_form sizes.classes sizes.machine) }
{
    let is_inside = compare(alloc, Test::Lt, local(OFFSET), content(alloc, sizes));
    only(alloc, 14, when(alloc, is_inside, step(alloc, sizes)))
}

/// What a block does.
fn body(alloc: Global, sizes: Sizes) -> Result<Vec<Stmt>, AllocError>
    ensures { IfOk result
        (λ v. seen_block v.items ≡ body_form sizes.block sizes.classes sizes.machine) }
{
    let low = block_begin(alloc, sizes);
    let high = block_end(alloc, sizes);
    let cleared = fill(MARK, low, high, number(0));
    let begun = declare(STATE, local(CARRIED));
    let low = block_begin(alloc, sizes);
    let high = block_end(alloc, sizes);
    let bytes = only(alloc, 13, count(OFFSET, low, high, one_byte(alloc, sizes)));
    on_line(alloc, 11, cleared, on_line(alloc, 12, begun, bytes))
}

/// The fold over blocks.
fn blocks(alloc: Global, sizes: Sizes) -> Result<StmtKind, AllocError>
    ensures { IfOk result (λ s. statement s
        ≡ Fold (head_form sizes.block sizes.machine)
        (body_form sizes.block sizes.classes sizes.machine)) }
{
    let carried = Carried {
        slot: CARRIED,
        start: 0,
        next: STATE,
        next_line: 20,
    };
    let count = blocks_for(alloc, content(alloc, sizes), sizes.block);
    let guess = call(alloc, LOOK, block_begin(alloc, sizes));
    let rows = rows_of_one(alloc, carried, guess);
    fold(alloc, rows, BLOCK, count, body(alloc, sizes))
}

/// Writes a byte of the offset.
fn emit_offset(alloc: Global, bits: u64) -> Result<StmtKind, AllocError>
    requires { bits < 2 ^ 63 }
    ensures { IfOk result (λ s. statement s ≡ offset_byte_form bits) }
{
    let shifted = binary(alloc, Op::Shr, local(OUT_OFFSET), number(bits));
    emit(binary(alloc, Op::And, shifted, number(255)))
}

/// Writes a token.
fn token(alloc: Global) -> Result<Vec<Stmt>, AllocError>
    ensures { IfOk result (λ v. seen_block v.items ≡ token_form) }
{
    let mark = emit(load(alloc, MARK, local(OUT_OFFSET)));
    let highest = emit(binary(alloc, Op::Shr, local(OUT_OFFSET), number(24)));
    let lowest = emit(binary(alloc, Op::And, local(OUT_OFFSET), number(255)));
    let bytes = only(alloc, 28, lowest);
    let bytes = on_line(alloc, 27, emit_offset(alloc, 8), bytes);
    let bytes = on_line(alloc, 26, emit_offset(alloc, 16), bytes);
    on_line(alloc, 24, mark, on_line(alloc, 25, highest, bytes))
}

/// Writes the tokens.
fn output(alloc: Global, sizes: Sizes) -> Result<StmtKind, AllocError>
    ensures { IfOk result (λ s. statement s ≡ output_form sizes.machine) }
{
    let mark = load(alloc, MARK, local(OUT_OFFSET));
    let is_token = compare(alloc, Test::Ne, mark, number(0));
    let choice = only(alloc, 23, when(alloc, is_token, token(alloc)));
    count(OUT_OFFSET, number(0), content(alloc, sizes), choice)
}

/// The statements of `main`.
fn statements(alloc: Global, sizes: Sizes) -> Result<Vec<Stmt>, AllocError>
    ensures { IfOk result
        (λ v. seen_block v.items ≡ (program_form sizes.block sizes.classes sizes.machine).main) }
{
    let written = only(alloc, 22, output(alloc, sizes));
    on_line(alloc, 10, blocks(alloc, sizes), written)
}

/// The program for these sizes.
fn program_for(alloc: Global, sizes: Sizes) -> Result<Program, AllocError>
    ensures { IfOk result
        (λ p. seen_program p ≡ program_form sizes.block sizes.classes sizes.machine) }
{
    let arrays = one_array(alloc, sized_array(alloc, b"mark", 1, sizes.block, 1));
    let functions = one_function(alloc, look(alloc, sizes));
    let slots = names(alloc, &[b"s", b"k", b"q", b"i", b"e", b"i"]);
    program(1, arrays, functions, slots, statements(alloc, sizes))
}

/// Builds the program that runs machines with `states` states and `classes` classes over the bytes
/// after them, in blocks of `size` bytes.
pub fn lexer(alloc: Global, size: u64, states: u64, classes: u64) -> Result<Program, AllocError>
    requires some { 1 ≤ size }
    requires few { size ≤ 65536 }
    requires some_states { 1 ≤ states }
    requires few_states { states ≤ max_count }
    requires some_classes { 1 ≤ classes }
    requires few_classes { classes ≤ max_count }
    ensures program { IfOk result (λ p. seen_program p ≡ lexer_program size states classes) }
    ensures lawful { IfOk result (λ p. IsLawful (seen_program p)) }
{
    // Law: the program that is built is lawful.
    crate::laws::programs_are_lawful();
    let sizes = Sizes {
        block: size,
        classes,
        machine: 262 + 2 * (states * classes),
    };
    program_for(alloc, sizes)
}
