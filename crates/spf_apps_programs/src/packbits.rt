//! PackBits, unpacked in blocks.
ghost use Rattle.std.specs.Prelude.{◌≡◌, ◌≤◌, IfOk};
ghost use Rattle.spf_ast.specs.Lawful.{IsLawful};
ghost use Rattle.spf_ast.specs.Syntax.{Fold};
ghost use Rattle.spf_ast.specs.View.{expression, block as seen_block, program as seen_program};
ghost use Rattle.spf_ast.specs.View.{statement};
ghost use Rattle.spf_apps_programs.specs.PackBits.{block_begin as begin_form};
ghost use Rattle.spf_apps_programs.specs.PackBits.{block_end as end_form, header as header_form};
ghost use Rattle.spf_apps_programs.specs.PackBits.{copied as copied_form};
ghost use Rattle.spf_apps_programs.specs.PackBits.{repeated as repeated_form};
ghost use Rattle.spf_apps_programs.specs.PackBits.{data_byte as data_form, one_byte as byte_form};
ghost use Rattle.spf_apps_programs.specs.PackBits.{block_bytes as bytes_form, body as body_form};
ghost use Rattle.spf_apps_programs.specs.PackBits.{output as output_form, head as head_form};
ghost use Rattle.spf_apps_programs.specs.PackBits.{packbits_program};

use crate::blocks::blocks_for;
use spf_apps_builder::expression::{binary, compare, input, length, load, local, number};
use spf_apps_builder::name::{names, sized_array};
use spf_apps_builder::program::{one_array, program};
use spf_apps_builder::statement::{
    Carried, assign, choose, count, declare, emit, fill, fold, on_line, only, rows_of_one, store,
    when,
};
use spf_ast::syntax::{Expr, Op, Program, Stmt, StmtKind, Test};
use std::alloc::{AllocError, Global};

// The slots of `main`.
const CARRIED: u32 = 0;

const BLOCK: u32 = 1;

const LEFT: u32 = 2;

const OFFSET: u32 = 3;

const BYTE: u32 = 4;

const OUT_OFFSET: u32 = 5;

const OUT_TURN: u32 = 6;

/// The array that says how often each byte of the input is written.
const TIMES: u32 = 0;

/// The first offset of a block: its number times the size.
fn block_begin(alloc: Global, size: u64) -> Result<Expr, AllocError>
    requires { size ≤ 65536 }
    ensures { IfOk result (λ e. expression e ≡ begin_form size) }
{
    binary(alloc, Op::Mul, number(size), local(BLOCK))
}

/// The offset after a block.
fn block_end(alloc: Global, size: u64) -> Result<Expr, AllocError>
    requires { size ≤ 65536 }
    ensures { IfOk result (λ e. expression e ≡ end_form size) }
{
    binary(alloc, Op::Add, block_begin(alloc, size), number(size))
}

/// What a header leaves to be done.
fn header(alloc: Global) -> Result<Vec<Stmt>, AllocError>
    ensures { IfOk result (λ v. seen_block v.items ≡ header_form) }
{
    let copies = binary(alloc, Op::Add, local(BYTE), number(1));
    let is_copy = compare(alloc, Test::Lt, local(BYTE), number(128));
    let copy = when(alloc, is_copy, only(alloc, 11, assign(LEFT, copies)));
    let repeats = binary(alloc, Op::Sub, local(BYTE), number(257));
    let is_repeat = compare(alloc, Test::Gt, local(BYTE), number(128));
    let repeat = when(alloc, is_repeat, only(alloc, 14, assign(LEFT, repeats)));
    on_line(alloc, 10, copy, only(alloc, 13, repeat))
}

/// A byte that is copied.
fn copy_byte(alloc: Global) -> Result<Vec<Stmt>, AllocError>
    ensures { IfOk result (λ v. seen_block v.items ≡ copied_form) }
{
    let once = store(TIMES, local(OFFSET), number(1));
    let fewer = assign(LEFT, binary(alloc, Op::Sub, local(LEFT), number(1)));
    on_line(alloc, 18, once, only(alloc, 19, fewer))
}

/// A byte that is repeated.
fn repeat_byte(alloc: Global) -> Result<Vec<Stmt>, AllocError>
    ensures { IfOk result (λ v. seen_block v.items ≡ repeated_form) }
{
    let times = binary(alloc, Op::Sub, number(0), local(LEFT));
    let often = store(TIMES, local(OFFSET), times);
    on_line(alloc, 21, often, only(alloc, 22, assign(LEFT, number(0))))
}

/// A byte of a packet's data.
fn data_byte(alloc: Global) -> Result<Vec<Stmt>, AllocError>
    ensures { IfOk result (λ v. seen_block v.items ≡ data_form) }
{
    let is_copied = compare(alloc, Test::Gt, local(LEFT), number(0));
    only(
        alloc,
        17,
        choose(is_copied, copy_byte(alloc), repeat_byte(alloc)),
    )
}

/// A byte of the input.
fn one_byte(alloc: Global) -> Result<Vec<Stmt>, AllocError>
    ensures { IfOk result (λ v. seen_block v.items ≡ byte_form) }
{
    let read = declare(BYTE, input(alloc, local(OFFSET)));
    let is_header = compare(alloc, Test::Eq, local(LEFT), number(0));
    let packet = choose(is_header, header(alloc), data_byte(alloc));
    on_line(alloc, 8, read, only(alloc, 9, packet))
}

/// The bytes of a block.
fn block_bytes(alloc: Global, size: u64) -> Result<StmtKind, AllocError>
    requires { size ≤ 65536 }
    ensures { IfOk result (λ s. statement s ≡ bytes_form size) }
{
    let is_inside = compare(alloc, Test::Lt, local(OFFSET), length());
    let byte = only(alloc, 7, when(alloc, is_inside, one_byte(alloc)));
    count(
        OFFSET,
        block_begin(alloc, size),
        block_end(alloc, size),
        byte,
    )
}

/// What a block does.
fn body(alloc: Global, size: u64) -> Result<Vec<Stmt>, AllocError>
    requires { size ≤ 65536 }
    ensures { IfOk result (λ v. seen_block v.items ≡ body_form size) }
{
    let cleared = fill(
        TIMES,
        block_begin(alloc, size),
        block_end(alloc, size),
        number(0),
    );
    let bytes = only(alloc, 6, block_bytes(alloc, size));
    let left = declare(LEFT, local(CARRIED));
    on_line(alloc, 4, cleared, on_line(alloc, 5, left, bytes))
}

/// The fold over blocks.
fn blocks(alloc: Global, size: u64) -> Result<StmtKind, AllocError>
    requires some { 1 ≤ size }
    requires few { size ≤ 65536 }
    ensures { IfOk result (λ s. statement s ≡ Fold (head_form size) (body_form size)) }
{
    let carried = Carried {
        slot: CARRIED,
        start: 0,
        next: LEFT,
        next_line: 27,
    };
    let count = blocks_for(alloc, length(), size);
    let rows = rows_of_one(alloc, carried, number(0));
    fold(alloc, rows, BLOCK, count, body(alloc, size))
}

/// Writes each byte of the input as often as it was found to be written.
fn output(alloc: Global) -> Result<StmtKind, AllocError>
    ensures { IfOk result (λ s. statement s ≡ output_form) }
{
    let emitted = only(alloc, 31, emit(input(alloc, local(OUT_OFFSET))));
    let times = load(alloc, TIMES, local(OUT_OFFSET));
    let repeated = only(alloc, 30, count(OUT_TURN, number(0), times, emitted));
    count(OUT_OFFSET, number(0), length(), repeated)
}

/// The statements of `main`.
fn statements(alloc: Global, size: u64) -> Result<Vec<Stmt>, AllocError>
    requires some { 1 ≤ size }
    requires few { size ≤ 65536 }
    ensures { IfOk result (λ v. seen_block v.items ≡ (packbits_program size).main) }
{
    let written = only(alloc, 29, output(alloc));
    on_line(alloc, 3, blocks(alloc, size), written)
}

/// The program's parts.
fn build(alloc: Global, size: u64) -> Result<Program, AllocError>
    requires some { 1 ≤ size }
    requires few { size ≤ 65536 }
    ensures { IfOk result (λ p. seen_program p ≡ packbits_program size) }
{
    let arrays = one_array(alloc, sized_array(alloc, b"rep", 1, size, 1));
    let slots = names(alloc, &[b"s", b"k", b"t", b"i", b"b", b"i", b"j"]);
    program(
        1,
        arrays,
        Ok(Vec::new(alloc)),
        slots,
        statements(alloc, size),
    )
}

/// Builds the program that unpacks PackBits in blocks of this size.
pub fn packbits(alloc: Global, size: u64) -> Result<Program, AllocError>
    requires some { 1 ≤ size }
    requires few { size ≤ 65536 }
    ensures program { IfOk result (λ p. seen_program p ≡ packbits_program size) }
    ensures lawful { IfOk result (λ p. IsLawful (seen_program p)) }
{
    // Law: the program that is built is lawful.
    crate::laws::programs_are_lawful();
    build(alloc, size)
}
