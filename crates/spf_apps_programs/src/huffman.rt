//! HUF1, decoded in blocks.
ghost use Rattle.std.specs.Prelude.{◌≡◌, ◌≤◌, ◌<◌, ◌*◌, ◌^◌, IfOk};
ghost use Rattle.spf_ast.specs.Lawful.{IsLawful};
ghost use Rattle.spf_ast.specs.declared.syntax.Test.TheVariants.{Ne};
ghost use Rattle.spf_ast.specs.Syntax.{Expression, Fold, Compare, Load, Local};
ghost use Rattle.spf_apps_programs.specs.Writing.{number as number_form};
ghost use Rattle.spf_ast.specs.View.{expression, condition, block as seen_block};
ghost use Rattle.spf_ast.specs.View.{program as seen_program, statement, function as seen_function};
ghost use Rattle.spf_apps_programs.specs.Huffman.{with_bit as bit_form};
ghost use Rattle.spf_apps_programs.specs.Huffman.{bite_whole as bite_whole_form};
ghost use Rattle.spf_apps_programs.specs.Huffman.{bite_bits as bite_bits_form, bite as bite_form};
ghost use Rattle.spf_apps_programs.specs.Huffman.{look_byte as look_byte_form, look as look_form};
ghost use Rattle.spf_apps_programs.specs.Huffman.{table_entry as entry_form, table as table_form};
ghost use Rattle.spf_apps_programs.specs.Huffman.{code_bytes as code_bytes_form};
ghost use Rattle.spf_apps_programs.specs.Huffman.{block_begin as begin_form};
ghost use Rattle.spf_apps_programs.specs.Huffman.{bits_begin as bits_begin_form};
ghost use Rattle.spf_apps_programs.specs.Huffman.{bits_end as bits_end_form};
ghost use Rattle.spf_apps_programs.specs.Huffman.{sym_offset as sym_offset_form};
ghost use Rattle.spf_apps_programs.specs.Huffman.{word_end as word_form, one_bit as bit_block_form};
ghost use Rattle.spf_apps_programs.specs.Huffman.{byte_bits as bits_form, one_byte as byte_form};
ghost use Rattle.spf_apps_programs.specs.Huffman.{body as body_form, head as head_form};
ghost use Rattle.spf_apps_programs.specs.Huffman.{with_byte as with_byte_form};
ghost use Rattle.spf_apps_programs.specs.Huffman.{wanted as wanted_form, symbol_out as symbol_form};
ghost use Rattle.spf_apps_programs.specs.Huffman.{symbols_out as symbols_form};
ghost use Rattle.spf_apps_programs.specs.Huffman.{too_few as too_few_form, output as output_form};
ghost use Rattle.spf_apps_programs.specs.Huffman.{main as main_form, huffman_program};

use crate::blocks::blocks_for;
use spf_apps_builder::expression::{
    binary, call, call_with_two, compare, input, length, load, local, number,
};
use spf_apps_builder::name::{name, names, sized_array};
use spf_apps_builder::program::{Signature, function, program, two_arrays, two_functions};
use spf_apps_builder::statement::{
    Carried, assign, choose, count, declare, emit, fail, fill, fold, on_line, only, rows_of_one,
    store, when,
};
use spf_ast::syntax::{Cond, Expr, Function, Op, Program, Stmt, StmtKind, Test};
use std::alloc::{AllocError, Global};

/// The array of symbols by code word: a symbol and one more at a 1 followed by its code word.
const CODE: u32 = 0;

/// The array of symbols by the offset of the bit that ends their code word.
const SYM: u32 = 1;

/// The functions.
const BITE: u32 = 0;

const LOOK: u32 = 1;

// The slots of `bite`.
const BITE_STATE: u32 = 0;

const BITE_BYTE: u32 = 1;

const BITE_NEW: u32 = 2;

const BITE_BIT: u32 = 3;

// The slots of `look`.
const LOOK_END: u32 = 0;

const LOOK_STATE: u32 = 1;

const LOOK_OFFSET: u32 = 2;

// The slots of `main`.
const WORD: u32 = 0;

const LENGTH: u32 = 1;

const SYMBOL: u32 = 2;

const CARRIED: u32 = 3;

const BLOCK: u32 = 4;

const STATE: u32 = 5;

const OFFSET: u32 = 6;

const BYTE: u32 = 7;

const BIT: u32 = 8;

const WANTED: u32 = 9;

const GOT: u32 = 10;

const OUT_OFFSET: u32 = 11;

/// The state with the next bit of a byte after it.
fn with_bit(alloc: Global, state: u32, byte: u32, bit: u32) -> Result<Expr, AllocError>
    ensures { IfOk result (λ e. expression e ≡ bit_form state byte bit) }
{
    let distance = binary(alloc, Op::Sub, number(7), local(bit));
    let shifted = binary(alloc, Op::Shr, local(byte), distance);
    let lowest = binary(alloc, Op::And, shifted, number(1));
    let moved = binary(alloc, Op::Mul, local(state), number(2));
    binary(alloc, Op::Add, moved, lowest)
}

/// Returns whether a code word is whole, by the state in a slot.
fn is_whole(alloc: Global, state: u32) -> Result<Cond, AllocError>
    ensures { IfOk result (λ c. condition c ≡ Compare Ne (Load 0 (Local state)) (number_form 0)) }
{
    let found = load(alloc, CODE, local(state));
    compare(alloc, Test::Ne, found, number(0))
}

/// Builds the part of `bite` that starts over where a code word is whole.
fn bite_whole(alloc: Global) -> Result<Vec<Stmt>, AllocError>
    ensures { IfOk result (λ v. seen_block v.items ≡ bite_whole_form) }
{
    let again = only(alloc, 10, assign(BITE_NEW, number(1)));
    only(alloc, 10, when(alloc, is_whole(alloc, BITE_NEW), again))
}

/// A bit in `bite`.
fn bite_bits(alloc: Global) -> Result<Vec<Stmt>, AllocError>
    ensures { IfOk result (λ v. seen_block v.items ≡ bite_bits_form) }
{
    let moved = assign(BITE_NEW, with_bit(alloc, BITE_NEW, BITE_BYTE, BITE_BIT));
    let is_lost = compare(alloc, Test::Gt, local(BITE_NEW), number(65535));
    let lost = only(alloc, 9, assign(BITE_NEW, number(0)));
    let checked = choose(is_lost, lost, bite_whole(alloc));
    let step = on_line(alloc, 7, moved, only(alloc, 8, checked));
    let is_found = compare(alloc, Test::Ne, local(BITE_NEW), number(0));
    only(alloc, 6, when(alloc, is_found, step))
}

/// The statements of `bite`.
fn bite_body(alloc: Global) -> Result<Vec<Stmt>, AllocError>
    ensures { IfOk result (λ v. seen_block v.items ≡ bite_form.body) }
{
    let begun = declare(BITE_NEW, local(BITE_STATE));
    let bits = count(BITE_BIT, number(0), number(8), bite_bits(alloc));
    on_line(alloc, 4, begun, only(alloc, 5, bits))
}

/// `bite`, which gives the state after a byte.
fn bite(alloc: Global) -> Result<Function, AllocError>
    ensures { IfOk result (λ f. seen_function f ≡ bite_form) }
{
    let signature = Signature {
        line: 3,
        params: 2,
        answer: BITE_NEW,
        answer_line: 13,
    };
    let slots = names(alloc, &[b"g", b"byte", b"h", b"j"]);
    function(signature, name(alloc, b"bite"), slots, bite_body(alloc))
}

/// A byte in `look`.
fn look_byte(alloc: Global) -> Result<Vec<Stmt>, AllocError>
    ensures { IfOk result (λ v. seen_block v.items ≡ look_byte_form) }
{
    let offset = binary(alloc, Op::Add, number(264), local(LOOK_OFFSET));
    let byte = input(alloc, offset);
    let bitten = call_with_two(alloc, BITE, local(LOOK_STATE), byte);
    let step = only(alloc, 18, assign(LOOK_STATE, bitten));
    let is_inside = compare(alloc, Test::Ge, local(LOOK_OFFSET), number(0));
    only(alloc, 18, when(alloc, is_inside, step))
}

/// The statements of `look`.
fn look_body(alloc: Global) -> Result<Vec<Stmt>, AllocError>
    ensures { IfOk result (λ v. seen_block v.items ≡ look_form.body) }
{
    let begun = declare(LOOK_STATE, number(1));
    let low = binary(alloc, Op::Sub, local(LOOK_END), number(16));
    let bytes = count(LOOK_OFFSET, low, local(LOOK_END), look_byte(alloc));
    on_line(alloc, 16, begun, only(alloc, 17, bytes))
}

/// `look`, which decodes the 16 bytes before an offset.
fn look(alloc: Global) -> Result<Function, AllocError>
    ensures { IfOk result (λ f. seen_function f ≡ look_form) }
{
    let signature = Signature {
        line: 15,
        params: 1,
        answer: LOOK_STATE,
        answer_line: 20,
    };
    let slots = names(alloc, &[b"p", b"h", b"i"]);
    function(signature, name(alloc, b"look"), slots, look_body(alloc))
}

/// The table's entry for a symbol whose code word has the length.
fn table_entry(alloc: Global) -> Result<Vec<Stmt>, AllocError>
    ensures { IfOk result (λ v. seen_block v.items ≡ entry_form) }
{
    let first = binary(alloc, Op::Shl, number(1), local(LENGTH));
    let index = binary(alloc, Op::Add, first, local(WORD));
    let symbol = binary(alloc, Op::Add, local(SYMBOL), number(1));
    let entry = store(CODE, index, symbol);
    let next = assign(WORD, binary(alloc, Op::Add, local(WORD), number(1)));
    let kept = on_line(alloc, 26, entry, only(alloc, 26, next));
    let offset = binary(alloc, Op::Add, number(4), local(SYMBOL));
    let has_length = compare(alloc, Test::Eq, input(alloc, offset), local(LENGTH));
    only(alloc, 26, when(alloc, has_length, kept))
}

/// Fills the table of code words.
fn table(alloc: Global) -> Result<StmtKind, AllocError>
    ensures { IfOk result (λ s. statement s ≡ table_form) }
{
    let symbols = count(SYMBOL, number(0), number(256), table_entry(alloc));
    let longer = assign(WORD, binary(alloc, Op::Mul, local(WORD), number(2)));
    let words = on_line(alloc, 25, symbols, only(alloc, 28, longer));
    count(LENGTH, number(1), number(16), words)
}

/// How many bytes hold code words.
fn code_bytes(alloc: Global) -> Result<Expr, AllocError>
    ensures { IfOk result (λ e. expression e ≡ code_bytes_form) }
{
    binary(alloc, Op::Sub, length(), number(264))
}

/// The first byte of a block: its number times the size.
fn block_begin(alloc: Global, size: u64) -> Result<Expr, AllocError>
    requires { size ≤ 65536 }
    ensures { IfOk result (λ e. expression e ≡ begin_form size) }
{
    binary(alloc, Op::Mul, number(size), local(BLOCK))
}

/// The first bit of a block.
fn bits_begin(alloc: Global, size: u64) -> Result<Expr, AllocError>
    requires { size ≤ 65536 }
    ensures { IfOk result (λ e. expression e ≡ bits_begin_form size) }
{
    binary(alloc, Op::Mul, number(8 * size), local(BLOCK))
}

/// The bit after a block.
fn bits_end(alloc: Global, size: u64) -> Result<Expr, AllocError>
    requires { size ≤ 65536 }
    ensures { IfOk result (λ e. expression e ≡ bits_end_form size) }
{
    binary(alloc, Op::Add, bits_begin(alloc, size), number(8 * size))
}

/// The offset of a bit.
fn sym_offset(alloc: Global, size: u64) -> Result<Expr, AllocError>
    requires { size ≤ 65536 }
    ensures { IfOk result (λ e. expression e ≡ sym_offset_form size) }
{
    let bytes = binary(alloc, Op::Mul, number(8), local(OFFSET));
    let byte = binary(alloc, Op::Add, bits_begin(alloc, size), bytes);
    binary(alloc, Op::Add, byte, local(BIT))
}

/// Keeps the symbol where a code word is whole.
fn word_end(alloc: Global, size: u64) -> Result<Vec<Stmt>, AllocError>
    requires { size ≤ 65536 }
    ensures { IfOk result (λ v. seen_block v.items ≡ word_form size) }
{
    let found = load(alloc, CODE, local(STATE));
    let kept = store(SYM, sym_offset(alloc, size), found);
    let again = assign(STATE, number(1));
    let whole = on_line(alloc, 40, kept, only(alloc, 40, again));
    only(alloc, 40, when(alloc, is_whole(alloc, STATE), whole))
}

/// A bit of a block.
fn one_bit(alloc: Global, size: u64) -> Result<Vec<Stmt>, AllocError>
    requires { size ≤ 65536 }
    ensures { IfOk result (λ v. seen_block v.items ≡ bit_block_form size) }
{
    let moved = assign(STATE, with_bit(alloc, STATE, BYTE, BIT));
    let is_lost = compare(alloc, Test::Gt, local(STATE), number(65535));
    let lost = only(alloc, 39, assign(STATE, number(0)));
    let checked = choose(is_lost, lost, word_end(alloc, size));
    let step = on_line(alloc, 38, moved, only(alloc, 39, checked));
    let is_found = compare(alloc, Test::Ne, local(STATE), number(0));
    only(alloc, 37, when(alloc, is_found, step))
}

/// The bits of a byte.
fn byte_bits(alloc: Global, size: u64) -> Result<Vec<Stmt>, AllocError>
    requires { size ≤ 65536 }
    ensures { IfOk result (λ v. seen_block v.items ≡ bits_form size) }
{
    let behind = binary(alloc, Op::Add, number(264), block_begin(alloc, size));
    let offset = binary(alloc, Op::Add, behind, local(OFFSET));
    let read = declare(BYTE, input(alloc, offset));
    let bits = count(BIT, number(0), number(8), one_bit(alloc, size));
    on_line(alloc, 35, read, only(alloc, 36, bits))
}

/// A byte of a block.
fn one_byte(alloc: Global, size: u64) -> Result<Vec<Stmt>, AllocError>
    requires { size ≤ 65536 }
    ensures { IfOk result (λ v. seen_block v.items ≡ byte_form size) }
{
    let offset = binary(alloc, Op::Add, block_begin(alloc, size), local(OFFSET));
    let is_inside = compare(alloc, Test::Lt, offset, code_bytes(alloc));
    only(alloc, 34, when(alloc, is_inside, byte_bits(alloc, size)))
}

/// What a block does.
fn body(alloc: Global, size: u64) -> Result<Vec<Stmt>, AllocError>
    requires { size ≤ 65536 }
    ensures { IfOk result (λ v. seen_block v.items ≡ body_form size) }
{
    let low = bits_begin(alloc, size);
    let high = bits_end(alloc, size);
    let cleared = fill(SYM, low, high, number(0));
    let begun = declare(STATE, local(CARRIED));
    let bytes = count(OFFSET, number(0), number(size), one_byte(alloc, size));
    let bytes = only(alloc, 33, bytes);
    on_line(alloc, 31, cleared, on_line(alloc, 32, begun, bytes))
}

/// The fold over blocks.
fn blocks(alloc: Global, size: u64) -> Result<StmtKind, AllocError>
    requires some { 1 ≤ size }
    requires few { size ≤ 65536 }
    ensures { IfOk result (λ s. statement s ≡ Fold (head_form size) (body_form size)) }
{
    let carried = Carried {
        slot: CARRIED,
        start: 1,
        next: STATE,
        next_line: 45,
    };
    let count = blocks_for(alloc, code_bytes(alloc), size);
    let guess = call(alloc, LOOK, block_begin(alloc, size));
    let rows = rows_of_one(alloc, carried, guess);
    fold(alloc, rows, BLOCK, count, body(alloc, size))
}

/// A number with a byte of the header after it.
fn with_byte(alloc: Global, high: Result<Expr, AllocError>, offset: u64) -> Result<Expr, AllocError>
    requires { offset < 2 ^ 63 }
    ensures { (a : Expression) → IfOk high (λ e. expression e ≡ a)
        → IfOk result (λ e. expression e ≡ with_byte_form a offset) }
{
    let moved = binary(alloc, Op::Mul, high, number(256));
    binary(alloc, Op::Add, moved, input(alloc, number(offset)))
}

/// The count of symbols in the header.
fn symbol_count(alloc: Global) -> Result<Expr, AllocError>
    ensures { IfOk result (λ e. expression e ≡ wanted_form) }
{
    let first = input(alloc, number(260));
    let second = with_byte(alloc, first, 261);
    let third = with_byte(alloc, second, 262);
    with_byte(alloc, third, 263)
}

/// Writes a symbol where a code word ends, as long as symbols are wanted.
fn symbol_out(alloc: Global) -> Result<Vec<Stmt>, AllocError>
    ensures { IfOk result (λ v. seen_block v.items ≡ symbol_form) }
{
    let kept = load(alloc, SYM, local(OUT_OFFSET));
    let written = emit(binary(alloc, Op::Sub, kept, number(1)));
    let more = assign(GOT, binary(alloc, Op::Add, local(GOT), number(1)));
    let symbol = on_line(alloc, 50, written, only(alloc, 50, more));
    let is_wanted = compare(alloc, Test::Lt, local(GOT), local(WANTED));
    let choice = only(alloc, 50, when(alloc, is_wanted, symbol));
    let ends = load(alloc, SYM, local(OUT_OFFSET));
    let is_end = compare(alloc, Test::Ne, ends, number(0));
    only(alloc, 50, when(alloc, is_end, choice))
}

/// Writes the symbols.
fn symbols_out(alloc: Global) -> Result<StmtKind, AllocError>
    ensures { IfOk result (λ s. statement s ≡ symbols_form) }
{
    let bits = binary(alloc, Op::Mul, number(8), code_bytes(alloc));
    count(OUT_OFFSET, number(0), bits, symbol_out(alloc))
}

/// Traps where there are fewer symbols than the header wants.
fn too_few(alloc: Global) -> Result<StmtKind, AllocError>
    ensures { IfOk result (λ s. statement s ≡ too_few_form) }
{
    let is_short = compare(alloc, Test::Lt, local(GOT), local(WANTED));
    when(alloc, is_short, only(alloc, 53, fail(1)))
}

/// Writes the output.
fn output(alloc: Global) -> Result<Vec<Stmt>, AllocError>
    ensures { IfOk result (λ v. seen_block v.items ≡ output_form) }
{
    let none = declare(GOT, number(0));
    let short = only(alloc, 52, too_few(alloc));
    let symbols = on_line(alloc, 49, symbols_out(alloc), short);
    let wanted = declare(WANTED, symbol_count(alloc));
    on_line(alloc, 47, wanted, on_line(alloc, 48, none, symbols))
}

/// The statements of `main`.
fn statements(alloc: Global, size: u64) -> Result<Vec<Stmt>, AllocError>
    requires some { 1 ≤ size }
    requires few { size ≤ 65536 }
    ensures { IfOk result (λ v. seen_block v.items ≡ main_form size) }
{
    let first = declare(WORD, number(0));
    let decoded = on_line(alloc, 30, blocks(alloc, size), output(alloc));
    let words = on_line(alloc, 24, table(alloc), decoded);
    on_line(alloc, 23, first, words)
}

/// The program's parts.
fn build(alloc: Global, size: u64) -> Result<Program, AllocError>
    requires some { 1 ≤ size }
    requires few { size ≤ 65536 }
    ensures { IfOk result (λ p. seen_program p ≡ huffman_program size) }
{
    let code = sized_array(alloc, b"code", 0, 65536, 1);
    let sym = sized_array(alloc, b"sym", 8, 8 * size, 2);
    let arrays = two_arrays(alloc, code, sym);
    let functions = two_functions(alloc, bite(alloc), look(alloc));
    let slots: [&[u8]; 12] = [
        b"v", b"n", b"y", b"s", b"k", b"h", b"i", b"byte", b"j", b"want", b"got", b"i",
    ];
    let slots = names(alloc, &slots);
    program(1, arrays, functions, slots, statements(alloc, size))
}

/// Builds the program that decodes HUF1 in blocks of this size.
pub fn huffman(alloc: Global, size: u64) -> Result<Program, AllocError>
    requires some { 1 ≤ size }
    requires few { size ≤ 65536 }
    ensures program { IfOk result (λ p. seen_program p ≡ huffman_program size) }
    ensures lawful { IfOk result (λ p. IsLawful (seen_program p)) }
{
    // Law: the program that is built is lawful.
    crate::laws::programs_are_lawful();
    build(alloc, size)
}
