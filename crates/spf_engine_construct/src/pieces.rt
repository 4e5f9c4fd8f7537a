//! The guesses of predictors that are expressions, in pieces that the workers compute.
ghost use Rattle.std.specs.Prelude.{◌≡◌, ◌<◌, ◌≤◌, ◌-◌, ◌+◌, ◌*◌, ◌+ℤ◌, ◌≤ℤ◌, ℕ, length, map, min};
ghost use Rattle.std.specs.Prelude.{pos, slice_get, Some, IfOk, IfSome};
ghost use Rattle.spf_ast.specs.Meaning.{max_blocks};
ghost use Rattle.spf_ast.specs.Carried.{IsWidth};
ghost use Rattle.spf_ast.specs.Construct.{constructs_in, predictors_of};
ghost use Rattle.spf_ast.specs.ConstructView.{construct as seen_construct};
ghost use Rattle.spf_ast.specs.Program.{cell_count_of};
ghost use Rattle.spf_ast.specs.Silence.{FunctionsAreSilent};
ghost use Rattle.spf_exec_instance.specs.Frame.{frame_size};
ghost use Rattle.spf_exec_instance.specs.Instance.{program_of};
ghost use Rattle.spf_engine_construct.specs.Guesses.{Guesses, seen_guess, predicted_at};
ghost use Rattle.spf_engine_construct.specs.Guesses.{guesses_from, piece_of};

use crate::guesses::{ReachedConstruct, number_at, predict};
use spf_exec::pieces::Header;
use spf_guess_statistics::guess::Guess;
use std::alloc::{AllocError, Global};
use std::thread::{Threads, map_indices};

/// The fewest guesses that are worth a thread.
const SMALLEST_PIECE: u64 = 256;

/// How many guesses a piece has: enough that no worker needs two pieces, and that a piece is worth
/// a thread.
fn piece_size(guesses: u64, workers: u64) -> u64
    requires workers { 0 < workers }
    ensures positive { 0 < result }
    ensures enough { guesses ≤ result * workers }
{
    guesses.div_ceil(workers).max(SMALLEST_PIECE)
}

/// The number of pieces where `guesses` guesses are split into pieces of `size`. The last may be
/// shorter.
fn piece_count(guesses: u64, size: u64) -> u64
    requires size { 0 < size }
    ensures enough { guesses ≤ result * size }
    ensures begun { (i : ℕ) → i < result → i * size < guesses }
{
    guesses.div_ceil(size)
}

/// The guesses of expressions for `count` blocks from an index on, in order.
pub(crate) fn predict_piece(
    alloc: Global,
    at: ReachedConstruct,
    header: &Header,
    from: u64,
    count: u64,
) -> Result<Vec<Guess>, AllocError>
    requires construct { slice_get (constructs_in (program_of at.instance.now).main) at.index
        ≡ Some (seen_construct at.construct) }
    requires width { IsWidth (length (predictors_of (seen_construct at.construct))) }
    requires functions { FunctionsAreSilent (program_of at.instance.now).functions }
    requires own_frame { length at.frame.now ≡ frame_size (program_of at.instance.now) }
    requires own_cells { length at.cells.now
        ≡ cell_count_of (program_of at.instance.now) (length at.instance.now.input) }
    requires inside { from + count ≤ header.now.blocks }
    requires few { header.now.blocks ≤ max_blocks }
    requires fits { (header.now.low +ℤ pos header.now.blocks) ≤ℤ i64.MAX }
    ensures guesses { IfOk result (λ r. map seen_guess r.items
        ≡ guesses_from (predicted_at at.entry header.now) from count) }
{
    let mut frame = at.frame.copy(alloc)?;
    let mut guesses = Vec::with_capacity(alloc, count as usize)?;
    for n in 0..count {
        guesses.push(predict(at, number_at(header, from + n), &mut frame))?;
    }
    Ok(guesses)
}

/// The guesses of expressions for all blocks but the first, in pieces of a size, of which the last
/// may be shorter. Each piece is computed in a thread of its own, where one can be started.
fn predict_pieces<R: Threads + Sync>(
    rt: &R,
    alloc: Global,
    at: ReachedConstruct,
    header: &Header,
    size: u64,
) -> Result<Vec<Result<Vec<Guess>, AllocError>>, AllocError>
    requires construct { slice_get (constructs_in (program_of at.instance.now).main) at.index
        ≡ Some (seen_construct at.construct) }
    requires width { IsWidth (length (predictors_of (seen_construct at.construct))) }
    requires functions { FunctionsAreSilent (program_of at.instance.now).functions }
    requires own_frame { length at.frame.now ≡ frame_size (program_of at.instance.now) }
    requires own_cells { length at.cells.now
        ≡ cell_count_of (program_of at.instance.now) (length at.instance.now.input) }
    requires size { 0 < size }
    requires some { 1 ≤ header.now.blocks }
    requires few { header.now.blocks ≤ max_blocks }
    requires fits { (header.now.low +ℤ pos header.now.blocks) ≤ℤ i64.MAX }
    ensures pieces { IfOk result (λ v. (i : ℕ) → IfSome (slice_get v.items i)
        (λ piece. IfOk piece (λ r. map seen_guess r.items
        ≡ piece_of (predicted_at at.entry header.now) (header.now.blocks - 1) size i))) }
    ensures all { IfOk result (λ v. header.now.blocks - 1 ≤ length v.items * size) }
{
    let count = header.blocks - 1;
    map_indices(
        rt,
        alloc,
        piece_count(count, size) as usize,
        &|i: usize| -> Result<Vec<Guess>, AllocError>
            requires construct { slice_get (constructs_in (program_of at.instance.now).main)
                at.index ≡ Some (seen_construct at.construct) }
            requires width { IsWidth (length (predictors_of (seen_construct at.construct))) }
            requires functions { FunctionsAreSilent (program_of at.instance.now).functions }
            requires own_frame { length at.frame.now ≡ frame_size (program_of at.instance.now) }
            requires own_cells { length at.cells.now
                ≡ cell_count_of (program_of at.instance.now) (length at.instance.now.input) }
            requires some { (1 ≤ header.now.blocks) × (count ≡ header.now.blocks - 1) }
            requires begun { i * size < count }
            requires few { header.now.blocks ≤ max_blocks }
            requires fits { (header.now.low +ℤ pos header.now.blocks) ≤ℤ i64.MAX }
            ensures { IfOk result (λ r. map seen_guess r.items
                ≡ piece_of (predicted_at at.entry header.entry.now) (header.entry.now.blocks - 1)
                size i) }
        {
            let done = i as u64 * size;
            predict_piece(alloc, at, header, 1 + done, size.min(count - done))
        },
    )
}

/// Joins pieces of a size, of which the last may be shorter, into one list of `count` guesses.
fn join_pieces(
    alloc: Global,
    pieces: &[Result<Vec<Guess>, AllocError>],
    count: u64,
    size: u64,
) -> Result<Vec<Guess>, AllocError>
    requires all { count ≤ length pieces.now * size }
    ensures guesses { IfOk result (λ r. (guess : Guesses)
        → ((i : ℕ)
        → IfSome (slice_get pieces.now i)
        (λ piece. IfOk piece (λ p. map seen_guess p.items ≡ piece_of guess count size i)))
        → map seen_guess r.items ≡ guesses_from guess 1 count) }
{
    let mut guesses = Vec::with_capacity(alloc, count as usize)?;
    for piece in pieces {
        match piece {
            Ok(part) => guesses.extend_from_slice(part)?,
            Err(_) => return Err(AllocError),
        }
    }
    Ok(guesses)
}

/// The guesses of the construct's expressions for all blocks but the first, in order. There are at
/// most as many threads as workers, and where the guesses are few, the calling thread computes them
/// alone.
///
/// # Errors
///
/// `AllocError` where there is no memory for it.
pub(crate) fn predict_all<R: Threads + Sync>(
    rt: &R,
    alloc: Global,
    at: ReachedConstruct,
    header: &Header,
    workers: u64,
) -> Result<Vec<Guess>, AllocError>
    requires workers { 0 < workers }
    requires construct { slice_get (constructs_in (program_of at.instance.now).main) at.index
        ≡ Some (seen_construct at.construct) }
    requires width { IsWidth (length (predictors_of (seen_construct at.construct))) }
    requires functions { FunctionsAreSilent (program_of at.instance.now).functions }
    requires own_frame { length at.frame.now ≡ frame_size (program_of at.instance.now) }
    requires own_cells { length at.cells.now
        ≡ cell_count_of (program_of at.instance.now) (length at.instance.now.input) }
    requires some { 1 ≤ header.now.blocks }
    requires few { header.now.blocks ≤ max_blocks }
    requires fits { (header.now.low +ℤ pos header.now.blocks) ≤ℤ i64.MAX }
    ensures guesses { IfOk result (λ r. map seen_guess r.items
        ≡ guesses_from (predicted_at at.entry header.now) 1 (header.now.blocks - 1)) }
{
    let count = header.blocks - 1;
    let size = piece_size(count, workers);
    if count <= size {
        return predict_piece(alloc, at, header, 1, count);
    }
    let pieces = predict_pieces(rt, alloc, at, header, size)?;
    join_pieces(alloc, &pieces, count, size)
}
