//! The guesses for a construct's blocks.
ghost use Rattle.std.specs.Prelude.{◌≡◌, ◌<◌, ◌≤◌, ◌-◌, ◌+◌, ◌+ℤ◌, ◌≤ℤ◌, ◌∷◌, [], ℕ, List, length};
ghost use Rattle.std.specs.Prelude.{map, pos, slice_get, Some, Ok, IfOk};
ghost use Rattle.spf_ast.specs.Meaning.{max_blocks};
ghost use Rattle.spf_ast.specs.Carried.{IsWidth};
ghost use Rattle.spf_ast.specs.Construct.{constructs_in, predictors_of};
ghost use Rattle.spf_ast.specs.ConstructView.{construct as seen_construct};
ghost use Rattle.spf_ast.specs.Program.{cell_count_of};
ghost use Rattle.spf_ast.specs.Silence.{FunctionsAreSilent};
ghost use Rattle.spf_ast.specs.View.{predictor as seen_predictor};
ghost use Rattle.spf_exec_instance.specs.Frame.{frame_size};
ghost use Rattle.spf_exec_instance.specs.Instance.{program_of};
ghost use Rattle.spf_guess_statistics.specs.Guess.{Hosts, no_hosts, Telling, part_by, parts_from};
ghost use Rattle.spf_guess_statistics.specs.Guess.{guess_of};
ghost use Rattle.spf_guess.specs.Answers.{supplied, WereTold, WereToldNoMore};
ghost use Rattle.spf_guess.specs.Missing.{AreAllHandedIn};
ghost use Rattle.spf_engine_construct.specs.Guesses.{seen_guess, predicted, predicted_at, answered};
ghost use Rattle.spf_engine_construct.specs.Guesses.{Results, block_guess, guesses_from};
ghost use Rattle.spf_engine_construct.specs.Guesses.{IsHandedIn};

use crate::pieces::{predict_all, predict_piece};
use spf_ast::construct::TopConstruct;
use spf_ast::row::Row;
use spf_ast::syntax::Predict;
use spf_exec::block_run::exec_predictor;
use spf_exec::frame::Frame;
use spf_exec::pieces::Header;
use spf_exec_instance::instance::Instance;
use spf_guess::Predictor;
use spf_guess::hosts::ask;
use spf_guess_statistics::guess::Guess;
use std::alloc::{AllocError, Global};
use std::thread::Threads;

/// A top construct that a run has reached, with its header done, and what its guesses depend on.
#[derive(Clone, Copy)]
pub struct ReachedConstruct<'a> {
    /// The program with its input.
    pub instance: &'a Instance<'a>,
    /// The construct.
    pub construct: TopConstruct<'a>,
    /// Which of the program's top constructs it is, counted from 0.
    pub index: u32,
    /// The slots of `main`, with room for calls.
    pub frame: &'a Frame,
    /// The word of each cell.
    pub cells: &'a [i64],
}

/// The guess of the construct's expressions for a block number where the run stands; a part that a
/// host guesses is 0. `frame` is a frame to run them in.
pub(crate) fn predict(at: ReachedConstruct, number: i64, frame: &mut Frame) -> Guess
    requires construct { slice_get (constructs_in (program_of at.instance.now).main) at.index
        ≡ Some (seen_construct at.construct) }
    requires width { IsWidth (length (predictors_of (seen_construct at.construct))) }
    requires functions { FunctionsAreSilent (program_of at.instance.now).functions }
    requires own_frame { length at.frame.now ≡ frame_size (program_of at.instance.now) }
    requires own_cells { length at.cells.now
        ≡ cell_count_of (program_of at.instance.now) (length at.instance.now.input) }
    requires size { length frame.old ≡ frame_size (program_of at.instance.now) }
    ensures guess { seen_guess result ≡ predicted at.entry number }
    ensures size { length frame.new ≡ length frame.old }
{
    let width = at.construct.predictors().len();
    let mut words = [0; 4];
    let mut blind = false;
    for index in 0..width {
        frame.restore(at.frame);
        let word = exec_predictor(
            at.instance,
            at.construct,
            at.index,
            index as u32,
            number,
            frame,
            at.cells,
        );
        blind |= word.is_err();
        words[index] = word.unwrap_or(0);
    }
    Guess {
        value: Row::of(&words[..width]),
        blind,
    }
}

/// The guess of one part for a block number: a host's answer, or this word where an expression
/// guesses it.
fn ask_part(predictor: &Predict, word: i64, number: i64, hosts: &mut Vec<Box<dyn Predictor>>) -> i64
    requires handed_in { AreAllHandedIn (length hosts.old.items)
        (seen_predictor predictor.now ∷ []) }
    ensures word { (before : Hosts) (telling : List Telling)
        → WereTold before telling (supplied answer hosts.old.items)
        → result
        ≡ (part_by (answered before telling number) (Ok word) (seen_predictor predictor.now)).word }
    ensures told { WereToldNoMore (supplied answer hosts.old.items)
        (supplied answer hosts.new.items) }
    ensures count { length hosts.new.items ≡ length hosts.old.items }
{
    match predictor {
        Predict::Expr(_) => word,
        Predict::Host(host) => ask(hosts, *host, number),
    }
}

/// A guess of expressions with the hosts' answers in the parts that hosts guess. They are asked
/// from left to right, once for each.
fn ask_row(
    predictors: &[Predict],
    predicted: &Guess,
    number: i64,
    hosts: &mut Vec<Box<dyn Predictor>>,
) -> Guess
    requires width { IsWidth (length predictors.now) }
    requires same_width { length predicted.now.value ≡ length predictors.now }
    requires handed_in { AreAllHandedIn (length hosts.old.items)
        (map seen_predictor predictors.now) }
    ensures guess { (before : Hosts) (telling : List Telling) (results : Results)
        → WereTold before telling (supplied answer hosts.old.items)
        → seen_guess predicted.now
        ≡ guess_of
        (parts_from (answered no_hosts [] number) results 0 (map seen_predictor predictors.now))
        → seen_guess result
        ≡ guess_of (parts_from (answered before telling number) results 0
        (map seen_predictor predictors.now)) }
    ensures told { WereToldNoMore (supplied answer hosts.old.items)
        (supplied answer hosts.new.items) }
    ensures count { length hosts.new.items ≡ length hosts.old.items }
{
    let mut words = [0; 4];
    for index in 0..predictors.len() {
        let word = predicted.value.part(index as u32);
        words[index] = ask_part(&predictors[index], word, number, hosts);
    }
    Guess {
        value: Row::of(&words[..predictors.len()]),
        blind: predicted.blind,
    }
}

/// The number of the block at an index.
pub(crate) fn number_at(header: &Header, n: u64) -> i64
    requires few { n ≤ max_blocks }
    requires fits { (header.now.low +ℤ pos n) ≤ℤ i64.MAX }
    ensures { result ≡ header.now.low +ℤ pos n }
{
    header.low + n as i64
}

/// Asks hosts for the parts that they guess, in the order of blocks and in each from left to right,
/// once for each part. The guesses of expressions are those for all blocks but the first.
fn ask_all(
    alloc: Global,
    at: ReachedConstruct,
    header: &Header,
    predicted: &[Guess],
    hosts: &mut Vec<Box<dyn Predictor>>,
) -> Result<Vec<Guess>, AllocError>
    requires width { IsWidth (length (predictors_of (seen_construct at.construct))) }
    requires host { IsHandedIn (length hosts.old.items) (seen_construct at.construct) }
    requires predicted { map seen_guess predicted.now
        ≡ guesses_from (predicted_at at header.now) 1 (header.now.blocks - 1) }
    requires some { 1 ≤ header.now.blocks }
    requires few { header.now.blocks ≤ max_blocks }
    requires fits { (header.now.low +ℤ pos header.now.blocks) ≤ℤ i64.MAX }
    ensures guesses { IfOk result (λ r. (before : Hosts) (telling : List Telling)
        → WereTold before telling (supplied answer hosts.old.items)
        → map seen_guess r.items
        ≡ guesses_from (block_guess before telling at.entry header.now) 1 (header.now.blocks - 1)) }
    ensures told { WereToldNoMore (supplied answer hosts.old.items)
        (supplied answer hosts.new.items) }
    ensures count { length hosts.new.items ≡ length hosts.old.items }
    ensures size { IfOk result (λ r. length r.items + 1 ≡ header.now.blocks) }
{
    let predictors = at.construct.predictors();
    let mut guesses = Vec::with_capacity(alloc, predicted.len())?;
    for n in 0..predicted.len() {
        let number = number_at(header, n as u64 + 1);
        let guess = ask_row(predictors, &predicted[n], number, hosts);
        guesses.push(guess)?;
    }
    Ok(guesses)
}

/// How many workers compute guesses: all of them, or one where hosts guess each part.
fn helpers(construct: TopConstruct, workers: u64) -> u64
    requires workers { 0 < workers }
    ensures { 0 < result }
{
    for predictor in construct.predictors() {
        if let Predict::Expr(_) = predictor {
            return workers;
        }
    }
    1
}

/// Takes the guesses for all blocks but the first, in order. A part that is an expression is what
/// it comes to where the run stands, or 0 where it traps; the guess is blind where one does. The
/// workers compute expressions. A part that is a host is the host's answer, which is asked once for
/// each such part.
///
/// # Errors
///
/// `AllocError` where there is no memory for them.
pub(crate) fn take_guesses<R: Threads + Sync>(
    rt: &R,
    alloc: Global,
    at: ReachedConstruct,
    header: &Header,
    workers: u64,
    hosts: &mut Vec<Box<dyn Predictor>>,
) -> Result<Vec<Guess>, AllocError>
    requires workers { 0 < workers }
    requires construct { slice_get (constructs_in (program_of at.instance.now).main) at.index
        ≡ Some (seen_construct at.construct) }
    requires width { IsWidth (length (predictors_of (seen_construct at.construct))) }
    requires functions { FunctionsAreSilent (program_of at.instance.now).functions }
    requires own_frame { length at.frame.now ≡ frame_size (program_of at.instance.now) }
    requires own_cells { length at.cells.now
        ≡ cell_count_of (program_of at.instance.now) (length at.instance.now.input) }
    requires host { IsHandedIn (length hosts.old.items) (seen_construct at.construct) }
    requires some { 1 ≤ header.now.blocks }
    requires few { header.now.blocks ≤ max_blocks }
    requires fits { (header.now.low +ℤ pos header.now.blocks) ≤ℤ i64.MAX }
    ensures guesses { IfOk result (λ r. (before : Hosts) (telling : List Telling)
        → WereTold before telling (supplied answer hosts.old.items)
        → map seen_guess r.items
        ≡ guesses_from (block_guess before telling at.entry header.now) 1 (header.now.blocks - 1)) }
    ensures told { WereToldNoMore (supplied answer hosts.old.items)
        (supplied answer hosts.new.items) }
    ensures count { length hosts.new.items ≡ length hosts.old.items }
    ensures size { IfOk result (λ r. length r.items + 1 ≡ header.now.blocks) }
{
    let helpers = helpers(at.construct, workers);
    let predicted = predict_all(rt, alloc, at, header, helpers)?;
    ask_all(alloc, at, header, &predicted, hosts)
}

/// Takes the guesses for all blocks but the first, in order, without starting a thread: the calling
/// thread computes what the expressions come to.
///
/// # Errors
///
/// `AllocError` where there is no memory for the guesses.
pub fn take_guesses_alone(
    alloc: Global,
    at: ReachedConstruct,
    header: &Header,
    hosts: &mut Vec<Box<dyn Predictor>>,
) -> Result<Vec<Guess>, AllocError>
    requires construct { slice_get (constructs_in (program_of at.instance.now).main) at.index
        ≡ Some (seen_construct at.construct) }
    requires width { IsWidth (length (predictors_of (seen_construct at.construct))) }
    requires functions { FunctionsAreSilent (program_of at.instance.now).functions }
    requires own_frame { length at.frame.now ≡ frame_size (program_of at.instance.now) }
    requires own_cells { length at.cells.now
        ≡ cell_count_of (program_of at.instance.now) (length at.instance.now.input) }
    requires host { IsHandedIn (length hosts.old.items) (seen_construct at.construct) }
    requires some { 1 ≤ header.now.blocks }
    requires few { header.now.blocks ≤ max_blocks }
    requires fits { (header.now.low +ℤ pos header.now.blocks) ≤ℤ i64.MAX }
    ensures guesses { IfOk result (λ r. (before : Hosts) (telling : List Telling)
        → WereTold before telling (supplied answer hosts.old.items)
        → map seen_guess r.items
        ≡ guesses_from (block_guess before telling at.entry header.now) 1 (header.now.blocks - 1)) }
    ensures told { WereToldNoMore (supplied answer hosts.old.items)
        (supplied answer hosts.new.items) }
    ensures count { length hosts.new.items ≡ length hosts.old.items }
    ensures size { IfOk result (λ r. length r.items + 1 ≡ header.now.blocks) }
{
    let predicted = predict_piece(alloc, at, header, 1, header.blocks - 1)?;
    ask_all(alloc, at, header, &predicted, hosts)
}
