//! The answers of the decoders: PackBits, HUF1, lexers' machines, and each of them on a generated
//! input.

ghost use Rattle.std.specs.Prelude.{◌≡◌, ◌≤◌, [], IfOk};
ghost use Rattle.spf_ast_lemmas.specs.Limits.{max_workers};
ghost use Rattle.std.specs.List.{sum_by};
ghost use Rattle.spf_ast.specs.View.{program as seen_program};
ghost use Rattle.spf_ast.specs.Program.{seen_outcome};
ghost use Rattle.spf_ast.specs.Lawful.{IsLawful};
ghost use Rattle.spf_check.specs.Accepting.{IsAccepted};
ghost use Rattle.spf_cli_words.specs.Command.{Unpack as unpack_command, Unhuff as unhuff_command};
ghost use Rattle.spf_cli_words.specs.Command.{Lex as lex_command, Demo as demo_command};
ghost use Rattle.spf_cli_words.specs.Command.{HasDecodeNumbers, HasNumbers};
ghost use Rattle.spf_cli_words.specs.Asked.{seen_options, seen_decode_options};
ghost use Rattle.spf_cli_words.specs.Only.{IsOnly};
ghost use Rattle.spf_apps_formats.specs.Laws.{AreBytes};
ghost use Rattle.spf_apps_formats.specs.Lex1.{IsLex1};
ghost use Rattle.spf_apps_programs.specs.Laws.{IsBlockSize};
ghost use Rattle.spf_cli_answers.specs.Answer.{not_huf1 as not_huf1_answer};
ghost use Rattle.spf_cli_answers.specs.Answer.{not_lex1 as not_lex1_answer, shown as shown_answer};
ghost use Rattle.spf_cli_answers.specs.Whole.{Decodes, Demonstrates, RunsTo, demo_program};
ghost use Rattle.spf_cli_answers.specs.Whole.{demo_input, by_blocks, handed, block_of};
ghost use Rattle.spf_cli_answers.specs.Whole.{run_options as run_options_of};
ghost use Rattle.spf_cli_answers.specs.Answering.{seen_answer, AnswersWith};
ghost use Rattle.spf_cli_answers.specs.Following.{AnswersUnhuffing, Follows, FollowsLexing};
ghost use Rattle.spf_cli_answers.specs.Following.{IsDemoInput};

use crate::answer::{Answer, Exit, MAX_INPUT, answer_of_error, fetch, refuse};
use crate::context::Context;
use crate::message::{not_huf1_line, not_lex1_line, sum_line, trap_line};
use crate::status::Status;
use spf_apps::{huffman, lexer, packbits};
use spf_apps_formats::generate::{Kind, generate};
use spf_apps_formats::huf1::huf1_check;
use spf_apps_formats::lex1::{lex_input, lex1_check};
use spf_apps_formats::toy::toy_machine;
use spf_ast::outcome::Outcome;
use spf_ast::syntax::Program;
use spf_check::check::check;
use spf_check::checked::Checked;
use spf_cli_words::{DecodeOptions, Options};
use spf_edge::Files;
use spf_engine::run::run_program;
use spf_guess::Predictor;
use spf_guess_statistics::stats::Stats;
use spf_ticket_gate::Gate;
use std::alloc::{AllocError, Global};
use std::sync::Wait;
use std::thread::Threads;

/// How many bytes the file of a machine may have.
pub(crate) const MAX_MACHINE: u64 = 16_384;

/// How many input bytes a block has where the words don't say so.
const DEFAULT_BLOCK: u64 = 1024;

/// How many states, and how many classes, the toy machine has.
const TOY_COUNT: u64 = 6;

/// How many input bytes a block has.
fn block_size(options: DecodeOptions) -> u64
    requires numbers { HasDecodeNumbers (seen_decode_options options) }
    ensures size { result ≡ block_of (seen_decode_options options) }
    ensures within { IsBlockSize result }
{
    options.block.unwrap_or(DEFAULT_BLOCK)
}

/// The options of a decoder's run.
fn run_options(options: DecodeOptions) -> Options
    ensures { seen_options result ≡ run_options_of (seen_decode_options options) }
{
    Options {
        workers: options.workers,
        stats: options.stats,
        cells: false,
        plain: false,
    }
}

/// The rules accept the program, so this fails only when memory runs out.
fn accept_built_in(alloc: Global, program: Program) -> Result<Checked, AllocError>
    requires lawful { IsLawful (seen_program program) }
    requires accepted { IsAccepted (seen_program program) }
    ensures same { IfOk result (λ checked. checked ≡ program) }
{
    match check(alloc, program) {
        Ok(checked) => Ok(checked),
        Err(_) => Err(AllocError),
    }
}

/// The answer where an input isn't HUF1.
fn not_huf1(alloc: Global, offset: u64) -> Result<Answer, AllocError>
    ensures { IfOk result (λ a. seen_answer a ≡ not_huf1_answer offset) }
{
    refuse(alloc, Status::WrongFormat, not_huf1_line(alloc, offset)?)
}

/// The answer where a machine isn't LEX1.
pub(crate) fn not_lex1(alloc: Global, offset: u64) -> Result<Answer, AllocError>
    ensures { IfOk result (λ a. seen_answer a ≡ not_lex1_answer offset) }
{
    refuse(alloc, Status::WrongFormat, not_lex1_line(alloc, offset)?)
}

/// The sum of bytes.
fn sum(bytes: &[u8]) -> u128
    ensures { result ≡ sum_by (λ byte. byte) bytes.now }
{
    let mut sum = 0;
    for byte in bytes {
        sum += u128::from(*byte);
    }
    sum
}

/// The answer of a demo that ended so.
fn answer_of_demo(alloc: Global, outcome: Outcome, stats: Stats) -> Result<Answer, AllocError>
    ensures { IfOk result (λ a. seen_answer a ≡ shown_answer (seen_outcome outcome) stats) }
{
    match outcome {
        Outcome::Done { output, .. } => {
            let line = sum_line(alloc, sum(&output), stats.blocks, stats.hits, stats.misses)?;
            Ok(Answer {
                status: Status::Done,
                output: line.into_bytes(),
                messages: Vec::new(alloc),
            })
        }
        Outcome::Trapped { trap, .. } => refuse(alloc, Status::Trapped, trap_line(alloc, trap)?),
    }
}

/// The program of a demo.
fn demo_decoder(alloc: Global, kind: Kind) -> Result<Program, AllocError>
    ensures program { IfOk result (λ p. seen_program p ≡ demo_program kind) }
    ensures lawful { IfOk result (λ p. IsLawful (seen_program p)) }
    ensures accepted { IfOk result (λ p. IsAccepted (seen_program p)) }
{
    match kind {
        Kind::Unpack => packbits(alloc, DEFAULT_BLOCK),
        Kind::Unhuff => huffman(alloc, DEFAULT_BLOCK),
        Kind::Lex => lexer(alloc, DEFAULT_BLOCK, TOY_COUNT, TOY_COUNT),
    }
}

/// The input of a demo, whose file is this.
fn whole_input(alloc: Global, kind: Kind, file: Vec<u8>) -> Result<Vec<u8>, AllocError>
    ensures input { IfOk result (λ input. input.items ≡ demo_input kind file.items) }
    ensures bytes { AreBytes file.items }
{
    match kind {
        Kind::Unpack | Kind::Unhuff => Ok(file),
        Kind::Lex => lex_input(alloc, &toy_machine(alloc)?, &file),
    }
}

/// The input of a demo that a seed and a size generate.
fn generated_input(alloc: Global, kind: Kind, seed: u64, size: u64) -> Result<Vec<u8>, AllocError>
    requires some { 1 ≤ size }
    requires few { size ≤ 1000000 }
    ensures { IfOk result (λ input. IsDemoInput kind seed size input.items) }
{
    let file = generate(alloc, kind, seed, size)?;
    whole_input(alloc, kind, file)
}

impl<'a, R: Threads + Wait + Sync, G: Gate + Sync> Context<'a, R, G> {
    /// The answer of a decoder's program over an input.
    fn decode(&self, options: DecodeOptions, program: Program, input: &[u8]) -> Result<Answer, Exit>
        requires lawful { IsLawful (seen_program program) }
        requires accepted { IsAccepted (seen_program program) }
        requires numbers { HasDecodeNumbers (seen_decode_options options) }
        ensures { AnswersWith
            (IsOnly (Decodes (seen_decode_options options) (seen_program program) input.now))
            result }
    {
        let checked = accept_built_in(self.alloc, program)?;
        let mut hosts: Vec<Box<dyn Predictor>> = Vec::new(self.alloc);
        let options = run_options(options);
        self.run_by_blocks(options, &checked, input, &mut hosts)
    }

    /// The answer of `unpack` over a file.
    pub(crate) fn unpack_file<F: Files>(
        &self,
        input: &str,
        options: DecodeOptions,
        files: &mut F,
    ) -> Result<Answer, Exit>
        requires numbers { HasDecodeNumbers (seen_decode_options options) }
        ensures { Follows (unpack_command input.now (seen_decode_options options))
            (F.state files.old) (F.state files.new) result }
    {
        // Law: a decoder's run answers what its format says.
        crate::laws::decoders_keep_their_formats();
        let content = fetch(self.alloc, files, input, MAX_INPUT)?;
        let program = packbits(self.alloc, block_size(options))?;
        self.decode(options, program, &content)
    }

    /// The answer of `unhuff` over the content of a file.
    fn unhuff(&self, options: DecodeOptions, file: &[u8]) -> Result<Answer, Exit>
        requires numbers { HasDecodeNumbers (seen_decode_options options) }
        ensures { AnswersUnhuffing options file.now result }
    {
        // Law: a file is of its format, or refused at one offset.
        spf_apps_formats::laws::files_have_one_verdict();
        // Law: a decoder's run answers what its format says.
        crate::laws::decoders_keep_their_formats();
        if let Err(offset) = huf1_check(file) {
            return Ok(not_huf1(self.alloc, offset)?);
        }
        let program = huffman(self.alloc, block_size(options))?;
        self.decode(options, program, file)
    }

    /// The answer of `unhuff` over a file.
    pub(crate) fn unhuff_file<F: Files>(
        &self,
        input: &str,
        options: DecodeOptions,
        files: &mut F,
    ) -> Result<Answer, Exit>
        requires numbers { HasDecodeNumbers (seen_decode_options options) }
        ensures { Follows (unhuff_command input.now (seen_decode_options options))
            (F.state files.old) (F.state files.new) result }
    {
        let content = fetch(self.alloc, files, input, MAX_INPUT)?;
        self.unhuff(options, &content)
    }

    /// The answer of `lex` with a machine, on the file of an input.
    fn lex_on<F: Files>(
        &self,
        options: DecodeOptions,
        machine: &[u8],
        states: u64,
        classes: u64,
        input: &str,
        files: &mut F,
    ) -> Result<Answer, Exit>
        requires numbers { HasDecodeNumbers (seen_decode_options options) }
        requires lex1 { IsLex1 machine.now states classes }
        ensures { FollowsLexing options input.now machine.now states classes
            (F.state files.old) (F.state files.new) result }
    {
        // Law: a decoder's run answers what its format says.
        crate::laws::decoders_keep_their_formats();
        let content = fetch(self.alloc, files, input, MAX_INPUT)?;
        let program = lexer(self.alloc, block_size(options), states, classes)?;
        let joined = lex_input(self.alloc, machine, &content)?;
        self.decode(options, program, &joined)
    }

    /// The answer of `lex` over two files.
    pub(crate) fn lex_files<F: Files>(
        &self,
        machine: &str,
        input: &str,
        options: DecodeOptions,
        files: &mut F,
    ) -> Result<Answer, Exit>
        requires numbers { HasDecodeNumbers (seen_decode_options options) }
        ensures { Follows (lex_command machine.now input.now (seen_decode_options options))
            (F.state files.old) (F.state files.new) result }
    {
        // Law: a file is of its format, or refused at one offset.
        spf_apps_formats::laws::files_have_one_verdict();
        let table = fetch(self.alloc, files, machine, MAX_MACHINE)?;
        match lex1_check(&table) {
            Ok((states, classes)) => self.lex_on(options, &table, states, classes, input, files),
            Err(offset) => Ok(not_lex1(self.alloc, offset)?),
        }
    }

    /// The answer of a demo's program over its input.
    fn demonstrate(&self, checked: &Checked, input: &[u8], workers: u64) -> Result<Answer, Exit>
        requires workers { (1 ≤ workers) × (workers ≤ max_workers) }
        ensures { AnswersWith (IsOnly
            (RunsTo shown_answer by_blocks (handed []) (seen_program checked.now) input.now))
            result }
    {
        let mut hosts: Vec<Box<dyn Predictor>> = Vec::new(self.alloc);
        let report = match run_program(
            self.rt, self.alloc, checked, input, workers, &mut hosts, self.gate,
        ) {
            Ok(report) => report,
            Err(error) => return answer_of_error(self.alloc, checked.program(), error),
        };
        Ok(answer_of_demo(self.alloc, report.outcome, report.stats)?)
    }

    /// The answer of `demo`.
    pub(crate) fn demo(
        &self,
        kind: Kind,
        seed: u64,
        size: u64,
        workers: u64,
    ) -> Result<Answer, Exit>
        requires numbers { HasNumbers (demo_command kind seed size workers) }
        ensures { AnswersWith (IsOnly (Demonstrates kind seed size)) result }
    {
        // Law: a kind, a seed and a size have one input.
        spf_apps_formats::laws::each_demo_input_is_generated_once();
        let program = demo_decoder(self.alloc, kind)?;
        let checked = accept_built_in(self.alloc, program)?;
        let input = generated_input(self.alloc, kind, seed, size)?;
        self.demonstrate(&checked, &input, workers)
    }
}
