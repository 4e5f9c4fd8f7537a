//! The three programs, with what the checker says of them.
ghost use Rattle.std.specs.Prelude.{◌≡◌, ◌≤◌, IfOk};
ghost use Rattle.spf_apps_programs.specs.Laws.{max_count};
ghost use Rattle.spf_ast.specs.Lawful.{IsLawful};
ghost use Rattle.spf_ast.specs.View.{program as seen_program};
ghost use Rattle.spf_check.specs.Accepting.{IsAccepted};
ghost use Rattle.spf_apps_programs.specs.PackBits.{packbits_program};
ghost use Rattle.spf_apps_programs.specs.Huffman.{huffman_program};
ghost use Rattle.spf_apps_programs.specs.Lexer.{lexer_program};

use spf_ast::syntax::Program;
use std::alloc::{AllocError, Global};

/// Builds the program that unpacks PackBits in blocks of `block` bytes, 1 to 65,536. It is lawful
/// and accepted.
pub fn packbits(alloc: Global, block: u64) -> Result<Program, AllocError>
    requires some { 1 ≤ block }
    requires few { block ≤ 65536 }
    ensures program { IfOk result (λ p. seen_program p ≡ packbits_program block) }
    ensures lawful { IfOk result (λ p. IsLawful (seen_program p)) }
    ensures accepted { IfOk result (λ p. IsAccepted (seen_program p)) }
{
    // Law: the three programs keep all seven rules.
    crate::laws::decoders_are_accepted();
    spf_apps_programs::packbits::packbits(alloc, block)
}

/// Builds the program that decodes HUF1 in blocks of `block` bytes, 1 to 65,536. It is lawful and
/// accepted.
pub fn huffman(alloc: Global, block: u64) -> Result<Program, AllocError>
    requires some { 1 ≤ block }
    requires few { block ≤ 65536 }
    ensures program { IfOk result (λ p. seen_program p ≡ huffman_program block) }
    ensures lawful { IfOk result (λ p. IsLawful (seen_program p)) }
    ensures accepted { IfOk result (λ p. IsAccepted (seen_program p)) }
{
    // Law: the three programs keep all seven rules.
    crate::laws::decoders_are_accepted();
    spf_apps_programs::huffman::huffman(alloc, block)
}

/// Builds the program that runs LEX1 machines with `states` states and `classes` classes, 1 to 64
/// each, in blocks of `block` bytes, 1 to 65,536. It is lawful and accepted.
pub fn lexer(alloc: Global, block: u64, states: u64, classes: u64) -> Result<Program, AllocError>
    requires some { 1 ≤ block }
    requires few { block ≤ 65536 }
    requires some_states { 1 ≤ states }
    requires few_states { states ≤ max_count }
    requires some_classes { 1 ≤ classes }
    requires few_classes { classes ≤ max_count }
    ensures program { IfOk result (λ p. seen_program p ≡ lexer_program block states classes) }
    ensures lawful { IfOk result (λ p. IsLawful (seen_program p)) }
    ensures accepted { IfOk result (λ p. IsAccepted (seen_program p)) }
{
    // Law: the three programs keep all seven rules.
    crate::laws::decoders_are_accepted();
    spf_apps_programs::lexer::lexer(alloc, block, states, classes)
}
