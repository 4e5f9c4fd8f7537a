//! Hosts that a program names and that aren't supplied.
ghost use Rattle.std.specs.Prelude.{◌≡◌, map, None};
ghost use Rattle.spf_ast.specs.View.{block as seen_block, program as seen_program};
ghost use Rattle.spf_ast.specs.Construct.{constructs_in};
ghost use Rattle.spf_ast.specs.View.{predictor as seen_predictor};
ghost use Rattle.spf_guess.specs.Missing.{hosts_among, missing_among, missing_host, AreHandedIn};

use spf_ast::construct::as_construct;
use spf_ast::syntax::{Predict, Program, Stmt};

/// The first host that predictors name, where only `count` hosts are supplied and it isn't one of
/// them.
fn first_missing_of(predictors: &[Predict], count: u64) -> Option<u64>
    ensures { result ≡ missing_among count (hosts_among (map seen_predictor predictors.now)) }
{
    for predictor in predictors {
        if let Predict::Host(host) = predictor {
            if *host >= count {
                return Some(*host);
            }
        }
    }
    None
}

/// The first host that constructs among these statements name, where only `count` hosts are
/// supplied and it isn't one of them.
fn first_missing_among(main: &[Stmt], count: u64) -> Option<u64>
    ensures { result ≡ missing_host count (constructs_in (seen_block main.now)) }
{
    for statement in main {
        if let Some(construct) = as_construct(statement) {
            if let Some(host) = first_missing_of(construct.predictors(), count) {
                return Some(host);
            }
        }
    }
    None
}

/// Returns the first host that a top construct of the program names, in the order of the text,
/// where only `count` hosts are supplied and it isn't one of them.
#[tactic(auto, using(crate::proofs::Named::all_handed_in))]
pub fn first_missing(program: &Program, count: u64) -> Option<u64>
    ensures first { result ≡ missing_host count (constructs_in (seen_program program.now).main) }
    ensures none { result ≡ None
        → AreHandedIn count (constructs_in (seen_program program.now).main) }
{
    first_missing_among(&program.main, count)
}
