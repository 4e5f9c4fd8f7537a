//! Programs that the rules accept.
ghost use Rattle.std.specs.Prelude.{◌≡◌};
ghost use Rattle.spf_ast.specs.View.{program as seen_program};
ghost use Rattle.spf_ast.specs.Lawful.{IsLawful};
ghost use Rattle.spf_check.specs.Accepting.{IsAccepted};
ghost use Rattle.spf_check.specs.Checking.{IsFree};

use spf_ast::syntax::Program;
use spf_region::list::RangeList;
use std::marker::Model;

/// What a construct may write, by its block parts.
#[derive(Drop)]
pub(crate) struct Writes {
    /// What the part that runs from a guess may write: of a fold the body, of a pair the consumer.
    pub(crate) guessed: RangeList,
    /// What a pair's producer may write; a fold has none.
    pub(crate) producer: Option<RangeList>,
}

/// A lawful program that is accepted: each of its top constructs keeps the rules.
///
/// Contracts see of it the program.
#[derive(Drop)]
pub struct Checked {
    pub(crate) program: Program,
    pub(crate) writes: Vec<Writes>,
}

impl Model for Checked {
    ghost use Rattle.spf_ast.specs.declared.syntax.Program.{Program};
    ghost use Rattle.spf_ast.specs.View.{program as seen_program};
    ghost use Rattle.spf_check.specs.Verdicts.{IsKept};
    ghost use Rattle.spf_ast.specs.contracts.syntax.Program as row;
    ghost use Rattle.std.specs.Coded.{codes};

    ghost coded = { Prim.hlevel (codes, row.the_row.coded) };

    ghost Value = { Program };

    ghost view = { λ c. c.program };

    ghost invariant = { λ c. IsKept (seen_program c.program) c.writes.items };
}

impl Checked {
    /// Returns the program. It is lawful and accepted, and each of its top constructs is rollback
    /// free.
    pub fn program(&self) -> &Program
        ensures program { result.now ≡ self.now }
        ensures lawful { IsLawful (seen_program self.now) }
        ensures accepted { IsAccepted (seen_program self.now) }
        ensures free { IsFree self.now }
    {
        // Law: what keeps the seven rules is rollback free.
        spf_check_rules::laws::the_rules_set_free();
        &self.program
    }
}
