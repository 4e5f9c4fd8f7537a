//! What is done with the constructs that a walk passes.
ghost use Rattle.std.specs.Prelude.{◌≡◌, List, OnOk};
ghost use Rattle.spf_engine_laws.specs.Passed.{PassedConstruct};
ghost use Rattle.spf_replay.specs.Entered.{entry_of, IsEntered};
ghost use Rattle.spf_replay.specs.Runners.{HasRoom, IsScratch};
ghost use Rattle.spf_replay_walk.specs.Visiting.{VisitsNext};

use spf_replay::entered::EnteredConstruct;
use spf_replay::scratch::Scratch;
use std::alloc::{AllocError, Global};

/// Takes the constructs with blocks that a walk passes, one after another.
pub trait Visitor {
    // what has become of a visitor, after it took these constructs
    ghost has_visited: { Self → List PassedConstruct → Self → Type 0 };

    /// Takes the construct that comes next. Attempts may be made over the scratch.
    ///
    /// # Errors
    ///
    /// Fails where memory runs out.
    fn visit(
        &mut self,
        alloc: Global,
        entered: &EnteredConstruct,
        scratch: &mut Scratch,
    ) -> Result<(), AllocError>
        requires is { IsEntered entered.now }
        requires scratch { IsScratch entered.now scratch.old }
        ensures next { OnOk result (VisitsNext has_visited entered.now.guesses.now
            (entry_of entered.now) self.old self.new) }
        ensures room { HasRoom entered.now scratch.new };
}
