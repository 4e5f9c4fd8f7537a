//! A law on accepted programs.
ghost use Rattle.spf_chain.specs.Jobs.{AcceptedConstructsCanRun};

/// The blocks of each top construct of an accepted program can be run as attempts: none emits or
/// assigns a slot from outside.
pub fn accepted_constructs_can_run()
    ensures { AcceptedConstructsCanRun }
{}
