//! What makes the attempts of a crew's tickets.
ghost use denote.Ref.{Bor};
ghost use Rattle.std.specs.Prelude.{◌≡◌};
ghost use Rattle.spf_ast.specs.declared.construct.TopConstruct.{TopConstruct};
ghost use Rattle.spf_exec_instance.specs.Instance.{InstanceValue};
ghost use Rattle.spf_crew.specs.declared.view.CrewSetting.{CrewSetting};
ghost use Rattle.spf_crew.specs.Tickets.{IsFreshOf, IsLawfulOf, IsAttemptBy, ServesCrew};

use crate::crew::Crew;
use spf_ast::construct::TopConstruct;
use spf_exec_instance::instance::Instance;
use spf_ticket::run::Job;
use spf_ticket::ticket::{Report, Ticket};
use spf_ticket_gate::Gate;

/// Makes the attempts of a crew's tickets.
pub trait Attempter {
    // it makes the attempts of a crew with this setting
    ghost serves: { CrewSetting → Self → Type 0 };

    /// Runs a ticket of the crew.
    fn attempt(&self, crew: &Crew, ticket: Ticket) -> Report
        requires serves { serves crew.now.setting self.now }
        requires fresh { IsFreshOf crew.now.setting ticket }
        ensures lawful { IsLawfulOf crew.now.setting result }
        ensures attempt { IsAttemptBy crew.now.setting ticket result };
}

/// Has the program with its input. A type parameter with this bound, or with `HasConstruct`, stands
/// for something large where attempts are proved to be safe on many threads: with both in full the
/// proof search would take too long.
pub trait HasInstance {
    // the program with its input
    ghost instance: { Self → Bor InstanceValue };

    /// The program with its input.
    fn instance(&self) -> &Instance<'_>
        ensures { result ≡ instance self.now };
}

/// Has a construct.
pub trait HasConstruct {
    // the construct
    ghost construct: { Self → TopConstruct };

    /// The construct.
    fn construct(&self) -> TopConstruct<'_>
        ensures { result ≡ construct self.now };
}

impl<'a> HasInstance for &'a Instance<'a> {
    ghost instance = { λ i. i };

    fn instance(&self) -> &Instance<'_> {
        self
    }
}

impl<'a> HasConstruct for TopConstruct<'a> {
    ghost construct = { λ c. c };

    fn construct(&self) -> TopConstruct<'_> {
        *self
    }
}

/// The construct whose blocks are attempted, with the memory at its entry, and a gate that is
/// called before and after each attempt.
#[derive(Clone, Copy)]
pub struct GatedJob<'a, I, C, G> {
    /// What has the program with its input.
    pub instance: &'a I,
    /// What has the construct.
    pub construct: &'a C,
    /// Which of the program's top constructs it is, counted from 0.
    pub index: u32,
    /// The word of each cell at the construct's entry.
    pub entry: &'a [i64],
    /// The gate.
    pub gate: &'a G,
}

impl<'a, I: HasInstance, C: HasConstruct, G: Gate> Attempter for GatedJob<'a, I, C, G> {
    ghost use Rattle.spf_crew.specs.Tickets.{ServesCrew};

    ghost serves = { λ k gated. ServesCrew k (record {
      instance = I.instance gated.instance.now;
      construct = C.construct gated.construct.now;
      index = gated.index;
      entry = gated.entry;
    }) };

    fn attempt(&self, crew: &Crew, ticket: Ticket) -> Report {
        let job = Job {
            instance: self.instance.instance(),
            construct: self.construct.construct(),
            index: self.index,
            entry: self.entry,
        };
        crew.attempt(&job, self.gate, ticket)
    }
}

impl Crew {
    // Runs a ticket.
    fn attempt<G: Gate>(&self, job: &Job, gate: &G, ticket: Ticket) -> Report
        requires job { ServesCrew self.now.setting job.now }
        requires fresh { IsFreshOf self.now.setting ticket }
        ensures lawful { IsLawfulOf self.now.setting result }
        ensures attempt { IsAttemptBy self.now.setting ticket result }
    {
        ticket.run(&self.cells, job, gate)
    }
}
