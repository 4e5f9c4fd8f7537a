//! Runs of tickets.
ghost use Rattle.std.specs.Prelude.{◌≡◌, ℕ, length, false, slice_get, Some};
ghost use Rattle.spf_ast.specs.Carried.{Carried as CarriedValue};
ghost use Rattle.spf_ast.specs.Construct.{constructs_in, part_of, statements_of};
ghost use Rattle.spf_ast.specs.ConstructView.{construct as seen_construct};
ghost use Rattle.spf_ast.specs.Lawful.{IsLawful};
ghost use Rattle.spf_ast.specs.Program.{cell_count_of};
ghost use Rattle.spf_ast.specs.Silence.{PartIsSilent};
ghost use Rattle.spf_ast.specs.Slots.{assigns_outer};
ghost use Rattle.spf_exec_instance.specs.Frame.{frame_size};
ghost use Rattle.spf_exec_instance.specs.Instance.{program_of};
ghost use Rattle.spf_cells.specs.Log.{IsLogOf};
ghost use Rattle.spf_speculation_entry.specs.Entry.{Entry, IsEntry};
ghost use Rattle.spf_speculation_entry.specs.Sites.{AreMadeFor};
ghost use Rattle.spf_ticket.specs.Tickets.{IsJobOf, IsTicketAt, IsSameTicket, Ran, IsFresh};
ghost use Rattle.spf_ticket.specs.Tickets.{IsLawfulReport};

use crate::memory::LaneMemory;
use crate::ticket::{Report, Ticket};
use spf_ast::construct::TopConstruct;
use spf_cells::cells::Cells;
use spf_exec::block_run::{BlockRun, exec_block};
use spf_exec_instance::instance::Instance;
use spf_ticket_gate::{Gate, Place};

/// What all attempts of a construct's blocks have in common: the program with its input, the
/// construct and its index, and the memory at the construct's entry.
#[derive(Clone, Copy)]
pub struct Job<'a> {
    pub instance: &'a Instance<'a>,
    pub construct: TopConstruct<'a>,
    /// Which of the program's top constructs it is, counted from 0.
    pub index: u32,
    pub entry: &'a [i64],
}

impl Ticket {
    /// What holds for each ticket's lane and its log: the lane is that of the ticket's block; each
    /// load gave the lane's own content, and each turn a number that the block's flag may have.
    pub fn log_facts(&self)
        ensures block { self.now.lane.block ≡ self.now.block }
        ensures log { IsLogOf self.now.lane.setting self.now.block self.now.lane.log }
    {
        self.lane.log_facts();
    }

    /// Makes the attempt: runs the ticket's block once at its carried row, and calls the gate
    /// before it and after it. A cell of the lane's spans goes through the lane, any other cell has
    /// its word of the entry, and each turn polls the block's flag once.
    ///
    /// The report's ticket is this one, but for its lane's log and for what the part left in its
    /// own slots of the frame. For every entry that the job is of: the lane's log grows by the
    /// attempt's log, and the stop is what the attempt came to; and where the ticket is fresh, the
    /// report is lawful. This takes no memory.
    pub fn run<G: Gate>(self, cells: &Cells, job: &Job, gate: &G) -> Report
        requires own { self.lane.table ≡ cells.now.table }
        requires lawful { IsLawful (program_of job.now.instance.now) }
        requires construct { slice_get (constructs_in (program_of job.now.instance.now).main)
            job.now.index ≡ Some (seen_construct job.now.construct) }
        requires entry { length job.now.entry.now
            ≡ cell_count_of (program_of job.now.instance.now) (length job.now.instance.now.input) }
        requires frame { length self.frame ≡ frame_size (program_of job.now.instance.now) }
        requires silent { PartIsSilent (seen_construct job.now.construct)
            (part_of (seen_construct job.now.construct) self.block) }
        requires outer { assigns_outer (statements_of (seen_construct job.now.construct)
            (part_of (seen_construct job.now.construct) self.block)) ≡ false }
        ensures same { IsSameTicket (program_of job.now.instance.now)
            (seen_construct job.now.construct) self result.ticket }
        ensures ran { (e : Entry) → IsEntry e → AreMadeFor e cells.now.setting → IsJobOf e job.now
            → IsTicketAt e cells.now self → Ran e self result }
        ensures lawful { (e : Entry) (guess : ℕ → CarriedValue) → IsEntry e
            → AreMadeFor e cells.now.setting → IsJobOf e job.now → IsFresh e guess cells.now self
            → IsLawfulReport e guess cells.now result }
    {
        // Law: functions emit nothing, and there are fewer than 2^32 top constructs.
        spf_ast::laws::lawful_programs_are_quiet_and_small();
        // Law: what was in its own slots before makes no difference to a part.
        spf_ast_laws::each_part_declares_its_slots_anew();
        // Law: a part leaves each slot alone that it does not declare.
        spf_ast_laws::each_part_assigns_what_it_declares();
        // Law: what a block run leaves in its lane's log is an attempt.
        spf_speculation::laws::block_runs_are_attempts();
        let Ticket {
            block,
            number,
            attempt,
            carried,
            lane,
            mut frame,
        } = self;
        let entry = job.entry;
        let run = BlockRun {
            construct: job.construct,
            index: job.index,
            part: job.construct.part_of(block),
            number,
            value: carried,
        };
        let mut memory = LaneMemory {
            cells,
            lane,
            entry,
            attempt,
        };
        gate.at(block, attempt, Place::Begin);
        let stop = exec_block(job.instance, &run, &mut frame, &mut memory);
        gate.at(block, attempt, Place::End);
        let LaneMemory {
            cells: _,
            lane,
            entry: _,
            attempt: _,
        } = memory;
        let ticket = Ticket {
            block,
            number,
            attempt,
            carried,
            lane,
            frame,
        };
        Report { ticket, stop }
    }
}
