//! The job of a program's first construct, and what is done with it.
ghost use Rattle.std.specs.Prelude.{◌≡◌, Some, slice_get};
ghost use Rattle.spf_ast.specs.View.{program as seen_program};
ghost use Rattle.spf_ast.specs.Construct.{constructs_in};
ghost use Rattle.spf_ast.specs.ConstructView.{construct as seen_construct};
ghost use Rattle.spf_exec_instance.specs.Instance.{program_of};

use crate::programs::accept;
use crate::turns::{Row, answer_right};
use crate::workers::{By, Case, comes_to};
use spf_ast::construct::{TopConstruct, find_construct};
use spf_check::checked::Checked;
use spf_exec_instance::instance::Instance;
use spf_ticket::run::Job;
use std::alloc::Global;
use std::sync::Wait;
use std::test::Fail;
use std::thread::Threads;

/// What is done with a job.
#[derive(Clone, Copy)]
pub(crate) enum Task<'a> {
    /// So many workers run its blocks.
    Run(&'a Case<'a>, u64, By),
    /// Two mates take turns.
    Turns(&'a Row<'a>),
}

/// Returns whether a task with a program's first construct comes to what it says.
fn does<R: Threads + Wait + Sync>(
    rt: &R,
    alloc: Global,
    checked: &Checked,
    instance: &Instance,
    construct: TopConstruct,
    task: Task,
) -> Result<bool, Fail>
    requires program { program_of instance.now ≡ seen_program checked.now }
    requires construct { slice_get (constructs_in (program_of instance.now).main) 0
        ≡ Some (seen_construct construct) }
{
    let entry = vec![in alloc; 0i64; instance.layout().cells() as usize]?;
    let job = Job {
        instance,
        construct,
        index: 0,
        entry: entry.as_slice(),
    };
    match task {
        Task::Run(case, workers, by) => comes_to(rt, alloc, checked, job, case, workers, by),
        Task::Turns(row) => answer_right(alloc, checked, job, row),
    }
}

/// Returns whether a task with the first construct of a text's program comes to what it says.
pub(crate) fn comes_right<R: Threads + Wait + Sync>(
    rt: &R,
    alloc: Global,
    text: &[u8],
    task: Task,
) -> Result<bool, Fail> {
    let checked = accept(alloc, text)?;
    let program = checked.program();
    // Law: no `break` of a lawful program leaves `main` or a part.
    spf_ast::laws::breaks_stay_in_their_loops();
    let Ok(instance) = Instance::make(alloc, program, &[]) else {
        return Err(Fail::new("no instance"));
    };
    let Some(construct) = find_construct(&program.main, 0) else {
        return Err(Fail::new("no construct"));
    };
    does(rt, alloc, &checked, &instance, construct, task)
}
