//! The command `bound`: a lower bound on what any roster costs.

ghost use Rattle.std.specs.Prelude.{◌≡◌, ◌≤◌, ◌⊎◌, OnOk, true};
ghost use Rattle.roster_bundle.specs.Limits.{greatest_u64};
ghost use Rattle.roster_laws.specs.Greatest.{extensions_in};
ghost use Rattle.roster_bound.specs.BoundLogs.{rounds_of};
ghost use Rattle.roster_bound.specs.Rounds.{AreSearched};
ghost use Rattle.roster_timer.specs.Deadlines.{is_up, time_of};
ghost use Rattle.roster_answers.specs.Answer.{IsBoundFor, Reports, outcome_of, output_of};

use crate::fault::Fault;
use crate::held::hold;
use crate::instance::Instance;
use roster_bound::{BoundSpace, Effort, Task, raise_bound};
use roster_instance::Case;
use roster_offers::SearchesRows;
use roster_reports::{LogFault, write_bound};
use roster_rounds::extensions_are_few;
use roster_state::Meter;
use roster_text::Watch;
use std::alloc::Global;
use std::io::Write;
use std::time::Clock;

/// Writes what the roster of an instance costs, and the last lower bound that rose within this effort, on all
/// rosters that keep the hard rules and the frozen days. The lower bounds go to the log first, line by line
/// as they are found.
pub fn report_bound<'a, T: SearchesRows, K: Clock + Copy, Out: Write, Log: Write>(
    alloc: Global,
    mut task: Task<K>,
    mut instance: Instance,
    output: &mut Watch<Out>,
    log: &mut Watch<Log>,
) -> Result<(), Fault<'a>>
    ensures { Reports (output_of Out.contents output.old output.new)
        (output_of Log.contents log.old log.new)
        (IsBoundFor task instance) instance.case (outcome_of result) }
{
    let mut meter = Meter::new(&mut instance.case);
    report_raised_bound::<T, K, Out, Log>(alloc, &mut task, instance, &mut meter, output, log)
}

/// The same, with a meter that has counted nothing yet.
fn report_raised_bound<'a, T: SearchesRows, K: Clock + Copy, Out: Write, Log: Write>(
    alloc: Global,
    task: &mut Task<K>,
    instance: Instance,
    meter: &mut Meter,
    output: &mut Watch<Out>,
    log: &mut Watch<Log>,
) -> Result<(), Fault<'a>>
    requires none { meter.old ≡ 0 }
    ensures reports { Reports (output_of Out.contents output.old output.new)
        (output_of Log.contents log.old log.new)
        (IsBoundFor task.old instance) instance.case (outcome_of result) }

    // The roster is optimal, or at least thirty rounds were searched, or all that were asked for, or the time
    // is up.
    ensures searched { OnOk result (AreSearched instance.case task.old.from instance.roster
        task.old.effort.rounds meter.old meter.new ⊎ (is_up (time_of task.new.deadline) ≡ true)) }
    ensures ends { task.new.deadline.ends ≡ task.old.deadline.ends }
{
    let held = hold(alloc, instance)?;
    let Ok(mut space) = BoundSpace::<T>::for_case(alloc, held.case(), task.effort.nodes) else {
        return Err(Fault::Workspace);
    };
    effort_has_capacity(held.case(), task.effort);
    match raise_bound(&held, task, &mut space, meter, log) {
        Ok(raised) => Ok(write_bound(output, held.total(), raised.bound)?),
        Err(LogFault::LogFailed { .. }) => Err(Fault::Log),
    }
}

/// A law: a new meter has capacity for a run with this effort.
fn effort_has_capacity(case: &Case, effort: Effort)
    ensures { extensions_in case.now (rounds_of effort) ≤ greatest_u64 }
{
    case.keeps_limits();
    extensions_are_few(case);
}
