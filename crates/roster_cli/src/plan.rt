//! The command `plan`: a roster that keeps the hard rules, made from rows that may break them.

ghost use Rattle.std.specs.Prelude.{◌≡◌, ◌⊎◌, [], IfOk, IfErr, OnOk, true};
ghost use Rattle.roster_timer.specs.Deadlines.{is_up, time_of};
ghost use Rattle.roster_rules.specs.HardRules.{hard_faults};
ghost use Rattle.roster_answers.specs.Answer.{Reports, outcome_of, output_of};
ghost use Rattle.roster_cli.specs.Answer.{HasSearched, IsPlanFor, IsUnfound};
ghost use Rattle.roster_cli.specs.Saving.{Shows};

use crate::aids::Aids;
use crate::polish::within_capacity;
use roster_answers::{Fault, Instance, hold, show_weeks};
use roster_case::Held;
use roster_costs::{first_irreparable, missing};
use roster_partial::RowSearcher;
use roster_polish::{Course, PolishSpace, Saves, find_roster, polish_found, searches_fit_meter};
use roster_reports::LogFault;
use roster_state::Meter;
use roster_text::Watch;
use std::alloc::Global;
use std::io::Write;
use std::time::Clock;

/// Writes the weeks of an instance after a run that looks for a roster that keeps the hard rules, and then
/// polishes it. The run's log goes to the log first. The meter is a new one.
pub(crate) fn report_plan<'a, K: Clock + Copy, S: Saves, Out: Write, Log: Write>(
    aids: &mut Aids<K, S>,
    course: &mut Course<K>,
    mut instance: Instance,
    meter: &mut Meter,
    output: &mut Watch<Out>,
    log: &mut Watch<Log>,
) -> Result<(), Fault<'a>>
    requires { meter.old ≡ 0 }
    ensures reports { Reports (output_of Out.contents output.old output.new)
        (output_of Log.contents log.old log.new)
        (IsPlanFor course.old instance) instance.case (outcome_of result) }

    // No roster is reported as not found before all searches were made, or the time is up.
    ensures made { IfErr result (λ fault. HasSearched instance.case course.old.searches meter.new fault
        ⊎ (is_up (time_of course.new.deadline) ≡ true)) }
    ensures ends { course.new.deadline.ends ≡ course.old.deadline.ends }
    ensures saved { Shows S.Saw Log.contents log.old instance.case instance.roster
        aids.old.reporting.saver aids.new.reporting.saver }
{
    if let Some(fault) = first_irreparable(&instance.case, &instance.roster, course.from) {
        return Err(Fault::Hard(fault, instance.into_case()));
    }
    let Instance { case, roster } = &mut instance;
    let Ok(mut space) = PolishSpace::<RowSearcher>::for_roster(aids.alloc, case, roster) else {
        return Err(Fault::Workspace);
    };
    let all = within_capacity(course);
    searches_fit_meter(case, all.searches);
    aids.reporting.start = missing(case, roster);
    let rest = find_roster(case, roster, &all, &mut space, meter);
    course.deadline = rest.deadline;
    let mut held = hold_found(aids.alloc, instance)?;
    let rest = Course {
        searches: rest.searches,
        deadline: rest.deadline,
        ..all
    };
    match polish_found(
        &mut held,
        &rest,
        &mut aids.reporting,
        &mut space,
        meter,
        log,
    ) {
        Ok(_) => show_weeks(held.case(), held.roster(), output),
        Err(LogFault::LogFailed { .. }) => Err(Fault::Log),
    }
}

/// Holds the roster that was found. The fault is its first breach of the hard rules, or else want of memory.
fn hold_found<'a>(alloc: Global, instance: Instance) -> Result<Held, Fault<'a>>
    ensures held { IfOk result (λ held. held ≡ record
        { case = instance.case; roster = instance.roster }) }
    ensures kept { OnOk result (hard_faults instance.case instance.roster ≡ []) }
    ensures unfound { IfErr result (IsUnfound instance.case
        (hard_faults instance.case instance.roster)) }
{
    match hold(alloc, instance) {
        Ok(held) => Ok(held),
        Err(Fault::Hard(fault, case)) => Err(Fault::Unfound(fault, case)),
        Err(fault) => Err(fault),
    }
}
