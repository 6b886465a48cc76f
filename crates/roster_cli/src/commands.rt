//! What each command writes for an instance.

ghost use Rattle.std.specs.Prelude.{◌≡◌, ◌≤◌, option_map, string_bytes};
ghost use Rattle.roster_instance.specs.Limits.{most_keep};
ghost use Rattle.roster_answers.specs.Answer.{Reports, names_in, outcome_of, output_of};
ghost use Rattle.roster_cli.specs.Answer.{IsReportFor, keep_of, searches_for};
ghost use Rattle.roster_cli.specs.Saving.{Shows};

use crate::aids::Aids;
use crate::plan::report_plan;
use crate::polish::report_polish;
use roster_answers::{
    Asking, Fault, Instance, report_best, report_bound, report_cost, report_improve,
    report_json_cost, report_json_sizes, report_sizes, report_who, show_weeks,
};
use roster_bound::{Effort, Task};
use roster_instance::Case;
use roster_partial::RowSearcher;
use roster_polish::{Course, MOST_SEARCHES, Saves};
use roster_request::Command;
use roster_state::Meter;
use roster_text::Watch;
use roster_timer::Deadline;
use std::io::Write;
use std::time::Clock;

/// Writes what a command reports of an instance, or answers why it is refused. The command's log goes to
/// `log`.
pub(crate) fn report<'a, K: Clock + Copy, S: Saves, Out: Write, Log: Write>(
    aids: &mut Aids<K, S>,
    command: &'a Command,
    mut instance: Instance,
    output: &mut Watch<Out>,
    log: &mut Watch<Log>,
) -> Result<(), Fault<'a>>
    ensures reports { Reports (output_of Out.contents output.old output.new)
        (output_of Log.contents log.old log.new)
        (IsReportFor command.now instance) instance.case (outcome_of result) }
    ensures saved { Shows S.Saw Log.contents log.old instance.case instance.roster
        aids.old.reporting.saver aids.new.reporting.saver }
{
    let alloc = aids.alloc;
    let clock = aids.clock;
    match command {
        Command::Show => show_weeks(&instance.case, &instance.roster, output),
        Command::Cost { json: false } => report_cost(alloc, instance, output),
        Command::Cost { json: true } => report_json_cost(&instance, output),
        Command::Sizes { json: false } => report_sizes(&instance.case, output),
        Command::Sizes { json: true } => report_json_sizes(&instance.case, output),
        Command::Best { nurse, from, .. } => {
            report_best::<RowSearcher, Out, Log>(
                alloc,
                nurse.as_bytes(),
                *from,
                instance,
                output,
                log,
            )
        }
        Command::Improve { rounds, from, .. } => {
            report_improve::<RowSearcher, Out, Log>(alloc, *rounds, *from, instance, output, log)
        }
        Command::Bound {
            rounds,
            nodes,
            seconds,
            from,
            ..
        } => {
            let task = Task {
                effort: Effort {
                    rounds: *rounds,
                    nodes: *nodes,
                },
                from: *from,
                deadline: Deadline::start(clock, *seconds),
            };
            report_bound::<RowSearcher, K, Out, Log>(alloc, task, instance, output, log)
        }
        Command::Polish {
            searches,
            seconds,
            seed,
            from,
            kicks_alone,
            ..
        } => {
            let course = Course {
                searches: searches_for(&instance.case, *searches, *seconds),
                seed: *seed as u64,
                from: *from,
                kicks_alone: *kicks_alone,
                deadline: Deadline::start(clock, *seconds),
            };
            report_polish(aids, &course, instance, output, log)
        }
        Command::Plan {
            searches,
            seconds,
            seed,
            from,
            ..
        } => {
            let mut course = Course {
                searches: searches_for(&instance.case, *searches, *seconds),
                seed: *seed as u64,
                from: *from,
                kicks_alone: false,
                deadline: Deadline::start(clock, *seconds),
            };
            let mut meter = Meter::new(&mut instance.case);
            report_plan(aids, &mut course, instance, &mut meter, output, log)
        }
        Command::Who {
            day,
            shift,
            skill,
            from,
            json,
        } => {
            let asking = asking_of(day, shift, skill, *from);
            report_who::<RowSearcher, Out>(alloc, asking, *json, instance, output)
        }
    }
}

/// What is asked for by these names, from a week on.
fn asking_of<'a>(
    day: &'a String,
    shift: &'a String,
    skill: &'a Option<String>,
    from: u16,
) -> Asking<'a>
    ensures names { names_in result ≡ record {
      day = string_bytes day.now;
      shift = string_bytes shift.now;
      skill = option_map string_bytes skill.now;
    } }
    ensures from { result.from ≡ from }
{
    Asking {
        day: day.as_bytes(),
        shift: shift.as_bytes(),
        skill: bytes_if_given(skill),
        from,
    }
}

/// The bytes of a text, if one is given.
fn bytes_if_given(text: &Option<String>) -> Option<&[u8]>
    ensures { option_map (λ bytes. bytes.now) result ≡ option_map string_bytes text.now }
{
    match text {
        None => None,
        Some(text) => Some(text.as_bytes()),
    }
}

/// How many points a command charges for each day that changes from the given roster.
pub(crate) fn keep_of(command: &Command) -> u16
    ensures keep { result ≡ keep_of command.now }
    ensures within { result ≤ most_keep }
{
    match command {
        Command::Show | Command::Cost { .. } | Command::Sizes { .. } => 0,
        Command::Best { keep, .. } => (*keep).min(MOST_KEEP),
        Command::Improve { keep, .. } => (*keep).min(MOST_KEEP),
        Command::Bound { keep, .. } => (*keep).min(MOST_KEEP),
        Command::Polish { keep, .. } => (*keep).min(MOST_KEEP),
        Command::Plan { keep, .. } => (*keep).min(MOST_KEEP),
        Command::Who { .. } => 0,
    }
}

/// The most points for such a day.
const MOST_KEEP: u16 = 100;

/// How many searches a run may make: the number asked for; or else, with a limit of time, as many as a run
/// can; or else a number for each nurse, and at least a fixed one.
fn searches_for(case: &Case, searches: Option<u32>, seconds: Option<u32>) -> u32
    ensures { result ≡ searches_for case.now searches seconds }
{
    case.keeps_limits();
    match (searches, seconds) {
        (Some(searches), _) => searches,
        (None, Some(_)) => MOST_SEARCHES,
        (None, None) => (SEARCHES_OF_A_NURSE * case.nurses() as u32).max(LEAST_SEARCHES),
    }
}

const SEARCHES_OF_A_NURSE: u32 = 400;

const LEAST_SEARCHES: u32 = 20_000;
