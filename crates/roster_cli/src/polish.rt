//! The command `polish`: fades and neighbourhoods, or kicks, after each of which the roster is settled again.

ghost use Rattle.std.specs.Prelude.{◌≡◌, min};
ghost use Rattle.roster_polish.specs.Polished.{most_searches};
ghost use Rattle.roster_answers.specs.Answer.{Reports, outcome_of, output_of};
ghost use Rattle.roster_cli.specs.Answer.{IsPolishFor};
ghost use Rattle.roster_cli.specs.Saving.{Shows};

use crate::aids::Aids;
use roster_answers::{Fault, Instance, hold, show_weeks};
use roster_partial::RowSearcher;
use roster_polish::{Course, MOST_SEARCHES, PolishSpace, Saves, polish_found, searches_fit_meter};
use roster_reports::LogFault;
use roster_state::Meter;
use roster_text::Watch;
use std::io::Write;
use std::time::Clock;

/// Writes the weeks of an instance after a run of fades and neighbourhoods, or of kicks. The run's log goes
/// to the log first, line by line as it is made.
pub(crate) fn report_polish<'a, K: Clock + Copy, S: Saves, Out: Write, Log: Write>(
    aids: &mut Aids<K, S>,
    course: &Course<K>,
    mut instance: Instance,
    output: &mut Watch<Out>,
    log: &mut Watch<Log>,
) -> Result<(), Fault<'a>>
    ensures reports { Reports (output_of Out.contents output.old output.new)
        (output_of Log.contents log.old log.new)
        (IsPolishFor course.now instance) instance.case (outcome_of result) }
    ensures saved { Shows S.Saw Log.contents log.old instance.case instance.roster
        aids.old.reporting.saver aids.new.reporting.saver }
{
    let mut meter = Meter::new(&mut instance.case);
    let mut held = hold(aids.alloc, instance)?;
    let Ok(mut space) = PolishSpace::<RowSearcher>::for_held(aids.alloc, &held) else {
        return Err(Fault::Workspace);
    };
    let course = within_capacity(course);
    searches_fit_meter(held.case(), course.searches);
    aids.reporting.start = held.total();
    match polish_found(
        &mut held,
        &course,
        &mut aids.reporting,
        &mut space,
        &mut meter,
        log,
    ) {
        Ok(_) => show_weeks(held.case(), held.roster(), output),
        Err(LogFault::LogFailed { .. }) => Err(Fault::Log),
    }
}

/// The course, but with no more searches than a new meter surely has capacity for. The command line allows no
/// more than that.
pub(crate) fn within_capacity<K: Copy>(course: &Course<K>) -> Course<K>
    ensures { result ≡ record course.now { searches = min course.now.searches most_searches } }
{
    Course {
        searches: course.searches.min(MOST_SEARCHES),
        ..*course
    }
}
