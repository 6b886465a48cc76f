//! The command `improve`: rounds of best rows, each put in if it is cheaper.

ghost use Rattle.roster_answers.specs.Answer.{Ends, LeavesLog, improve_report, outcome_of, output_of};

use crate::fault::Fault;
use crate::held::hold;
use crate::instance::Instance;
use crate::weeks::show_weeks;
use roster_offers::SearchesRows;
use roster_reports::LogFault;
use roster_rounds::{RunSpace, improve, rounds_have_room};
use roster_state::Meter;
use roster_text::Watch;
use std::alloc::Global;
use std::io::Write;

/// Writes the weeks of an instance after a run of at most this number of rounds from a week on. The run's log
/// goes to the log first, line by line as it is made.
pub fn report_improve<'a, T: SearchesRows, Out: Write, Log: Write>(
    alloc: Global,
    rounds: u16,
    from: u16,
    mut instance: Instance,
    output: &mut Watch<Out>,
    log: &mut Watch<Log>,
) -> Result<(), Fault<'a>>
    ensures ends { Ends (output_of Out.contents output.old output.new)
        (improve_report rounds from instance.case instance.roster) instance.case
        (outcome_of result) }
    ensures logged { LeavesLog (output_of Log.contents log.old log.new)
        (improve_report rounds from instance.case instance.roster).log (outcome_of result) }
{
    let mut meter = Meter::new(&mut instance.case);
    let mut held = hold(alloc, instance)?;
    let Ok(mut workspace) = RunSpace::<T>::for_case(alloc, held.case()) else {
        return Err(Fault::Workspace);
    };
    rounds_have_room(held.case(), rounds);
    match improve(&mut held, rounds, from, &mut workspace, &mut meter, log) {
        Ok(_) => show_weeks(held.case(), held.roster(), output),
        Err(LogFault::LogFailed { .. }) => Err(Fault::Log),
    }
}
