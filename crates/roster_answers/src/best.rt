//! The command `best`: a nurse's best row is put in.

ghost use Rattle.std.specs.Prelude.{◌≡◌, ◌++◌, codes, ◌<◌, ◌≤◌, true, OnErr, OnOk};
ghost use Rattle.roster_bundle.specs.Limits.{greatest_u64};
ghost use Rattle.roster_text.specs.Io.{Stops, Writes};
ghost use Rattle.roster_instance.specs.Meaning.{day_count, nurse_count};
ghost use Rattle.roster_rules.specs.Improver.{line, start_word};
ghost use Rattle.roster_answers.specs.Answer.{Ends, LeavesLog, best_report, log_with_best, number_of, outcome_of, output_of, with_best};
ghost use Rattle.roster_laws.specs.Greatest.{extension_count};
ghost use Rattle.roster_offers.specs.Workspaces.{fits_space};

use crate::fault::{Fault, Thing};
use crate::held::hold;
use crate::instance::Instance;
use crate::weeks::show_weeks;
use roster_case::{Held, first_hard};
use roster_instance::Case;
use roster_offers::{SearchesRows, Workspace};
use roster_reports::log_start;
use roster_rounds::search_has_room;
use roster_row::best_row;
use roster_state::Meter;
use roster_text::{Piece, Watch, WriteFault, write_pieces};
use std::alloc::Global;
use std::io::Write;

/// Writes the weeks of an instance with the best row, from a week on, of the nurse of this name put in, even
/// if it isn't cheaper. What the roster costs before and with it goes to the log first. No memory is asked
/// for before the nurse is found.
pub fn report_best<'a, T: SearchesRows, Out: Write, Log: Write>(
    alloc: Global,
    name: &'a [u8],
    from: u16,
    mut instance: Instance,
    output: &mut Watch<Out>,
    log: &mut Watch<Log>,
) -> Result<(), Fault<'a>>
    ensures ends { Ends (output_of Out.contents output.old output.new)
        (best_report name.now from instance.case instance.roster) instance.case
        (outcome_of result) }
    ensures logged { LeavesLog (output_of Log.contents log.old log.new)
        (best_report name.now from instance.case instance.roster).log (outcome_of result) }
{
    let mut meter = Meter::new(&mut instance.case);
    report_best_row::<T, Out, Log>(alloc, name, from, instance, &mut meter, output, log)
}

/// The same, with a meter that has counted nothing yet. It makes one search.
fn report_best_row<'a, T: SearchesRows, Out: Write, Log: Write>(
    alloc: Global,
    name: &'a [u8],
    from: u16,
    instance: Instance,
    meter: &mut Meter,
    output: &mut Watch<Out>,
    log: &mut Watch<Log>,
) -> Result<(), Fault<'a>>
    requires none { meter.old ≡ 0 }
    ensures ends { Ends (output_of Out.contents output.old output.new)
        (best_report name.now from instance.case instance.roster) instance.case
        (outcome_of result) }
    ensures logged { LeavesLog (output_of Log.contents log.old log.new)
        (best_report name.now from instance.case instance.roster).log (outcome_of result) }

    // One search, or none if it is refused before.
    ensures each_day { OnOk result (day_count instance.case ≤ meter.new) }
    ensures counted { meter.new ≤ extension_count instance.case
        (number_of instance.case name.now) }
{
    let Some(nurse) = instance.case.find_nurse(name) else {
        if let Some(fault) = first_hard(&instance.case, &instance.roster) {
            return Err(Fault::Hard(fault, instance.into_case()));
        }
        return Err(Fault::Unknown(Thing::Nurse, name));
    };
    let mut held = hold(alloc, instance)?;
    let Ok(mut workspace) = Workspace::<T>::for_case(alloc, held.case()) else {
        return Err(Fault::Workspace);
    };
    search_has_room(held.case(), nurse);
    match put_best_row(&mut held, name, nurse, from, &mut workspace, meter, log) {
        Ok(()) => show_weeks(held.case(), held.roster(), output),
        Err(_) => Err(Fault::Log),
    }
}

/// Puts the best row of a nurse from a week on in, by one search. It logs what the roster costs before the
/// search begins, and what it costs with the row after the search. The fault is the log's.
fn put_best_row<T: SearchesRows, Log: Write>(
    held: &mut Held,
    name: &[u8],
    nurse: usize,
    from: u16,
    workspace: &mut Workspace<T>,
    meter: &mut Meter,
    log: &mut Watch<Log>,
) -> Result<(), WriteFault>
    requires nurse { nurse < nurse_count held.old.case }
    requires fits { fits_space held.old.case workspace.old ≡ true }
    requires none { meter.old ≡ 0 }
    requires room { extension_count held.old.case nurse ≤ greatest_u64 }
    ensures put { OnOk result (held.new ≡ record
        { case = held.old.case; roster = with_best held.old.case from held.old.roster nurse }) }
    ensures ok { OnOk result (Writes Log.contents log.old log.new
        (log_with_best held.old.case from held.old.roster nurse name.now)) }
    ensures err { OnErr result (Stops Log.contents log.old log.new
        (log_with_best held.old.case from held.old.roster nurse name.now)) }
    ensures each_day { OnOk result (day_count held.old.case ≤ meter.new) }
    ensures counted { meter.new ≤ extension_count held.old.case nurse }
{
    write_start(held.case(), held.total(), log)?;
    let best = best_row(held, nurse, from, workspace, meter);
    write_best(name, best.total, log)?;
    held.replace_row(nurse, workspace.row());
    Ok(())
}

/// Writes what the roster costs before the search. If the case charges for changed days, it first writes how
/// many points each costs.
fn write_start<Log: Write>(case: &Case, total: u64, log: &mut Watch<Log>) -> Result<(), WriteFault>
    ensures ok { OnOk result (Writes Log.contents log.old log.new
        (line (start_word case.now) total)) }
    ensures err { OnErr result (Stops Log.contents log.old log.new
        (line (start_word case.now) total)) }
{
    match log_start(log, 0, case, total) {
        Ok(_) => Ok(()),
        Err(fault) => Err(fault),
    }
}

/// Writes what the roster costs with the best row of the nurse of this name.
fn write_best<Log: Write>(name: &[u8], total: u64, log: &mut Watch<Log>) -> Result<(), WriteFault>
    ensures ok { OnOk result (Writes Log.contents log.old log.new
        (line (codes "best " ++ name.now) total)) }
    ensures err { OnErr result (Stops Log.contents log.old log.new
        (line (codes "best " ++ name.now) total)) }
{
    write_pieces(
        log,
        &[
            Piece::Bytes(b"best "),
            Piece::Bytes(name),
            Piece::Bytes(b" "),
            Piece::Number(total),
            Piece::Bytes(b"\n"),
        ],
    )
}
