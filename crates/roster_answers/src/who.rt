//! The command `who`: who may take a shift.

ghost use Rattle.std.specs.Prelude.{◌≡◌, ◌<◌, All, IfErr, OnErr, OnOk};
ghost use Rattle.roster_text.specs.Io.{Stops, Writes};
ghost use Rattle.roster_instance.specs.Meaning.{nurse_count};
ghost use Rattle.roster_answers.specs.Answer.{EndsBy, IsWhoFor, StopsOutput, names_in, outcome_of, output_of, who_line, who_text};

use crate::asked::{Asking, asked_by};
use crate::fault::Fault;
use crate::instance::Instance;
use roster_costs::first_irreparable;
use roster_instance::Case;
use roster_json::{NotWritten, write_json_taker};
use roster_offers::SearchesRows;
use roster_reports::write_taker;
use roster_rounds::rounds_have_room;
use roster_state::Meter;
use roster_text::Watch;
use roster_who::{Taker, Takers, find_takers};
use std::alloc::Global;
use std::io::Write;

/// Writes a line for each nurse who may take an assignment, in their order, as JSON or not. The roster may
/// have breaches that a plan repairs.
pub fn report_who<'a, T: SearchesRows, Out: Write>(
    alloc: Global,
    asking: Asking<'a>,
    json: bool,
    mut instance: Instance,
    output: &mut Watch<Out>,
) -> Result<(), Fault<'a>>
    ensures { EndsBy (output_of Out.contents output.old output.new)
        (IsWhoFor (names_in asking.entry) asking.entry.from json instance) instance.case
        (outcome_of result) }
{
    let mut meter = Meter::new(&mut instance.case);
    report_takers::<T, Out>(alloc, asking, json, instance, &mut meter, output)
}

/// The same, with a meter that has counted nothing yet.
fn report_takers<'a, T: SearchesRows, Out: Write>(
    alloc: Global,
    asking: Asking<'a>,
    json: bool,
    instance: Instance,
    meter: &mut Meter,
    output: &mut Watch<Out>,
) -> Result<(), Fault<'a>>
    requires { meter.old ≡ 0 }
    ensures { EndsBy (output_of Out.contents output.old output.new)
        (IsWhoFor (names_in asking.entry) asking.entry.from json instance) instance.case
        (outcome_of result) }
{
    if let Some(fault) = first_irreparable(&instance.case, &instance.roster, asking.from) {
        return Err(Fault::Hard(fault, instance.into_case()));
    }
    let Instance { case, roster } = &instance;
    let asked = match asked_by(case, asking) {
        Ok(asked) => asked,
        Err(unknown) => return Err(Fault::Unknown(unknown.thing, unknown.name)),
    };
    rounds_have_room(case, 1);
    match find_takers::<T>(alloc, case, roster, asked, asking.from, meter) {
        Ok(takers) => show_takers(case, json, &takers, output),
        Err(_) => Err(Fault::Workspace),
    }
}

/// Writes a line for each nurse who may take it. If that fails, the fault is the output's.
fn show_takers<'a, Out: Write>(
    case: &Case,
    json: bool,
    takers: &Takers,
    output: &mut Watch<Out>,
) -> Result<(), Fault<'a>>
    requires nurses { All (λ taker. taker.nurse < nurse_count case.now) takers.now.listed.items }
    ensures ok { OnOk result (Writes Out.contents output.old output.new
        (who_text case.now json takers.now.missed takers.now.listed.items)) }
    ensures err { IfErr result (StopsOutput Out.contents output.old output.new
        (who_text case.now json takers.now.missed takers.now.listed.items)) }
{
    Ok(write_takers(case, json, takers, output)?)
}

fn write_takers<Out: Write>(
    case: &Case,
    json: bool,
    takers: &Takers,
    output: &mut Watch<Out>,
) -> Result<(), NotWritten>
    requires nurses { All (λ taker. taker.nurse < nurse_count case.now) takers.now.listed.items }
    ensures ok { OnOk result (Writes Out.contents output.old output.new
        (who_text case.now json takers.now.missed takers.now.listed.items)) }
    ensures err { OnErr result (Stops Out.contents output.old output.new
        (who_text case.now json takers.now.missed takers.now.listed.items)) }
{
    let listed = takers.listed.as_slice();
    for index in 0..listed.len() {
        write_line(case, json, takers.missed, listed[index], output)?;
    }
    Ok(())
}

/// Writes the line of a nurse, with how many nurses are still lacking. If it isn't JSON, that is left out
/// unless the roster is short of minimums.
fn write_line<Out: Write>(
    case: &Case,
    json: bool,
    missed: u64,
    taker: Taker,
    output: &mut Watch<Out>,
) -> Result<(), NotWritten>
    requires { taker.nurse < nurse_count case.now }
    ensures ok { OnOk result (Writes Out.contents output.old output.new
        (who_line case.now json missed taker)) }
    ensures err { OnErr result (Stops Out.contents output.old output.new
        (who_line case.now json missed taker)) }
{
    let Taker {
        nurse,
        missed: lacking,
        penalty,
        changed,
    } = taker;
    if json {
        return write_json_taker(output, case, nurse, penalty, changed, lacking);
    }
    let still = if missed > 0 { Some(lacking) } else { None };
    match write_taker(output, case.nurse_name(nurse), penalty, changed, still) {
        Ok(()) => Ok(()),
        Err(_) => Err(NotWritten),
    }
}
