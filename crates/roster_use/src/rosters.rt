//! From the bytes of a bundle to the weeks of a better roster.

ghost use Rattle.std.specs.Prelude.{◌≡◌, true, IfOk};
ghost use Rattle.roster_instance.specs.Rosters.{fits_case};
ghost use Rattle.roster_rules.specs.Penalties.{penalty};

use crate::stop::Stop;
use roster_best::{Workspace, best_row, most_search_extensions};
use roster_case::{Case, Held, Roster};
use roster_reports::write_weeks;
use roster_rounds::{Outcome, improve, most_extensions};
use roster_state::Meter;
use roster_text::{Watch, parse_bundle, read_all, tokens};
use std::alloc::Global;
use std::io::{Read, Write};

/// Reads a bundle, gives each nurse her best row in turn, improves the roster in at most this number of
/// rounds, and writes its weeks. What the rounds do goes to the log.
pub fn write_better_weeks<In: Read, Out: Write, Log: Write>(
    alloc: Global,
    rounds: u16,
    input: &mut Watch<In>,
    output: &mut Watch<Out>,
    log: &mut Watch<Log>,
) -> Result<Outcome, Stop> {
    let source = read_all(alloc, input)?;
    let (mut case, roster) = read_roster(alloc, &source)?;
    // A meter takes a case by `&mut`, and a `Held` passes its case by `&` only: so the meter is made first.
    let mut meter = Meter::new(&mut case);
    let mut held = Held::new(alloc, case, roster)?;
    let mut workspace = Workspace::for_case(alloc, held.case())?;
    for nurse in 0..held.case().nurses() {
        put_best_row(&mut held, nurse, &mut workspace, &mut meter)?;
    }
    let outcome = improve_rounds(&mut held, rounds, &mut workspace, &mut meter, log)?;
    write_weeks(output, held.case(), held.roster())?;
    Ok(outcome)
}

/// The case and the roster that the bytes of a bundle describe.
fn read_roster(alloc: Global, source: &[u8]) -> Result<(Case, Roster), Stop>
    ensures { IfOk result (λ said. fits_case said.0 said.1 ≡ true) }
{
    let tokens = tokens(alloc, source)?;
    let bundle = parse_bundle(alloc, source, &tokens)?;
    let case = Case::from_bundle(alloc, &bundle, source)?;
    let roster = Roster::from_bundle(alloc, &case, &bundle, source)?;
    Ok((case, roster))
}

/// Puts a nurse's best row in, even if it isn't cheaper, and answers what the roster costs with it.
///
/// # Errors
///
/// There is no such nurse, or not enough capacity for the search. The roster stays as it is.
pub fn put_best_row(
    held: &mut Held,
    nurse: usize,
    workspace: &mut Workspace,
    meter: &mut Meter,
) -> Result<u64, Stop>
    ensures case { held.new.case ≡ held.old.case }
    ensures total { IfOk result (λ total. total ≡ penalty held.new.case held.new.roster) }
{
    let case = held.case();
    // What `best_row` requires.
    let can_search = nurse < case.nurses() && workspace.fits(case);
    if !can_search || meter.room() < most_search_extensions(case, nurse) {
        return Err(Stop::NoCapacity);
    }
    let best = best_row(held, nurse, 0, workspace, meter);
    held.replace_row(nurse, workspace.row());
    Ok(best.total)
}

/// Improves the roster in rounds.
fn improve_rounds<Log: Write>(
    held: &mut Held,
    rounds: u16,
    workspace: &mut Workspace,
    meter: &mut Meter,
    log: &mut Watch<Log>,
) -> Result<Outcome, Stop>
    ensures case { held.new.case ≡ held.old.case }
{
    // What `improve` requires.
    let can_improve = workspace.fits(held.case());
    if !can_improve || meter.room() < most_extensions(held.case(), rounds) {
        return Err(Stop::NoCapacity);
    }
    Ok(improve(held, rounds, 0, workspace, meter, log)?)
}
