//! The roster without the work of absent nurses, and the cover of each of its slots.

ghost use Rattle.std.specs.Prelude.{◌≡◌, ◌<◌, true, IfOk, if◌then◌else◌, length, map};
ghost use Rattle.std.specs.List.{range_with_len};
ghost use Rattle.roster_instance.specs.declared.choice.Choice.TheVariants.{Off};
ghost use Rattle.roster_instance.specs.Meaning.{day_count, is_absent, nurse_count};
ghost use Rattle.roster_instance.specs.Rosters.{choice_on, fits_case};
ghost use Rattle.roster_who.specs.Offers.{AreCounted};
ghost use Rattle.roster_who.specs.Who.{without_absent_work};

use roster_costs::covers;
use roster_instance::{Case, Choice, Roster, choice_on};
use std::alloc::{AllocError, Global};

/// A copy of a roster in which absent nurses are off. It takes an allocation for the list, one for each
/// nurse, and one more.
pub(crate) fn without_absent_work(
    alloc: Global,
    case: &Case,
    roster: &Roster,
) -> Result<Roster, AllocError>
    requires fits { fits_case case.now roster.now ≡ true }
    ensures present { IfOk result (λ present. present ≡ without_absent_work case.now roster.now) }
    ensures fits { IfOk result (λ present. fits_case case.now present ≡ true) }
{
    let mut present = roster.copy(alloc)?;
    let mut row = vec![in alloc; Choice::Off; case.days() as usize]?;
    for nurse in 0..case.nurses() {
        put_here(case, nurse, roster.row(nurse), &mut row);
        present.put_row(nurse, &row);
    }
    Ok(present)
}

/// Writes a nurse's row into `row`, with the nurse off on the days of her absence.
fn put_here(case: &Case, nurse: usize, given: &[Choice], row: &mut [Choice])
    requires nurse { nurse < nurse_count case.now }
    requires days { length row.old ≡ day_count case.now }
    ensures { row.new ≡ map (λ d. if is_absent case.now nurse d then Off else choice_on given.now d)
        (range_with_len 0 (day_count case.now)) }
{
    for day in 0..case.days() {
        row[day as usize] = if case.is_absent(nurse, day) {
            Choice::Off
        } else {
            choice_on(given, day)
        };
    }
}

/// The cover of each slot, day by day, with one allocation.
pub(crate) fn covers_of_days(
    alloc: Global,
    case: &Case,
    roster: &Roster,
) -> Result<Vec<[u16; 64]>, AllocError>
    requires fits { fits_case case.now roster.now ≡ true }
    ensures counted { IfOk result (λ covers. AreCounted case.now roster.now covers.items) }
{
    case.keeps_limits();
    let mut tables = Vec::with_capacity(alloc, case.days() as usize)?;
    for day in 0..case.days() {
        tables.push(covers(case, roster, day))?;
    }
    Ok(tables)
}
