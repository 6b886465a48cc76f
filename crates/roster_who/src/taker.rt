//! Who may take an assignment.

ghost use Rattle.std.specs.Prelude.{◌≡◌, ◌+◌, ◌*◌, ◌<◌, ◌≤◌, ◌++◌, true, IfOk, OnOk};
ghost use Rattle.std.specs.Option.{option_to_list};
ghost use Rattle.roster_bundle.specs.Limits.{greatest_u64};
ghost use Rattle.roster_instance.specs.Meaning.{day_count, nurse_count};
ghost use Rattle.roster_instance.specs.Rosters.{fits_case};
ghost use Rattle.roster_laws.specs.Greatest.{extension_count, greatest_extension_count};
ghost use Rattle.roster_offers.specs.Workspaces.{fits_space};
ghost use Rattle.roster_who.specs.Who.{AreInOrder, missed, taker, takers, without_absent_work};

use crate::asked::{Asked, Asking};
use crate::figures::{missed, taker_by};
use crate::offers::offers_of_days;
use crate::present::{covers_of_days, without_absent_work};
use crate::ways::leads_through;
use roster_instance::{Case, Roster};
use roster_offers::{BestFault, SearchesRows, Workspace};
use roster_state::Meter;
use std::alloc::{AllocError, Global};

/// A nurse who may take an assignment, and the figures of her row that has it: by how many nurses the roster
/// then falls short of its minimums, the roster's penalty, and on how many days the row has another choice
/// than her present one.
#[derive(Clone, Copy, Debug, PartialEq, Eq)]
pub struct Taker {
    pub nurse: usize,
    pub missed: u64,
    pub penalty: u64,
    pub changed: u16,
}

/// Who may take an assignment, and by how many nurses the roster falls short of its minimums before anyone
/// does.
#[derive(Drop)]
pub struct Takers {
    pub missed: u64,
    pub listed: Vec<Taker>,
}

/// Finds who may take an assignment: each nurse who has a row with it, with the first of the cheapest of
/// these rows. The frozen days stay. The roster may fall short of its minimums, and the work of absent nurses
/// in it isn't counted. The meter counts as for `best_row`, for each nurse.
///
/// # Errors
///
/// An allocation was refused.
pub fn find_takers<T: SearchesRows>(
    alloc: Global,
    case: &Case,
    roster: &Roster,
    asked: Asked,
    from: u16,
    meter: &mut Meter,
) -> Result<Takers, BestFault>
    requires fits { fits_case case.now roster.now ≡ true }
    requires day { asked.day < day_count case.now }
    requires room { meter.old + nurse_count case.now * greatest_extension_count
        case.now ≤ greatest_u64 }

    // The figures are those of each nurse's first cheapest row, and a nurse without such a row isn't listed.
    // The smallest shortfall comes first, then the least penalty, then the order of the scenario.
    ensures takers { IfOk result (λ found. AreInOrder (takers case.now from
        (without_absent_work case.now roster.now) asked) found.listed.items) }
    ensures missed { IfOk result (λ found. found.missed ≡ missed case.now
        (without_absent_work case.now roster.now)) }
    ensures counted { meter.new ≤ meter.old + nurse_count case.now * greatest_extension_count
        case.now }
{
    let present = without_absent_work(alloc, case, roster)?;
    let covers = covers_of_days(alloc, case, &present)?;
    let mut trial = present.copy(alloc)?;
    let mut workspace = Workspace::<T>::for_case(alloc, case)?;
    let asking = Asking {
        case,
        roster: &present,
        covers: covers.as_slice(),
        asked,
        from,
    };
    let mut listed = all_takers(alloc, &asking, &mut trial, &mut workspace, meter)?;
    put_in_order(&mut listed);
    Ok(Takers {
        missed: missed(case, &present),
        listed,
    })
}

/// All who may take the assignment, in the order of the scenario, with one allocation.
fn all_takers<T: SearchesRows>(
    alloc: Global,
    asking: &Asking<'_>,
    trial: &mut Roster,
    workspace: &mut Workspace<T>,
    meter: &mut Meter,
) -> Result<Vec<Taker>, AllocError>
    requires fits { fits_space asking.now.case.now workspace.old ≡ true }
    requires trial { trial.old ≡ asking.now.roster.now }
    requires room { meter.old + nurse_count asking.now.case.now * greatest_extension_count
        asking.now.case.now ≤ greatest_u64 }
    ensures takers { IfOk result (λ gathered. gathered.items ≡ takers asking.now.case.now
        asking.now.from asking.now.roster.now asking.now.asked) }
    ensures counted { meter.new ≤ meter.old + nurse_count asking.now.case.now
        * greatest_extension_count asking.now.case.now }
{
    let mut gathered = Vec::with_capacity(alloc, asking.case.nurses())?;
    for nurse in 0..asking.case.nurses() {
        let taker = taker_of(asking, nurse, trial, workspace, meter);
        push_some(&mut gathered, taker)?;
    }
    Ok(gathered)
}

fn push_some(gathered: &mut Vec<Taker>, taker: Option<Taker>) -> Result<(), AllocError>
    ensures { OnOk result (gathered.new.items ≡ gathered.old.items ++ option_to_list taker) }
{
    if let Some(taker) = taker {
        gathered.push(taker)?;
    }
    Ok(())
}

/// The figures of a nurse, if she has a row with the assignment.
fn taker_of<T: SearchesRows>(
    asking: &Asking<'_>,
    nurse: usize,
    trial: &mut Roster,
    workspace: &mut Workspace<T>,
    meter: &mut Meter,
) -> Option<Taker>
    requires nurse { nurse < nurse_count asking.now.case.now }
    requires fits { fits_space asking.now.case.now workspace.old ≡ true }
    requires trial { trial.old ≡ asking.now.roster.now }
    requires room { meter.old + extension_count asking.now.case.now nurse ≤ greatest_u64 }
    ensures taker { result ≡ taker asking.now.case.now asking.now.from asking.now.roster.now
        asking.now.asked nurse }
    ensures trial { trial.new ≡ trial.old }
    ensures counted { meter.new ≤ meter.old + extension_count asking.now.case.now nurse }
    ensures fits { fits_space asking.now.case.now workspace.new ≡ true }
{
    asking.case.keeps_limits();
    offers_of_days(asking, nurse, workspace);
    if !leads_through(asking.case, nurse, workspace.offers()) {
        return None;
    }
    workspace.search_offers(asking.case, nurse, meter);
    Some(taker_by(asking, nurse, workspace.row(), trial))
}

/// Puts takers in order.
fn put_in_order(takers: &mut Vec<Taker>)
    ensures { AreInOrder takers.old.items takers.new.items }
{
    takers.sort_unstable_by_key(|taker| (taker.missed, taker.penalty, taker.nurse));
}
