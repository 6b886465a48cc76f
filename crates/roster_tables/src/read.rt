//! The best row, read forward by the pointers.

ghost use Rattle.std.specs.Prelude.{◌≡◌, ◌+◌, ◌<◌, ◌≤◌, ℕ, IfSome, IsSome, List, Some, length};
ghost use Rattle.roster_instance.specs.Meaning.{day_count};
ghost use Rattle.roster_offers.specs.Lists.{no_row};
ghost use Rattle.roster_offers.specs.declared.offer.Offer.{Offer};
ghost use Rattle.roster_tables.specs.Days.{PointersOn, IsReachableIn, all_pointers, best_here, best_next};
ghost use Rattle.roster_tables.specs.Tables.{BeginsWith};

use crate::days::SearchDays;
use crate::pointers::Pointers;
use roster_instance::Choice;
use roster_state::{State, after};

/// The choice with which the best row from a state on begins, and the state after it, by the pointers of the
/// day. It reads no label and counts nothing.
pub fn read_day(
    days: &SearchDays<'_>,
    day: u16,
    state: &State,
    pointers: &Pointers,
) -> (Choice, State)
    requires day { day < day_count days.now.search.case.now }
    requires reachable { IsReachableIn days.now day state.now }
    requires pointers { PointersOn days.now 0 pointers.now }
    requires capacity { all_pointers days.now ≤ length pointers.now }
    requires some { IsSome (best_here days.now day state.now) }
    requires low { IfSome (best_here days.now day state.now) (λ row. row.0 < no_row) }
    ensures begins { (row : ℕ × List Offer) → best_here days.now day state.now ≡ Some row →
        BeginsWith (best_next days.now day) row result.0 result.1 }
    ensures reachable { IsReachableIn days.now (day + 1) result.1 }
{
    let case = days.search.case;
    case.keeps_limits();
    let offers = days.search.offers[day as usize].as_slice();
    let first = day as u32 * days.ranges.product();
    let pointer = pointers.get(first as usize + state.code(&days.ranges) as usize);
    let offer = offers[pointer as usize];
    match after(case, days.search.nurse, day, *state, offer.choice.shift()) {
        Some(next) => (offer.choice, next),
        None => unreachable!(),
    }
}
