//! The counts of all days after one row replaces another.

ghost use Rattle.std.specs.Prelude.{◌≡◌, ◌+◌, ◌-◌, ◌*◌, ◌<◌, ◌≤◌, ℕ, true, length, slice_index_or};
ghost use Rattle.roster_instance.specs.Counting.{one_if};
ghost use Rattle.roster_instance.specs.Limits.{most_days, most_shifts, most_skills, most_small};
ghost use Rattle.roster_instance.specs.Meaning.{day_count, nurse_count, optimum};
ghost use Rattle.roster_instance.specs.Rosters.{fits_case, is_choice_of, is_row_of, with_row};
ghost use Rattle.roster_rules.specs.Covers.{IsTable, number_at};
ghost use Rattle.roster_rules.specs.Penalties.{staffing_cost};
ghost use Rattle.roster_rules.specs.Weights.{staffing_weight};
ghost use Rattle.roster_case.specs.DayTables.{HasSlot, IsCounted, shortfall_with};
ghost use Rattle.roster_case.specs.Held.{IsDay, no_day};
ghost use Rattle.roster_laws.specs.Staffing.{shortfall, with_choice};

use crate::counts::DayCounts;
use roster_costs::slot;
use roster_instance::{Case, Choice, Roster};

/// By how many nurses the slots are short of their optimums more than before, and by how many fewer.
#[derive(Clone, Copy, Default)]
pub(crate) struct Change {
    pub(crate) more: u64,
    pub(crate) fewer: u64,
}

/// Replaces a nurse's row in the counts, and returns the change of the shortfall.
pub(crate) fn recount(
    case: &Case,
    roster: &Roster,
    nurse: usize,
    row: &[Choice],
    days: &mut [DayCounts],
) -> Change
    requires fitting { fits_case case.now roster.now ≡ true }
    requires nurse { nurse < nurse_count case.now }
    requires row { is_row_of case.now row.now ≡ true }
    requires days { length days.old ≡ day_count case.now }
    requires counts { (d : ℕ) → d < day_count case.now →
        IsDay case.now roster.now d (slice_index_or days.old d no_day) }
    ensures days { length days.new ≡ day_count case.now }
    ensures counts { (d : ℕ) → d < day_count case.now →
        IsDay case.now (with_row roster.now nurse row.now) d (slice_index_or days.new d no_day) }
    ensures staffing { staffing_cost case.now (with_row roster.now nurse row.now)
        + staffing_weight * result.fewer ≡ staffing_cost case.now roster.now
        + staffing_weight * result.more }
    ensures more { result.more ≤ most_days }
    ensures fewer { result.fewer ≤ most_days }
{
    case.keeps_limits();
    let old = roster.row(nurse);
    let mut change = Change::default();
    for day in 0..case.days() {
        let (old, new) = (old[day as usize], row[day as usize]);
        let one = exchange_on_day(case, day, &mut days[day as usize], old, new);
        change.more += one.more;
        change.fewer += one.fewer;
    }
    change
}

/// Replaces one choice by another in one day's counts.
fn exchange_on_day(
    case: &Case,
    day: u16,
    counts: &mut DayCounts,
    old: Choice,
    new: Choice,
) -> Change
    requires old { is_choice_of case.now old ≡ true }
    requires new { is_choice_of case.now new ≡ true }
    requires numbers { (s k : ℕ) → s < most_shifts → k < most_skills →
        number_at counts.old.covers s k < u16.MAX }
    requires counted { IsCounted counts.old.covers old }
    requires few { counts.old.shortfall ≤ most_shifts * most_skills * most_small }
    ensures table { (have : ℕ → ℕ → ℕ) → IsTable (with_choice have old) counts.old.covers →
        IsTable (with_choice have new) counts.new.covers }
    ensures shortfall { (have : ℕ → ℕ → ℕ) → IsTable (with_choice have old) counts.old.covers →
        shortfall_with case.now day have new + result.fewer
        ≡ shortfall_with case.now day have old + result.more }
    ensures kept { counts.new.shortfall ≡ counts.old.shortfall + result.more - result.fewer }
    ensures more { result.more ≤ 1 }
    ensures fewer { result.fewer ≤ 1 }
{
    let change = exchange(case, day, &mut counts.covers, old, new);
    counts.shortfall = (counts.shortfall + change.more as u32).saturating_sub(change.fewer as u32);
    change
}

/// Replaces one choice by another in one day's table.
fn exchange(case: &Case, day: u16, table: &mut [u16; 64], old: Choice, new: Choice) -> Change
    requires old { is_choice_of case.now old ≡ true }
    requires new { is_choice_of case.now new ≡ true }
    requires numbers { (s k : ℕ) → s < most_shifts → k < most_skills →
        number_at table.old s k < u16.MAX }
    requires counted { IsCounted table.old old }
    ensures table { (have : ℕ → ℕ → ℕ) → IsTable (with_choice have old) table.old →
        IsTable (with_choice have new) table.new }
    ensures shortfall { (have : ℕ → ℕ → ℕ) → IsTable (with_choice have old) table.old →
        shortfall_with case.now day have new + result.fewer
        ≡ shortfall_with case.now day have old + result.more }
    ensures more { result.more ≤ 1 }
    ensures fewer { result.fewer ≤ 1 }
{
    case.keeps_limits();
    take_away(table, old);
    let change = Change {
        more: is_short(case, day, table, old) as u64,
        fewer: is_short(case, day, table, new) as u64,
    };
    put(table, new);
    change
}

/// Whether one more nurse with this choice would make the day short by one less.
fn is_short(case: &Case, day: u16, table: &[u16; 64], choice: Choice) -> bool
    requires { is_choice_of case.now choice ≡ true }
    ensures { (have : ℕ → ℕ → ℕ) → IsTable have table.now →
        shortfall_with case.now day have choice + one_if result
        ≡ shortfall case.now (optimum case.now day) have }
{
    case.keeps_limits();
    match choice {
        Choice::Off => false,
        Choice::Work(shift, skill) => {
            table[slot(shift, skill)] < case.need(day, shift, skill).optimum
        }
    }
}

/// Counts one more nurse with this choice.
fn put(table: &mut [u16; 64], choice: Choice)
    requires slot { HasSlot choice }
    requires numbers { (s k : ℕ) → s < most_shifts → k < most_skills →
        number_at table.old s k < u16.MAX }
    ensures { (have : ℕ → ℕ → ℕ) → IsTable have table.old →
        IsTable (with_choice have choice) table.new }
{
    if let Choice::Work(shift, skill) = choice {
        table[slot(shift, skill)] += 1;
    }
}

/// Counts one nurse less with this choice.
fn take_away(table: &mut [u16; 64], choice: Choice)
    requires slot { HasSlot choice }
    requires counted { IsCounted table.old choice }
    ensures table { (have : ℕ → ℕ → ℕ) → IsTable (with_choice have choice) table.old →
        IsTable have table.new }
    ensures fewer { (s k : ℕ) → s < 8 → k < 8 → number_at table.new s k ≤ number_at table.old s k }
{
    if let Choice::Work(shift, skill) = choice {
        table[slot(shift, skill)] -= 1;
    }
}
