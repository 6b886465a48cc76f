//! The search over a table of offers.

ghost use Rattle.std.specs.Prelude.{◌≡◌, ◌+◌, ◌*◌, ◌<◌, ◌≤◌, ℕ, IsSome, List, Some, length, take};
ghost use Rattle.roster_bundle.specs.Limits.{greatest_u64};
ghost use Rattle.roster_instance.specs.Meaning.{day_count};
ghost use Rattle.roster_laws.specs.Greatest.{extension_count};
ghost use Rattle.roster_state.specs.Codes.{product};
ghost use Rattle.roster_offers.specs.Offers.{choices_of};
ghost use Rattle.roster_offers.specs.Lists.{IsFound, best_over_at, no_row, offers_on};
ghost use Rattle.roster_offers.specs.declared.offer.Offer.{Offer};
ghost use Rattle.roster_tables.specs.Days.{LabelsOn, PointersOn, all_pointers, best_of_days, extensions_below};
ghost use Rattle.roster_tables.specs.OpenDays.{IsDayOf, KeepLengths};
ghost use Rattle.roster_tables.specs.Search.{AreReachable, HasTables, reachable_extensions};

use crate::day::OpenDay;
use crate::days::SearchDays;
use crate::labels::{SpanBuffer, label_day, label_end};
use crate::pointers::Pointers;
use crate::reachable::DayBoxes;
use crate::read::read_day;
use crate::tables::Tables;
use roster_instance::Choice;
use roster_offers::SearchInput;
use roster_state::{Meter, Ranges, start};

/// Finds the best row over a table of offers, wherever these come from. `row` then begins with its choices,
/// one for each day, and the result is its cost: its prices, and what the nurse's own rules cost along it
/// besides what the start owes, in the parts of a point of the search's scale. It allocates nothing. The
/// boxes hold the reachable states of each day. The meter counts each of these that a row can lead to, once
/// for each of the day's offers: at least one for each day, and no more than one for each of the nurse's
/// states, each day and each choice.
pub fn search_states(
    search: &SearchInput<'_>,
    boxes: &DayBoxes,
    tables: &mut Tables,
    row: &mut [Choice],
    meter: &mut Meter,
) -> u32
    requires some { IsSome (best_over_at search.now.case.now search.now.nurse search.now.scale
        (offers_on search.now.offers.now)) }
    requires tables { HasTables search.now.case.now search.now.nurse tables.old }
    requires row_capacity { day_count search.now.case.now ≤ length row.old }
    requires are_reachable { AreReachable search.now.case.now search.now.nurse
        (offers_on search.now.offers.now) boxes.now.days }
    requires room { meter.old + reachable_extensions search.now.case.now search.now.nurse
        (offers_on search.now.offers.now) boxes.now.days ≤ greatest_u64 }

    // The row, and its cost.
    ensures best { IsFound (best_over_at search.now.case.now search.now.nurse search.now.scale
        (offers_on search.now.offers.now)) result (take (day_count search.now.case.now) row.new) }
    ensures below { result < no_row }
    ensures length { length row.new ≡ length row.old }

    // The meter, and the tables.
    ensures each_day { meter.old + day_count search.now.case.now ≤ meter.new }
    ensures counted { meter.new ≤ meter.old + extension_count search.now.case.now search.now.nurse }
    ensures exactly { meter.new ≡ meter.old + reachable_extensions search.now.case.now
        search.now.nurse (offers_on search.now.offers.now) boxes.now.days }
    ensures tables { tables.new ≡ tables.old }
{
    let (case, nurse) = (search.case, search.nurse);
    case.keeps_limits();
    case.weeks();
    let ranges = Ranges::of(case, nurse);
    let Tables {
        labels,
        later,
        pointers,
        buffer,
    } = tables;
    let days = SearchDays {
        search: *search,
        rules: case.contract_rules(nurse),
        ranges,
        boxes: &boxes.days,
    };
    label_days(&days, labels, later, pointers, buffer, meter);
    read_row(&days, pointers, row);
    let (first, _) = start(case, nurse);
    labels[first.code(&ranges) as usize]
}

/// Sets the labels and the pointers of all days, from the last day to the first. Two label tables take turns:
/// one has the labels of days with even numbers, in the end those of the first day, and the other one those
/// of the other days.
fn label_days(
    days: &SearchDays<'_>,
    even: &mut [u32],
    odd: &mut [u32],
    pointers: &mut Pointers,
    buffer: &mut SpanBuffer,
    meter: &mut Meter,
)
    requires labels_capacity { product days.now.ranges ≤ length even.old }
    requires equal_lengths { length odd.old ≡ length even.old }
    requires pointers_capacity { all_pointers days.now ≤ length pointers.old }
    requires room { meter.old + extensions_below days.now (day_count days.now.search.case.now)
        ≤ greatest_u64 }
    ensures labels { LabelsOn days.now 0 even.new }
    ensures pointers { PointersOn days.now 0 pointers.new }
    ensures lengths { KeepLengths even.old even.new odd.old odd.new }
    ensures pointers_length { length pointers.new ≡ length pointers.old }
    ensures exactly { meter.new ≡ meter.old
        + extensions_below days.now (day_count days.now.search.case.now) }
{
    let count = days.search.case.days();
    let last = &days.boxes[count as usize];
    if count % 2 == 0 {
        label_end(days, last, even);
    } else {
        label_end(days, last, odd);
    }
    for day in (0..count).rev() {
        if day % 2 == 0 {
            let open = open_day(days, day, odd);
            label_day(&open, even, pointers, buffer, meter);
        } else {
            let open = open_day(days, day, even);
            label_day(&open, odd, pointers, buffer, meter);
        }
    }
}

/// A day that is still to be labelled, with the labels of the day after it.
fn open_day<'a, 'b>(days: &SearchDays<'a>, day: u16, later: &'b [u32]) -> OpenDay<'a, 'b>
    requires day { day < day_count days.now.search.case.now }
    requires later { LabelsOn days.now (day + 1) later.now }
    requires capacity { product days.now.ranges ≤ length later.now }
    ensures { IsDayOf days.now day later.now result }
{
    let SearchDays {
        search: SearchInput {
            case,
            nurse,
            scale,
            offers: table,
        },
        rules,
        ranges,
        boxes: all,
    } = *days;
    case.keeps_limits();
    let boxes = &all[day as usize];
    let offers = table[day as usize].as_slice();
    let first = day as u32 * ranges.product();
    // Field by field, because the borrow-checking part of the proof doesn't cover a copy of the whole out of
    // a reference.
    let search = SearchInput {
        case,
        nurse,
        scale,
        offers: table,
    };
    let days = SearchDays {
        search,
        rules,
        ranges,
        boxes: all,
    };
    OpenDay {
        days,
        day,
        boxes,
        offers,
        later,
        first,
    }
}

/// Reads the best row by the pointers of all days, from the first day to the last.
fn read_row(days: &SearchDays<'_>, pointers: &Pointers, row: &mut [Choice])
    requires pointers { PointersOn days.now 0 pointers.now }
    requires pointers_capacity { all_pointers days.now ≤ length pointers.now }
    requires row_capacity { day_count days.now.search.case.now ≤ length row.old }
    requires some { IsSome (best_of_days days.now) }
    ensures row { (cost : ℕ) (offers : List Offer) → best_of_days days.now ≡ Some (cost, offers) →
        take (day_count days.now.search.case.now) row.new ≡ choices_of offers }
    ensures length { length row.new ≡ length row.old }
{
    let case = days.search.case;
    case.keeps_limits();
    let (mut state, _) = start(case, days.search.nurse);
    for day in 0..case.days() {
        let (choice, next) = read_day(days, day, &state, pointers);
        row[day as usize] = choice;
        state = next;
    }
}
