//! The most extensions that a search makes.

ghost use Rattle.std.specs.Prelude.{◌≡◌, ◌*◌, ◌<◌, ◌≤◌};
ghost use Rattle.roster_instance.specs.Limits.{most_days, most_states};
ghost use Rattle.roster_laws.specs.Greatest.{extension_count};
ghost use Rattle.roster_state.specs.Codes.{product};
ghost use Rattle.roster_offers.specs.Lists.{offers_on};
ghost use Rattle.roster_tables.specs.Counts.{numbers_in, states_in, states_in_boxes};
ghost use Rattle.roster_tables.specs.Search.{reachable_extensions};

use crate::reachable::DayBoxes;
use roster_offers::SearchInput;
use roster_state::{BOXES, Interval, Ranges, StateBox};

/// The most extensions that the tables of a search make, by the boxes of its days alone: on each day the
/// states in its boxes, whether a row can lead to them or not, once for each of the day's offers.
pub fn extensions_at_most(search: &SearchInput<'_>, boxes: &DayBoxes) -> u64
    ensures all { reachable_extensions search.now.case.now search.now.nurse
        (offers_on search.now.offers.now) boxes.now.days ≤ result }
    ensures within { result ≤ extension_count search.now.case.now search.now.nurse }
    ensures small { result ≤ most_days * (most_states * 16) }
{
    let case = search.case;
    let ranges = Ranges::of(case, search.nurse);
    case.keeps_sizes();
    let mut extensions = 0;
    for day in 0..case.days() {
        let offers = search.offers[day as usize].as_slice();
        extensions += states_in_boxes(&ranges, &boxes.days[day as usize]) * offers.len() as u64;
    }
    extensions
}

/// The number of states whose numbers are in the boxes of a day.
fn states_in_boxes(ranges: &Ranges, boxes: &[StateBox; BOXES]) -> u64
    requires few { product ranges.now ≤ most_states }
    ensures { result ≡ states_in_boxes ranges.now boxes.now }
{
    let mut states = 0;
    for last in 0..ranges.last() {
        states += states_in(ranges, &boxes[last as usize]);
    }
    states
}

/// The number of states with one last shift whose other numbers are in a box.
fn states_in(ranges: &Ranges, state_box: &StateBox) -> u64
    ensures { result ≡ states_in ranges.now state_box.now }
{
    let weekends = numbers_in(state_box.weekends, ranges.weekends());
    let assignments = numbers_in(state_box.assignments, ranges.assignments());
    let shift_runs = numbers_in(state_box.shift_run, ranges.shift_run());
    numbers_in(state_box.run, ranges.run()) * (shift_runs * (weekends * assignments))
}

/// The number of an interval's numbers below a size.
fn numbers_in(interval: Interval, size: u32) -> u64
    ensures exactly { result ≡ numbers_in interval size }
    ensures within { result ≤ size }
{
    let (begin, end) = interval.below(size);
    (end - begin) as u64
}
