//! Which states are reachable on each day.

ghost use Rattle.std.specs.Prelude.{◌<◌, All};
ghost use Rattle.roster_instance.specs.Meaning.{day_count};
ghost use Rattle.roster_offers.specs.Lists.{offers_on};
ghost use Rattle.roster_tables.specs.Search.{AreReachable};
ghost use Rattle.roster_tables.specs.Tables.{LeadsOn};

use roster_offers::{MOST_DAYS, SearchInput};
use roster_state::{BOXES, EMPTY_BOX, StateBox, boxes_of, start, widen};

/// The boxes of each day and of the one after the last: which states may be reachable on that day. It takes
/// 52,560 bytes, and serves one search after another.
#[derive(Drop)]
pub struct DayBoxes {
    pub days: [[StateBox; BOXES]; MOST_DAYS + 1],
}

impl DayBoxes {
    /// No state is reachable on any day.
    pub fn new() -> DayBoxes {
        DayBoxes {
            days: [[EMPTY_BOX; BOXES]; MOST_DAYS + 1],
        }
    }
}

/// Sets the boxes of each day of a search, from the first day to the one after the last. On the first day the
/// start is the only reachable state.
pub fn find_boxes(search: &SearchInput<'_>, boxes: &mut DayBoxes)
    ensures are_reachable { AreReachable search.now.case.now search.now.nurse
        (offers_on search.now.offers.now) boxes.new.days }
{
    let (case, nurse) = (search.case, search.nurse);
    case.keeps_limits();
    let (state, _) = start(case, nurse);
    boxes.days[0] = boxes_of(&state);
    for day in 0..case.days() {
        let here = &boxes.days[day as usize];
        boxes.days[day as usize + 1] = boxes_after(search, day, here);
    }
}

/// The boxes after a day, into which its offers lead from those before it.
fn boxes_after(search: &SearchInput<'_>, day: u16, boxes: &[StateBox; BOXES]) -> [StateBox; BOXES]
    requires day { day < day_count search.now.case.now }
    ensures { All (LeadsOn search.now.case.now search.now.nurse day boxes.now result)
        (offers_on search.now.offers.now day) }
{
    let offers = search.offers[day as usize].as_slice();
    let mut after = [EMPTY_BOX; BOXES];
    for place in 0..offers.len() {
        let shift = offers[place].choice.shift();
        widen(search.case, search.nurse, day, boxes, shift, &mut after);
    }
    after
}
