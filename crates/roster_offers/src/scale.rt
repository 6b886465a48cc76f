//! The scale of a search: in how many parts of a point it counts.

ghost use Rattle.std.specs.Prelude.{◌*◌, ◌<◌, ◌≤◌};
ghost use Rattle.roster_offers.specs.Lists.{IsScaleOf, most_row_points, most_scale, no_row};

use roster_instance::Case;

/// What a day costs at most by dual prices, in points: an offer and a transition.
const MOST_DAY_POINTS: u64 = 245_580;

/// What is missing at the end at most, in points.
const MOST_END_POINTS: u64 = 19_980;

/// The greatest scale of any case.
const MOST_SCALE: u32 = 128;

/// What stands for no row.
const NO_ROW: u64 = 1_073_741_824;

/// The greatest power of two at which searches in a case may count: 128 over 4 weeks, 64 over 8 and 8 over
/// 52.
pub fn greatest_scale(case: &Case) -> u32
    ensures scale { IsScaleOf case.now result }
    ensures greatest { 2 * result ≤ most_scale → no_row ≤ 2 * result * most_row_points case.now }
{
    case.keeps_limits();
    let points = case.days() as u64 * MOST_DAY_POINTS + MOST_END_POINTS;
    let mut scale: u32 = 1;
    'doubled: while scale <= MOST_SCALE / 2 && 2 * scale as u64 * points < NO_ROW {
        scale *= 2;
    }
    scale
}
