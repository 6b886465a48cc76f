//! A line of completion bounds: those of one last shift and one run. One call sets a line and counts it: each
//! completion bound once for each offer of its day.

ghost use Rattle.std.specs.Prelude.{◌≡◌, ◌+◌, ◌*◌, ◌<◌, ◌≤◌, ℕ, length, slice_index_or};
ghost use Rattle.roster_bundle.specs.Limits.{greatest_u64};
ghost use Rattle.roster_instance.specs.Sizes.{cap};
ghost use Rattle.roster_state.specs.CompletionLines.{AreLow, IsCounted, IsLesser, IsUnderLeave, IsUnderStay, most_completion_bound, most_weight};

use crate::meter::Meter;
use roster_instance::Limits;

/// What a line is set by: the limits of the last shift's run, what each missing or extra day of it costs,
/// the least costs of leaving the shift and of staying in it, and the number of cells that are computed.
/// All costs are in the same parts of a point.
#[derive(Clone, Copy)]
pub struct LineCosts {
    pub run: Limits,
    pub weight: u32,
    pub leave: u32,
    pub stay: u32,
    pub count: usize,
}

/// Sets a line, where `after` is the line to which staying leads: after each run to the lesser of what
/// leaving the shift costs and what staying in it does. The first cell, and those that aren't computed, may
/// be lower. The meter counts each of its completion bounds once for each of that many offers.
#[inline(always)]
pub fn set_line(costs: LineCosts, offers: usize, after: &[u32], here: &mut [u32], meter: &mut Meter)
    requires after_long { cap costs.run < length after.now }
    requires capped { cap costs.run < length here.old }
    requires long { length here.old ≤ 1000 }
    requires weight { costs.weight ≤ most_weight }
    requires leave { costs.leave + costs.weight * 65536 ≤ most_completion_bound }
    requires stay { costs.stay ≤ most_completion_bound }
    requires low { AreLow after.now }
    requires extensions { meter.old + length here.old * offers ≤ greatest_u64 }
    ensures leaves { (q : ℕ) → q < length here.new →
        IsUnderLeave costs q (slice_index_or here.new q 0) }
    ensures stays { (q : ℕ) → q < length here.new →
        IsUnderStay costs after.now q (slice_index_or here.new q 0) }
    ensures lesser { (q : ℕ) → q < length here.new →
        IsLesser costs after.now q (slice_index_or here.new q 0) }
    ensures low { AreLow here.new }
    ensures counted { IsCounted here.old here.new offers meter.old meter.new }
{
    meter.add(here.len() as u64 * offers as u64);
    set_cells(costs, after, here);
}

/// Sets all of a line to one number. The meter counts each of its completion bounds once for each offer, also
/// those that no row reaches.
#[inline(always)]
pub fn fill_line(completion_bound: u32, offers: usize, here: &mut [u32], meter: &mut Meter)
    requires completion_bound { completion_bound ≤ most_completion_bound }
    requires extensions { meter.old + length here.old * offers ≤ greatest_u64 }
    ensures all { (q : ℕ) → q < length here.new → slice_index_or here.new q 0 ≡ completion_bound }
    ensures low { AreLow here.new }
    ensures counted { IsCounted here.old here.new offers meter.old meter.new }
{
    let cells = here.len() as u64;
    meter.add(cells * offers as u64);
    fill_cells(completion_bound, here);
}

/// Sets the cells of a line.
fn set_cells(costs: LineCosts, after: &[u32], here: &mut [u32])
    requires after_long { cap costs.run < length after.now }
    requires capped { cap costs.run < length here.old }
    requires long { length here.old ≤ 1000 }
    requires weight { costs.weight ≤ most_weight }
    requires leave { costs.leave + costs.weight * 65536 ≤ most_completion_bound }
    requires stay { costs.stay ≤ most_completion_bound }
    requires low { AreLow after.now }
    ensures leaves { (q : ℕ) → q < length here.new →
        IsUnderLeave costs q (slice_index_or here.new q 0) }
    ensures stays { (q : ℕ) → q < length here.new →
        IsUnderStay costs after.now q (slice_index_or here.new q 0) }
    ensures lesser { (q : ℕ) → q < length here.new →
        IsLesser costs after.now q (slice_index_or here.new q 0) }
    ensures low { AreLow here.new }
    ensures length { length here.new ≡ length here.old }
{
    let LineCosts {
        run,
        weight,
        leave,
        stay,
        count,
    } = costs;
    let cap = run.cap() as usize;
    let open = cap.min(count);
    // A shift that was worked last has a run of at least a day, so no row reaches the first cell: 0 is below
    // everything.
    here[0] = 0;
    'open: for place in 1..open {
        let missing = weight * (run.least as u32).saturating_sub(place as u32);
        let extra = weight * run.day_violations(place as u32, true);
        here[place] = (leave + missing).min(stay + extra + after[place + 1]);
    }

    // From its cap on a run misses nothing, and each further day is an extra one. No row reaches the cells
    // that aren't computed.
    let completion_bound = if count <= cap {
        0
    } else {
        leave.min(stay + weight + after[cap])
    };
    'full: for place in open..here.len() {
        here[place] = completion_bound;
    }
}

/// Sets all cells to one number.
#[inline(always)]
fn fill_cells(completion_bound: u32, here: &mut [u32])
    requires completion_bound { completion_bound ≤ most_completion_bound }
    ensures all { (q : ℕ) → q < length here.new → slice_index_or here.new q 0 ≡ completion_bound }
    ensures low { AreLow here.new }
    ensures length { length here.new ≡ length here.old }
{
    for place in 0..here.len() {
        here[place] = completion_bound;
    }
}
