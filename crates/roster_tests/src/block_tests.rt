//! The extension of blocks of states by one day, compared with the extension of each of their states.

ghost use Rattle.std.specs.Prelude.{◌≡◌, ◌+◌, ◌<◌, ◌≤◌, true, IfSome};
ghost use Rattle.roster_instance.specs.Meaning.{day_count, nurse_count, shift_count};
ghost use Rattle.roster_rules.specs.Weights.{assignment_weight};
ghost use Rattle.roster_state.specs.Codes.{fits_sizes, sizes_of};
ghost use Rattle.roster_state.specs.MostCosts.{most_of_transition};

use crate::instances::read;
use crate::texts::changed;
use roster_case::{Case, Shift};
use roster_state::{Block, BlockStep, Meter, Ranges, State, extend, extend_block};
use std::cmp::min;
use std::test::Fail;

/// The code of the state to which a block's transition takes the state at this place, and what that costs.
fn place_transition(ranges: &Ranges, step: &BlockStep, place: u32) -> (u32, u32)
    requires fits { fits_sizes ranges.now step.now.next ≡ true }
    requires within { step.now.cost + assignment_weight ≤ most_of_transition }
    requires place { place < ranges.now.assignments }
{
    let _ = ranges.product();
    let last = step.next.places(ranges) - 1;
    let after = if step.moves {
        min(place + 1, last)
    } else {
        place
    };
    let more = if step.dearer_from <= place { 20 } else { 0 };
    (step.next.first(ranges) + after, step.cost + more)
}

/// What `extend` gives for the state of this code: the code of the next state, and the cost.
fn plain_transition(
    case: &Case,
    nurse: usize,
    day: u16,
    code: u32,
    shift: Option<Shift>,
    meter: &mut Meter,
) -> Option<(u32, u32)>
    requires nurse { nurse < nurse_count case.now }
    requires day { day < day_count case.now }
    requires shift { IfSome shift (λ s. s.0 < shift_count case.now) }
{
    let ranges = Ranges::of(case, nurse);
    let state = State::from_code(&ranges, code)?;
    if meter.room() == 0 {
        return None;
    }
    let (next, cost) = extend(case, nurse, day, state, shift, meter)?;
    Some((next.code(&ranges), cost))
}

/// Whether `extend` takes the state at each place of a block to where the block's transition takes it, at the
/// same cost.
fn places_agree(
    case: &Case,
    nurse: usize,
    day: u16,
    block: &Block,
    shift: Option<Shift>,
    step: &BlockStep,
    meter: &mut Meter,
) -> bool
    requires nurse { nurse < nurse_count case.now }
    requires day { day < day_count case.now }
    requires shift { IfSome shift (λ s. s.0 < shift_count case.now) }
    requires fits { fits_sizes (sizes_of case.now nurse) block.now ≡ true }
    requires next_fits { fits_sizes (sizes_of case.now nurse) step.now.next ≡ true }
    requires within { step.now.cost + assignment_weight ≤ most_of_transition }
{
    let ranges = Ranges::of(case, nurse);
    let _ = ranges.product();
    let first = block.first(&ranges);
    for place in 0..block.places(&ranges) {
        let plain = plain_transition(case, nurse, day, first + place, shift, meter);
        if plain != Some(place_transition(&ranges, step, place)) {
            return false;
        }
    }
    true
}

/// Whether `extend` refuses the state at each place of a block.
fn none_goes(
    case: &Case,
    nurse: usize,
    day: u16,
    block: &Block,
    shift: Option<Shift>,
    meter: &mut Meter,
) -> bool
    requires nurse { nurse < nurse_count case.now }
    requires day { day < day_count case.now }
    requires shift { IfSome shift (λ s. s.0 < shift_count case.now) }
    requires fits { fits_sizes (sizes_of case.now nurse) block.now ≡ true }
{
    let ranges = Ranges::of(case, nurse);
    let _ = ranges.product();
    let first = block.first(&ranges);
    for place in 0..block.places(&ranges) {
        let counted = meter.count();
        let plain = plain_transition(case, nurse, day, first + place, shift, meter);
        if plain.is_some() || meter.count() == counted {
            return false;
        }
    }
    true
}

/// Whether a block goes where its states go, and the meter counts one for each place.
fn agrees(
    case: &Case,
    nurse: usize,
    day: u16,
    block: &Block,
    shift: Option<Shift>,
    meter: &mut Meter,
) -> bool
    requires nurse { nurse < nurse_count case.now }
    requires day { day < day_count case.now }
    requires shift { IfSome shift (λ s. s.0 < shift_count case.now) }
    requires fits { fits_sizes (sizes_of case.now nurse) block.now ≡ true }
{
    let places = block.places(&Ranges::of(case, nurse)) as u64;
    if meter.room() < places {
        return false;
    }
    let before = meter.count();
    match extend_block(case, nurse, day, *block, shift, meter) {
        Some(step) => {
            meter.count() - before == places
                && places_agree(case, nurse, day, block, shift, &step, meter)
        }
        None => {
            meter.count() - before == places && none_goes(case, nurse, day, block, shift, meter)
        }
    }
}

/// Whether a block goes where its states go on a Friday, a Saturday and a Sunday, with each choice.
fn days_agree(case: &Case, nurse: usize, block: &Block, meter: &mut Meter) -> bool
    requires nurse { nurse < nurse_count case.now }
    requires fits { fits_sizes (sizes_of case.now nurse) block.now ≡ true }
{
    let days = case.days();
    for day in days.saturating_sub(3)..days {
        if !agrees(case, nurse, day, block, None, meter) {
            return false;
        }
        for shift in 0..case.shifts() {
            if !agrees(case, nurse, day, block, Some(Shift(shift)), meter) {
                return false;
            }
        }
    }
    true
}

/// Whether the blocks of a nurse have this number of places each, and go where their states go. It tries
/// every fifth block, so that each last shift, each length of a run and each number of weekends is among
/// them.
fn blocks_agree(case: &Case, nurse: usize, places: u32, meter: &mut Meter) -> bool
    requires nurse { nurse < nurse_count case.now }
{
    let ranges = Ranges::of(case, nurse);
    for number in 0..ranges.blocks() {
        let block = Block::numbered(&ranges, number);
        if block.places(&ranges) != places || !block.fits(&ranges) {
            return false;
        }
        if number % 5 == 0 && !days_agree(case, nurse, &block, meter) {
            return false;
        }
    }
    true
}

#[test]
fn blocks_go_where_their_states_go(rt: HostRuntime) -> Result<(), Fail> {
    let rows = [
        ("Full (0,0)", 1),
        ("Full (0,1)", 2),
        ("Full (2,5)", 6),
        ("Full (30,44)", 45),
        ("Full (44,30)", 45),
        ("Full (500,511)", 512),
        ("Full (999,0)", 1000),
    ];
    for (total, places) in rows {
        let text = changed(rt.alloc(), &[("Full (2,5)", total)])?;
        let (mut case, _) = read(rt.alloc(), text.as_bytes())?;
        let mut meter = Meter::new(&mut case);
        assert!(rt; 0 < case.nurses());
        assert!(rt; blocks_agree(&case, 0, places, &mut meter), "{total}");
    }
    Ok(())
}
