//! One more day, by the case and the nurse alone. No search calls this: what searches do is compared with it.

ghost use Rattle.std.specs.Prelude.{◌≡◌, ◌↔◌, ◌+◌, ◌<◌, ◌≤◌, ◌++◌, ◌∷◌, [], true, length, IfSome, IsNone};
ghost use Rattle.roster_bundle.specs.Limits.{greatest_u64};
ghost use Rattle.roster_instance.specs.Days.{Days};
ghost use Rattle.roster_instance.specs.Meaning.{day_count, forbids, nurse_count, shift_count};
ghost use Rattle.roster_rules.specs.Prefix.{due, summary_of};
ghost use Rattle.roster_rules.specs.Weights.{assignment_weight};
ghost use Rattle.roster_state.specs.Blocks.{AreBlockSteps};
ghost use Rattle.roster_state.specs.Codes.{fits_sizes, sizes_of};
ghost use Rattle.roster_state.specs.MostCosts.{most_of_transition};
ghost use Rattle.roster_state.specs.Transition.{transition_of};

use crate::block::{Block, BlockStep, block_step};
use crate::meter::Meter;
use crate::state::State;
use crate::transition::transition;
use roster_instance::{Case, Shift};

/// The state after one more day, on which the nurse works this shift or is off, and what the day costs. None
/// exactly if the last shift forbids the next. Either way the meter counts one.
#[inline(always)]
pub fn extend(
    case: &Case,
    nurse: usize,
    day: u16,
    state: State,
    shift: Option<Shift>,
    meter: &mut Meter,
) -> Option<(State, u32)>
    requires nurse { nurse < nurse_count case.now }
    requires day { day < day_count case.now }
    requires shift { IfSome shift (λ s. s.0 < shift_count case.now) }
    requires fits { fits_sizes (sizes_of case.now nurse) state ≡ true }
    requires room { meter.old < greatest_u64 }
    ensures counted { meter.new ≡ meter.old + 1 }
    ensures next { result ≡ transition_of case.now nurse day state shift }
    ensures forbidden { IsNone result ↔ forbids case.now.successions state.last shift ≡ true }

    // From the summary of some days it leads to that of those days and this one, and its cost is the increase
    // of what is owed.
    ensures summary { IfSome result (λ transition. (days : Days) → length days ≡ day →
        state ≡ summary_of case.now nurse days →
        transition.0 ≡ summary_of case.now nurse (days ++ shift ∷ [])) }
    ensures owed { IfSome result (λ t. (days : Days) → length days ≡ day →
        state ≡ summary_of case.now nurse days →
        due case.now nurse (days ++ shift ∷ []) ≡ due case.now nurse days + t.1) }

    // From any state that fits, the next one fits too, and the transition costs little.
    ensures next_fits { IfSome result
        (λ transition. fits_sizes (sizes_of case.now nurse) transition.0 ≡ true) }
    ensures within { IfSome result (λ transition. transition.1 ≤ most_of_transition) }
{
    meter.add_one();
    let rules = case.contract_rules(nurse);
    transition(case, nurse, rules, day, state, shift)
}

/// One more day from all states of a block, on which the nurse works this shift or is off. None exactly if
/// the last shift forbids the next. Either way the meter counts one for each place.
#[inline(always)]
pub fn extend_block(
    case: &Case,
    nurse: usize,
    day: u16,
    block: Block,
    shift: Option<Shift>,
    meter: &mut Meter,
) -> Option<BlockStep>
    requires nurse { nurse < nurse_count case.now }
    requires day { day < day_count case.now }
    requires shift { IfSome shift (λ s. s.0 < shift_count case.now) }
    requires fits { fits_sizes (sizes_of case.now nurse) block ≡ true }
    requires room { meter.old + (sizes_of case.now nurse).assignments ≤ greatest_u64 }
    ensures counted { meter.new ≡ meter.old + (sizes_of case.now nurse).assignments }
    ensures forbidden { IsNone result ↔ forbids case.now.successions block.last shift ≡ true }

    // Each place goes where its state goes, at the same cost.
    ensures transitions { AreBlockSteps case.now nurse day block shift result }
    ensures next_fits { IfSome result (λ transition. fits_sizes (sizes_of case.now nurse)
        transition.next ≡ true) }
    ensures dearer { IfSome result (λ transition. transition.dearer_from
        ≤ (sizes_of case.now nurse).assignments) }
    ensures within { IfSome result
        (λ transition. transition.cost + assignment_weight ≤ most_of_transition) }
{
    let rules = case.contract_rules(nurse);
    meter.add(rules.total.cap() as u64 + 1);
    block_step(case, nurse, rules, day, block, shift)
}
