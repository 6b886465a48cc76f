//! The sizes of the search for a nurse.

ghost use Rattle.std.specs.Prelude.{◌≡◌, [], map, max};
ghost use Rattle.roster_instance.specs.CaseParts.{case_of};
ghost use Rattle.roster_instance.specs.Meaning.{contract_of};
ghost use Rattle.roster_instance.specs.Sizes.{greatest_of, state_count, cap};

use crate::rules::{ContractRules, Limits};
use crate::scenario::Scenario;
use std::cmp::max;

/// The product of the ranges of what the search keeps of a nurse: the last shift, the run of working days or
/// days off, the run of the shift, the assignments and the worked weekends.
pub(crate) fn state_count(scenario: &Scenario, nurse: usize) -> u128
    ensures { result ≡ state_count (case_of scenario.now [] []) nurse }
{
    let rules = contract_of(scenario, nurse);
    let shifts = scenario.shifts.len() as u128 + 1;
    let run = greater(rules.working.cap(), rules.free.cap()) as u128 + 1;
    let shift_run = greatest_cap(&scenario.runs) as u128 + 1;
    let assignments = rules.total.cap() as u128 + 1;
    let weekends = rules.weekends as u128 + 1;
    shifts * run * shift_run * assignments * weekends
}

/// The rules of a nurse's contract.
pub(crate) fn contract_of(scenario: &Scenario, nurse: usize) -> ContractRules
    ensures { result ≡ contract_of (case_of scenario.now [] []) nurse }
{
    let contract = match scenario.nurse_rules.get(nurse) {
        Some(rules) => rules.contract(),
        None => 0,
    };
    match scenario.contract_rules.get(contract) {
        Some(rules) => *rules,
        None => ContractRules::default(),
    }
}

fn greater(a: u16, b: u16) -> u16
    ensures { result ≡ max a b }
{
    max(a, b)
}

/// The greatest cap, 0 if there is none.
pub(crate) fn greatest_cap(runs: &[Limits]) -> u16
    ensures { result ≡ greatest_of (map cap runs.now) }
{
    let mut greatest = 0;
    for run in runs {
        greatest = greater(greatest, run.cap());
    }
    greatest
}
