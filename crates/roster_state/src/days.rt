//! The days of a nurse, by rules that are looked up once.

ghost use Rattle.std.specs.Prelude.{◌≡◌};
ghost use Rattle.roster_instance.specs.Meaning.{contract_of};

use roster_instance::{Case, ContractRules};

/// What the transitions of a nurse are computed from: the case, the nurse, and the nurse's rules, looked up
/// once for many days.
#[derive(Clone, Copy)]
pub struct NurseDays<'a> {
    pub case: &'a Case,
    pub nurse: usize,
    pub rules: ContractRules,
    pub ghost looked_up: { rules ≡ contract_of case.now nurse },
}

impl<'a> NurseDays<'a> {
    /// The days of a nurse.
    #[inline(always)]
    pub fn of(case: &'a Case, nurse: usize) -> NurseDays<'a>
        ensures case { result.case.now ≡ case.now }
        ensures nurse { result.nurse ≡ nurse }
    {
        NurseDays {
            case,
            nurse,
            rules: case.contract_rules(nurse),
        }
    }
}
