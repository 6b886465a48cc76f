//! What a search knows of its days.

ghost use Rattle.std.specs.Prelude.{◌≡◌};
ghost use Rattle.roster_instance.specs.Meaning.{contract_of};
ghost use Rattle.roster_state.specs.Codes.{sizes_of};
ghost use Rattle.roster_offers.specs.Lists.{offers_on};
ghost use Rattle.roster_tables.specs.Search.{AreReachable};

use roster_instance::ContractRules;
use roster_offers::SearchInput;
use roster_state::{BOXES, Ranges, StateBox};

/// What a search has before it sets labels: its input, the nurse's rules, the ranges of the nurse's state,
/// and the boxes of each day and of the one after the last.
#[derive(Clone, Copy)]
pub struct SearchDays<'a> {
    pub search: SearchInput<'a>,
    pub rules: ContractRules,
    pub ranges: Ranges,
    pub boxes: &'a [[StateBox; BOXES]],
    pub ghost own_rules: { rules ≡ contract_of search.case.now search.nurse },
    pub ghost own_ranges: { ranges ≡ sizes_of search.case.now search.nurse },
    pub ghost are_reachable: { AreReachable search.case.now search.nurse (offers_on search.offers.now)
        boxes.now },
}
