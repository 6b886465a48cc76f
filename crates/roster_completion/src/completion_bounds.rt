//! The completion bounds of a search, together with what reading them needs.

ghost use Rattle.std.specs.Prelude.{◌≡◌, ◌≤◌, length};
ghost use Rattle.roster_instance.specs.Meaning.{contract_of, day_count};
ghost use Rattle.roster_state.specs.Codes.{sizes_of};
ghost use Rattle.roster_completion.specs.CompletionBounds.{AreCompletionBoundsOf, AreSmallRates, search_cells};
ghost use Rattle.roster_completion.specs.Once.{AreSmallRates-prop};

use crate::rates::Rates;
use roster_offers::SearchInput;
use roster_state::Ranges;

/// The completion bounds of a search and their rates, with what is looked up once and read often: the number
/// of days, the ranges, and the least total of assignments.
#[derive(Clone, Copy)]
pub struct CompletionBounds<'a> {
    pub search: SearchInput<'a>,
    pub rates: Rates,
    pub cells: &'a [u32],
    pub days: u16,
    pub ranges: Ranges,
    pub least: u16,
    pub ghost small: { AreSmallRates search.scale rates } by { AreSmallRates-prop search.scale rates },
    pub ghost under: { AreCompletionBoundsOf search rates cells.now },
    pub ghost inside: { search_cells search ≤ length cells.now },
    pub ghost all_days: { days ≡ day_count search.case.now },
    pub ghost own_ranges: { ranges ≡ sizes_of search.case.now search.nurse },
    pub ghost own_least: { least ≡ (contract_of search.case.now search.nurse).total.least },
}

impl<'a> CompletionBounds<'a> {
    /// The completion bounds that `set_completion_bounds` has written into the cells.
    pub fn of(search: &SearchInput<'a>, rates: Rates, cells: &'a [u32]) -> CompletionBounds<'a>
        requires small { AreSmallRates search.now.scale rates }
        requires inside { search_cells search.now ≤ length cells.now }
        requires completion_bounds { AreCompletionBoundsOf search.now rates cells.now }
        ensures search { result.search ≡ search.now }
    {
        CompletionBounds {
            search: *search,
            rates,
            cells,
            days: search.case.days(),
            ranges: Ranges::of(search.case, search.nurse),
            least: search.case.contract_rules(search.nurse).total.least,
        }
    }
}
