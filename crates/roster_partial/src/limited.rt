//! What a search by partial rows looks for, and what it may take.

ghost use Rattle.std.specs.Prelude.{◌≡◌, ◌<◌, ◌≤◌};
ghost use Rattle.roster_instance.specs.Meaning.{contract_of};
ghost use Rattle.roster_offers.specs.Lists.{no_row};
ghost use Rattle.roster_partial.specs.Rows.{most_rows};

use roster_completion::CompletionBounds;
use roster_instance::ContractRules;
use roster_offers::SearchInput;

/// A search by partial rows, with the count that the meter may reach.
#[derive(Clone, Copy)]
pub struct Bounded<'a> {
    pub search: SearchInput<'a>,
    pub last_count: u64,
}

/// A search for the best of a nurse's rows within a limit, with completion bounds for the rest of a row.
#[derive(Clone, Copy)]
pub struct LimitedSearch<'a> {
    pub completion_bounds: CompletionBounds<'a>,
    /// The limit, in the parts of a point of the search's scale, less than what stands for no row.
    pub limit: u32,
    /// How many partial rows the list may hold at once.
    pub row_limit: usize,
    /// The nurse's rules.
    pub rules: ContractRules,
    ghost low: { limit < no_row },
    ghost few: { row_limit ≤ most_rows },
    ghost own: { rules ≡ contract_of completion_bounds.search.case.now completion_bounds.search.nurse },
}
