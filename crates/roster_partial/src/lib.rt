//! The search for a nurse's best row by partial rows: the first days of rows, each with its state and its
//! cost.
//!
//! What a list of partial rows stands for is defined in `specs/Rows.antt`: the best row that begins as one of
//! them, if it costs no more than a limit. `put` and `drop_dominated` keep this when a partial row is
//! dominated, `is_pruned` says which are pruned by their completion bound, `add_day` goes from one day to the
//! next, and `row_within` reads the row in the end. `set_best_bounds` sets the completion bounds.
//! `search_row` tries one limit after another. If the partial rows run out of capacity, it sets closer
//! completion bounds (`set_closer_bounds`). If no limit is high enough then, or capacity or extensions run
//! out again, it falls back to the label tables of `roster_tables`. `list_rows` goes over the rows within a
//! limit one after another, by the same completion bounds. `RowSearcher` is this search behind the trait
//! `SearchesRows` of `roster_offers`, and a `Workspace` is the memory of such a search.
#![tactic(auto)]

mod all_days;
mod allowed;
mod closer;
mod guesses;
mod limited;
mod limits;
mod listing;
mod one_day;
mod one_offer;
mod rates;
mod rows;
mod search;
mod workspace;

pub use workspace::{RowSearcher, Workspace};
