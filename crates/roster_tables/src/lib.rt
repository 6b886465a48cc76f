//! The search for a nurse's best row by label tables, from state to state.
//!
//! What right labels and pointers of a day are is defined in `specs/Tables.antt`. `label_end` and `label_day`
//! promise them, `read_day` promises the choices of the best row by these pointers, and `search_states`
//! promises that row with its cost, over a table of offers for all days (`specs/Search.antt`). A search's
//! days, and a day that is still to be labelled, carry as invariants what functions would otherwise have to
//! require (`specs/Days.antt`, `specs/OpenDays.antt`). Offers, and the laws that make such a search right,
//! are in `roster_offers`.
#![tactic(auto)]

mod day;
mod days;
mod extensions;
mod labels;
mod pointers;
mod reachable;
mod read;
mod search;
mod strips;
mod tables;

pub use extensions::extensions_at_most;
pub use labels::NO_ROW;
pub use reachable::{DayBoxes, find_boxes};
pub use search::search_states;
pub use tables::Tables;
