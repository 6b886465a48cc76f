//! The best row of a nurse, as programs call it: what a nurse may do on each day (`choices`), the search
//! (`best_row`, `cheaper_row`), and what the search writes into.
//!
//! Here the row search is that of `roster_partial`: its memory is `Workspace`. `best_row` promises what
//! `roster_row` promises of any row search, and says for what this one counts extensions.
#![tactic(auto)]

mod search;

pub use roster_lanes::lower16;
pub use roster_offers::{BestFault, Offer, most_search_extensions};
pub use roster_partial::Workspace;
pub use roster_row::{Best, LastSearches, cheaper_row, choices, offers_give_the_allowed_rows};
pub use search::best_row;
