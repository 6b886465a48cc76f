//! The best row of a nurse, and what a nurse may do on each day while the others' rows stay.
//!
//! Which choices are offered at which price is defined in `is_offered` and `price` of `roster_laws` and in
//! `offers_of` of `roster_offers`; rows of which each choice is offered, in `specs/Offers.antt`; and what a
//! search goes over, in `specs/Searches.antt`. `choices` gives the offers of a day in the order of the
//! choices, and `offers_give_the_allowed_rows` says that they determine a nurse's allowed rows and their
//! prices. `best_row` promises that the workspace then holds the nurse's best row, within the stated numbers
//! of labels, pointers and extensions. It goes over only one offer for each shift, the first of the cheapest.
//! `cheaper_row` promises the same, or that no row is cheaper than the present one: it skips a search if the
//! last ones show this (`specs/Recalled.antt`).
#![tactic(auto)]

mod last;
mod laws;
mod offer;
mod search;

pub use last::LastSearches;
pub use laws::offers_give_the_allowed_rows;
pub use offer::choices;
pub use search::{Best, best_row, cheaper_row};
