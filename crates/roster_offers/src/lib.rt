//! What is offered to a nurse on each day, the laws of the search over offers from state to state, and what a
//! row search promises.
//!
//! `SearchesRows` is the contract of a row search: the improver knows a search by this trait alone. A
//! `Workspace` is what such a search writes into; what fits into one is defined in `specs/Workspaces.antt`.
//! A search can also list the rows within a limit, into a `RowList` (`specs/Listed.antt`).
//!
//! The first of the cheapest is defined in `specs/Cheapest.antt`, rows that lead from state to state in
//! `specs/ByStates.antt`, what a nurse is offered on a day in `specs/Offers.antt`, and the lists over which
//! a search goes, with what it finds, in `specs/Lists.antt`. `best_row_is_found_by_states` promises that
//! such a search gives the nurse's best row, `one_offer_for_each_shift_is_enough` that it may skip the
//! dearer offers for one shift, `cheapest_offered_row_is_found` what it finds whatever is offered at
//! whatever prices, and `cost_rises_with_prices` how far its cost can fall after prices have changed
//! (`specs/Rises.antt`). A search may also count in parts of a point, at a scale:
//! `cheapest_offered_row_is_found_at_a_scale` promises what it finds, `scaled_labels_are_low` that its
//! labels are in range, and `scale_one_is_plain` that at scale 1 it is the same search. `greatest_scale` is
//! the greatest scale that a case allows.
//!
//! `Offering` decides which choices are offered at which prices; `offers_of_choices` and `offers_by_shift`
//! give all that it offers on a day, and for each shift the first of the cheapest (`offers_open`,
//! `cheapest_by_shift`). `OffersDays` gives what a nurse is offered on any day, and `put_offers` puts the
//! offers of all days of a case into a workspace. `request_cost` is what a nurse's own requests cost on a
//! day, which belongs to an offer's price.
#![tactic(auto)]

mod by_shift;
mod day;
mod days;
mod laws;
mod listed;
mod lists;
mod offer;
mod requests;
mod scale;
mod workspace;

pub use by_shift::cheapest_by_shift;
pub use day::{NurseDay, Offering, offers_by_shift, offers_of_choices};
pub use days::{OffersDays, put_offers};
pub use laws::{
    best_row_is_found_by_states, cheapest_offered_row_is_found,
    cheapest_offered_row_is_found_at_a_scale, cheapest_row_is_found_by_states,
    cost_rises_with_prices, offers_are_few, one_offer_for_each_shift_is_enough, scale_one_is_plain,
    scaled_labels_are_low,
};
pub use listed::{ListLimits, RowList, WalkDay};
pub use lists::{DayOffers, MOST_DAYS, SearchInput};
pub use offer::{MOST_CHOICES, MOST_OFFERS, Offer};
pub use requests::request_cost;
pub use scale::greatest_scale;
pub use workspace::{BestFault, ListInput, SearchesRows, Workspace, most_search_extensions};
