//! The hard and the soft rules: their definitions, weights, breaches and costs, with the laws for one more
//! day.
//!
//! The hard rules with their order are defined in `specs/HardRules.antt`, the soft ones in
//! `specs/Penalties.antt`, over runs of days (`specs/Runs.antt`) and weights (`specs/Weights.antt`); what the
//! first days of a row cost in `specs/Prefix.antt`, best rows in `specs/AllowedRows.antt`, and the improver's
//! runs in `specs/Improver.antt`. The functions that count by these rules are in `roster_costs` and in
//! `roster_state`. The laws that let them go day by day are in `src/laws.rt`; `weekends_more` and
//! `splits_more` say what a day adds to the weekends.
#![tactic(auto)]

mod able;
mod fault;
mod frozen;
mod kept;
mod laws;
mod penalties;
mod rows;
mod weekends;
pub mod weights;
mod wishes;

pub use able::{is_able, is_here, last_shift, may_take};
pub use fault::HardFault;
pub use frozen::is_frozen;
pub use kept::keep_cost_on;
pub use laws::{runs_grow_by_a_day, runs_of_a_row_grow_by_a_day, weekends_grow_by_a_day};
pub use penalties::Costs;
pub use rows::one_first_least_row;
pub use weekends::{splits_more, weekends_more};
pub use wishes::meets_wishes;
