//! What the texts of an instance mean: its case, with everything that is asked of it later, and its rosters.
//!
//! What a bundle means is defined in `specs/Meaning.antt` and `specs/Bundles.antt`, its faults, in order, in
//! `specs/Refusals.antt`, and rosters in `specs/Rosters.antt`. `scenario`, `history` and `week` read the
//! sections of a bundle, one item of a `section` after the other, look names up by their numbers (`names`)
//! and fill a `table`; `case` puts the results together, and answers later questions. `Case::from_bundle`
//! promises the meaning, or the first fault (`fault`); `Roster::from_bundle` (`roster`) promises the rows.
//! `choice` and `rules` have a day's choices and the numbers of contracts and histories, `sizes` those of the
//! search for a nurse (`specs/Sizes.antt`).
#![tactic(auto)]

mod case;
mod choice;
mod fault;
mod history;
mod names;
mod roster;
mod rules;
mod scenario;
mod section;
mod sizes;
mod table;
mod week;

pub use case::{Case, MAX_STATES};
pub use choice::{Choice, Shift, Skill};
pub use fault::CaseFault;
pub use roster::{Roster, choice_on, row_fits};
pub use rules::{Border, ContractRules, DayRequests, Limits, Need, Past};
pub use scenario::{MAX_CONTRACTS, MAX_NURSES};
