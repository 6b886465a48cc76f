//! Steps, rounds and runs that improve a roster, with their log.
//!
//! `roster_rules` defines a step, a round, a run and its log (`specs/Improver.antt`), and `roster_laws` has
//! laws about them. `each_row_put_in_is_best` says in one place what a run guarantees. `step` promises the
//! step. `improve` promises, for any `Steps`, the run and its log, or only the first bytes of that log.
//! `step_or_skip` promises the same step with fewer searches.
#![tactic(auto)]

mod headline;
mod nurse;
mod outcome;
mod room;
mod rounds;
mod space;
mod steps;

pub use headline::each_row_put_in_is_best;
pub use nurse::{step, step_or_skip};
pub use outcome::{Outcome, Step};
pub use room::{extensions_are_few, most_extensions, rounds_have_room, search_has_room};
pub use roster_reports::LogFault;
pub use rounds::improve;
pub use space::RunSpace;
pub use steps::Steps;
