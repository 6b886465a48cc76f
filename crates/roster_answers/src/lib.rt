//! What each command answers, except those that polish or plan: how the bytes of an input are read, what the
//! command writes, whatever tables it searches with, and how a fault is reported.
//!
//! `specs/Answer.antt` defines the reports, the outcomes, and what a run leaves for each of these;
//! `specs/Lines.antt` defines the lines of faults, the log of `best`, and the statuses. `refuse` and
//! `refuse_output` promise the line and the status of a fault outside of a run.
#![tactic(auto)]

mod asked;
mod best;
mod bound;
mod fault;
mod figures;
mod held;
mod improve;
mod instance;
mod lines;
mod reading;
mod weeks;
mod who;

pub use asked::{Asking, Unknown, asked_by};
pub use best::report_best;
pub use bound::report_bound;
pub use fault::{Fault, Thing};
pub use figures::{report_cost, report_json_cost, report_json_sizes, report_sizes};
pub use held::hold;
pub use improve::report_improve;
pub use instance::Instance;
pub use lines::{refuse, refuse_output, report_fault};
pub use reading::{keep_roster, read_instance};
pub use weeks::show_weeks;
pub use who::report_who;
