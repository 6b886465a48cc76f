//! A roster that keeps the hard rules, with what it costs. The crate re-exports what a caller needs to make
//! and to read one.
//!
//! `specs/Held.antt` defines what a held roster is, and that all its counts are exact; `specs/Shown.antt` a
//! week as it is written; and `roster_laws` what a row costs, and whether it keeps the hard rules in the
//! place of a nurse's. `Held::new` promises a roster that keeps the hard rules, or the first breach;
//! `Held::row_keeps` and `Held::replace_row` say which row may replace a nurse's, and what the roster is
//! then; `Held::total` is its penalty.
#![tactic(auto)]

mod allowed;
mod counts;
mod held;
mod recount;
mod view;

pub use held::{Held, HeldFault};
pub use roster_costs::{costs, first_hard};
pub use roster_instance::{Case, CaseFault, Choice, Roster, Shift, Skill};
pub use roster_rules::{Costs, HardFault};
pub use view::WeekView;
