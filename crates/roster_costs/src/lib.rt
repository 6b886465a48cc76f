//! What can be counted in a roster: the first breach of the hard rules, and what it costs by the soft rules.
//!
//! The rules are defined in `roster_rules`. `first_hard` promises the first breach, `first_irreparable` the
//! first one that no repair can undo (`specs/Irreparable.antt`), `missing` the number of nurses by which a
//! roster falls short of its minimums, `costs` what a roster costs by each soft rule, and `nurse_cost` what a
//! nurse's row costs. Runs are counted in one pass through a row, without finding their intervals; that this
//! gives the penalties of runs as intervals is a law of `roster_rules`.
#![tactic(auto)]

mod costing;
mod hard;
mod irreparable;
mod minimums;
mod requests;
mod runs;
mod staffing;
mod totals;
mod weekends;

pub use costing::{costs, costs_with, nurse_cost};
pub use hard::{
    first_absent_before, first_hard, first_succession_before, first_unskilled, understaffed_on,
};
pub use irreparable::first_irreparable;
pub use minimums::missing;
pub use staffing::{covers, slot, staffing_cost_of_day};
