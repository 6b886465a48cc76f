//! Who may take a shift.
//!
//! `specs/Who.antt` defines a nurse's rows that have an assignment, and what is reported of the first of the
//! cheapest; `specs/Offers.antt` what she is offered on each day; and `specs/Ways.antt` whether a row leads
//! through these offers. `find_takers` promises the figures of each nurse who has such a row, in order, and
//! none of the others. `takers_have_allowed_rows` says that in a roster which keeps the hard rules these rows
//! are the allowed rows with the assignment, and that their cost is the penalty.
#![tactic(auto)]

mod asked;
mod figures;
mod laws;
mod offers;
mod present;
mod taker;
mod ways;

pub use asked::Asked;
pub use laws::takers_have_allowed_rows;
pub use taker::{Taker, Takers, find_takers};
