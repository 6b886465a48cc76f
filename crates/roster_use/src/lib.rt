//! An example: the libraries, used as a program of one's own would use them. Nothing depends on this crate.
//!
//! It reads a bundle, gives each nurse her best row with one workspace, improves the roster in rounds, and
//! writes the weeks. It has no proof file: what each call requires has been promised by a call before it, or
//! checked by an `if` in front of it.
#![tactic(auto)]

mod rosters;
mod stop;

pub use rosters::{put_best_row, write_better_weeks};
pub use stop::Stop;
