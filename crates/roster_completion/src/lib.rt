//! Completion bounds: numbers that no completion of a partial row costs less than.
//!
//! They are defined in `specs/CompletionBounds.antt`. `set_completion_bounds` sets those of all days, from
//! the last day to the first. `set_day` sets those of one day, `set_after_shift` and `set_after_off` those
//! after one last shift, and `set_line` a line of these: one last shift, one run, and each run of the shift.
//! The meter counts, line by line, each completion bound with each offer of its day.
#![tactic(auto)]

mod completion_bounds;
mod completion_day;
mod day;
mod laws;
mod least;
mod off;
mod rates;
mod set;
mod shift;
mod ways;

pub use completion_bounds::CompletionBounds;
pub use laws::completion_bounds_lie_under_the_rest;
pub use least::{Adjustment, adjustment_for, at_least, at_least_adjusted};
pub use rates::Rates;
pub use set::{completion_cells, completion_extensions, set_completion_bounds};
