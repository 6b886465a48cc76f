//! What the rows of nurses cost at least by dual prices, and how dual prices move from round to round and in
//! a fade.
//!
//! The lower bound by any dual prices is defined in `specs/LowerBounds.antt`, that in a node, which branching
//! `decisions` make, in `specs/Nodes.antt`, what a nurse is offered in `specs/Days.antt`, and how dual prices
//! follow the cover in a fade in `specs/Fading.antt`. `row_bounds` promises what all nurses cost at least,
//! and `offer_days` those offers. Between rounds dual prices move by the pooled rows (`moving`, `pooled`);
//! only their ranges are proved. So `improve_dual_prices` gives dual prices alone, and no lower bound.
//! `window_bound` and `list_window` search and list a nurse's rows within a window of days
//! (`specs/Windows.antt`).
#![tactic(auto)]

mod bounds;
mod decisions;
mod fading;
mod laws;
mod moving;
mod offers;
mod pooled;
mod window;
mod windowed;
mod workspace;

pub use bounds::{offer_days, row_bounds};
pub use decisions::Decision;
pub use fading::{
    Fading, WHOLE, count_rows, follow_cover, has_uncovered_slot, price_of, price_slots, put_row,
    raise_uncovered, take_row,
};
pub use laws::rows_exist;
pub use moving::{improve_dual_prices, move_by_pooled_rows, prepare_next};
pub use offers::{Base, Terms};
pub use pooled::value_by_pooled_rows;
pub use window::{NearBase, Window, WindowTerms};
pub use windowed::{list_window, window_bound};
pub use workspace::{BoundWorkspace, RowSpace};
