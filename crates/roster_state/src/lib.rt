//! The state of one nurse from day to day: what the search for a row needs to know of the days before.
//!
//! A transition, one more day from a state, is defined in `specs/Transition.antt`, and the codes of states in
//! `specs/Codes.antt`. `state` and `ranges` have a state and its code; `transition` and `totals` have the
//! state before the first day, a transition, and what is due in the end. Searches first compute what a worked
//! day brings whatever the shift (`worked`), by the nurse's rules (`days`), from one state or from all states
//! of a `span` at once (`specs/Spans.antt`). `state_box` bounds the states that are reachable on a day
//! (`specs/Boxes.antt`), `line` sets completion bounds (`specs/CompletionLines.antt`), `succession` asks
//! whether a last shift forbids the next, and `meter` counts extensions. `block` and `reference` compute a
//! transition from the case alone: what searches do is compared with them.
#![tactic(auto)]

mod block;
mod days;
mod line;
mod meter;
mod ranges;
mod reference;
mod span;
mod state;
mod state_box;
mod succession;
mod totals;
mod transition;
mod worked;

pub use block::{Block, BlockStep};
pub use days::NurseDays;
pub use line::{LineCosts, fill_line, set_line};
pub use meter::Meter;
pub use ranges::Ranges;
pub use reference::{extend, extend_block};
pub use span::Span;
pub use state::State;
pub use state_box::{BOXES, EMPTY_BOX, Interval, StateBox, boxes_of, widen};
pub use succession::is_forbidden;
pub use transition::{after, end_cost, start};
pub use worked::WorkedDay;
