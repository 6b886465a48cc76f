//! How much time a run may take.
#![tactic(auto)]

mod deadline;

pub use deadline::{Deadline, NoClock};
