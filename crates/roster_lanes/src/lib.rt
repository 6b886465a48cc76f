//! Labels that are lowered to smaller ones, 16 at a time, each with a pointer that says by what it was
//! lowered.
//!
//! What is set and lowered is defined in `specs/Lanes.antt`. `lower16` promises it of 16 labels, by vectors.
//! `lower_all` and `set_all`, which a search calls, promise it of all labels of a slice. They may write some
//! labels twice, which makes no difference (`lowering_again_changes_nothing`).
#![tactic(auto)]

mod laws;
mod lower;

pub use laws::{lowering_again_changes_nothing, setting_again_changes_nothing};
pub use lower::{LANES, lower_all, lower16, set_all};
