//! Several readers joined into one.
//!
//! What they give is defined in `specs/JoinedBytes.antt`. The `read` of `Joined` promises these bytes (clause
//! `bytes`). It also promises that a fault comes from a read of the first reader that is left, and that no
//! fault is hidden: only such reads raise the count of failures (clause `failures`).
#![tactic(auto)]

mod joined;
mod readers;

pub use readers::Joined;
