//! The command line of the program `roster`: what its words ask for.
//!
//! `specs/CommandLine.antt` defines the command line as `clap` understands it, what words ask for by it, and
//! the kinds of refusal. `request_of` promises that a request is just what the words ask for, with numbers in
//! their range, and that words without a request are refused by `clap`'s own reading, with a text that isn't
//! empty.
#![tactic(auto)]

mod program;
mod request;
mod texts;
mod words;

pub use request::{CliFault, Command, Request};
pub use words::request_of;
