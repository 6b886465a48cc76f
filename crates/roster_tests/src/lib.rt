//! Tests of public calls below the command line, over stand-in devices, and the texts that all tests of the
//! program share.
#![tactic(auto)]

#[cfg(test)]
mod best_tests;
#[cfg(test)]
mod block_tests;
#[cfg(test)]
mod held_tests;
#[cfg(test)]
mod instances;
#[cfg(test)]
mod lanes_tests;
#[cfg(test)]
mod library_tests;
#[cfg(test)]
mod rounds_tests;
pub mod row;
#[cfg(test)]
mod state_tests;
pub mod texts;
