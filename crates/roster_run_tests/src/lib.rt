//! Tests of a run of a command over stand-in devices that fail, and over spoilt texts. It has no code of its
//! own.
#![tactic(auto)]

#[cfg(test)]
mod crossed;
#[cfg(test)]
mod failing_tests;
#[cfg(test)]
mod hostile_tests;
#[cfg(test)]
mod json_tests;
#[cfg(test)]
mod polish_tests;
#[cfg(test)]
mod time_tests;
