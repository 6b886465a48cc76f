//! Tests of the program as a library, over stand-in files and devices. It has no code of its own.
#![tactic(auto)]

#[cfg(test)]
mod devices_tests;
#[cfg(test)]
mod start_tests;
