//! Tests of the public calls of `roster_text`, over stand-in devices. It has no code of its own.
#![tactic(auto)]

#[cfg(test)]
mod io_tests;
#[cfg(test)]
mod watch_tests;
