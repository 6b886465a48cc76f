//! The reports as JSON, one object a line.
//!
//! `specs/Json.antt` defines strings and objects, `specs/Breaches.antt` the lines of breaches, and
//! `specs/Reports.antt` the reports. A text is written by pieces as the log is, so nothing allocates. Each
//! function promises that it writes its text, or a beginning of it if a write fails (`ok`, `err`).
#![tactic(auto)]

mod breaches;
mod cost;
mod object;
mod pieces;
mod sizes;
mod strings;
mod taker;

pub use cost::write_json_cost;
pub use object::Field;
pub use pieces::NotWritten;
pub use sizes::write_json_sizes;
pub use taker::write_json_taker;
