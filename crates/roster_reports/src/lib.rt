//! The lines that the program writes: of logs, of reports, of weeks, and of each kind of fault.
//!
//! `specs/Lines.antt` defines those of reports and faults, `roster_case` the weeks, and `roster_rules` those
//! of logs. Each function here promises that it writes its lines, or a beginning of them if a write fails
//! (`ok`, `err`). A log goes out line by line, and `LogFault` says how many bytes of it went out before it
//! failed. A breach of the hard rules is given by numbers, and its line has the names that the case has for
//! them. `nurse_of` promises the name of the nurse that a fault of the case is about.
#![tactic(auto)]

mod bound;
mod cost;
mod faults;
mod log;
mod log_fault;
mod names;
mod sizes;
mod taker;
mod weeks;

pub use bound::write_bound;
pub use cost::write_costs;
pub use faults::{write_case_line, write_hard_line, write_no_memory, write_text_line};
pub use log::{log_change, log_round, log_start, log_word};
pub use log_fault::LogFault;
pub use names::nurse_of;
pub use sizes::write_sizes;
pub use taker::write_taker;
pub use weeks::write_weeks;
