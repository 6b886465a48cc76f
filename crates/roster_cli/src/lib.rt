//! The program `roster` except its `main`: what the words of a command line ask for, and the answer to it,
//! from the bytes of the input to the output, the log and the status.
//!
//! `specs/Answer.antt` defines what each command writes, and what is left if a run stops; `specs/Start.antt`
//! defines how words are answered. `run` promises the answer from end to end: with status 0 the input spells
//! a bundle, and output and log are those of the command's report of what that bundle means; with another
//! status, there is the fault and its line. `answer_words` promises that words that are no request are
//! reported as such, and that a request is answered over its files, or over the input, as `run` says; with
//! status 0 the output holds nothing back. `answer_command_line` promises this of the words that the system
//! gives. `refuse` promises the line and the status of a fault outside of `run`.
#![tactic(auto)]

mod aids;
mod answer;
mod commands;
mod faults;
mod into_file;
mod plan;
mod polish;
mod saver;
mod start;

pub use aids::Aids;
pub use answer::{run, run_saving, run_timed};
pub use roster_answers::refuse;
pub use roster_input::Joined;
pub use roster_polish::{NoSaves, Saves};
pub use roster_request::{CliFault, Command, Request, request_of};
pub use start::{answer_command_line, answer_words};
