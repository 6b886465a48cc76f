//! The four texts of an instance: bytes, tokens, grammar, and the canonical text of a solution.
//!
//! The grammar is defined in `specs/Grammar.antt`, reading from left to right in `specs/Reading.antt`, the
//! first fault of tokens that spell no bundle in `specs/FirstFault.antt`, and texts of bytes and numbers in
//! `specs/Pieces.antt`. `reading` reads all bytes of a reader; `token` and `starts` cut them into tokens.
//! `parser` reads one token, a given number of items, or lines up to the next section, and `parts` reads the
//! sections of a bundle with it. `parse_bundle` promises the one bundle that the tokens spell, or the first
//! fault (`fault`). `pieces` and `writing` write texts, or say how many of their bytes were sent;
//! `written_is_read` says that a written solution can be read again. All reading and writing goes through a
//! `Watch`, which counts the calls that fail (`watch`, `watching`; `specs/Io.antt`).
#![tactic(auto)]

mod fault;
mod laws;
mod parser;
mod parsing;
mod parts;
mod pieces;
mod reading;
mod starts;
mod token;
mod watch;
mod watching;
mod writing;

pub use fault::{Keyword, TextFault, What, WriteFault};
pub use laws::written_is_read;
pub use parsing::{numbers_are_small, one_bundle, one_first_fault, parse_bundle};
pub use pieces::{Piece, send_pieces, write_bytes, write_number, write_pieces};
pub use reading::{MAX_INPUT, read_all};
pub use roster_bundle::{Bundle, SolutionView, Token};
pub use token::tokens;
pub use watch::Watch;
pub use writing::{send_solution, weekday_text, write_solution};
