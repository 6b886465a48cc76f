//! Improves a roster beyond what single rows can. A run first makes a fade, which is a Lagrangian heuristic,
//! and then searches neighbourhoods exactly (`near`); if kicks alone are asked for, it makes kicks in place
//! of both, which are small random perturbations. A descent follows each of these, and the result stays only
//! if it is no dearer.
//!
//! What a run keeps and logs is defined in `specs/Polished.antt`, what a settled roster is in
//! `specs/Settled.antt`, what each fade, neighbourhood and kick leaves in `specs/Tries.antt`, which roster
//! stays after them in `specs/Descents.antt`, and what a kicked nurse is offered in `specs/Kicks.antt`.
//! `polish` promises a roster that keeps the hard rules and the frozen days, is settled if it says so, and
//! costs no more than the given one, with a log that is true. No contract says how good that roster is.
#![tactic(auto)]

mod again;
mod descend;
mod fade;
mod kick;
mod laws;
mod log;
mod near;
mod offers;
mod plan;
mod random;
mod room;
mod run;
mod saves;
mod searches;
mod space;
mod stay;
mod turns;
mod visit;

pub use laws::end_is_cheapest;
pub use plan::{Rest, find_roster};
pub use room::{MOST_SEARCHES, searches_fit_meter};
pub use run::{Course, Polished, polish, polish_found};
pub use saves::{NoSaves, Reporting, Saves};
pub use space::PolishSpace;
