//! What a search takes, and no contract states: how many extensions it makes on some wards, by tests, and how
//! many bytes don't depend on the case.
#![tactic(auto)]

#[cfg(test)]
mod count_tests;
#[cfg(test)]
mod stored;
#[cfg(test)]
mod ward;

use roster_best::Workspace;

// A workspace without its four lists, which grow with the case: the two tables, the pointers and a row.
const _: () = prove!(size_of::<Workspace>() <= 111_120);
