//! Why an instance or a roster is not taken.

use roster_bundle::Token;
use std::alloc::{AllocError, AllocFailed};
use thiserror::Error;

/// Why the texts of an instance were not taken. A line counts from 1, and a nurse from 0.
#[derive(Clone, Copy, Debug, Error)]
pub enum CaseFault {
    /// An allocation was refused.
    #[error("no memory")]
    Memory,
    /// A name is repeated among skills, shifts, contracts, nurses or a nurse's skills, or a shift has two
    /// lines of successions.
    #[error("line {line}: repeated name")]
    Repeated { line: usize },
    #[error("line {line}: unknown name")]
    Unknown { line: usize },
    /// A shift is named `Any` or `None`.
    #[error("line {line}: reserved name")]
    Reserved { line: usize },
    /// A section names another scenario.
    #[error("line {line}: other instance")]
    OtherInstance { line: usize },
    #[error("line {line}: history week is not 0")]
    HistoryWeek { line: usize },
    #[error("line {line}: repeated nurse in history")]
    HistoryNurses { line: usize },
    /// A shift and skill have two requirements in one week.
    #[error("line {line}: repeated requirement")]
    RepeatedRequirement { line: usize },
    #[error("line {line}: count out of limits")]
    Limit { line: usize },
    /// The search would need more than 1,048,576 states for this nurse; the name is a token of the source.
    #[error("too many states for nurse {nurse}")]
    TooManyStates { nurse: usize, name: Token },
    /// A second assignment of a nurse on a day.
    #[error("two assignments of nurse {nurse} on day {day}")]
    H1 { nurse: usize, day: u16 },
}

impl From<AllocError> for CaseFault {
    ghost use Rattle.std.specs.Prelude.{◌≡◌};
    ghost use Rattle.roster_instance.specs.declared.fault.CaseFault.TheVariants.{Memory};

    ghost from_gives = { λ _ e. e ≡ Memory };

    fn from(_e: AllocError) -> CaseFault {
        CaseFault::Memory
    }
}

impl<T: Drop> From<AllocFailed<T>> for CaseFault {
    ghost use Rattle.std.specs.Prelude.{◌≡◌};
    ghost use Rattle.roster_instance.specs.declared.fault.CaseFault.TheVariants.{Memory};

    ghost from_gives = { λ _ e. e ≡ Memory };

    fn from(_e: AllocFailed<T>) -> CaseFault {
        CaseFault::Memory
    }
}
