//! What can be wrong with a roster.

use roster_instance::{Shift, Skill};
use thiserror::Error;

/// A breach of a hard rule. Days and nurses are numbered from 0.
#[derive(Clone, Copy, Debug, PartialEq, Eq, Error)]
pub enum HardFault {
    /// Fewer nurses than the minimum.
    #[error("{have} nurses of {need} on day {day}")]
    H2 {
        day: u16,
        shift: Shift,
        skill: Skill,
        have: u16,
        need: u16,
    },
    /// The shift of this day may not follow that of the day before.
    #[error("forbidden succession of nurse {nurse} on day {day}")]
    H3 {
        nurse: usize,
        day: u16,
    },
    /// The nurse doesn't have the skill.
    #[error("skill that nurse {nurse} lacks on day {day}")]
    H4 {
        nurse: usize,
        day: u16,
    },
    /// The nurse is absent on a day of work.
    #[error("work of absent nurse {nurse} on day {day}")]
    Absent {
        nurse: usize,
        day: u16,
    },
}
