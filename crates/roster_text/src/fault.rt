//! What can be wrong with a text, with its reader or with its writer.

ghost use Rattle.std.specs.Prelude.{◌≡◌};

use std::alloc::{AllocError, AllocFailed};
use std::fmt;
use thiserror::Error;

/// A word that begins a section of the four texts.
#[derive(Clone, Copy, Debug)]
pub enum Keyword {
    Scenario,
    Weeks,
    Skills,
    ShiftTypes,
    Successions,
    Contracts,
    Nurses,
    History,
    NurseHistory,
    WeekData,
    Requirements,
    ShiftOffRequests,
    ShiftOnRequests,
    Absences,
    Fixed,
    Solution,
    Assignments,
}

impl Keyword {
    ghost use Rattle.roster_text.specs.Words.{keyword_text};

    /// The word as it is written in a text.
    pub fn text(self) -> &'static str
        ensures { result.now ≡ keyword_text self }
    {
        match self {
            Keyword::Scenario => "SCENARIO",
            Keyword::Weeks => "WEEKS",
            Keyword::Skills => "SKILLS",
            Keyword::ShiftTypes => "SHIFT_TYPES",
            Keyword::Successions => "FORBIDDEN_SHIFT_TYPES_SUCCESSIONS",
            Keyword::Contracts => "CONTRACTS",
            Keyword::Nurses => "NURSES",
            Keyword::History => "HISTORY",
            Keyword::NurseHistory => "NURSE_HISTORY",
            Keyword::WeekData => "WEEK_DATA",
            Keyword::Requirements => "REQUIREMENTS",
            Keyword::ShiftOffRequests => "SHIFT_OFF_REQUESTS",
            Keyword::ShiftOnRequests => "SHIFT_ON_REQUESTS",
            Keyword::Absences => "ABSENCES",
            Keyword::Fixed => "FIXED",
            Keyword::Solution => "SOLUTION",
            Keyword::Assignments => "ASSIGNMENTS",
        }
    }
}

/// What the grammar expects next.
#[derive(Clone, Copy, Debug)]
pub enum What {
    Keyword(Keyword),
    Equals,
    Open,
    Comma,
    Close,
    Name,
    Number,
    Day,
}

impl What {
    ghost use Rattle.roster_text.specs.Words.{what_text};

    /// The word for it in a fault line.
    pub fn text(self) -> &'static str
        ensures { result.now ≡ what_text self }
    {
        match self {
            What::Keyword(keyword) => keyword.text(),
            What::Equals => "=",
            What::Open => "(",
            What::Comma => ",",
            What::Close => ")",
            What::Name => "name",
            What::Number => "number",
            What::Day => "day",
        }
    }
}

impl fmt::Display for What {
    ghost use Rattle.std.specs.Prelude.{Some};
    ghost use Rattle.roster_text.specs.Words.{what_text};

    ghost output = { λ w. Some (what_text w) };

    fn fmt<W: fmt::Write>(&self, f: &mut fmt::Formatter<W>) -> fmt::Result {
        f.write_str(self.text())
    }
}

/// Why a text was not read. A line counts from 1.
#[derive(Clone, Copy, Debug, Error)]
pub enum TextFault {
    /// An allocation was refused.
    #[error("no memory")]
    Memory,
    /// A read failed.
    #[error("read failed")]
    ReadFailed,
    /// More than 16,777,216 bytes came.
    #[error("input longer than 16777216 bytes")]
    TooLong,
    /// The grammar expects something else than this token, or than the end.
    #[error("line {line}: expected {what}")]
    Expected { line: usize, what: What },
    /// A number is out of its range.
    #[error("line {line}: number out of range")]
    NumberRange { line: usize },
    /// Tokens follow the last solution.
    #[error("line {line}: text after the end")]
    AfterEnd { line: usize },
}

impl From<AllocError> for TextFault {
    ghost use Rattle.roster_text.specs.declared.fault.TextFault.TheVariants.{Memory};

    ghost from_gives = { λ _ e. e ≡ Memory };

    fn from(_e: AllocError) -> TextFault {
        TextFault::Memory
    }
}

impl<T: Drop> From<AllocFailed<T>> for TextFault {
    ghost use Rattle.roster_text.specs.declared.fault.TextFault.TheVariants.{Memory};

    ghost from_gives = { λ _ e. e ≡ Memory };

    fn from(_e: AllocFailed<T>) -> TextFault {
        TextFault::Memory
    }
}

/// A writer failed after it had taken the first `sent` bytes of the text. A write that takes nothing counts
/// as failing.
#[derive(Clone, Copy, Debug, PartialEq, Eq, Error)]
pub enum WriteFault {
    #[error("write failed after {sent} bytes")]
    WriteFailed { sent: usize },
}
