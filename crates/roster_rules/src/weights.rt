//! The weights of the soft rules, in penalty points: those of `specs/Weights.antt`, as numbers of the
//! program.

/// For each nurse by whom a slot is short of its optimum.
pub const STAFFING: u32 = 30;

/// For each missing or extra day of a run of working days.
pub const WORKING_RUN: u32 = 30;

/// For each missing or extra day of a run of one shift.
pub const SHIFT_RUN: u32 = 15;

/// For each missing or extra day of a run of days off.
pub const FREE_RUN: u32 = 30;

/// For each assignment to a shift that an off request names.
pub const OFF_REQUEST: u32 = 10;

/// For each weekend of which exactly one day is worked.
pub const SPLIT: u32 = 30;

/// For each assignment below the least total, or above the greatest.
pub const ASSIGNMENT: u32 = 20;

/// For each worked weekend above the greatest number.
pub const WEEKEND: u32 = 30;

/// For each day of a nurse with a wish to work that isn't met.
pub const WISH: u32 = 10;
