//! What a step and a run report.

/// A step: the roster's penalty before and after it, and whether it changed the roster.
#[derive(Clone, Copy, Debug, PartialEq, Eq)]
pub struct Step {
    pub before: u64,
    pub after: u64,
    pub changed: bool,
}

/// How a run ended: whether a round changed nothing, the number of rounds that were made (one without a
/// change included), the number of steps that changed the roster, and the penalty at the end.
#[derive(Clone, Copy, Debug, PartialEq, Eq)]
pub struct Outcome {
    pub settled: bool,
    pub rounds: u16,
    pub changes: u32,
    pub total: u64,
}
