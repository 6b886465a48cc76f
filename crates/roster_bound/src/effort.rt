//! How long a lower bound is raised, and how far it came.

use roster_timer::Deadline;

/// How long a lower bound is raised: for this many rounds of searches, and then by this many branchings.
#[derive(Clone, Copy, Debug)]
pub struct Effort {
    pub rounds: u16,
    pub nodes: u16,
}

/// The task of a run that raises a lower bound: how long it goes on, the week before which all is
/// frozen, and when its time ends.
#[derive(Clone, Copy)]
pub struct Task<K> {
    pub effort: Effort,
    pub from: u16,
    pub deadline: Deadline<K>,
}

/// A lower bound that a run reached, and the rounds and branchings after which it would have ended there
/// without a limit of time.
#[derive(Clone, Copy, Debug)]
pub struct Raised {
    pub bound: u64,
    pub effort: Effort,
}

/// A lower bound that was reached, and how many bytes of the log had been sent by then.
#[derive(Clone, Copy, Debug)]
pub struct Reached {
    pub bound: u64,
    pub sent: usize,
}

/// What was reached by rounds, and how many were asked for, or made until the time was up.
#[derive(Clone, Copy, Debug)]
pub(crate) struct ReachedByRounds {
    pub(crate) reached: Reached,
    pub(crate) rounds: u16,
}
