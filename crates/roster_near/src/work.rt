//! The work of a search in a neighbourhood, in searches, so that a budget is one number.

ghost use Rattle.std.specs.Prelude.{◌≡◌, ◌+◌, ◌<◌};

/// The searches that may still be made, and how many were.
#[derive(Clone, Copy, Debug, Default)]
pub(crate) struct Budget {
    pub(crate) left: u64,
    pub(crate) made: u64,
}

impl Budget {
    /// Takes one of the searches that are left.
    pub(crate) fn take(&mut self)
        requires { 0 < self.old.left }
        ensures { self.new.left + 1 ≡ self.old.left }
    {
        self.left -= 1;
        self.made = self.made.saturating_add(1);
    }
}

/// What was done besides searches: rows that were valued, rows that were listed, and steps of dual prices.
#[derive(Clone, Copy, Debug, Default)]
pub(crate) struct Work {
    pub(crate) valued: u64,
    listed: u64,
    steps: u64,
}

/// How many valued rows count as a search.
const VALUED_PER_SEARCH: u64 = 4000;

/// How many valued rows count as much as a listed one, and as a step.
const VALUED_PER_LISTED: u64 = 100;

const VALUED_PER_STEP: u64 = 25;

impl Work {
    /// Adds rows that were valued.
    pub(crate) fn value_rows(&mut self, rows: usize) {
        self.valued = self.valued.saturating_add(rows as u64);
    }

    /// Adds rows that were listed.
    pub(crate) fn list_rows(&mut self, rows: usize) {
        self.listed = self.listed.saturating_add(rows as u64);
    }

    /// Adds a step.
    pub(crate) fn make_step(&mut self) {
        self.steps = self.steps.saturating_add(1);
    }

    /// What was done, in searches.
    pub(crate) fn in_searches(&self) -> u64 {
        let listed = self.listed.saturating_mul(VALUED_PER_LISTED);
        let steps = self.steps.saturating_mul(VALUED_PER_STEP);
        self.valued.saturating_add(listed).saturating_add(steps) / VALUED_PER_SEARCH
    }
}
