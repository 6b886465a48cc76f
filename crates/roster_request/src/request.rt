//! What a command line can ask for, and why words are no request.

ghost use Rattle.std.specs.Prelude.{◌≡◌};

use std::alloc::{AllocError, AllocFailed};

/// What the program is to do. If it changes rows or bounds what they cost, each day of a nurse that changes
/// from the given roster (to another shift, to off, or from off) costs `keep` points. Another skill is free.
///
/// If seconds are given, the run ends after about that time at the latest, if it hasn't ended before. What it
/// finds then depends on the machine.
///
/// With `json` the report is written as one object of JSON a line.
#[derive(Debug, Drop)]
pub enum Command {
    /// Writes the solutions that it was given, in canonical form.
    Show,
    /// Writes what the roster costs by each soft rule, if it keeps the hard rules. As JSON it writes that of
    /// any roster, after all its breaches.
    Cost {
        json: bool,
    },
    /// Writes how much the search for each nurse takes.
    Sizes {
        json: bool,
    },
    /// Writes the solutions with the best row of the nurse of this name put in, even if it isn't cheaper. The
    /// weeks before week `from` stay as they are.
    Best {
        nurse: String,
        from: u16,
        keep: u16,
    },
    /// Writes the solutions after a run of the improver of at most this number of rounds. The weeks before
    /// week `from` stay as they are.
    Improve {
        rounds: u16,
        from: u16,
        keep: u16,
    },
    /// Writes a lower bound on all rosters that keep the hard rules, the weeks before week `from` and the
    /// fixed days: the last that rose in this number of rounds, and then of branchings, before the time was
    /// up.
    Bound {
        rounds: u16,
        nodes: u16,
        seconds: Option<u32>,
        from: u16,
        keep: u16,
    },
    /// Writes the solutions after a run that settles the roster, makes a fade, unless only kicks are asked
    /// for, and then makes kicks as long as this number of searches and the time allow. If no number is
    /// given, it is the greatest if seconds are given, and otherwise depends on the case. The seed decides
    /// what each kick is, and in which order a fade takes the nurses. The weeks before week `from` stay as
    /// they are.
    Polish {
        searches: Option<u32>,
        seconds: Option<u32>,
        seed: u32,
        from: u16,
        kicks_alone: bool,
        keep: u16,
    },
    /// Looks for solutions that keep the hard rules, from whatever solutions it was given. Then it settles
    /// and polishes them as `Polish` does, with the searches and the time that are left. The weeks before
    /// week `from` stay as they are.
    Plan {
        searches: Option<u32>,
        seconds: Option<u32>,
        seed: u32,
        from: u16,
        keep: u16,
    },
    /// Writes who may take an assignment: the shift of this name on this day, with the skill of this name, or
    /// with any skill of the nurse if none is named. The weeks before week `from` stay as they are.
    Who {
        day: String,
        shift: String,
        skill: Option<String>,
        from: u16,
        json: bool,
    },
}

/// A command with the files that it reads, in order. With none it reads standard input. If `out` names a
/// file, the roster goes there, and not to standard output.
#[derive(Debug, Drop)]
pub struct Request {
    pub command: Command,
    pub files: Vec<String>,
    pub out: Option<String>,
}

/// Why words are no request.
#[derive(Debug, Drop)]
pub enum CliFault {
    /// An allocation was refused.
    Memory,
    /// The words are no command line of the program. The text says why.
    Usage(String),
    /// The words ask for help or for the version. The text is what they ask for.
    Help(String),
}

impl From<AllocError> for CliFault {
    ghost use Rattle.roster_request.specs.declared.request.CliFault.TheVariants.{Memory};

    ghost from_gives = { λ _ e. e ≡ Memory };

    fn from(_e: AllocError) -> CliFault {
        CliFault::Memory
    }
}

impl<T: Drop> From<AllocFailed<T>> for CliFault {
    ghost use Rattle.roster_request.specs.declared.request.CliFault.TheVariants.{Memory};

    ghost from_gives = { λ _ e. e ≡ Memory };

    fn from(_e: AllocFailed<T>) -> CliFault {
        CliFault::Memory
    }
}
