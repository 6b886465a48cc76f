//! Why the weeks aren't written.

use roster_best::BestFault;
use roster_case::{CaseFault, HardFault, HeldFault};
use roster_rounds::LogFault;
use roster_text::{TextFault, WriteFault};

/// Why the weeks aren't written, or not all of them.
#[derive(Clone, Copy, Debug)]
pub enum Stop {
    /// The bytes were not read, or don't follow the grammar.
    Text(TextFault),
    /// What they say is refused: a name, a count, or a nurse with too many states.
    Case(CaseFault),
    /// The roster breaks a hard rule.
    Hard(HardFault),
    /// An allocation was refused.
    Memory,
    /// The workspace or the meter has no capacity for a search. `write_better_weeks` never comes to that.
    NoCapacity,
    /// The log failed.
    Log,
    /// The output failed.
    Output,
}

impl From<TextFault> for Stop {
    fn from(fault: TextFault) -> Stop {
        Stop::Text(fault)
    }
}

impl From<CaseFault> for Stop {
    fn from(fault: CaseFault) -> Stop {
        Stop::Case(fault)
    }
}

impl From<HeldFault> for Stop {
    fn from(fault: HeldFault) -> Stop {
        match fault {
            HeldFault::Hard(breach, _, _) => Stop::Hard(breach),
            HeldFault::Memory(_, _) => Stop::Memory,
        }
    }
}

impl From<BestFault> for Stop {
    fn from(_fault: BestFault) -> Stop {
        Stop::Memory
    }
}

impl From<LogFault> for Stop {
    fn from(_fault: LogFault) -> Stop {
        Stop::Log
    }
}

impl From<WriteFault> for Stop {
    fn from(_fault: WriteFault) -> Stop {
        Stop::Output
    }
}
