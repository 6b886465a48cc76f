//! Why a command stops.

use roster_instance::{Case, CaseFault};
use roster_json::NotWritten;
use roster_rules::HardFault;
use roster_text::{TextFault, WriteFault};

/// What a command is asked for by name.
#[derive(Clone, Copy)]
pub enum Thing {
    Nurse,
    Day,
    Shift,
    Skill,
}

impl Thing {
    ghost use Rattle.std.specs.Prelude.{◌≡◌};
    ghost use Rattle.roster_answers.specs.Lines.{thing_text};

    /// The word for it in a fault's line.
    pub fn text(self) -> &'static str
        ensures { result.now ≡ thing_text self }
    {
        match self {
            Thing::Nurse => "nurse",
            Thing::Day => "day",
            Thing::Shift => "shift",
            Thing::Skill => "skill",
        }
    }
}

/// Why a command stopped.
#[derive(Drop)]
pub enum Fault<'a> {
    /// The input was not read, or doesn't follow the grammar.
    Text(TextFault),
    /// The case or the solutions are refused. With the fault comes the name of the nurse that it is about,
    /// empty if it is about none.
    Case(CaseFault, &'a [u8]),
    /// The roster breaks a hard rule that the command requires. With the breach, which has numbers, comes the
    /// case, which has their names.
    Hard(HardFault, Case),
    /// No roster was found that keeps the hard rules. The fault is the first breach of the nearest one, with
    /// the case.
    Unfound(HardFault, Case),
    /// The command is asked about something of this kind and name, which the case doesn't have.
    Unknown(Thing, &'a [u8]),
    /// An allocation was refused for what a command keeps with a roster that it holds. Nothing else is wrong.
    Memory,
    /// An allocation was refused for the workspace of its searches. No fault that is reported before this one
    /// applies.
    Workspace,
    /// The output failed.
    Output,
    /// The log failed, inside the lines of the command.
    Log,
}

impl<'a> From<WriteFault> for Fault<'a> {
    ghost use Rattle.std.specs.Prelude.{◌≡◌};
    ghost use Rattle.roster_answers.specs.declared.fault.Fault.TheVariants as fault;

    ghost from_gives = { λ _ f. f ≡ fault.Output };

    fn from(_e: WriteFault) -> Fault<'a> {
        Fault::Output
    }
}

impl<'a> From<NotWritten> for Fault<'a> {
    ghost use Rattle.std.specs.Prelude.{◌≡◌};
    ghost use Rattle.roster_answers.specs.declared.fault.Fault.TheVariants as fault;

    ghost from_gives = { λ _ f. f ≡ fault.Output };

    fn from(_e: NotWritten) -> Fault<'a> {
        Fault::Output
    }
}
