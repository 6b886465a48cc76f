//! The weeks of a roster, as a command writes them.

ghost use Rattle.std.specs.Prelude.{◌≡◌, true, OnOk, IfErr};
ghost use Rattle.roster_text.specs.Io.{Writes};
ghost use Rattle.roster_instance.specs.Rosters.{fits_case};
ghost use Rattle.roster_case.specs.Shown.{weeks_text};
ghost use Rattle.roster_answers.specs.Answer.{StopsOutput};

use crate::fault::Fault;
use roster_instance::{Case, Roster};
use roster_reports::write_weeks;
use roster_text::Watch;
use std::io::Write;

/// Writes the weeks of a roster. If that fails, the fault is the output's.
pub fn show_weeks<'a, Out: Write>(
    case: &Case,
    roster: &Roster,
    output: &mut Watch<Out>,
) -> Result<(), Fault<'a>>
    requires { fits_case case.now roster.now ≡ true }
    ensures ok { OnOk result (Writes Out.contents output.old output.new
        (weeks_text case.now roster.now)) }
    ensures err { IfErr result (StopsOutput Out.contents output.old output.new
        (weeks_text case.now roster.now)) }
{
    Ok(write_weeks(output, case, roster)?)
}
