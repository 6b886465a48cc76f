//! The weeks of a roster, written one after the other.

ghost use Rattle.std.specs.Prelude.{◌≡◌, ◌<◌, ◌++◌, [], OnOk, IfOk, IfErr, true, codes, if◌then◌else◌, nat_lt};
ghost use Rattle.roster_bundle.specs.Canonical.{canonical};
ghost use Rattle.roster_text.specs.Io.{BreaksIn, Sends, StopsIn, Writes};
ghost use Rattle.roster_instance.specs.Meaning.{week_count};
ghost use Rattle.roster_instance.specs.Rosters.{fits_case};
ghost use Rattle.roster_case.specs.Shown.{shown_week, weeks_text};

use roster_case::WeekView;
use roster_instance::{Case, Roster};
use roster_text::{Piece, Watch, WriteFault, send_pieces, send_solution};
use std::io::Write;

/// Writes all weeks, with an empty line between two, as `show`, `best` and `improve` do. It doesn't flush the
/// output.
pub fn write_weeks<W: Write>(
    output: &mut Watch<W>,
    case: &Case,
    roster: &Roster,
) -> Result<(), WriteFault>
    requires { fits_case case.now roster.now ≡ true }
    ensures ok { OnOk result (Writes W.contents output.old output.new
        (weeks_text case.now roster.now)) }
    ensures err { IfErr result (StopsIn W.contents output.old output.new
        (weeks_text case.now roster.now)) }
{
    let mut sent = 0;
    for week in 0..case.weeks() {
        sent = send_week(output, sent, case, roster, week)?;
    }
    Ok(())
}

/// Writes a week, after an empty line if it is not the first, as `send_pieces` does.
fn send_week<W: Write>(
    output: &mut Watch<W>,
    mut sent: usize,
    case: &Case,
    roster: &Roster,
    week: u16,
) -> Result<usize, WriteFault>
    requires fitting { fits_case case.now roster.now ≡ true }
    requires within { week < week_count case.now }
    ensures ok { IfOk result (λ after. Sends W.contents output.old output.new sent after
        ((if nat_lt 0 week then codes "\n" else [])
        ++ canonical (shown_week case.now roster.now week))) }
    ensures err { IfErr result (BreaksIn W.contents output.old output.new sent
        ((if nat_lt 0 week then codes "\n" else [])
        ++ canonical (shown_week case.now roster.now week))) }
{
    if week > 0 {
        sent = send_pieces(output, sent, &[Piece::Bytes(b"\n")])?;
    }
    send_solution(output, sent, &WeekView::of(case, roster, week))
}
