//! Writing the canonical text of a solution.

ghost use Rattle.std.specs.Prelude.{◌≡◌, ◌<◌, ◌≤◌, OnOk, IfOk, IfErr, length};
ghost use Rattle.roster_text.specs.Io.{Writes, StopsIn, Sends, BreaksIn};
ghost use Rattle.roster_bundle.specs.Canonical.{canonical, heading, assignments, nurse_assignments, nurse_lines, line_text, weekday_text};

use crate::fault::WriteFault;
use crate::pieces::{Piece, send_pieces};
use crate::watch::Watch;
use roster_bundle::SolutionView;
use std::io::Write;

/// Writes the canonical text of one solution: its heading, and a line for each assignment.
pub fn write_solution<W: Write, S: SolutionView>(
    out: &mut Watch<W>,
    view: &S,
) -> Result<(), WriteFault>
    ensures ok { OnOk result (Writes W.contents out.old out.new (canonical (S.shown view.now))) }
    ensures err { IfErr result (StopsIn W.contents out.old out.new (canonical (S.shown view.now))) }
{
    send_solution(out, 0, view)?;
    Ok(())
}

/// Writes the same text as a part of a longer one, as `send_pieces` does.
pub fn send_solution<W: Write, S: SolutionView>(
    out: &mut Watch<W>,
    before: usize,
    view: &S,
) -> Result<usize, WriteFault>
    ensures ok { IfOk result (λ after. Sends W.contents out.old out.new before after
        (canonical (S.shown view.now))) }
    ensures err { IfErr result (BreaksIn W.contents out.old out.new before
        (canonical (S.shown view.now))) }
{
    let mut sent = send_heading(out, before, view)?;
    for nurse in 0..view.nurses() {
        sent = send_nurse(out, sent, view, nurse)?;
    }
    Ok(sent)
}

// Each of these sends a part of the text, as `send_pieces` does.

fn send_heading<W: Write, S: SolutionView>(
    out: &mut Watch<W>,
    sent: usize,
    view: &S,
) -> Result<usize, WriteFault>
    ensures ok { IfOk result
        (λ after. Sends W.contents out.old out.new sent after (heading (S.shown view.now))) }
    ensures err { IfErr result (BreaksIn W.contents out.old out.new sent
        (heading (S.shown view.now))) }
{
    send_pieces(
        out,
        sent,
        &[
            Piece::Bytes(b"SOLUTION\n"),
            Piece::Number(u64::from(view.week())),
            Piece::Bytes(b" "),
            Piece::Bytes(view.name()),
            Piece::Bytes(b"\n\nASSIGNMENTS = "),
            Piece::Count(count_assignments(view)),
            Piece::Bytes(b"\n"),
        ],
    )
}

/// The lines of a nurse's week, from Monday to Sunday.
fn send_nurse<W: Write, S: SolutionView>(
    out: &mut Watch<W>,
    mut sent: usize,
    view: &S,
    nurse: usize,
) -> Result<usize, WriteFault>
    requires { nurse < (S.shown view.now).nurses }
    ensures ok { IfOk result (λ after. Sends W.contents out.old out.new sent after
        (nurse_lines (S.shown view.now) nurse)) }
    ensures err { IfErr result
        (BreaksIn W.contents out.old out.new sent (nurse_lines (S.shown view.now) nurse)) }
{
    for weekday in 0..7 {
        let Some((shift, skill)) = view.on(nurse, weekday) else {
            continue;
        };
        let day = weekday_text(weekday);
        sent = send_line(out, sent, view.nurse(nurse), &day, shift, skill)?;
    }
    Ok(sent)
}

fn send_line<'t, W: Write>(
    out: &mut Watch<W>,
    sent: usize,
    nurse: &'t [u8],
    day: &'t [u8],
    shift: &'t [u8],
    skill: &'t [u8],
) -> Result<usize, WriteFault>
    ensures ok { IfOk result
        (λ after. Sends W.contents out.old out.new sent after
        (line_text nurse.now day.now shift.now skill.now)) }
    ensures err { IfErr result
        (BreaksIn W.contents out.old out.new sent (line_text nurse.now day.now shift.now skill.now)) }
{
    send_pieces(
        out,
        sent,
        &[
            Piece::Bytes(nurse),
            Piece::Bytes(b" "),
            Piece::Bytes(day),
            Piece::Bytes(b" "),
            Piece::Bytes(shift),
            Piece::Bytes(b" "),
            Piece::Bytes(skill),
            Piece::Bytes(b"\n"),
        ],
    )
}

/// A weekday in three letters, as it is written; 0 is Monday.
pub fn weekday_text(weekday: u16) -> [u8; 3]
    requires { weekday < 7 }
    ensures { result ≡ weekday_text weekday }
{
    match weekday {
        0 => *b"Mon",
        1 => *b"Tue",
        2 => *b"Wed",
        3 => *b"Thu",
        4 => *b"Fri",
        5 => *b"Sat",
        _ => *b"Sun",
    }
}

/// The number of assignments. There are up to seven for each nurse, so that with very many nurses 64 bits are
/// not enough.
fn count_assignments<S: SolutionView>(view: &S) -> u128
    ensures { result ≡ length (assignments (S.shown view.now)) }
{
    let mut count = 0;
    for nurse in 0..view.nurses() {
        count += count_of_nurse(view, nurse);
    }
    count
}

fn count_of_nurse<S: SolutionView>(view: &S, nurse: usize) -> u128
    requires { nurse < (S.shown view.now).nurses }
    ensures count { result ≡ length (nurse_assignments (S.shown view.now) nurse) }
    ensures at_most_daily { result ≤ 7 }
{
    let mut count = 0;
    for weekday in 0..7 {
        if view.on(nurse, weekday).is_some() {
            count += 1;
        }
    }
    count
}
