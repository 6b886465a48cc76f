//! The command `sizes`: how much the search for each nurse takes.

ghost use Rattle.std.specs.Prelude.{◌<◌, OnOk, IfOk, IfErr};
ghost use Rattle.roster_text.specs.Io.{BreaksIn, Sends, StopsIn, Writes};
ghost use Rattle.roster_instance.specs.Meaning.{nurse_count};
ghost use Rattle.roster_reports.specs.Lines.{sizes_line, sizes_text};

use roster_instance::Case;
use roster_state::Ranges;
use roster_text::{Piece, Watch, WriteFault, send_pieces};
use std::io::Write;

/// Writes a line for each nurse.
pub fn write_sizes<W: Write>(output: &mut Watch<W>, case: &Case) -> Result<(), WriteFault>
    ensures ok { OnOk result (Writes W.contents output.old output.new (sizes_text case.now)) }
    ensures err { IfErr result (StopsIn W.contents output.old output.new (sizes_text case.now)) }
{
    let mut sent = 0;
    for nurse in 0..case.nurses() {
        sent = send_sizes_of(output, sent, case, nurse)?;
    }
    Ok(())
}

/// Writes a nurse's name, and how many states, labels, pointers and extensions the search takes, as
/// `send_pieces` does.
fn send_sizes_of<W: Write>(
    output: &mut Watch<W>,
    sent: usize,
    case: &Case,
    nurse: usize,
) -> Result<usize, WriteFault>
    requires { nurse < nurse_count case.now }
    ensures ok { IfOk result (λ after. Sends W.contents output.old output.new sent after
        (sizes_line case.now nurse)) }
    ensures err { IfErr result (BreaksIn W.contents output.old output.new sent
        (sizes_line case.now nurse)) }
{
    let states = Ranges::of(case, nurse).product() as u64;
    let days = case.days() as u64;
    let choices = case.choice_count(nurse) as u64;
    send_pieces(
        output,
        sent,
        &[
            Piece::Bytes(case.nurse_name(nurse)),
            Piece::Bytes(b" "),
            Piece::Number(states),
            Piece::Bytes(b" "),
            Piece::Number(2 * states),
            Piece::Bytes(b" "),
            Piece::Number(states * days),
            Piece::Bytes(b" "),
            Piece::Number(states * days * choices),
            Piece::Bytes(b"\n"),
        ],
    )
}
