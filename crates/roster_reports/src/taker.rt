//! The line of a nurse who may take an assignment.

ghost use Rattle.std.specs.Prelude.{OnOk, IfErr};
ghost use Rattle.roster_text.specs.Io.{StopsIn, Writes};
ghost use Rattle.roster_reports.specs.Lines.{taker_line};

use roster_text::{Piece, Watch, WriteFault, write_pieces};
use std::io::Write;

/// Writes a nurse's name, the penalty, the number of changed days, and, if it is given, by how many nurses
/// the roster is still short.
pub fn write_taker<W: Write>(
    output: &mut Watch<W>,
    name: &[u8],
    penalty: u64,
    changed: u16,
    missed: Option<u64>,
) -> Result<(), WriteFault>
    ensures ok { OnOk result (Writes W.contents output.old output.new
        (taker_line name.now penalty changed missed)) }
    ensures err { IfErr result (StopsIn W.contents output.old output.new
        (taker_line name.now penalty changed missed)) }
{
    match missed {
        None => write_pieces(
            output,
            &[
                Piece::Bytes(name),
                Piece::Bytes(b" "),
                Piece::Number(penalty),
                Piece::Bytes(b" changed "),
                Piece::Number(changed as u64),
                Piece::Bytes(b"\n"),
            ],
        ),
        Some(missed) => write_pieces(
            output,
            &[
                Piece::Bytes(name),
                Piece::Bytes(b" "),
                Piece::Number(penalty),
                Piece::Bytes(b" changed "),
                Piece::Number(changed as u64),
                Piece::Bytes(b" missed "),
                Piece::Number(missed),
                Piece::Bytes(b"\n"),
            ],
        ),
    }
}
