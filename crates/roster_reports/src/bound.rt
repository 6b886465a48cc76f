//! The report of a bound.

ghost use Rattle.std.specs.Prelude.{OnOk, IfErr};
ghost use Rattle.roster_text.specs.Io.{StopsIn, Writes};
ghost use Rattle.roster_reports.specs.Lines.{bound_text};

use roster_text::{Piece, Watch, WriteFault, write_pieces};
use std::io::Write;

/// Writes what a roster costs, and the lower bound.
pub fn write_bound<W: Write>(
    output: &mut Watch<W>,
    total: u64,
    bound: u64,
) -> Result<(), WriteFault>
    ensures ok { OnOk result (Writes W.contents output.old output.new (bound_text total bound)) }
    ensures err { IfErr result (StopsIn W.contents output.old output.new (bound_text total bound)) }
{
    write_pieces(
        output,
        &[
            Piece::Bytes(b"roster "),
            Piece::Number(total),
            Piece::Bytes(b"\nbound "),
            Piece::Number(bound),
            Piece::Bytes(b"\n"),
        ],
    )
}
