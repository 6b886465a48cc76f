//! The report of what a roster costs.

ghost use Rattle.std.specs.Prelude.{◌<◌, OnOk, IfErr};
ghost use Rattle.roster_text.specs.Io.{StopsIn, Writes};
ghost use Rattle.roster_rules.specs.Penalties.{total_cost};
ghost use Rattle.roster_rules.specs.PenaltyBounds.{penalty_limit};
ghost use Rattle.roster_reports.specs.Lines.{costs_text};

use roster_rules::Costs;
use roster_text::{Piece, Watch, WriteFault, write_pieces};
use std::io::Write;

/// Writes a line for each soft rule but S9, and one for the total. No roster costs anything by S9 unless one
/// is kept; if one is, these points are in the total alone.
pub fn write_costs<W: Write>(output: &mut Watch<W>, costs: Costs) -> Result<(), WriteFault>
    requires { total_cost costs < penalty_limit }
    ensures ok { OnOk result (Writes W.contents output.old output.new (costs_text costs)) }
    ensures err { IfErr result (StopsIn W.contents output.old output.new (costs_text costs)) }
{
    write_pieces(
        output,
        &[
            Piece::Bytes(b"S1 "),
            Piece::Number(costs.s1),
            Piece::Bytes(b"\nS2 "),
            Piece::Number(costs.s2),
            Piece::Bytes(b"\nS3 "),
            Piece::Number(costs.s3),
            Piece::Bytes(b"\nS4 "),
            Piece::Number(costs.s4),
            Piece::Bytes(b"\nS5 "),
            Piece::Number(costs.s5),
            Piece::Bytes(b"\nS6 "),
            Piece::Number(costs.s6),
            Piece::Bytes(b"\nS7 "),
            Piece::Number(costs.s7),
            Piece::Bytes(b"\nS8 "),
            Piece::Number(costs.s8),
            Piece::Bytes(b"\ntotal "),
            Piece::Number(costs.total()),
            Piece::Bytes(b"\n"),
        ],
    )
}
