//! The line of a kick.

ghost use Rattle.std.specs.Prelude.{◌++◌, IfErr, IfOk, codes, decimal};
ghost use Rattle.roster_text.specs.Io.{BreaksIn, Sends};
ghost use Rattle.roster_rules.specs.Improver.{line};

use roster_text::{Piece, Watch, WriteFault, send_pieces};
use std::io::Write;

/// Sends the line of a kick that made the roster cheaper. `sent` bytes of the log were sent before; it
/// returns how many are sent then.
pub(crate) fn log_kick<W: Write>(
    log: &mut Watch<W>,
    sent: usize,
    kick: u32,
    total: u64,
) -> Result<usize, WriteFault>
    ensures ok { IfOk result (λ after. Sends W.contents log.old log.new sent after
        (line (codes "kick " ++ decimal kick) total)) }
    ensures err { IfErr result (BreaksIn W.contents log.old log.new sent
        (line (codes "kick " ++ decimal kick) total)) }
{
    send_pieces(
        log,
        sent,
        &[
            Piece::Bytes(b"kick "),
            Piece::Number(kick as u64),
            Piece::Bytes(b" "),
            Piece::Number(total),
            Piece::Bytes(b"\n"),
        ],
    )
}
