//! The lines of a run's log. Each function takes the number of bytes of the log that were sent before it, and
//! returns the number sent after it.

ghost use Rattle.std.specs.Prelude.{◌++◌, IfErr, IfOk, codes, decimal};
ghost use Rattle.roster_text.specs.Io.{BreaksIn, Sends};
ghost use Rattle.roster_rules.specs.Improver.{line, start_word};

use roster_instance::Case;
use roster_text::{Piece, Watch, WriteFault, send_pieces};
use std::io::Write;

/// The first line of a run of this case: the penalty of the given roster, or another number. If the case
/// keeps a roster, a line before it gives the points for each changed day.
pub fn log_start<W: Write>(
    log: &mut Watch<W>,
    sent: usize,
    case: &Case,
    number: u64,
) -> Result<usize, WriteFault>
    ensures ok { IfOk result (λ after. Sends W.contents log.old log.new sent after
        (line (start_word case.now) number)) }
    ensures err { IfErr result (BreaksIn W.contents log.old log.new sent
        (line (start_word case.now) number)) }
{
    let keep = case.keep();
    if keep == 0 {
        return log_word(log, sent, b"start", number);
    }
    send_pieces(
        log,
        sent,
        &[
            Piece::Bytes(b"keep "),
            Piece::Number(keep as u64),
            Piece::Bytes(b"\nstart "),
            Piece::Number(number),
            Piece::Bytes(b"\n"),
        ],
    )
}

/// A line of one word and the penalty.
pub fn log_word<W: Write>(
    log: &mut Watch<W>,
    sent: usize,
    word: &[u8],
    total: u64,
) -> Result<usize, WriteFault>
    ensures ok { IfOk result (λ after. Sends W.contents log.old log.new sent after
        (line word.now total)) }
    ensures err { IfErr result (BreaksIn W.contents log.old log.new sent (line word.now total)) }
{
    send_pieces(
        log,
        sent,
        &[
            Piece::Bytes(word),
            Piece::Bytes(b" "),
            Piece::Number(total),
            Piece::Bytes(b"\n"),
        ],
    )
}

/// The line of a nurse whose row was replaced in this round.
pub fn log_change<W: Write>(
    log: &mut Watch<W>,
    sent: usize,
    round: u16,
    name: &[u8],
    total: u64,
) -> Result<usize, WriteFault>
    ensures ok { IfOk result (λ after. Sends W.contents log.old log.new sent after
        (line (decimal round ++ codes " " ++ name.now) total)) }
    ensures err { IfErr result (BreaksIn W.contents log.old log.new sent
        (line (decimal round ++ codes " " ++ name.now) total)) }
{
    send_pieces(
        log,
        sent,
        &[
            Piece::Number(round as u64),
            Piece::Bytes(b" "),
            Piece::Bytes(name),
            Piece::Bytes(b" "),
            Piece::Number(total),
            Piece::Bytes(b"\n"),
        ],
    )
}

/// The line at the end of a round.
pub fn log_round<W: Write>(
    log: &mut Watch<W>,
    sent: usize,
    round: u64,
    total: u64,
) -> Result<usize, WriteFault>
    ensures ok { IfOk result (λ after. Sends W.contents log.old log.new sent after
        (line (codes "round " ++ decimal round) total)) }
    ensures err { IfErr result (BreaksIn W.contents log.old log.new sent
        (line (codes "round " ++ decimal round) total)) }
{
    send_pieces(
        log,
        sent,
        &[
            Piece::Bytes(b"round "),
            Piece::Number(round),
            Piece::Bytes(b" "),
            Piece::Number(total),
            Piece::Bytes(b"\n"),
        ],
    )
}
