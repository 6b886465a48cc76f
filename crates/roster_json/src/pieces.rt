//! Pieces of a report. A fault counts nothing, since a line of JSON that isn't whole is of no use.

ghost use Rattle.std.specs.Prelude.{OnErr, OnOk};
ghost use Rattle.roster_text.specs.Io.{Stops, Writes};
ghost use Rattle.roster_text.specs.Pieces.{pieces_text};

use roster_text::{Piece, Watch, write_pieces};
use std::io::Write;

/// A write failed. How much the writer took isn't counted.
#[derive(Clone, Copy, Debug, PartialEq, Eq)]
pub struct NotWritten;

/// Writes pieces, one after the other.
pub(crate) fn put<W: Write>(out: &mut Watch<W>, pieces: &[Piece<'_>]) -> Result<(), NotWritten>
    ensures ok { OnOk result (Writes W.contents out.old out.new (pieces_text pieces.now)) }
    ensures err { OnErr result (Stops W.contents out.old out.new (pieces_text pieces.now)) }
{
    match write_pieces(out, pieces) {
        Ok(()) => Ok(()),
        Err(_) => Err(NotWritten),
    }
}
