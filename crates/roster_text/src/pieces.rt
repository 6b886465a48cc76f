//! Writing bytes, numbers, and texts that are made of both.

ghost use Rattle.std.specs.Prelude.{OnOk, IfOk, IfErr, decimal};
ghost use Rattle.roster_text.specs.Io.{Writes, StopsAt, StopsIn, Sends, BreaksIn, sent_of};
ghost use Rattle.roster_text.specs.Pieces.{piece_text, pieces_text};

use crate::fault::WriteFault;
use crate::watch::Watch;
use itoa::Buffer;
use std::io::Write;

/// A piece of a text: bytes, or a number in decimal without leading zeros. A number can exceed 64 bits, since
/// a count of assignments can.
#[derive(Clone, Copy)]
pub enum Piece<'a> {
    Bytes(&'a [u8]),
    Number(u64),
    Count(u128),
}

/// Writes all of the bytes, with as many writes as it takes.
pub fn write_bytes<W: Write>(out: &mut Watch<W>, bytes: &[u8]) -> Result<(), WriteFault>
    ensures ok { OnOk result (Writes W.contents out.old out.new bytes.now) }
    ensures err { IfErr result
        (λ fault. StopsAt W.contents out.old out.new bytes.now (sent_of fault)) }
{
    let mut sent = 0;
    while sent < bytes.len() {
        match out.write(&bytes[sent..]) {
            Ok(taken) if taken > 0 => sent += taken,
            _ => return Err(WriteFault::WriteFailed { sent }),
        }
    }
    Ok(())
}

/// Writes a number in decimal, without leading zeros.
pub fn write_number<W: Write>(out: &mut Watch<W>, number: u64) -> Result<(), WriteFault>
    ensures ok { OnOk result (Writes W.contents out.old out.new (decimal number)) }
    ensures err { IfErr result
        (λ fault. StopsAt W.contents out.old out.new (decimal number) (sent_of fault)) }
{
    let mut digits = Buffer::new();
    write_bytes(out, digits.format(number).as_bytes())
}

/// Writes pieces, one after the other.
pub fn write_pieces<W: Write>(out: &mut Watch<W>, pieces: &[Piece<'_>]) -> Result<(), WriteFault>
    ensures ok { OnOk result (Writes W.contents out.old out.new (pieces_text pieces.now)) }
    ensures err { IfErr result (StopsIn W.contents out.old out.new (pieces_text pieces.now)) }
{
    send_pieces(out, 0, pieces)?;
    Ok(())
}

/// Writes pieces of a longer text. It takes the number of bytes of that text that were sent before, and
/// returns the number that are sent then; a fault counts the bytes of the whole text.
pub fn send_pieces<W: Write>(
    out: &mut Watch<W>,
    mut sent: usize,
    pieces: &[Piece<'_>],
) -> Result<usize, WriteFault>
    ensures ok { IfOk result
        (λ after. Sends W.contents out.old out.new sent after (pieces_text pieces.now)) }
    ensures err { IfErr result (BreaksIn W.contents out.old out.new sent (pieces_text pieces.now)) }
{
    for piece in pieces {
        sent = send_piece(out, sent, *piece)?;
    }
    Ok(sent)
}

fn send_piece<W: Write>(
    out: &mut Watch<W>,
    before: usize,
    piece: Piece<'_>,
) -> Result<usize, WriteFault>
    ensures ok { IfOk result
        (λ after. Sends W.contents out.old out.new before after (piece_text piece.entry)) }
    ensures err { IfErr result (BreaksIn W.contents out.old out.new before
        (piece_text piece.entry)) }
{
    match piece {
        Piece::Bytes(bytes) => send_bytes(out, before, bytes),
        Piece::Number(number) => {
            let mut digits = Buffer::new();
            send_bytes(out, before, digits.format(number).as_bytes())
        }
        Piece::Count(count) => {
            let mut digits = Buffer::new();
            send_bytes(out, before, digits.format(count).as_bytes())
        }
    }
}

fn send_bytes<W: Write>(
    out: &mut Watch<W>,
    before: usize,
    bytes: &[u8],
) -> Result<usize, WriteFault>
    ensures ok { IfOk result (λ after. Sends W.contents out.old out.new before after bytes.now) }
    ensures err { IfErr result (BreaksIn W.contents out.old out.new before bytes.now) }
{
    match write_bytes(out, bytes) {
        Ok(()) => Ok(before.saturating_add(bytes.len())),
        Err(WriteFault::WriteFailed { sent }) => Err(WriteFault::WriteFailed {
            sent: before.saturating_add(sent),
        }),
    }
}
