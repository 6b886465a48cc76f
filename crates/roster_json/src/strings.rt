//! A name as a string of JSON.

ghost use Rattle.std.specs.Prelude.{◌≡◌, ◌<◌, OnErr, OnOk, flat_map};
ghost use Rattle.std.specs.Str.Lossy.{utf8_lossy};
ghost use Rattle.roster_text.specs.Io.{Stops, Writes};
ghost use Rattle.roster_json.specs.Json.{chunk_text, escaped, hex_digit, string_text};

use crate::pieces::{NotWritten, put};
use roster_text::{Piece, Watch};
use std::io::Write;
use std::str::Utf8Chunk;

/// Writes a name in quotes, with escapes, and with U+FFFD for what isn't UTF-8.
pub(crate) fn write_string<W: Write>(out: &mut Watch<W>, name: &[u8]) -> Result<(), NotWritten>
    ensures ok { OnOk result (Writes W.contents out.old out.new (string_text name.now)) }
    ensures err { OnErr result (Stops W.contents out.old out.new (string_text name.now)) }
{
    put(out, &[Piece::Bytes(b"\"")])?;
    write_lossy(out, name)?;
    put(out, &[Piece::Bytes(b"\"")])
}

/// Writes what stands between the quotes.
fn write_lossy<W: Write>(out: &mut Watch<W>, name: &[u8]) -> Result<(), NotWritten>
    ensures ok { OnOk result (Writes W.contents out.old out.new
        (flat_map escaped (utf8_lossy name.now))) }
    ensures err { OnErr result (Stops W.contents out.old out.new
        (flat_map escaped (utf8_lossy name.now))) }
{
    for chunk in name.utf8_chunks() {
        write_chunk(out, &chunk)?;
    }
    Ok(())
}

/// Writes a part of a name that is UTF-8, and U+FFFD if bytes that aren't come after it.
fn write_chunk<W: Write>(out: &mut Watch<W>, chunk: &Utf8Chunk<'_>) -> Result<(), NotWritten>
    ensures ok { OnOk result (Writes W.contents out.old out.new
        (flat_map escaped (chunk_text chunk.now))) }
    ensures err { OnErr result (Stops W.contents out.old out.new
        (flat_map escaped (chunk_text chunk.now))) }
{
    write_escaped(out, chunk.valid().as_bytes())?;
    if chunk.invalid().is_empty() {
        return Ok(());
    }
    write_escaped(out, "\u{FFFD}".as_bytes())
}

/// Writes bytes with escapes.
fn write_escaped<W: Write>(out: &mut Watch<W>, bytes: &[u8]) -> Result<(), NotWritten>
    ensures ok { OnOk result (Writes W.contents out.old out.new (flat_map escaped bytes.now)) }
    ensures err { OnErr result (Stops W.contents out.old out.new (flat_map escaped bytes.now)) }
{
    for byte in bytes {
        write_byte(out, *byte)?;
    }
    Ok(())
}

fn write_byte<W: Write>(out: &mut Watch<W>, byte: u8) -> Result<(), NotWritten>
    ensures ok { OnOk result (Writes W.contents out.old out.new (escaped byte)) }
    ensures err { OnErr result (Stops W.contents out.old out.new (escaped byte)) }
{
    if byte == b'"' {
        put(out, &[Piece::Bytes(b"\\\"")])
    } else if byte == b'\\' {
        put(out, &[Piece::Bytes(b"\\\\")])
    } else if byte < 32 {
        let digits = [hex_digit(byte / 16), hex_digit(byte % 16)];
        put(out, &[Piece::Bytes(b"\\u00"), Piece::Bytes(&digits)])
    } else {
        put(out, &[Piece::Bytes(&[byte])])
    }
}

/// A number below 16 as a digit.
fn hex_digit(number: u8) -> u8
    requires { number < 16 }
    ensures { result ≡ hex_digit number }
{
    if number < 10 {
        b'0' + number
    } else {
        b'a' + (number - 10)
    }
}
