//! An object of JSON on a line of its own.

ghost use Rattle.std.specs.Prelude.{◌≡◌, OnErr, OnOk, flat_map, map};
ghost use Rattle.roster_text.specs.Io.{Stops, Writes};
ghost use Rattle.roster_json.specs.Json.{member_of, next_text, object_line};

use crate::pieces::{NotWritten, put};
use crate::strings::write_string;
use roster_text::{Piece, Watch};
use std::io::Write;

/// A field of an object: its key, which needs no escapes, and its value. A name has the bytes of the input.
#[derive(Clone, Copy)]
pub enum Field<'a> {
    Number(&'a str, u64),
    Name(&'a str, &'a [u8]),
    Truth(&'a str, bool),
}

/// Writes an object as a line. It begins with its kind, which needs no escapes.
pub(crate) fn write_object<W: Write>(
    out: &mut Watch<W>,
    kind: &str,
    fields: &[Field<'_>],
) -> Result<(), NotWritten>
    ensures ok { OnOk result (Writes W.contents out.old out.new
        (object_line kind.now (map member_of fields.now))) }
    ensures err { OnErr result (Stops W.contents out.old out.new
        (object_line kind.now (map member_of fields.now))) }
{
    put(
        out,
        &[
            Piece::Bytes(b"{\"kind\":\""),
            Piece::Bytes(kind.as_bytes()),
            Piece::Bytes(b"\""),
        ],
    )?;
    write_fields(out, fields)?;
    put(out, &[Piece::Bytes(b"}\n")])
}

fn write_fields<W: Write>(out: &mut Watch<W>, fields: &[Field<'_>]) -> Result<(), NotWritten>
    ensures ok { OnOk result (Writes W.contents out.old out.new
        (flat_map (λ field. next_text (member_of field)) fields.now)) }
    ensures err { OnErr result (Stops W.contents out.old out.new
        (flat_map (λ field. next_text (member_of field)) fields.now)) }
{
    for field in fields {
        write_field(out, *field)?;
    }
    Ok(())
}

fn write_field<W: Write>(out: &mut Watch<W>, field: Field<'_>) -> Result<(), NotWritten>
    ensures ok { OnOk result (Writes W.contents out.old out.new
        (next_text (member_of field.entry))) }
    ensures err { OnErr result (Stops W.contents out.old out.new
        (next_text (member_of field.entry))) }
{
    put(
        out,
        &[
            Piece::Bytes(b",\""),
            Piece::Bytes(key(field).as_bytes()),
            Piece::Bytes(b"\":"),
        ],
    )?;
    write_value(out, field)
}

fn key(field: Field<'_>) -> &str
    ensures { result.now ≡ (member_of field.entry).0 }
{
    match field {
        Field::Number(key, _) | Field::Name(key, _) | Field::Truth(key, _) => key,
    }
}

fn write_value<W: Write>(out: &mut Watch<W>, field: Field<'_>) -> Result<(), NotWritten>
    ensures ok { OnOk result (Writes W.contents out.old out.new (member_of field.entry).1) }
    ensures err { OnErr result (Stops W.contents out.old out.new (member_of field.entry).1) }
{
    match field {
        Field::Number(_, number) => put(out, &[Piece::Number(number)]),
        Field::Name(_, name) => write_string(out, name),
        Field::Truth(_, true) => put(out, &[Piece::Bytes(b"true")]),
        Field::Truth(_, false) => put(out, &[Piece::Bytes(b"false")]),
    }
}
