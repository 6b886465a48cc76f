//! The line of `who` as JSON.

ghost use Rattle.std.specs.Prelude.{◌<◌, OnErr, OnOk};
ghost use Rattle.roster_text.specs.Io.{Stops, Writes};
ghost use Rattle.roster_instance.specs.Meaning.{nurse_count};
ghost use Rattle.roster_json.specs.Reports.{json_taker};

use crate::object::{Field, write_object};
use crate::pieces::NotWritten;
use roster_instance::Case;
use roster_text::Watch;
use std::io::Write;

/// Writes the line of a nurse who may take an assignment.
pub fn write_json_taker<W: Write>(
    out: &mut Watch<W>,
    case: &Case,
    nurse: usize,
    penalty: u64,
    changed: u16,
    missed: u64,
) -> Result<(), NotWritten>
    requires { nurse < nurse_count case.now }
    ensures ok { OnOk result (Writes W.contents out.old out.new
        (json_taker case.now nurse penalty changed missed)) }
    ensures err { OnErr result (Stops W.contents out.old out.new
        (json_taker case.now nurse penalty changed missed)) }
{
    write_object(
        out,
        "taker",
        &[
            Field::Number("nurse", nurse as u64),
            Field::Name("nurse_name", case.nurse_name(nurse)),
            Field::Number("penalty", penalty),
            Field::Number("changed", changed as u64),
            Field::Number("missed", missed),
        ],
    )
}
