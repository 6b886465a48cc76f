//! The report of `sizes` as JSON.

ghost use Rattle.std.specs.Prelude.{◌<◌, OnErr, OnOk};
ghost use Rattle.roster_text.specs.Io.{Stops, Writes};
ghost use Rattle.roster_instance.specs.Meaning.{nurse_count};
ghost use Rattle.roster_json.specs.Reports.{json_sizes, size_line};

use crate::object::{Field, write_object};
use crate::pieces::NotWritten;
use roster_instance::Case;
use roster_state::Ranges;
use roster_text::Watch;
use std::io::Write;

/// Writes a line for each nurse.
pub fn write_json_sizes<W: Write>(out: &mut Watch<W>, case: &Case) -> Result<(), NotWritten>
    ensures ok { OnOk result (Writes W.contents out.old out.new (json_sizes case.now)) }
    ensures err { OnErr result (Stops W.contents out.old out.new (json_sizes case.now)) }
{
    for nurse in 0..case.nurses() {
        write_size(out, case, nurse)?;
    }
    Ok(())
}

/// Writes a nurse's number and name, and how many states, labels, pointers and extensions the search takes.
fn write_size<W: Write>(out: &mut Watch<W>, case: &Case, nurse: usize) -> Result<(), NotWritten>
    requires { nurse < nurse_count case.now }
    ensures ok { OnOk result (Writes W.contents out.old out.new (size_line case.now nurse)) }
    ensures err { OnErr result (Stops W.contents out.old out.new (size_line case.now nurse)) }
{
    let states = Ranges::of(case, nurse).product() as u64;
    let days = case.days() as u64;
    let choices = case.choice_count(nurse) as u64;
    write_object(
        out,
        "sizes",
        &[
            Field::Number("nurse", nurse as u64),
            Field::Name("nurse_name", case.nurse_name(nurse)),
            Field::Number("states", states),
            Field::Number("labels", 2 * states),
            Field::Number("pointers", states * days),
            Field::Number("extensions", states * days * choices),
        ],
    )
}
