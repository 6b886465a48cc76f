//! The lines about the file to which the roster goes.

ghost use Rattle.std.specs.Prelude.{◌≡◌, ◌++◌, codes, option_map, string_bytes};
ghost use Rattle.roster_answers.specs.Answer.{Logs};
ghost use Rattle.roster_answers.specs.Lines.{status_of};
ghost use Rattle.roster_cli.specs.Answer.{ReportsTo, write_line};

use roster_answers::{Fault, refuse_output, report_fault};
use roster_text::{Piece, Watch, write_pieces};
use std::io::Write;

/// Reports a fault of a run whose output goes to `out`, if that names a file.
pub(crate) fn report_to<Log: Write>(
    fault: Fault<'_>,
    out: &Option<String>,
    log: &mut Watch<Log>,
) -> u8
    ensures status { result ≡ status_of fault.entry }
    ensures line { ReportsTo (option_map string_bytes out.now) Log.contents log.old log.new
        fault.entry }
{
    match fault {
        Fault::Output => refuse_write(out, log),
        other => report_fault(other, log),
    }
}

/// Reports that the output failed, which goes to `out`, if that names a file.
pub(crate) fn refuse_write<Log: Write>(out: &Option<String>, log: &mut Watch<Log>) -> u8
    ensures status { result ≡ 3 }
    ensures line { Logs Log.contents log.old log.new
        (write_line (option_map string_bytes out.now)) }
{
    match out {
        None => refuse_output(log),
        Some(path) => {
            refuse_path(path.as_str(), b": write failed\n", log);
            3
        }
    }
}

/// Writes a line about a path.
fn refuse_path<Log: Write>(path: &str, what: &[u8], log: &mut Watch<Log>)
    ensures { Logs Log.contents log.old log.new (path.now ++ what.now) }
{
    let _ = write_pieces(log, &[Piece::Bytes(path.as_bytes()), Piece::Bytes(what)]);
}

/// Reports that the output would go to a file that is read.
pub(crate) fn refuse_input<Log: Write>(path: &str, log: &mut Watch<Log>) -> u8
    ensures status { result ≡ 2 }
    ensures line { Logs Log.contents log.old log.new
        (path.now ++ codes ": is one of the inputs\n") }
{
    refuse_path(path, b": is one of the inputs\n", log);
    2
}
