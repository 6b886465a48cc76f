//! The line of each fault on the log, and its status.

ghost use Rattle.std.specs.Prelude.{◌≡◌, OnOk, IfErr, codes};
ghost use Rattle.roster_text.specs.Io.{StopsIn, Writes};
ghost use Rattle.roster_answers.specs.Answer.{Logs, ReportsFault};
ghost use Rattle.roster_reports.specs.Lines.{text_line};
ghost use Rattle.roster_answers.specs.Lines.{fault_line, status_of, text_status, unknown_line};

use crate::fault::{Fault, Thing};
use roster_instance::CaseFault;
use roster_reports::{write_case_line, write_hard_line, write_no_memory, write_text_line};
use roster_text::{Piece, TextFault, Watch, WriteFault, write_pieces};
use std::io::Write;

/// Reports a fault of the input, as `run` does: its line goes to the log, and its status is answered.
pub fn refuse<Log: Write>(fault: TextFault, log: &mut Watch<Log>) -> u8
    ensures status { result ≡ text_status fault }
    ensures line { Logs Log.contents log.old log.new (text_line fault) }
{
    report_fault(Fault::Text(fault), log)
}

/// Reports that the output failed, as `run` does.
pub fn refuse_output<Log: Write>(log: &mut Watch<Log>) -> u8
    ensures status { result ≡ 3 }
    ensures line { Logs Log.contents log.old log.new (codes "write failed\n") }
{
    report_fault(Fault::Output, log)
}

/// Reports a fault: its line goes to the log, and its status is answered, even if the line can't be written.
/// If the log itself has failed, nothing more is written to it.
pub fn report_fault<Log: Write>(fault: Fault<'_>, log: &mut Watch<Log>) -> u8
    ensures status { result ≡ status_of fault.entry }
    ensures line { ReportsFault Log.contents log.old log.new fault.entry }
{
    let _ = write_line(&fault, log);
    status_of(&fault)
}

fn status_of(fault: &Fault<'_>) -> u8
    ensures { result ≡ status_of fault.now }
{
    match fault {
        Fault::Text(TextFault::Memory)
        | Fault::Case(CaseFault::Memory, _)
        | Fault::Memory
        | Fault::Workspace => 4,
        Fault::Text(TextFault::ReadFailed) | Fault::Output | Fault::Log => 3,
        Fault::Text(_)
        | Fault::Case(_, _)
        | Fault::Hard(_, _)
        | Fault::Unfound(_, _)
        | Fault::Unknown(_, _) => 1,
    }
}

fn write_line<Log: Write>(fault: &Fault<'_>, log: &mut Watch<Log>) -> Result<(), WriteFault>
    ensures ok { OnOk result (Writes Log.contents log.old log.new (fault_line fault.now)) }
    ensures err { IfErr result (StopsIn Log.contents log.old log.new (fault_line fault.now)) }
    ensures none { fault.now ≡ Fault.Log → log.new ≡ log.old }
{
    match fault {
        Fault::Text(fault) => write_text_line(*fault, log),
        Fault::Case(fault, nurse) => write_case_line(*fault, nurse, log),
        Fault::Hard(fault, case) => write_hard_line(b"", *fault, case, log),
        Fault::Unfound(fault, case) => write_hard_line(b"not found: ", *fault, case, log),
        Fault::Unknown(thing, name) => write_unknown(*thing, name, log),
        Fault::Memory | Fault::Workspace => write_no_memory(log),
        Fault::Output => write_pieces(log, &[Piece::Bytes(b"write failed\n")]),
        Fault::Log => Ok(()),
    }
}

/// Writes that the case has nothing of this kind and name.
fn write_unknown<'a, Log: Write>(
    thing: Thing,
    name: &'a [u8],
    log: &mut Watch<Log>,
) -> Result<(), WriteFault>
    ensures ok { OnOk result (Writes Log.contents log.old log.new (unknown_line thing name.now)) }
    ensures err { IfErr result (StopsIn Log.contents log.old log.new
        (unknown_line thing name.now)) }
{
    write_pieces(
        log,
        &[
            Piece::Bytes(b"unknown "),
            Piece::Bytes(thing.text().as_bytes()),
            Piece::Bytes(b" "),
            Piece::Bytes(name),
            Piece::Bytes(b"\n"),
        ],
    )
}
