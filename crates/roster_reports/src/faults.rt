//! The line of each kind of fault.

ghost use Rattle.std.specs.Prelude.{OnOk, IfErr, ◌++◌, codes, decimal};
ghost use Rattle.roster_text.specs.Io.{StopsIn, Writes};
ghost use Rattle.roster_reports.specs.Lines.{case_line, hard_line, memory_line, missing_line, nurse_day_line, text_line};

use crate::names::{nurse_name, shift_name, skill_name};
use roster_instance::{Case, CaseFault};
use roster_rules::HardFault;
use roster_text::{MAX_INPUT, Piece, TextFault, Watch, WriteFault, weekday_text, write_pieces};
use std::io::Write;

/// Writes the line for want of memory.
pub fn write_no_memory<Log: Write>(log: &mut Watch<Log>) -> Result<(), WriteFault>
    ensures ok { OnOk result (Writes Log.contents log.old log.new memory_line) }
    ensures err { IfErr result (StopsIn Log.contents log.old log.new memory_line) }
{
    write_pieces(log, &[Piece::Bytes(b"no memory\n")])
}

/// Writes the line for a fault of the text.
pub fn write_text_line<Log: Write>(fault: TextFault, log: &mut Watch<Log>) -> Result<(), WriteFault>
    ensures ok { OnOk result (Writes Log.contents log.old log.new (text_line fault)) }
    ensures err { IfErr result (StopsIn Log.contents log.old log.new (text_line fault)) }
{
    match fault {
        TextFault::Memory => write_no_memory(log),
        TextFault::ReadFailed => write_pieces(log, &[Piece::Bytes(b"read failed\n")]),
        TextFault::TooLong => write_pieces(
            log,
            &[
                Piece::Bytes(b"input longer than "),
                Piece::Number(MAX_INPUT as u64),
                Piece::Bytes(b" bytes\n"),
            ],
        ),
        TextFault::Expected { line, what } => write_pieces(
            log,
            &[
                Piece::Bytes(b"line "),
                Piece::Number(line as u64),
                Piece::Bytes(b": expected "),
                Piece::Bytes(what.text().as_bytes()),
                Piece::Bytes(b"\n"),
            ],
        ),
        TextFault::NumberRange { line } => write_at(line, b": number out of range\n", log),
        TextFault::AfterEnd { line } => write_at(line, b": text after the end\n", log),
    }
}

/// Writes the line for a fault of the case or the solutions, with the name of the nurse that it is about.
pub fn write_case_line<Log: Write>(
    fault: CaseFault,
    nurse: &[u8],
    log: &mut Watch<Log>,
) -> Result<(), WriteFault>
    ensures ok { OnOk result (Writes Log.contents log.old log.new (case_line fault nurse.now)) }
    ensures err { IfErr result (StopsIn Log.contents log.old log.new (case_line fault nurse.now)) }
{
    match fault {
        CaseFault::Memory => write_no_memory(log),
        CaseFault::Repeated { line } => write_at(line, b": repeated name\n", log),
        CaseFault::Unknown { line } => write_at(line, b": unknown name\n", log),
        CaseFault::Reserved { line } => write_at(line, b": reserved name\n", log),
        CaseFault::OtherInstance { line } => write_at(line, b": other instance\n", log),
        CaseFault::HistoryWeek { line } => write_at(line, b": history week is not 0\n", log),
        CaseFault::HistoryNurses { line } => write_at(line, b": repeated nurse in history\n", log),
        CaseFault::RepeatedRequirement { line } => write_at(line, b": repeated requirement\n", log),
        CaseFault::Limit { line } => write_at(line, b": count out of limits\n", log),
        CaseFault::TooManyStates { .. } => write_pieces(
            log,
            &[
                Piece::Bytes(b"too many states for "),
                Piece::Bytes(nurse),
                Piece::Bytes(b"\n"),
            ],
        ),
        CaseFault::H1 { day, .. } => {
            write_nurse_day(b"", b"H1", Day(day / 7, &weekday_text(day % 7)), nurse, log)
        }
    }
}

/// Writes the line for a breach of the hard rules after these words, with the names that the case has for its
/// numbers.
pub fn write_hard_line<Log: Write>(
    before: &[u8],
    fault: HardFault,
    case: &Case,
    log: &mut Watch<Log>,
) -> Result<(), WriteFault>
    ensures ok { OnOk result (Writes Log.contents log.old log.new
        (before.now ++ hard_line case.now fault)) }
    ensures err { IfErr result (StopsIn Log.contents log.old log.new
        (before.now ++ hard_line case.now fault)) }
{
    match fault {
        HardFault::H2 {
            day,
            shift,
            skill,
            have,
            need,
        } => write_missing(
            before,
            Day(day / 7, &weekday_text(day % 7)),
            shift_name(case, shift),
            skill_name(case, skill),
            have,
            need,
            log,
        ),
        HardFault::H3 { nurse, day } => write_nurse_day(
            before,
            b"H3",
            Day(day / 7, &weekday_text(day % 7)),
            nurse_name(case, nurse),
            log,
        ),
        HardFault::H4 { nurse, day } => write_nurse_day(
            before,
            b"H4",
            Day(day / 7, &weekday_text(day % 7)),
            nurse_name(case, nurse),
            log,
        ),
        HardFault::Absent { nurse, day } => write_nurse_day(
            before,
            b"absent",
            Day(day / 7, &weekday_text(day % 7)),
            nurse_name(case, nurse),
            log,
        ),
    }
}

/// A day as the lines print it: its week and its weekday.
#[derive(Clone, Copy)]
struct Day<'a>(u16, &'a [u8]);

/// Writes that a slot is short of its minimum, after these words.
fn write_missing<'a, Log: Write>(
    before: &'a [u8],
    day: Day<'a>,
    shift: &'a [u8],
    skill: &'a [u8],
    have: u16,
    need: u16,
    log: &mut Watch<Log>,
) -> Result<(), WriteFault>
    ensures ok { OnOk result (Writes Log.contents log.old log.new (before.now
        ++ missing_line day.entry.0 day.entry.1.now shift.now skill.now have need)) }
    ensures err { IfErr result (StopsIn Log.contents log.old log.new (before.now
        ++ missing_line day.entry.0 day.entry.1.now shift.now skill.now have need)) }
{
    write_pieces(
        log,
        &[
            Piece::Bytes(before),
            Piece::Bytes(b"H2 week "),
            Piece::Number(day.0 as u64),
            Piece::Bytes(b" "),
            Piece::Bytes(day.1),
            Piece::Bytes(b" "),
            Piece::Bytes(shift),
            Piece::Bytes(b" "),
            Piece::Bytes(skill),
            Piece::Bytes(b": "),
            Piece::Number(have as u64),
            Piece::Bytes(b" of "),
            Piece::Number(need as u64),
            Piece::Bytes(b"\n"),
        ],
    )
}

/// Writes which rule a nurse breaks on a day, after these words.
fn write_nurse_day<'a, Log: Write>(
    before: &'a [u8],
    rule: &'a [u8],
    day: Day<'a>,
    nurse: &'a [u8],
    log: &mut Watch<Log>,
) -> Result<(), WriteFault>
    ensures ok { OnOk result (Writes Log.contents log.old log.new (before.now
        ++ nurse_day_line rule.now day.entry.0 day.entry.1.now nurse.now)) }
    ensures err { IfErr result (StopsIn Log.contents log.old log.new (before.now
        ++ nurse_day_line rule.now day.entry.0 day.entry.1.now nurse.now)) }
{
    write_pieces(
        log,
        &[
            Piece::Bytes(before),
            Piece::Bytes(rule),
            Piece::Bytes(b" week "),
            Piece::Number(day.0 as u64),
            Piece::Bytes(b" "),
            Piece::Bytes(day.1),
            Piece::Bytes(b" "),
            Piece::Bytes(nurse),
            Piece::Bytes(b"\n"),
        ],
    )
}

/// Writes what is wrong on a line of the input.
fn write_at<Log: Write>(line: usize, what: &[u8], log: &mut Watch<Log>) -> Result<(), WriteFault>
    ensures ok { OnOk result (Writes Log.contents log.old log.new
        (codes "line " ++ decimal line ++ what.now)) }
    ensures err { IfErr result (StopsIn Log.contents log.old log.new
        (codes "line " ++ decimal line ++ what.now)) }
{
    write_pieces(
        log,
        &[
            Piece::Bytes(b"line "),
            Piece::Number(line as u64),
            Piece::Bytes(what),
        ],
    )
}
