//! All breaches of the hard rules as JSON.

ghost use Rattle.std.specs.Prelude.{◌≡◌, ◌%◌, ◌<◌, OnErr, OnOk, true};
ghost use Rattle.roster_bundle.specs.Canonical.{weekday_text};
ghost use Rattle.roster_text.specs.Io.{Stops, Writes};
ghost use Rattle.roster_instance.specs.Meaning.{day_count, nurse_count, shift_count, skill_count};
ghost use Rattle.roster_instance.specs.Rosters.{fits_case};
ghost use Rattle.roster_rules.specs.HardRules.{hard_faults, staffing_faults};
ghost use Rattle.roster_json.specs.Breaches.{breach_line, breach_of, breaches_text, breaks, fault_on, faults_by, faults_of, rule_word, slot_fault, staffing_faults_on};

use crate::object::{Field, write_object};
use crate::pieces::NotWritten;
use roster_costs::{covers, slot};
use roster_instance::{Case, Roster, Shift, Skill};
use roster_rules::{is_able, is_here, last_shift};
use roster_text::Watch;
use std::io::Write;

/// A hard rule that a nurse's row can break.
#[derive(Clone, Copy)]
pub enum NurseRule {
    /// H3: a forbidden succession of shifts.
    Succession,
    /// H4: a skill that the nurse doesn't have.
    Skill,
    /// Work in an absence.
    Absence,
}

/// Writes a line for each breach, in the order in which `cost` looks for the first.
pub(crate) fn write_breaches<W: Write>(
    out: &mut Watch<W>,
    case: &Case,
    roster: &Roster,
) -> Result<(), NotWritten>
    requires { fits_case case.now roster.now ≡ true }
    ensures ok { OnOk result (Writes W.contents out.old out.new
        (breaches_text case.now (hard_faults case.now roster.now))) }
    ensures err { OnErr result (Stops W.contents out.old out.new
        (breaches_text case.now (hard_faults case.now roster.now))) }
{
    write_short_slots(out, case, roster)?;
    write_breaches_by(out, case, roster, NurseRule::Succession)?;
    write_breaches_by(out, case, roster, NurseRule::Skill)?;
    write_breaches_by(out, case, roster, NurseRule::Absence)
}

// ---- staffing

/// Writes the slots that are short of their minimums, by day, shift and skill.
fn write_short_slots<W: Write>(
    out: &mut Watch<W>,
    case: &Case,
    roster: &Roster,
) -> Result<(), NotWritten>
    requires { fits_case case.now roster.now ≡ true }
    ensures ok { OnOk result (Writes W.contents out.old out.new
        (breaches_text case.now (staffing_faults case.now roster.now))) }
    ensures err { OnErr result (Stops W.contents out.old out.new
        (breaches_text case.now (staffing_faults case.now roster.now))) }
{
    for day in 0..case.days() {
        write_short_on(out, case, roster, day)?;
    }
    Ok(())
}

/// The same on a day. The day's nurses are counted once.
fn write_short_on<W: Write>(
    out: &mut Watch<W>,
    case: &Case,
    roster: &Roster,
    day: u16,
) -> Result<(), NotWritten>
    requires { fits_case case.now roster.now ≡ true }
    ensures ok { OnOk result (Writes W.contents out.old out.new
        (breaches_text case.now (staffing_faults_on case.now roster.now day))) }
    ensures err { OnErr result (Stops W.contents out.old out.new
        (breaches_text case.now (staffing_faults_on case.now roster.now day))) }
{
    case.keeps_limits();
    let covers = covers(case, roster, day);
    for shift in 0..case.shifts() {
        for skill in 0..case.skills() {
            let have = covers[slot(Shift(shift), Skill(skill))];
            write_if_short(out, case, day, Shift(shift), Skill(skill), have)?;
        }
    }
    Ok(())
}

/// Writes a slot, if that many nurses are fewer than its minimum.
fn write_if_short<W: Write>(
    out: &mut Watch<W>,
    case: &Case,
    day: u16,
    shift: Shift,
    skill: Skill,
    have: u16,
) -> Result<(), NotWritten>
    requires shift { shift.0 < shift_count case.now }
    requires skill { skill.0 < skill_count case.now }
    ensures ok { OnOk result (Writes W.contents out.old out.new
        (breaches_text case.now (slot_fault case.now day shift skill have))) }
    ensures err { OnErr result (Stops W.contents out.old out.new
        (breaches_text case.now (slot_fault case.now day shift skill have))) }
{
    let need = case.need(day, shift, skill).minimum;
    if have >= need {
        return Ok(());
    }
    write_object(
        out,
        "breach",
        &[
            Field::Name("rule", b"H2"),
            Field::Number("day", day as u64),
            Field::Number("week", (day / 7) as u64),
            Field::Name("weekday", weekday(day).as_bytes()),
            Field::Number("shift", shift.0 as u64),
            Field::Name("shift_name", case.shift_name(shift)),
            Field::Number("skill", skill.0 as u64),
            Field::Name("skill_name", case.skill_name(skill)),
            Field::Number("have", have as u64),
            Field::Number("need", need as u64),
        ],
    )
}

// ---- nurses

/// Writes the days on which a row breaks a rule, by nurse and day.
fn write_breaches_by<W: Write>(
    out: &mut Watch<W>,
    case: &Case,
    roster: &Roster,
    rule: NurseRule,
) -> Result<(), NotWritten>
    requires { fits_case case.now roster.now ≡ true }
    ensures ok { OnOk result (Writes W.contents out.old out.new
        (breaches_text case.now (faults_by case.now roster.now rule))) }
    ensures err { OnErr result (Stops W.contents out.old out.new
        (breaches_text case.now (faults_by case.now roster.now rule))) }
{
    for nurse in 0..case.nurses() {
        write_breaches_of(out, case, roster, rule, nurse)?;
    }
    Ok(())
}

/// The same for a nurse.
fn write_breaches_of<W: Write>(
    out: &mut Watch<W>,
    case: &Case,
    roster: &Roster,
    rule: NurseRule,
    nurse: usize,
) -> Result<(), NotWritten>
    requires fitting { fits_case case.now roster.now ≡ true }
    requires within { nurse < nurse_count case.now }
    ensures ok { OnOk result (Writes W.contents out.old out.new
        (breaches_text case.now (faults_of case.now roster.now rule nurse))) }
    ensures err { OnErr result (Stops W.contents out.old out.new
        (breaches_text case.now (faults_of case.now roster.now rule nurse))) }
{
    for day in 0..case.days() {
        write_if_broken(out, case, roster, rule, nurse, day)?;
    }
    Ok(())
}

/// Writes a nurse's breach, if the row breaks the rule on the day.
fn write_if_broken<W: Write>(
    out: &mut Watch<W>,
    case: &Case,
    roster: &Roster,
    rule: NurseRule,
    nurse: usize,
    day: u16,
) -> Result<(), NotWritten>
    requires fitting { fits_case case.now roster.now ≡ true }
    requires within { nurse < nurse_count case.now }
    requires day { day < day_count case.now }
    ensures ok { OnOk result (Writes W.contents out.old out.new
        (breaches_text case.now (fault_on case.now roster.now rule nurse day))) }
    ensures err { OnErr result (Stops W.contents out.old out.new
        (breaches_text case.now (fault_on case.now roster.now rule nurse day))) }
{
    if !breaks(case, roster, rule, nurse, day) {
        return Ok(());
    }
    write_nurse_breach(out, case, rule, nurse, day)
}

/// Writes the line of a nurse's breach.
fn write_nurse_breach<W: Write>(
    out: &mut Watch<W>,
    case: &Case,
    rule: NurseRule,
    nurse: usize,
    day: u16,
) -> Result<(), NotWritten>
    requires { nurse < nurse_count case.now }
    ensures ok { OnOk result (Writes W.contents out.old out.new
        (breach_line case.now (breach_of rule nurse day))) }
    ensures err { OnErr result (Stops W.contents out.old out.new
        (breach_line case.now (breach_of rule nurse day))) }
{
    write_object(
        out,
        "breach",
        &[
            Field::Name("rule", word(rule).as_bytes()),
            Field::Number("day", day as u64),
            Field::Number("week", (day / 7) as u64),
            Field::Name("weekday", weekday(day).as_bytes()),
            Field::Number("nurse", nurse as u64),
            Field::Name("nurse_name", case.nurse_name(nurse)),
        ],
    )
}

/// The word for a rule in a line.
fn word(rule: NurseRule) -> &'static str
    ensures { result.now ≡ rule_word rule }
{
    match rule {
        NurseRule::Succession => "H3",
        NurseRule::Skill => "H4",
        NurseRule::Absence => "absent",
    }
}

/// A day's weekday in three letters.
fn weekday(day: u16) -> &'static str
    ensures { result.now ≡ weekday_text (day % 7) }
{
    match day % 7 {
        0 => "Mon",
        1 => "Tue",
        2 => "Wed",
        3 => "Thu",
        4 => "Fri",
        5 => "Sat",
        _ => "Sun",
    }
}

/// Whether a nurse's row breaks a rule on a day. The shift before day 0 is the history's last.
fn breaks(case: &Case, roster: &Roster, rule: NurseRule, nurse: usize, day: u16) -> bool
    requires fitting { fits_case case.now roster.now ≡ true }
    requires within { nurse < nurse_count case.now }
    requires day { day < day_count case.now }
    ensures { result ≡ breaks case.now roster.now rule nurse day }
{
    let row = roster.row(nurse);
    let choice = row[day as usize];
    match rule {
        NurseRule::Succession => {
            let last = if day == 0 {
                last_shift(case.past(nurse).border)
            } else {
                row[day as usize - 1].shift()
            };
            case.forbids_next(last, choice.shift())
        }
        NurseRule::Skill => !is_able(case.skills_of(nurse), choice),
        NurseRule::Absence => !is_here(case, nurse, day, choice),
    }
}
