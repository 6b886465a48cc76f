//! A held roster, and what its nurses may do.

ghost use Rattle.std.specs.Prelude.{◌≡◌, ◌<◌};
ghost use Rattle.roster_instance.specs.Meaning.{nurse_count};

use crate::instances::{big, read};
use crate::texts::changed;
use roster_best::{Offer, choices};
use roster_case::{Choice, Held, Shift, Skill, costs};
use roster_costs::nurse_cost;
use roster_instance::choice_on;
use std::alloc::Global;
use std::test::Fail;

/// The case and the roster of a text, held.
fn held(alloc: Global, source: &[u8]) -> Result<Held, Fail> {
    let (case, roster) = read(alloc, source)?;
    match Held::new(alloc, case, roster) {
        Ok(held) => Ok(held),
        Err(_) => Err(Fail::new("not held")),
    }
}

// ---- what a nurse may do

/// Whether these are the offers of a nurse on a day, if the days before week `from` are frozen.
fn offers_are(held: &Held, nurse: usize, day: u16, from: u16, expected: &[Offer]) -> bool {
    nurse < held.case().nurses()
        && day < held.case().days()
        && choices(held, nurse, day, from).as_slice() == expected
}

fn off(price: u32) -> Offer {
    Offer {
        choice: Choice::Off,
        price,
    }
}

fn work(shift: u8, skill: u8, price: u32) -> Offer {
    Offer {
        choice: Choice::Work(Shift(shift), Skill(skill)),
        price,
    }
}

const EARLY: &str = "Early Nurse (0,1) (0,1) (0,1) (0,1) (0,1) (0,1) (0,1)";

#[test]
fn offers_at_a_minimum(rt: HostRuntime) -> Result<(), Fail> {
    let alloc = rt.alloc();
    let night = "Early Nurse (0,1) (0,1) (0,1) (0,1) (0,1) (0,1) (0,1)\n\
        Night Nurse (0,0) (0,0) (0,0) (1,1) (0,0) (0,0) (0,0)";
    let changes = [
        (EARLY, night),
        ("ASSIGNMENTS = 0", "ASSIGNMENTS = 1\nBob Thu Night Nurse"),
    ];
    let text = changed(alloc, &changes)?;
    let held = held(alloc, text.as_bytes())?;
    assert!(rt; offers_are(&held, 1, 3, 0, &[work(1, 0, 30)]));
    assert!(rt; offers_are(&held, 1, 0, 0, &[off(30), work(0, 0, 0), work(1, 0, 30)]));
    // In a frozen week the present choice is the only one, with its price.
    assert!(rt; offers_are(&held, 1, 3, 1, &[work(1, 0, 30)]));
    assert!(rt; offers_are(&held, 1, 0, 1, &[off(30)]));
    assert!(rt; offers_are(&held, 1, 0, u16::MAX, &[off(30)]));
    Ok(())
}

#[test]
fn offers_by_shift_and_then_by_skill(rt: HostRuntime) -> Result<(), Fail> {
    let alloc = rt.alloc();
    let head = "Early Nurse (0,1) (0,1) (0,1) (0,1) (0,1) (0,1) (0,1)\n\
        Early Head (0,1) (0,1) (0,1) (0,1) (0,1) (0,1) (0,1)";
    let changes = [
        ("SKILLS = 1\nNurse", "SKILLS = 2\nNurse\nHead"),
        ("Ann Full 1 Nurse", "Ann Full 2 Head Nurse"),
        (EARLY, head),
    ];
    let text = changed(alloc, &changes)?;
    let held = held(alloc, text.as_bytes())?;
    let expected = [
        off(60),
        work(0, 0, 30),
        work(0, 1, 30),
        work(1, 0, 60),
        work(1, 1, 60),
    ];
    assert!(rt; offers_are(&held, 0, 0, 0, &expected));
    Ok(())
}

#[test]
fn offers_with_wishes(rt: HostRuntime) -> Result<(), Fail> {
    let alloc = rt.alloc();
    let requests = "SHIFT_OFF_REQUESTS = 1\nAnn Early Thu\n\
        SHIFT_ON_REQUESTS = 4\nAnn Early Tue\nAnn Any Wed\nAnn Night Thu\nBob Any Fri";
    let text = changed(alloc, &[("SHIFT_OFF_REQUESTS = 0", requests)])?;
    let held = held(alloc, text.as_bytes())?;
    assert!(rt; offers_are(&held, 0, 0, 0, &[off(30), work(0, 0, 0), work(1, 0, 30)]));
    assert!(rt; offers_are(&held, 0, 1, 0, &[off(40), work(0, 0, 0), work(1, 0, 40)]));
    assert!(rt; offers_are(&held, 0, 2, 0, &[off(40), work(0, 0, 0), work(1, 0, 30)]));
    assert!(rt; offers_are(&held, 0, 3, 0, &[off(40), work(0, 0, 20), work(1, 0, 30)]));
    assert!(rt; offers_are(&held, 0, 4, 0, &[off(30), work(0, 0, 0), work(1, 0, 30)]));
    Ok(())
}

// ---- rows replaced

/// A row of the instance big that is the same in each week: for each weekday a digit, the number of a shift
/// that is worked with this skill, or `-` for a day off.
fn row_of(week: &[u8; 7], skill: u8) -> [Choice; 56] {
    let mut row = [Choice::Off; 56];
    for day in 0..56_usize {
        let letter = week[day % 7];
        if letter >= b'0' {
            row[day] = Choice::Work(Shift(letter - b'0'), Skill(skill));
        }
    }
    row
}

/// Replaces a nurse's row if the roster keeps the hard rules with the new one, and says whether it does.
pub(crate) fn put(held: &mut Held, nurse: usize, row: &[Choice]) -> bool
    requires { nurse < nurse_count held.old.case }
    ensures { held.new.case ≡ held.old.case }
{
    let keeps = held.row_keeps(nurse, row);
    if keeps {
        held.replace_row(nurse, row);
    }
    keeps
}

/// Whether the cover that is held for the others of a nurse agrees with a plain count.
fn others_agree(held: &Held, nurse: usize) -> bool
    requires { nurse < nurse_count held.now.case }
{
    let (case, roster) = (held.case(), held.roster());
    for day in 0..case.days() {
        for shift in 0..case.shifts() {
            for skill in 0..case.skills() {
                let (shift, skill) = (Shift(shift), Skill(skill));
                let own = choice_on(roster.row(nurse), day) == Choice::Work(shift, skill);
                let others = held.others(nurse, day, shift, skill) as usize;
                if others + own as usize != roster.cover(day, shift, skill) {
                    return false;
                }
            }
        }
    }
    true
}

/// Whether the held penalty, what remains of it without a nurse, and the held cover agree with the rules.
fn costs_agree(held: &Held, nurse: usize) -> bool
    requires { nurse < nurse_count held.now.case }
{
    let (case, roster) = (held.case(), held.roster());
    let costs = costs(case, roster);
    let own = nurse_cost(case, nurse, held.row(nurse)) as u64;
    let sum = held
        .rest(nurse)
        .saturating_add(own)
        .saturating_add(costs.s1);
    held.total() == costs.total() && sum == costs.total()
}

#[test]
fn counts_after_each_replacement(rt: HostRuntime) -> Result<(), Fail> {
    let alloc = rt.alloc();
    let text = big(alloc)?;
    let mut held = held(alloc, text.as_bytes())?;
    assert_eq!(rt; held.total(), 94380);
    // A nurse, a week with its skill, and whether the hard rules are kept: S3 forbids S0 and S1 on the next
    // day, and nurse n has the skill n mod 4.
    let replacements = [
        (0, b"00000--", 0, true),
        (5, b"33330--", 1, false),
        (5, b"-01233-", 1, true),
        (9, b"0000003", 1, false),
        (9, b"0-0-3-1", 1, true),
        (6, b"22222--", 3, false),
        (6, b"22222--", 2, true),
        (5, b"2233---", 1, true),
        (29, b"00000--", 4, false),
        (29, b"4444444", 1, false),
        (29, b"1111111", 1, true),
        (0, b"-------", 0, true),
        (0, b"2---333", 0, true),
    ];
    for (nurse, week, skill, keeps) in replacements {
        assert!(rt; nurse < held.case().nurses());
        assert!(rt;
            put(&mut held, nurse, &row_of(week, skill)) == keeps,
            "{nurse} {week:?}"
        );
        for other in [0, 5, 29] {
            assert!(rt; other < held.case().nurses());
            assert!(rt;
                others_agree(&held, other) && costs_agree(&held, other),
                "{nurse} {week:?}"
            );
        }
    }
    Ok(())
}
