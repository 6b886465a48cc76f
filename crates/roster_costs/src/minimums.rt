//! The number of nurses by which a roster falls short of its minimums.

ghost use Rattle.std.specs.Prelude.{◌≡◌, ◌<◌, ◌≤◌};
ghost use Rattle.roster_instance.specs.Meaning.{day_count, minimum};
ghost use Rattle.roster_laws.specs.Staffing.{shortfall};
ghost use Rattle.roster_costs.specs.Minimums.{missing, present};

use roster_instance::{Case, Choice, Roster, Shift, Skill, choice_on};

/// The number of nurses by which a roster falls short of its minimums. Absent nurses aren't counted.
#[tactic(auto, using(roster_rules::proofs::CountLemmas::sum_more))]
pub fn missing(case: &Case, roster: &Roster) -> u64
    ensures { result ≡ missing case.now roster.now }
{
    let mut missing = 0;
    for day in 0..case.days() {
        missing += missing_on(case, roster, day) as u64;
    }
    missing
}

/// The shortfall of a day.
#[tactic(auto, using(roster_rules::proofs::CountLemmas::sum_more))]
fn missing_on(case: &Case, roster: &Roster, day: u16) -> u32
    requires { day < day_count case.now }
    ensures missing { result ≡ shortfall case.now (minimum case.now day)
        (present case.now roster.now day) }
    ensures within { result ≤ 4194304 }
{
    case.keeps_limits();
    let mut missing = 0;
    for shift in 0..case.shifts() {
        for skill in 0..case.skills() {
            let need = case.need(day, Shift(shift), Skill(skill)).minimum;
            let have = present(case, roster, day, Shift(shift), Skill(skill));
            missing += need.saturating_sub(have) as u32;
        }
    }
    missing
}

/// How many nurses work in a slot, not counting absent ones.
fn present(case: &Case, roster: &Roster, day: u16, shift: Shift, skill: Skill) -> u16
    ensures { result ≡ present case.now roster.now day shift.0 skill.0 }
{
    case.keeps_limits();
    let mut count = 0;
    for nurse in 0..case.nurses() {
        let works = choice_on(roster.row(nurse), day) == Choice::Work(shift, skill);
        if works && !case.is_absent(nurse, day) {
            count += 1;
        }
    }
    count
}
