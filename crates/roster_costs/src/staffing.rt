//! The staffing of a roster compared with the optimum.

ghost use Rattle.std.specs.Prelude.{◌≡◌, ℕ, ◌+◌, ◌*◌, ◌<◌, ◌≤◌, true};
ghost use Rattle.roster_rules.specs.Covers.{AreCovers, IsTable};
ghost use Rattle.roster_instance.specs.Limits.{most_days, most_shifts, most_skills};
ghost use Rattle.roster_instance.specs.Meaning.{shift_count, skill_count};
ghost use Rattle.roster_costs.specs.Sums.{most_staffing_of_day};
ghost use Rattle.roster_rules.specs.Penalties.{staffing_cost, staffing_cost_by};
ghost use Rattle.roster_instance.specs.Rosters.{fits_case};

use roster_instance::{Case, Choice, Roster, Shift, Skill, choice_on};
use roster_rules::weights::STAFFING;

/// S1. The points for each nurse by whom a slot is short of its optimum.
#[tactic(auto, using(roster_rules::proofs::CountLemmas::sum_more))]
pub fn staffing_cost(case: &Case, roster: &Roster) -> u64
    requires { fits_case case.now roster.now ≡ true }
    ensures cost { result ≡ staffing_cost case.now roster.now }
    ensures within { result ≤ most_days * most_staffing_of_day }
{
    case.keeps_limits();
    let mut cost = 0;
    for day in 0..case.days() {
        cost += staffing_cost_of_day(case, day, &covers(case, roster, day));
    }
    cost
}

/// The same for a day, by its table of cover.
#[tactic(auto, using(roster_rules::proofs::CountLemmas::sum_more))]
pub fn staffing_cost_of_day(case: &Case, day: u16, covers: &[u16; 64]) -> u64
    ensures cost { (have : ℕ → ℕ → ℕ) → IsTable have covers.now →
        result ≡ staffing_cost_by case.now day have }
    ensures within { result ≤ most_staffing_of_day }
{
    let (shifts, skills) = (case.shifts(), case.skills());
    let mut cost = 0;
    for shift in 0..shifts {
        for skill in 0..skills {
            let optimum = case.need(day, Shift(shift), Skill(skill)).optimum;
            let have = covers[slot(Shift(shift), Skill(skill))];
            cost += STAFFING as u64 * optimum.saturating_sub(have) as u64;
        }
    }
    cost
}

/// The cover of each slot of a day.
pub fn covers(case: &Case, roster: &Roster, day: u16) -> [u16; 64]
    requires fitting { fits_case case.now roster.now ≡ true }
    requires shifts { shift_count case.now ≤ most_shifts }
    requires skills { skill_count case.now ≤ most_skills }
    ensures { AreCovers roster.now day result }
{
    let mut counts = [0; 64];
    for nurse in 0..case.nurses() {
        if let Choice::Work(shift, skill) = choice_on(roster.row(nurse), day) {
            counts[slot(shift, skill)] += 1;
        }
    }
    counts
}

/// The index of a shift and skill in a day's table.
pub fn slot(shift: Shift, skill: Skill) -> usize
    requires { shift.0 < 8 × skill.0 < 8 }
    ensures slot { result ≡ 8 * shift.0 + skill.0 }
    ensures within { result < 64 }
{
    8 * shift.0 as usize + skill.0 as usize
}
