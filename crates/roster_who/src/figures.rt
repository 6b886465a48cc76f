//! The figures of a nurse with a row.

ghost use Rattle.std.specs.Prelude.{◌≡◌, ◌+◌, ◌<◌, ◌≤◌, ℕ, not, true};
ghost use Rattle.roster_instance.specs.Choices.{same_choice};
ghost use Rattle.roster_instance.specs.Counting.{count_below};
ghost use Rattle.roster_instance.specs.Meaning.{day_count, minimum, nurse_count};
ghost use Rattle.roster_instance.specs.Rosters.{choice_on, fits_case, is_row_of};
ghost use Rattle.roster_laws.specs.Staffing.{shortfall};
ghost use Rattle.roster_rules.specs.Covers.{IsTable};
ghost use Rattle.roster_rules.specs.Penalties.{penalty};
ghost use Rattle.roster_who.specs.Who.{missed, taker_by};

use crate::asked::Asking;
use crate::taker::Taker;
use roster_costs::{costs, covers, slot};
use roster_instance::{Case, Choice, Roster, Shift, Skill, choice_on};

/// The figures of a nurse with a row of the case. The row is put into a copy of the roster, and taken out
/// again.
pub(crate) fn taker_by(
    asking: &Asking<'_>,
    nurse: usize,
    row: &[Choice],
    trial: &mut Roster,
) -> Taker
    requires nurse { nurse < nurse_count asking.now.case.now }
    requires row { is_row_of asking.now.case.now row.now ≡ true }
    requires trial { trial.old ≡ asking.now.roster.now }
    ensures taker { result ≡ taker_by asking.now.case.now asking.now.roster.now nurse row.now }
    ensures trial { trial.new ≡ trial.old }
{
    let case = asking.case;
    trial.put_row(nurse, row);
    let taker = Taker {
        nurse,
        missed: missed(case, trial),
        penalty: penalty(case, trial),
        changed: changed_days(case, row, asking.roster.row(nurse)),
    };
    trial.put_row(nurse, asking.roster.row(nurse));
    taker
}

/// What a roster costs.
fn penalty(case: &Case, roster: &Roster) -> u64
    requires fits { fits_case case.now roster.now ≡ true }
    ensures { result ≡ penalty case.now roster.now }
{
    costs(case, roster).total()
}

/// The number of nurses by which a roster falls short of its minimums.
#[tactic(auto, using(roster_rules::proofs::CountLemmas::sum_more))]
pub(crate) fn missed(case: &Case, roster: &Roster) -> u64
    requires fits { fits_case case.now roster.now ≡ true }
    ensures { result ≡ missed case.now roster.now }
{
    case.keeps_limits();
    let mut missed = 0;
    for day in 0..case.days() {
        missed += missed_on(case, day, &covers(case, roster, day)) as u64;
    }
    missed
}

/// The shortfall of a day, by its table of cover.
#[tactic(auto, using(roster_rules::proofs::CountLemmas::sum_more))]
fn missed_on(case: &Case, day: u16, covers: &[u16; 64]) -> u32
    ensures missed { (have : ℕ → ℕ → ℕ) → IsTable have covers.now →
        result ≡ shortfall case.now (minimum case.now day) have }
    ensures within { result ≤ 4194304 }
{
    case.keeps_limits();
    let (shifts, skills) = (case.shifts(), case.skills());
    let mut missed = 0;
    for shift in 0..shifts {
        for skill in 0..skills {
            let need = case.need(day, Shift(shift), Skill(skill)).minimum;
            let have = covers[slot(Shift(shift), Skill(skill))];
            missed += need.saturating_sub(have) as u32;
        }
    }
    missed
}

/// The number of days on which a row has another choice than a given one.
#[tactic(auto, using(roster_rules::proofs::CountLemmas::sum_more))]
fn changed_days(case: &Case, row: &[Choice], given: &[Choice]) -> u16
    ensures { result ≡ count_below (day_count case.now)
        (λ d. not (same_choice (choice_on row.now d) (choice_on given.now d))) }
{
    let mut changed = 0;
    for day in 0..case.days() {
        if choice_on(row, day) != choice_on(given, day) {
            changed += 1;
        }
    }
    changed
}
