//! The states of nurses along the rows of worked instances.

ghost use Rattle.std.specs.Prelude.{◌≡◌, true};
ghost use Rattle.roster_instance.specs.Rosters.{fits_case};

use crate::instances::read;
use crate::row::row_cost;
use crate::texts::{MINI, changed};
use roster_case::{Case, Roster, costs};
use roster_state::{Meter, Ranges, State};
use std::alloc::Global;
use std::test::Fail;

/// What the rows cost their nurses, from day to day, and how many extensions that took. None if a shift
/// forbids the next.
fn rows_cost(case: &mut Case, roster: &Roster) -> Option<(u64, u64)>
    requires { fits_case case.old roster.now ≡ true }
    ensures { case.new ≡ case.old }
{
    case.keeps_limits();
    let mut sum = 0_u64;
    let mut steps = 0_u64;
    for nurse in 0..case.nurses() {
        let mut meter = Meter::new(case);
        let cost = row_cost(case, nurse, roster.row(nurse), &mut meter)?;
        sum = sum.saturating_add(cost);
        steps = steps.saturating_add(meter.count());
    }
    Some((sum, steps))
}

/// What the rows of mini with other lines cost their nurses by the rules. None if the cost from day to day
/// differs, or if the number of extensions isn't that of nurses times days.
fn own_cost(alloc: Global, changes: &[(&str, &str)]) -> Result<Option<u64>, Fail> {
    let text = changed(alloc, changes)?;
    let (mut case, roster) = read(alloc, text.as_bytes())?;
    let by_day = rows_cost(&mut case, &roster);
    let by_rule = costs(&case, &roster);
    let own = by_rule.s2 + by_rule.s3 + by_rule.s5 + by_rule.s6 + by_rule.s7;
    Ok(if by_day == Some((own, 14)) {
        Some(own)
    } else {
        None
    })
}

const ANN: &str = "Ann 0 0 None 0 0 1";

const FULL: &str = "Full (2,5) (1,5)";

const NO_LINES: &str = "ASSIGNMENTS = 0";

const MONDAY: &str = "ASSIGNMENTS = 1\nAnn Mon Early Nurse";

const TWO_RUNS: &str = "ASSIGNMENTS = 6\nAnn Mon Early Nurse\nAnn Tue Early Nurse\n\
    Ann Thu Early Nurse\nAnn Fri Early Nurse\nAnn Sat Early Nurse\nAnn Sun Early Nurse";

#[test]
fn rows_from_day_to_day(rt: HostRuntime) -> Result<(), Fail> {
    let rows: [(&[(&str, &str)], u64); 6] = [
        (&[("0 0 None 0 0 1", "9 3 None 0 0 1")], 460),
        (&[(FULL, "Full (2,5) (4,3)"), (NO_LINES, TWO_RUNS)], 240),
        (
            &[
                ("Early (1,5)", "Early (2,5)"),
                (FULL, "Full (2,5) (3,5)"),
                (ANN, "Ann 0 0 Early 1 1 0"),
            ],
            305,
        ),
        (&[(ANN, "Ann 0 0 Early 7 7 0"), (NO_LINES, MONDAY)], 225),
        (&[(ANN, "Ann 0 0 Early 0 0 0")], 230),
        // Without a last shift the counts of work are not used.
        (&[(ANN, "Ann 0 0 None 4 4 1")], 260),
    ];
    for (changes, cost) in rows {
        assert!(rt; own_cost(rt.alloc(), changes)? == Some(cost), "{cost}");
    }
    Ok(())
}

#[test]
fn numbers_of_states(rt: HostRuntime) -> Result<(), Fail> {
    let (case, _) = read(rt.alloc(), MINI.as_bytes())?;
    let nurse = 0;
    assert!(rt; nurse < case.nurses());
    let ranges = Ranges::of(&case, nurse);
    assert!(rt; ranges.product() == 1296);
    assert!(rt; State::from_code(&ranges, 1296).is_none());
    for code in 0..1296 {
        let state = State::from_code(&ranges, code);
        assert!(rt;
            state.is_some_and(|it| it.fits(&ranges) && it.code(&ranges) == code),
            "{code}"
        );
    }
    Ok(())
}
