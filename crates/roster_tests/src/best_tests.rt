//! The best rows of nurses, and how many extensions the search for them makes.

use crate::held_tests::put;
use crate::instances::read;
use crate::texts::changed;
use roster_best::{Workspace, best_row, most_search_extensions};
use roster_case::{Choice, Held, Shift, Skill};
use roster_state::Meter;
use std::alloc::Global;
use std::test::Fail;

/// The instance mini with other lines, held, with the workspace and the meter of a search in it.
pub(crate) fn ready(
    alloc: Global,
    changes: &[(&str, &str)],
) -> Result<(Held, Workspace, Meter), Fail> {
    let text = changed(alloc, changes)?;
    let (mut case, roster) = read(alloc, text.as_bytes())?;
    let meter = Meter::new(&mut case);
    let Ok(held) = Held::new(alloc, case, roster) else {
        return Err(Fail::new("not held"));
    };
    match Workspace::for_case(alloc, held.case()) {
        Ok(workspace) => Ok((held, workspace, meter)),
        Err(_) => Err(Fail::new("no workspace")),
    }
}

/// Searches a nurse's best row. It gives the roster's penalty with that row, and how many extensions were
/// counted; or None if there is no such nurse, the workspace doesn't fit, or the meter lacks capacity.
fn search(
    held: &Held,
    nurse: usize,
    workspace: &mut Workspace,
    meter: &mut Meter,
) -> Option<(u64, u64)> {
    let case = held.case();
    let can_search = nurse < case.nurses() && workspace.fits(case);
    if !can_search || meter.room() < most_search_extensions(case, nurse) {
        return None;
    }
    let before = meter.count();
    let best = best_row(held, nurse, 0, workspace, meter);
    Some((best.total, meter.count() - before))
}

/// A row of a week in which the nurse works with the first skill: for each day `E` for Early, `N` for Night,
/// `-` for off.
pub(crate) fn row_of(week: &[u8; 7]) -> [Choice; 7] {
    let mut row = [Choice::Off; 7];
    for day in 0..7_usize {
        match week[day] {
            b'E' => row[day] = Choice::Work(Shift(0), Skill(0)),
            b'N' => row[day] = Choice::Work(Shift(1), Skill(0)),
            _ => (),
        }
    }
    row
}

const REQUIREMENT: &str = "Early Nurse (0,1) (0,1) (0,1) (0,1) (0,1) (0,1) (0,1)";

const NO_LINES: &str = "ASSIGNMENTS = 0";

#[test]
fn best_rows(rt: HostRuntime) -> Result<(), Fail> {
    let night = "Early Nurse (0,1) (0,1) (0,1) (0,1) (0,1) (0,1) (0,1)\n\
        Night Nurse (0,0) (0,0) (0,0) (1,1) (0,0) (0,0) (0,0)";
    let as_dear = "ASSIGNMENTS = 6\nAnn Mon Early Nurse\nAnn Tue Early Nurse\n\
        Ann Wed Early Nurse\nAnn Thu Early Nurse\nAnn Sat Early Nurse\nAnn Sun Early Nurse";
    let head = "Early Nurse (0,1) (0,1) (0,1) (0,1) (0,1) (0,1) (0,1)\n\
        Early Head (0,1) (0,1) (0,1) (0,1) (0,1) (0,1) (0,1)";
    let rows: [(&[(&str, &str)], usize, u64, &[u8; 7]); 3] = [
        // Only Bob can work the night that is needed.
        (
            &[
                (REQUIREMENT, night),
                (NO_LINES, "ASSIGNMENTS = 1\nBob Thu Night Nurse"),
            ],
            1,
            210,
            b"EEEN-EE",
        ),
        // The present row costs the same, and comes later in the order.
        (&[(NO_LINES, as_dear)], 0, 180, b"E-EEEEE"),
        // With both skills each row costs the same, and the first skill of the scenario comes first.
        (
            &[
                ("SKILLS = 1\nNurse", "SKILLS = 2\nNurse\nHead"),
                ("Ann Full 1 Nurse", "Ann Full 2 Head Nurse"),
                (REQUIREMENT, head),
            ],
            0,
            390,
            b"E-EEEEE",
        ),
    ];
    for (changes, nurse, total, week) in rows {
        let (held, mut workspace, mut meter) = ready(rt.alloc(), changes)?;
        let found = search(&held, nurse, &mut workspace, &mut meter);
        assert!(rt; found.is_some_and(|it| it.0 == total), "{total} {week:?}");
        assert!(rt;
            workspace.row() == row_of(week).as_slice(),
            "{total} {week:?}"
        );
    }
    Ok(())
}

#[test]
fn nurses_one_after_another(rt: HostRuntime) -> Result<(), Fail> {
    let (mut held, mut workspace, mut meter) = ready(rt.alloc(), &[])?;
    assert!(rt; workspace.labels() == 2592 && workspace.pointers() == 9072);
    assert!(rt; workspace.row().is_empty());
    let found = search(&held, 0, &mut workspace, &mut meter);
    assert!(rt; found.is_some_and(|it| it.0 == 180 && 7 <= it.1 && it.1 <= 27216));
    assert!(rt; workspace.row() == row_of(b"E-EEEEE").as_slice());
    let ann = 0;
    assert!(rt; ann < held.case().nurses());
    assert!(rt; put(&mut held, ann, workspace.row()));
    let found = search(&held, 1, &mut workspace, &mut meter);
    assert!(rt; found.is_some_and(|it| it.0 == 20 && 7 <= it.1 && it.1 <= 27216));
    assert!(rt; workspace.row() == row_of(b"-E---EE").as_slice());
    assert!(rt; workspace.labels() == 2592 && workspace.pointers() == 9072);
    let (other, greater, _) = ready(rt.alloc(), &[("Full (2,5)", "Full (2,999)")])?;
    assert!(rt; greater.labels() == 432000 && greater.pointers() == 1512000);
    assert!(rt; greater.fits(other.case()) && !greater.fits(held.case()));
    Ok(())
}
