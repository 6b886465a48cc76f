//! The libraries, called one after the other. What each call requires has been promised by one before it, so
//! a caller has nothing to prove.

use crate::texts::MINI;
use roster_case::{Case, Roster, costs};
use roster_rounds::Outcome;
use roster_text::{TextFault, Watch, parse_bundle, tokens};
use roster_use::{Stop, write_better_weeks};
use std::alloc::Global;
use std::test::Fail;

/// What the roster of a text costs.
fn total_of(alloc: Global, source: &[u8]) -> Result<u64, Fail> {
    let tokens = tokens(alloc, source)?;
    let bundle = parse_bundle(alloc, source, &tokens)?;
    let case = Case::from_bundle(alloc, &bundle, source)?;
    let roster = Roster::from_bundle(alloc, &case, &bundle, source)?;
    Ok(costs(&case, &roster).total())
}

#[test]
fn totals_from_bytes(rt: HostRuntime) -> Result<(), Fail> {
    assert_eq!(rt; total_of(rt.alloc(), MINI.as_bytes())?, 470);
    Ok(())
}

#[test]
fn better_weeks_from_bytes(rt: HostRuntime) -> Result<(), Fail> {
    let alloc = rt.alloc();
    let mut input = Watch::new(MINI.as_bytes());
    let mut output = Watch::new(Vec::new(alloc));
    let mut log = Watch::new(Vec::new(alloc));
    let ended = write_better_weeks(alloc, 3, &mut input, &mut output, &mut log);
    let wanted = Outcome {
        settled: true,
        rounds: 2,
        changes: 1,
        total: 0,
    };
    assert!(rt; matches!(ended, Ok(outcome) if outcome == wanted));
    let weeks = "SOLUTION\n0 mini\n\nASSIGNMENTS = 7\n\
        Ann Mon Early Nurse\nAnn Wed Early Nurse\nAnn Thu Early Nurse\nAnn Fri Early Nurse\n\
        Bob Tue Early Nurse\nBob Sat Early Nurse\nBob Sun Early Nurse\n";
    assert!(rt; output.into_inner().as_slice() == weeks.as_bytes());
    let lines = "start 20\n1 Ann 0\nround 1 0\nround 2 0\nsettled 0\n";
    assert!(rt; log.into_inner().as_slice() == lines.as_bytes());
    let mut nothing = Watch::new(b"".as_slice());
    let mut output = Watch::new(Vec::new(alloc));
    let mut log = Watch::new(Vec::new(alloc));
    let ended = write_better_weeks(alloc, 3, &mut nothing, &mut output, &mut log);
    assert!(rt; matches!(ended, Err(Stop::Text(TextFault::Expected { line: 1, .. }))));
    Ok(())
}
