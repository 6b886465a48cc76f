//! A step and runs of the improver.

ghost use Rattle.std.specs.Prelude.{◌≡◌, ◌+◌, ◌≤◌, true, IfErr, IfOk};
ghost use Rattle.roster_bundle.specs.Limits.{greatest_u64};
ghost use Rattle.roster_rules.specs.AllowedRows.{best_row};
ghost use Rattle.roster_laws.specs.FrozenDays.{FrozenDaysStay};
ghost use Rattle.roster_laws.specs.Greatest.{extensions_in};
ghost use Rattle.roster_offers.specs.Workspaces.{SameCapacity, fits_space};
ghost use Rattle.roster_row.specs.Recalled.{RecallsSearches};
ghost use Rattle.roster_rounds.specs.RunLogs.{LogStops, Ran};

use crate::best_tests::{ready, row_of};
use crate::texts::{RUN_LOG, fill};
use roster_best::{LastSearches, Workspace, most_search_extensions};
use roster_case::Held;
use roster_devices::{AtEnd, CallCounter, ShortWriter};
use roster_partial::RowSearcher;
use roster_rounds::{
    LogFault, Outcome, RunSpace, Step, improve, most_extensions, step, step_or_skip,
};
use roster_state::Meter;
use roster_text::Watch;
use std::alloc::Global;
use std::io::Write;
use std::test::Fail;

/// A run with a workspace. It has the contract of `improve`, stated for a workspace instead of for whatever
/// makes the steps.
fn improve_in<W: Write>(
    held: &mut Held,
    rounds: u16,
    from: u16,
    workspace: &mut Workspace,
    meter: &mut Meter,
    log: &mut Watch<W>,
) -> Result<Outcome, LogFault>
    requires fits { fits_space held.old.case workspace.old ≡ true }
    requires room { meter.old + extensions_in held.old.case rounds ≤ greatest_u64 }
    ensures case { held.new.case ≡ held.old.case }
    ensures ok { IfOk result (Ran W.contents held.old.case (best_row held.old.case from) rounds
        held.old.roster held.new.roster log.old log.new) }
    ensures err { IfErr result (LogStops W.contents held.old.case (best_row held.old.case from)
        rounds held.old.roster held.new.roster log.old log.new) }
    ensures frozen { FrozenDaysStay held.old.case from held.old.roster held.new.roster }
    ensures counted { meter.new ≤ meter.old + extensions_in held.old.case rounds }
    ensures same_capacity { SameCapacity workspace.old workspace.new }
    ensures fits { fits_space held.old.case workspace.new ≡ true }
{
    improve(held, rounds, from, workspace, meter, log)
}

#[test]
fn steps_and_a_run(rt: HostRuntime) -> Result<(), Fail> {
    let (mut held, mut workspace, mut meter) = ready(rt.alloc(), &[])?;
    let can_step = workspace.fits(held.case()) && held.case().nurses() == 2;
    if !can_step || meter.room() < most_search_extensions(held.case(), 0) {
        return Err(Fail::new("no room"));
    }
    let frozen = step(&mut held, 0, 1, &mut workspace, &mut meter);
    let wanted = Step {
        before: 470,
        after: 470,
        changed: false,
    };
    assert!(rt; frozen == wanted);
    if meter.room() < most_search_extensions(held.case(), 0) {
        return Err(Fail::new("no room for a step more"));
    }
    let first = step(&mut held, 0, 0, &mut workspace, &mut meter);
    let wanted = Step {
        before: 470,
        after: 180,
        changed: true,
    };
    assert!(rt; first == wanted);
    if !workspace.fits(held.case()) || meter.room() < most_extensions(held.case(), 3) {
        return Err(Fail::new("no room for the run"));
    }
    let mut room = [0; 80];
    let mut log = Watch::new(ShortWriter::new(&mut room, AtEnd::Fail));
    let ended = improve_in(&mut held, 3, 0, &mut workspace, &mut meter, &mut log);
    let wanted = Outcome {
        settled: true,
        rounds: 3,
        changes: 2,
        total: 0,
    };
    assert!(rt; ended == Ok(wanted));
    Ok(())
}

/// What a run over mini leaves: the roster, the count of the meter, and how the run ended.
type Left = (Held, Meter, Result<Outcome, LogFault>);

type Log<'a> = Watch<ShortWriter<'a>>;

/// A run over mini that searches at each step.
fn run(alloc: Global, log: &mut Log<'_>) -> Result<Left, Fail> {
    let (mut held, mut workspace, mut meter) = ready(alloc, &[])?;
    if !workspace.fits(held.case()) || meter.room() < most_extensions(held.case(), 100) {
        return Err(Fail::new("no room"));
    }
    let ended = improve_in(&mut held, 100, 0, &mut workspace, &mut meter, log);
    Ok((held, meter, ended))
}

/// A run over mini that skips a search if what the nurse's last search found is still known to hold.
fn run_unless_known(alloc: Global, log: &mut Log<'_>) -> Result<Left, Fail> {
    let (mut held, _, mut meter) = ready(alloc, &[])?;
    let Ok(mut space) = RunSpace::<RowSearcher>::for_case(alloc, held.case()) else {
        return Err(Fail::new("no space"));
    };
    if meter.room() < most_extensions(held.case(), 100) {
        return Err(Fail::new("no room"));
    }
    let ended = improve(&mut held, 100, 0, &mut space, &mut meter, log);
    Ok((held, meter, ended))
}

/// How many writes the log of a run over mini takes. Each word, number, blank and line end is a write of its
/// own: 4 for a line of one word, 6 for a nurse's line and 5 for a round's.
const RUN_WRITES: u64 = 4 + 6 + 6 + 5 + 6 + 5 + 5 + 4;

#[test]
fn writes_of_a_log(rt: HostRuntime) -> Result<(), Fail> {
    let (mut held, mut workspace, mut meter) = ready(rt.alloc(), &[])?;
    if !workspace.fits(held.case()) || meter.room() < most_extensions(held.case(), 100) {
        return Err(Fail::new("no room"));
    }
    let mut log = Watch::new(CallCounter::new(Vec::new(rt.alloc()), 0));
    let ended = improve_in(&mut held, 100, 0, &mut workspace, &mut meter, &mut log);
    assert!(rt; ended.is_ok());
    let counter = log.into_inner();
    assert!(rt; counter.device.as_slice() == RUN_LOG.as_bytes());
    assert!(rt; counter.calls == RUN_WRITES);
    Ok(())
}

/// After how many bytes a log may fail (the first and the last number), and the total and the weeks of Ann
/// and Bob that a run over mini leaves then.
type AtFault = (usize, usize, u64, &'static [u8; 7], &'static [u8; 7]);

const AT_FAULTS: [AtFault; 4] = [
    // The roster as it was read.
    (0, 9, 470, b"-------", b"-------"),
    // Ann's row was replaced in round 1.
    (10, 19, 180, b"E-EEEEE", b"-------"),
    // Bob's row was replaced too.
    (20, 39, 20, b"E-EEEEE", b"-E---EE"),
    // Ann's row was replaced again, in round 2.
    (40, 77, 0, b"E-EEE--", b"-E---EE"),
];

#[test]
fn rosters_after_a_log_that_fails(rt: HostRuntime) -> Result<(), Fail> {
    for (first, last, total, ann, bob) in AT_FAULTS {
        for sent in first..last + 1 {
            let mut log_buffer = [0; 78];
            let writer = ShortWriter::new(&mut log_buffer[..sent.min(78)], AtEnd::Fail);
            let mut log = Watch::new(writer);
            let (held, meter, ended) = run(rt.alloc(), &mut log)?;
            assert!(rt; ended == Err(LogFault::LogFailed { sent }), "{sent}");
            assert!(rt; fill(log.into_inner().written(), RUN_LOG, sent), "{sent}");
            // The line of the start goes out before the first search.
            assert!(rt; (meter.count() > 0) == (sent > 9), "{sent}");
            assert!(rt; held.total() == total, "{sent}");
            assert!(rt; held.roster().row(0) == row_of(ann).as_slice(), "{sent}");
            assert!(rt; held.roster().row(1) == row_of(bob).as_slice(), "{sent}");
        }
    }
    Ok(())
}

#[test]
fn the_same_run_with_fewer_searches(rt: HostRuntime) -> Result<(), Fail> {
    for sent in 0..81_usize {
        let mut log_buffer = [0; 81];
        let mut log = Watch::new(ShortWriter::new(&mut log_buffer[..sent], AtEnd::Fail));
        let (held, meter, ended) = run(rt.alloc(), &mut log)?;
        let mut other_buffer = [0; 81];
        let mut other_log = Watch::new(ShortWriter::new(&mut other_buffer[..sent], AtEnd::Fail));
        let (other, other_meter, other_ended) = run_unless_known(rt.alloc(), &mut other_log)?;
        assert!(rt; other_ended == ended, "{sent}");
        assert!(rt;
            other_log.into_inner().written() == log.into_inner().written(),
            "{sent}"
        );
        assert!(rt; other.roster().row(0) == held.roster().row(0), "{sent}");
        assert!(rt; other.roster().row(1) == held.roster().row(1), "{sent}");
        assert!(rt; other_meter.count() <= meter.count(), "{sent}");
        // By the end at least one search was skipped.
        assert!(rt; sent < 78 || other_meter.count() < meter.count(), "{sent}");
    }
    Ok(())
}

/// Whether a nurse's step takes a search, or None if the step changes the roster or can't be made.
fn takes_search(
    held: &mut Held,
    nurse: usize,
    workspace: &mut Workspace,
    last: &mut LastSearches,
    meter: &mut Meter,
) -> Option<bool>
    requires { RecallsSearches held.old.case last.old }
    ensures { RecallsSearches held.new.case last.new }
{
    let can_search = nurse < held.case().nurses() && workspace.fits(held.case());
    if !can_search || meter.room() < most_search_extensions(held.case(), nurse) {
        return None;
    }
    let before = meter.count();
    let step = step_or_skip(held, nurse, 0, workspace, last, meter);
    if step.changed {
        return None;
    }
    Some(meter.count() > before)
}

#[test]
fn known_nurses_take_no_search(rt: HostRuntime) -> Result<(), Fail> {
    let alloc = rt.alloc();
    let mut log_buffer = [0; 80];
    let mut log = Watch::new(ShortWriter::new(&mut log_buffer, AtEnd::Fail));
    let (mut held, mut meter, _) = run(alloc, &mut log)?;
    let Ok(mut workspace) = Workspace::for_case(alloc, held.case()) else {
        return Err(Fail::new("no workspace"));
    };
    let Ok(mut last) = LastSearches::for_case(alloc, held.case()) else {
        return Err(Fail::new("no memory for the last searches"));
    };
    // The first search for a nurse finds that no row is cheaper, and that stays known as long as no row
    // changes.
    let ann = takes_search(&mut held, 0, &mut workspace, &mut last, &mut meter);
    let bob = takes_search(&mut held, 1, &mut workspace, &mut last, &mut meter);
    assert!(rt; ann == Some(true) && bob == Some(true));
    let ann = takes_search(&mut held, 0, &mut workspace, &mut last, &mut meter);
    let bob = takes_search(&mut held, 1, &mut workspace, &mut last, &mut meter);
    assert!(rt; ann == Some(false) && bob == Some(false));
    Ok(())
}
