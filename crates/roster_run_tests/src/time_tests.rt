//! Runs with a limit of time, by a clock whose time passes by being read. No contract says that a clock is
//! read, or how often.

use crate::crossed::CROSSED;
use roster_cli::{Command, Request, run_timed};
use roster_devices::{AtEnd, ShortWriter, StepClock};
use roster_tests::texts::changed;
use roster_text::Watch;
use std::alloc::{AllocError, Global};
use std::test::Fail;

/// How many microseconds pass from one reading to the next.
const STEP: u64 = 1_000;

/// How often a run of one second reads such a clock at most: 1,000 times, and a few times more where it ends.
const MOST_READINGS: u64 = 1_020;

/// There are fewer nurses than are needed on each day.
const TOO_MANY: [(&str, &str); 1] = [(
    "(0,1) (0,1) (0,1) (0,1) (0,1) (0,1) (0,1)",
    "(3,3) (3,3) (3,3) (3,3) (3,3) (3,3) (3,3)",
)];

/// The status of a run of this command over a text with changes, and what its log has then.
fn run_by(
    alloc: Global,
    command: Command,
    changes: &[(&str, &str)],
    clock: &StepClock,
) -> Result<(u8, Vec<u8>), AllocError> {
    let request = Request {
        command,
        files: Vec::new(alloc),
        out: None,
    };
    let text = changed(alloc, changes)?;
    let (mut output_buffer, mut log_buffer) = ([0; 500], [0; 500]);
    let mut input = Watch::new(text.as_bytes());
    let mut output = Watch::new(ShortWriter::new(&mut output_buffer, AtEnd::Fail));
    let mut log = Watch::new(ShortWriter::new(&mut log_buffer, AtEnd::Fail));
    let status = run_timed(alloc, &request, clock, &mut input, &mut output, &mut log);
    Ok((status, Vec::from_slice(alloc, log.into_inner().written())?))
}

/// A run of `polish` within this time.
fn polish(searches: Option<u32>, seconds: Option<u32>) -> Command {
    Command::Polish {
        searches,
        seconds,
        seed: 1,
        from: 0,
        kicks_alone: false,
        keep: 0,
    }
}

#[test]
fn polish_ends_when_its_time_is_up(rt: HostRuntime) -> Result<(), Fail> {
    let alloc = rt.alloc();
    let clock = StepClock::new(STEP);
    let (status, log) = run_by(alloc, polish(None, Some(1)), &CROSSED, &clock)?;
    assert!(rt; status == 0);
    // the first descent isn't cut off, and what follows makes the roster no dearer
    assert!(rt; log.ends_with(b"settled 70\n") || log.ends_with(b"settled 0\n"));
    assert!(rt; clock.readings() <= MOST_READINGS, "{}", clock.readings());
    Ok(())
}

#[test]
fn plan_gives_up_when_its_time_is_up(rt: HostRuntime) -> Result<(), Fail> {
    let alloc = rt.alloc();
    let clock = StepClock::new(STEP);
    let command = Command::Plan {
        searches: None,
        seconds: Some(1),
        seed: 1,
        from: 0,
        keep: 0,
    };
    let (status, log) = run_by(alloc, command, &TOO_MANY, &clock)?;
    assert!(rt; status == 1);
    assert!(rt; log.starts_with(b"not found"));
    assert!(rt; clock.readings() <= MOST_READINGS, "{}", clock.readings());
    Ok(())
}

#[test]
fn bound_ends_when_its_time_is_up(rt: HostRuntime) -> Result<(), Fail> {
    let alloc = rt.alloc();
    let clock = StepClock::new(500 * STEP);
    let command = Command::Bound {
        rounds: 1000,
        nodes: 10_000,
        seconds: Some(1),
        from: 0,
        keep: 0,
    };
    let (status, log) = run_by(alloc, command, &CROSSED, &clock)?;
    assert!(rt; status == 0);
    assert!(rt; log.as_slice() == b"start 70\n".as_slice());
    assert!(rt; clock.readings() <= 8, "{}", clock.readings());
    Ok(())
}

#[test]
fn no_clock_is_read_without_a_limit_of_time(rt: HostRuntime) -> Result<(), Fail> {
    let alloc = rt.alloc();
    let clock = StepClock::new(STEP);
    let (status, log) = run_by(alloc, polish(Some(100), None), &CROSSED, &clock)?;
    assert!(rt; status == 0);
    assert!(rt; log.as_slice() == b"start 70\nfade 0\nsettled 0\n".as_slice());
    assert!(rt; clock.readings() == 0);
    Ok(())
}

#[test]
fn a_time_that_is_not_up_changes_nothing(rt: HostRuntime) -> Result<(), Fail> {
    let alloc = rt.alloc();
    let clock = StepClock::new(1);
    let (status, log) = run_by(alloc, polish(Some(100), Some(86_400)), &CROSSED, &clock)?;
    assert!(rt; status == 0);
    assert!(rt; log.as_slice() == b"start 70\nfade 0\nsettled 0\n".as_slice());
    assert!(rt; clock.readings() > 0);
    Ok(())
}
