//! Runs of kicks and of a fade: what the seed decides, which no contract states, and a log that fails after
//! each number of bytes.

use crate::crossed::CROSSED;
use roster_cli::{Command, Request, run};
use roster_devices::{AtEnd, ShortWriter};
use roster_tests::texts::{changed, fill};
use roster_text::Watch;
use std::alloc::{AllocError, Global};
use std::test::Fail;

/// How a log begins if the first descent changes nothing, and a kick that makes the roster cheaper is kept.
const BEGIN: &str = "start 70\nkick ";

/// How it ends if nothing is left to be saved.
const END: &str = "settled 0\n";

/// What a fade leads to, with any seed.
const FADED: &str = "start 70\nfade 0\nsettled 0\n";

/// The status of a run over them with a seed, with only kicks or with a fade, and what a log of this size has
/// then.
fn run_by(
    alloc: Global,
    seed: u32,
    kicks_alone: bool,
    room: usize,
) -> Result<(u8, Vec<u8>), AllocError> {
    let request = Request {
        command: Command::Polish {
            searches: Some(if kicks_alone { 300 } else { 100 }),
            seconds: None,
            seed,
            from: 0,
            kicks_alone,
            keep: 0,
        },
        files: Vec::new(alloc),
        out: None,
    };
    let text = changed(alloc, &CROSSED)?;
    let (mut output_buffer, mut log_buffer) = ([0; 500], [0; 500]);
    let log_buffer = &mut log_buffer[..room.min(500)];
    let mut input = Watch::new(text.as_bytes());
    let mut output = Watch::new(ShortWriter::new(&mut output_buffer, AtEnd::Fail));
    let mut log = Watch::new(ShortWriter::new(log_buffer, AtEnd::Fail));
    let status = run(alloc, &request, &mut input, &mut output, &mut log);
    Ok((status, Vec::from_slice(alloc, log.into_inner().written())?))
}

#[test]
fn a_seed_decides_the_kicks(rt: HostRuntime) -> Result<(), Fail> {
    let alloc = rt.alloc();
    let (status, first) = run_by(alloc, 1, true, 500)?;
    let (_, again) = run_by(alloc, 1, true, 500)?;
    let (_, other) = run_by(alloc, 3, true, 500)?;
    assert!(rt; status == 0);
    assert!(rt; first.as_slice() == again.as_slice());
    assert!(rt; first.as_slice() != other.as_slice());
    // Kicks are kept with either seed, and in the end nobody works on a day that the other one wants.
    for log in [first, other] {
        assert!(rt; log.starts_with(BEGIN.as_bytes()));
        assert!(rt; log.ends_with(END.as_bytes()));
    }
    Ok(())
}

#[test]
fn a_fade_whose_log_fails_after_each_byte(rt: HostRuntime) -> Result<(), Fail> {
    let alloc = rt.alloc();
    for seed in [1, 3] {
        let (status, log) = run_by(alloc, seed, false, FADED.len())?;
        assert!(rt; status == 0 && log.as_slice() == FADED.as_bytes(), "{seed}");
    }
    for room in 0..FADED.len() {
        let (status, log) = run_by(alloc, 1, false, room)?;
        assert!(rt; status == 3 && fill(log.as_slice(), FADED, room), "{room}");
    }
    Ok(())
}
