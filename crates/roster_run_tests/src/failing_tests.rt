//! Runs in which a read fails, or an output or a log after each number of bytes.

use roster_cli::{Command, Request, run};
use roster_devices::{AtEnd, FailingReader, OneByteReader, ShortWriter};
use roster_tests::texts::{MINI, RUN_LOG, SHOWN, changed, fill};
use roster_text::Watch;
use std::alloc::{AllocError, Global};
use std::io::{ErrorKind, Read};
use std::test::Fail;

/// What a command writes over mini to its output and to its log.
#[derive(Clone, Copy)]
struct Answer {
    name: &'static str,
    output: &'static str,
    log: &'static str,
}

const COSTS: &str = "S1 210\nS2 0\nS3 180\nS4 0\nS5 0\nS6 80\nS7 0\nS8 0\ntotal 470\n";

const SIZES: &str = "Ann 1296 2592 9072 27216\nBob 1296 2592 9072 27216\n";

const BEST: &str = "SOLUTION\n0 mini\n\nASSIGNMENTS = 6\nAnn Mon Early Nurse\nAnn Wed Early Nurse\n\
    Ann Thu Early Nurse\nAnn Fri Early Nurse\nAnn Sat Early Nurse\nAnn Sun Early Nurse\n";

const IMPROVED: &str =
    "SOLUTION\n0 mini\n\nASSIGNMENTS = 7\nAnn Mon Early Nurse\nAnn Wed Early Nurse\n\
    Ann Thu Early Nurse\nAnn Fri Early Nurse\nBob Tue Early Nurse\nBob Sat Early Nurse\n\
    Bob Sun Early Nurse\n";

const ANSWERS: [Answer; 8] = [
    Answer {
        name: "show",
        output: SHOWN,
        log: "",
    },
    Answer {
        name: "cost",
        output: COSTS,
        log: "",
    },
    Answer {
        name: "sizes",
        output: SIZES,
        log: "",
    },
    Answer {
        name: "best",
        output: BEST,
        log: "start 470\nbest Ann 180\n",
    },
    Answer {
        name: "improve",
        output: IMPROVED,
        log: RUN_LOG,
    },
    Answer {
        name: "bound",
        output: "roster 470\nbound 0\n",
        log: "start 470\n",
    },
    Answer {
        name: "polish",
        output: IMPROVED,
        log: "start 470\nsettled 0\n",
    },
    Answer {
        name: "who",
        output: "Ann 180 changed 6\nBob 180 changed 6\n",
        log: "",
    },
];

/// The command of a name: `best` is for Ann, `improve` makes at most 100 rounds, `bound` makes one, `polish`
/// no search, and `who` is for Wednesday's Early.
fn command_of(alloc: Global, name: &str) -> Result<Command, AllocError> {
    Ok(match name {
        "show" => Command::Show,
        "cost" => Command::Cost { json: false },
        "sizes" => Command::Sizes { json: false },
        "best" => Command::Best {
            nurse: String::from_str(alloc, "Ann")?,
            from: 0,
            keep: 0,
        },
        "bound" => Command::Bound {
            rounds: 1,
            nodes: 1,
            seconds: None,
            from: 0,
            keep: 0,
        },
        "polish" => Command::Polish {
            searches: Some(0),
            seconds: None,
            seed: 1,
            from: 0,
            kicks_alone: false,
            keep: 0,
        },
        "who" => Command::Who {
            day: String::from_str(alloc, "0:Wed")?,
            shift: String::from_str(alloc, "Early")?,
            skill: None,
            from: 0,
            json: false,
        },
        _ => Command::Improve {
            rounds: 100,
            from: 0,
            keep: 0,
        },
    })
}

/// The sizes of an output and a log, in bytes, and what happens when they are full.
#[derive(Clone, Copy)]
struct Room {
    output: usize,
    log: usize,
    at_end: AtEnd,
}

const AMPLE: Room = Room {
    output: 200,
    log: 200,
    at_end: AtEnd::Fail,
};

/// How a run is to end: its status, and what its output and its log have, as far as they hold it.
type End<'a> = (u8, &'a str, &'a str);

/// Whether a run of the command of this name over an input ends in this way.
fn ends(
    alloc: Global,
    name: &str,
    input: impl Read + Drop,
    room: Room,
    end: End<'_>,
) -> Result<bool, AllocError> {
    let request = Request {
        command: command_of(alloc, name)?,
        files: Vec::new(alloc),
        out: None,
    };
    let (mut output_buffer, mut log_buffer) = ([0; 200], [0; 200]);
    let output_buffer = &mut output_buffer[..room.output.min(200)];
    let log_buffer = &mut log_buffer[..room.log.min(200)];
    let mut input = Watch::new(input);
    let mut output = Watch::new(ShortWriter::new(output_buffer, room.at_end));
    let mut log = Watch::new(ShortWriter::new(log_buffer, room.at_end));
    let status = run(alloc, &request, &mut input, &mut output, &mut log);
    Ok(
        status == end.0
            && fill(output.into_inner().written(), end.1, room.output)
            && fill(log.into_inner().written(), end.2, room.log),
    )
}

#[test]
fn an_input_that_fails_at_each_read(rt: HostRuntime) -> Result<(), Fail> {
    let alloc = rt.alloc();
    let (rest, kind) = (MINI.as_bytes(), ErrorKind::Other);
    for Answer { name, output, log } in ANSWERS {
        for fails_in in 1..3 {
            let input = FailingReader {
                rest,
                fails_in,
                kind,
            };
            let end = (3, "", "read failed\n");
            assert!(rt; ends(alloc, name, input, AMPLE, end)?, "{name} {fails_in}");
        }
        let input = OneByteReader { rest };
        assert!(rt;
            ends(alloc, name, input, AMPLE, (0, output, log))?,
            "{name}"
        );
    }
    Ok(())
}

#[test]
fn an_output_that_fails_after_each_byte(rt: HostRuntime) -> Result<(), Fail> {
    let (alloc, input) = (rt.alloc(), MINI.as_bytes());
    for Answer {
        name,
        output: text,
        log,
    } in ANSWERS {
        let logged = format!(in alloc; "{log}write failed\n")?;
        let end = (3, text, logged.as_str());
        for at_end in [AtEnd::Fail, AtEnd::TakeNothing] {
            for output in 0..text.len() {
                let room = Room {
                    output,
                    log: 200,
                    at_end,
                };
                assert!(rt; ends(alloc, name, input, room, end)?, "{name} {output}");
            }
            // The line about it can't be written either.
            for log in log.len()..logged.len() {
                let room = Room {
                    output: 7,
                    log,
                    at_end,
                };
                assert!(rt; ends(alloc, name, input, room, end)?, "{name} {log}");
            }
        }
    }
    Ok(())
}

#[test]
fn a_log_that_fails_after_each_byte(rt: HostRuntime) -> Result<(), Fail> {
    let (alloc, input) = (rt.alloc(), MINI.as_bytes());
    for Answer {
        name,
        output,
        log: text,
    } in ANSWERS {
        for at_end in [AtEnd::Fail, AtEnd::TakeNothing] {
            for log in 0..text.len() {
                let room = Room {
                    output: 200,
                    log,
                    at_end,
                };
                assert!(rt;
                    ends(alloc, name, input, room, (3, "", text))?,
                    "{name} {log}"
                );
            }
            // Just enough bytes.
            let room = Room {
                output: output.len(),
                log: text.len(),
                at_end,
            };
            assert!(rt;
                ends(alloc, name, input, room, (0, output, text))?,
                "{name}"
            );
        }
    }
    Ok(())
}

#[test]
fn a_log_of_a_bound_that_fails_after_each_byte(rt: HostRuntime) -> Result<(), Fail> {
    let alloc = rt.alloc();
    // Each day needs three nurses, and there are two.
    let three = "(0,3) (0,3) (0,3) (0,3) (0,3) (0,3) (0,3)";
    let text = changed(
        alloc,
        &[("(0,1) (0,1) (0,1) (0,1) (0,1) (0,1) (0,1)", three)],
    )?;
    let (output, logged) = ("roster 890\nbound 310\n", "start 890\nround 1 310\n");
    for at_end in [AtEnd::Fail, AtEnd::TakeNothing] {
        for log in 0..logged.len() {
            let room = Room {
                output: 200,
                log,
                at_end,
            };
            let end = (3, "", logged);
            assert!(rt; ends(alloc, "bound", text.as_bytes(), room, end)?, "{log}");
        }
    }
    assert!(rt; ends(alloc, "bound", text.as_bytes(), AMPLE, (0, output, logged))?);
    Ok(())
}

#[test]
fn a_refusal_whose_line_fails_after_each_byte(rt: HostRuntime) -> Result<(), Fail> {
    let alloc = rt.alloc();
    let text = changed(alloc, &[("Early Nurse (0,1)", "Early Nurse (1,1)")])?;
    let logged = "H2 week 0 Mon Early Nurse: 0 of 1\n";
    for name in ["cost", "best", "improve", "bound", "polish"] {
        for log in 0..logged.len() + 1 {
            let room = Room { log, ..AMPLE };
            assert!(rt;
                ends(alloc, name, text.as_bytes(), room, (1, "", logged))?,
                "{name} {log}"
            );
        }
    }
    Ok(())
}
