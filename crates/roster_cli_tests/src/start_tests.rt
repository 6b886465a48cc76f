//! The program from its words to its status, over files and streams that stand in for those of the system.

ghost use Rattle.std.specs.Prelude.{IsErr};

use roster_cli::{CliFault, Command, Request, answer_command_line, request_of};
use roster_devices::{AtEnd, ShortWriter};
use roster_tests::texts::{MINI, SHOWN};
use roster_text::Watch;
use std::alloc::{Allocator, Global};
use std::cell::Cell;
use std::env::FillError;
use std::fs::{Metadata, OpenFile, OpenOptions};
use std::io;
use std::io::{BufWriter, ErrorKind, Read, Seek, SeekFrom, Write};
use std::rt::{Env, Files};
use std::test::Fail;
use std::time::{Clock, Duration};

/// The words of a command line, and the texts of all files: their names are `a`, `b` and so on. For a file of
/// the name `memory` there is no memory.
#[derive(Drop)]
struct Shelf<'a> {
    words: &'a [&'a [u8]],
    texts: &'a [&'a str],
    /// What was done with the files, in decimal digits: for each file that was opened its number, counted
    /// from 1, and a 9 for reads. For a file that is made it is a 4, for its writes a 5, for its flush a 6,
    /// for its new name a 7, and for its end an 8.
    done: &'a Cell<u64>,
    /// The digit of what fails, or 0.
    fails: u64,
}

/// An open file.
#[derive(Drop)]
struct Sheet<'a> {
    rest: &'a [u8],
    done: &'a Cell<u64>,
    fails: u64,
}

/// Does what this digit stands for, or fails to.
fn try_to(done: &Cell<u64>, digit: u64, fails: u64) -> io::Result<()> {
    if done.get() % 10 != digit {
        note(done, digit);
    }
    if digit == fails {
        return Err(ErrorKind::Other.into());
    }
    Ok(())
}

fn note(done: &Cell<u64>, digit: u64) {
    done.set(done.get().saturating_mul(10).saturating_add(digit));
}

fn unsupported<T>() -> io::Result<T>
    ensures { IsErr result }
{
    Err(ErrorKind::Unsupported.into())
}

impl Read for Sheet<'_> {
    fn read(&mut self, buf: &mut [u8]) -> io::Result<usize> {
        if self.done.get() % 10 != 9 {
            note(self.done, 9);
        }
        self.rest.read(buf)
    }
}

impl Write for Sheet<'_> {
    fn write(&mut self, buf: &[u8]) -> io::Result<usize> {
        try_to(self.done, 5, self.fails)?;
        Ok(buf.len())
    }

    fn flush(&mut self) -> io::Result<()> {
        Ok(())
    }
}

impl Seek for Sheet<'_> {
    fn seek(&mut self, _to: SeekFrom) -> io::Result<u64> {
        unsupported()
    }
}

impl OpenFile for Sheet<'_> {
    fn metadata(&self) -> io::Result<Metadata> {
        unsupported()
    }

    fn set_len(&self, _size: u64) -> io::Result<()> {
        unsupported()
    }

    fn sync_all(&self) -> io::Result<()> {
        try_to(self.done, 6, self.fails)
    }

    fn sync_data(&self) -> io::Result<()> {
        unsupported()
    }
}

impl<'a> Shelf<'a> {
    fn opened(&self, index: usize, digit: u64) -> io::Result<Sheet<'a>> {
        let Some(text) = self.texts.get(index) else {
            return Err(ErrorKind::NotFound.into());
        };
        note(self.done, digit);
        Ok(Sheet {
            rest: text.as_bytes(),
            done: self.done,
            fails: self.fails,
        })
    }
}

impl<'a> Files for Shelf<'a> {
    type File = Sheet<'a>;

    type Dir = &'a [u8];

    fn open_file(&self, how: &OpenOptions, path: &str) -> io::Result<Sheet<'a>> {
        if how.asks_create_new() {
            try_to(self.done, 4, self.fails)?;
            return Ok(Sheet {
                rest: b"",
                done: self.done,
                fails: self.fails,
            });
        }
        match path {
            "a" => self.opened(0, 1),
            "b" => self.opened(1, 2),
            "c" => self.opened(2, 3),
            "memory" => Err(ErrorKind::OutOfMemory.into()),
            _ => Err(ErrorKind::NotFound.into()),
        }
    }

    fn open_dir(&self, _path: &str) -> io::Result<&'a [u8]> {
        unsupported()
    }

    fn metadata(&self, _path: &str) -> io::Result<Metadata> {
        Err(ErrorKind::NotFound.into())
    }

    fn symlink_metadata(&self, _path: &str) -> io::Result<Metadata> {
        unsupported()
    }

    fn copy(&self, _from: &str, _to: &str) -> io::Result<u64> {
        unsupported()
    }

    fn rename(&self, from: &str, to: &str) -> io::Result<()> {
        if from != "x.0.part" || to != "x" {
            return unsupported();
        }
        try_to(self.done, 7, self.fails)
    }

    fn remove_file(&self, path: &str) -> io::Result<()> {
        if path != "x.0.part" {
            return unsupported();
        }
        try_to(self.done, 8, self.fails)
    }

    fn create_dir(&self, _path: &str) -> io::Result<()> {
        unsupported()
    }

    fn remove_dir(&self, _path: &str) -> io::Result<()> {
        unsupported()
    }

    fn remove_dir_all<B: Allocator>(&self, _alloc: B, _path: &str) -> io::Result<()> {
        unsupported()
    }
}

impl Clock for Shelf<'_> {
    fn monotonic(&self) -> io::Result<Duration> {
        unsupported()
    }

    fn since_1970(&self) -> io::Result<Duration> {
        unsupported()
    }
}

impl Env for Shelf<'_> {
    fn arg(&self, i: usize, buf: &mut [u8]) -> Result<usize, FillError> {
        let Some(word) = self.words.get(i) else {
            return Err(FillError::NotPresent);
        };
        if word.len() > buf.len() {
            return Err(FillError::TooLong);
        }
        buf[..word.len()].copy_from_slice(word);
        Ok(word.len())
    }

    fn var(&self, _name: &str, _buf: &mut [u8]) -> Result<usize, FillError> {
        Err(FillError::NotPresent)
    }

    fn var_at(&self, _i: usize, _buf: &mut [u8]) -> Result<usize, FillError> {
        Err(FillError::NotPresent)
    }
}

/// Takes what its buffer holds. Its flush can be made to fail.
#[derive(Drop)]
struct Stream<'a> {
    writer: ShortWriter<'a>,
    flush_fails: bool,
}

impl Write for Stream<'_> {
    fn write(&mut self, buf: &[u8]) -> io::Result<usize> {
        self.writer.write(buf)
    }

    fn flush(&mut self) -> io::Result<()> {
        if self.flush_fails {
            return Err(ErrorKind::Other.into());
        }
        Ok(())
    }
}

/// How a start of the program ended: its status, the bytes that had reached the output's device, and the log.
type End<'a> = (u8, &'a str, &'a str);

fn is_end(end: End<'_>, status: u8, output: &[u8], log: &[u8]) -> bool {
    end.0 == status && end.1.as_bytes() == output && end.2.as_bytes() == log
}

/// Whether the program, started over a shelf and this standard input, ends in this way.
fn ends(
    alloc: Global,
    shelf: &Shelf<'_>,
    input: &str,
    flush_fails: bool,
    end: End<'_>,
) -> Result<bool, Fail> {
    let mut output_buffer = [0; 40];
    let mut log_buffer = [0; 60];
    let stream = Stream {
        writer: ShortWriter::new(&mut output_buffer, AtEnd::Fail),
        flush_fails,
    };
    let output = BufWriter::new(alloc, stream)?;
    let mut log = Watch::new(ShortWriter::new(&mut log_buffer, AtEnd::Fail));
    let (status, output) = answer_command_line(&(shelf, alloc), input.as_bytes(), output, &mut log);
    let log = log.into_inner();
    Ok(is_end(
        end,
        status,
        output.get_ref().writer.written(),
        log.written(),
    ))
}

/// Whether the program, with these words and mini in its first file, the second and third being empty, ends
/// in this way and did this with the files.
fn shows(alloc: Global, words: &[&[u8]], done: u64, end: End<'_>) -> Result<bool, Fail> {
    let did = Cell::new(0);
    let shelf = Shelf {
        words,
        texts: &[MINI, "", ""],
        done: &did,
        fails: 0,
    };
    let is_end = ends(alloc, &shelf, "", false, end)?;
    Ok(is_end && did.get() == done)
}

#[test]
fn files_in_order_and_all_before_the_first_read(rt: HostRuntime) -> Result<(), Fail> {
    let end = (0, SHOWN, "");
    let words: &[&[u8]] = &[b"roster", b"show", b"a", b"b", b"c"];
    assert!(rt; shows(rt.alloc(), words, 1239, end)?);
    let words: &[&[u8]] = &[b"roster", b"show", b"c", b"a", b"b"];
    assert!(rt; shows(rt.alloc(), words, 3129, end)?);
    Ok(())
}

#[test]
fn a_second_file_that_is_not_there(rt: HostRuntime) -> Result<(), Fail> {
    let end = (3, "", "read failed\n");
    let words: &[&[u8]] = &[b"roster", b"show", b"a", b"none", b"c"];
    assert!(rt; shows(rt.alloc(), words, 1, end)?);
    Ok(())
}

#[test]
fn a_second_file_without_memory(rt: HostRuntime) -> Result<(), Fail> {
    let end = (4, "", "no memory\n");
    let words: &[&[u8]] = &[b"roster", b"show", b"a", b"memory", b"c"];
    assert!(rt; shows(rt.alloc(), words, 1, end)?);
    Ok(())
}

/// Whether the best row over mini, with the file `x` for the roster, ends with this status and log, if what
/// the digit stands for fails, and did this with the files.
fn puts(alloc: Global, fails: u64, done: u64, (status, log): (u8, &str)) -> Result<bool, Fail> {
    let did = Cell::new(0);
    let shelf = Shelf {
        words: &[b"roster", b"best", b"--nurse", b"Ann", b"--out", b"x", b"a"],
        texts: &[MINI],
        done: &did,
        fails,
    };
    let is_end = ends(alloc, &shelf, "", false, (status, "", log))?;
    Ok(is_end && did.get() == done)
}

#[test]
fn a_file_for_the_roster(rt: HostRuntime) -> Result<(), Fail> {
    let log = "start 470\nbest Ann 180\n";
    assert!(rt; puts(rt.alloc(), 0, 48_194_567, (0, log))?);
    Ok(())
}

#[test]
fn a_file_that_fails_at_each_step(rt: HostRuntime) -> Result<(), Fail> {
    let log = "start 470\nbest Ann 180\nx: write failed\n";
    assert!(rt; puts(rt.alloc(), 4, 4, (3, "x: write failed\n"))?);
    assert!(rt; puts(rt.alloc(), 5, 4_819_458, (3, log))?);
    assert!(rt; puts(rt.alloc(), 6, 48_194_568, (3, log))?);
    assert!(rt; puts(rt.alloc(), 7, 481_945_678, (3, log))?);
    Ok(())
}

/// Whether a run over mini that makes no search, with the file `x` for the roster, ends with this status and
/// log, if what the digit stands for fails, and did this with the files. No time passes by its clock.
fn saves(alloc: Global, fails: u64, done: u64, (status, log): (u8, &str)) -> Result<bool, Fail> {
    let did = Cell::new(0);
    let shelf = Shelf {
        words: &[
            b"roster",
            b"polish",
            b"--searches",
            b"0",
            b"--out",
            b"x",
            b"a",
        ],
        texts: &[MINI],
        done: &did,
        fails,
    };
    let is_end = ends(alloc, &shelf, "", false, (status, "", log))?;
    Ok(is_end && did.get() == done)
}

#[test]
fn a_run_saves_its_roster_at_the_first_line_and_at_the_end(rt: HostRuntime) -> Result<(), Fail> {
    let log = "start 470\nsettled 0\n";
    assert!(rt; saves(rt.alloc(), 0, 481_945_674_567, (0, log))?);
    Ok(())
}

#[test]
fn a_run_that_fails_to_save_at_each_step(rt: HostRuntime) -> Result<(), Fail> {
    let log = "start 470\nsettled 0\nx: write failed\n";
    assert!(rt; saves(rt.alloc(), 5, 4_819_458_458, (3, log))?);
    assert!(rt; saves(rt.alloc(), 6, 481_945_684_568, (3, log))?);
    assert!(rt; saves(rt.alloc(), 7, 48_194_567_845_678, (3, log))?);
    Ok(())
}

/// Whether `show` over mini on standard input ends in this way.
fn shows_input(alloc: Global, flush_fails: bool, end: End<'_>) -> Result<bool, Fail> {
    let did = Cell::new(0);
    let shelf = Shelf {
        words: &[b"roster", b"show"],
        texts: &[],
        done: &did,
        fails: 0,
    };
    ends(alloc, &shelf, MINI, flush_fails, end)
}

#[test]
fn a_flush_that_fails_after_a_full_answer(rt: HostRuntime) -> Result<(), Fail> {
    let end = (3, SHOWN, "write failed\n");
    assert!(rt; shows_input(rt.alloc(), true, end)?);
    Ok(())
}

/// Whether the words ask for a run of this number of rounds from a week on over these files.
fn asks_for_run(alloc: Global, words: &[&str], (rounds, from): (u16, u16), files: &[&str]) -> bool {
    let Ok(request) = request_of(alloc, words) else {
        return false;
    };
    let Request {
        command,
        files: given,
        out: None,
    } = request
    else {
        return false;
    };
    matches!(command, Command::Improve { rounds: some, from: first, keep: 0 }
        if some == rounds && first == from)
        && given.iter().map(|it| it.as_str()).eq(files.iter().copied())
}

/// Whether the words ask for a bound by this number of rounds from a week on, with this number of points for
/// each changed day.
fn asks_for_bound(alloc: Global, words: &[&str], (rounds, from, keep): (u16, u16, u16)) -> bool {
    let Ok(request) = request_of(alloc, words) else {
        return false;
    };
    matches!(request.command,
        Command::Bound { rounds: some, nodes: 0, seconds: None, from: first, keep: kept }
        if some == rounds && first == from && kept == keep)
}

/// How a run of searches is asked for: the number of searches, the seed, the first week that may change, and
/// whether the run makes only kicks.
type Asked = (Option<u32>, u32, u16, bool);

/// Whether the words ask for such a run of searches.
fn asks_for_searches(alloc: Global, words: &[&str], (searches, seed, from, alone): Asked) -> bool {
    let Ok(request) = request_of(alloc, words) else {
        return false;
    };
    matches!(request.command,
        Command::Polish { searches: some, seconds: None, seed: begin, from: first, kicks_alone, keep: 0 }
        if some == searches && begin == seed && first == from && kicks_alone == alone)
}

/// Whether the words ask who may take the shift of this name on this day, with a skill or with any, from a
/// week on.
fn asks_who(alloc: Global, words: &[&str], (day, shift, skill, from): Wanted<'_>) -> bool {
    let Ok(request) = request_of(alloc, words) else {
        return false;
    };
    let Command::Who {
        day: on,
        shift: of,
        skill: with,
        from: first,
        json: false,
    } = &request.command
    else {
        return false;
    };
    let with = match with {
        None => None,
        Some(it) => Some(it.as_str()),
    };
    on.as_str() == day && of.as_str() == shift && with == skill && *first == from
}

/// An assignment as words ask for it: its day, its shift, its skill if one is named, and the first week that
/// may change.
type Wanted<'a> = (&'a str, &'a str, Option<&'a str>, u16);

#[test]
fn assignments_of_words(rt: HostRuntime) {
    let words = [
        "roster", "who", "--shift", "Early", "--day", "1:Wed", "--skill", "Head", "--from", "1",
    ];
    assert!(rt; asks_who(rt.alloc(), &words, ("1:Wed", "Early", Some("Head"), 1)));
    assert!(rt; asks_who(rt.alloc(), &words[..6], ("1:Wed", "Early", None, 0)));
    assert!(rt; !asks_who(rt.alloc(), &words[..4], ("1:Wed", "Early", None, 0)));
}

#[test]
fn requests_of_words(rt: HostRuntime) {
    let words = ["roster", "improve", "--rounds", "5", "a.txt"];
    assert!(rt; asks_for_run(rt.alloc(), &words, (5, 0), &["a.txt"]));
    assert!(rt; asks_for_run(rt.alloc(), &words[..2], (100, 0), &[]));
    let frozen = [
        "roster", "improve", "--from", "52", "--rounds", "5", "a.txt",
    ];
    assert!(rt; asks_for_run(rt.alloc(), &frozen, (5, 52), &["a.txt"]));
    assert!(rt; asks_for_run(rt.alloc(), &frozen[..4], (100, 52), &[]));
    let words = [
        "roster", "bound", "--rounds", "7", "--from", "3", "--keep", "100",
    ];
    assert!(rt; asks_for_bound(rt.alloc(), &words, (7, 3, 100)));
    assert!(rt; asks_for_bound(rt.alloc(), &words[..6], (7, 3, 0)));
    assert!(rt; asks_for_bound(rt.alloc(), &words[..2], (100, 0, 0)));
    let words = [
        "roster",
        "polish",
        "--seed",
        "4294967295",
        "--searches",
        "10000000",
        "--from",
        "3",
        "--kicks",
    ];
    let (all, none) = ((Some(10_000_000), u32::MAX, 3, true), (None, 1, 0, false));
    assert!(rt; asks_for_searches(rt.alloc(), &words, all));
    assert!(rt; asks_for_searches(rt.alloc(), &words[..2], none));
    let too_late = request_of(rt.alloc(), &["roster", "improve", "--from", "53"]);
    assert!(rt; matches!(too_late, Err(CliFault::Usage(_))));
    let above = request_of(rt.alloc(), &["roster", "improve", "--rounds", "1001"]);
    assert!(rt; matches!(above, Err(CliFault::Usage(_))));
    let nameless = request_of(rt.alloc(), &["roster", "best"]);
    assert!(rt; matches!(nameless, Err(CliFault::Usage(_))));
}
