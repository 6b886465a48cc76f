//! An answer that goes to a file: all of it, or what stood there stays.

ghost use Rattle.std.specs.Prelude.{◌≡◌, Contains, Some, map, string_bytes, true};
ghost use Rattle.std.specs.List.{list_any};
ghost use Rattle.std.specs.Str.{bytes_eq};
ghost use Rattle.roster_cli.specs.Answer.{out_of};
ghost use Rattle.roster_cli.specs.Start.{EndsInFile, SparesInputs};
ghost use Rattle.roster_out.specs.Places.{IsTemporaryName};

use crate::aids::Aids;
use crate::faults::{refuse_input, refuse_write};
use crate::saver::{FileSaver, micros_of};
use crate::start::{Means, answer_over};
use roster_answers::refuse;
use roster_out::{Disk, Place, late_writer, put_last, remove_last, temporary_name};
use roster_request::Request;
use roster_text::{TextFault, Watch};
use std::io;
use std::io::{Read, Write};
use std::time::Clock;

/// Answers a request, with the answer in the file of this path, which is the one that the request names. What
/// would refuse the file is looked for before anything is read.
pub(crate) fn answer_into<
    K: Clock + Copy,
    D: Disk + Copy,
    File: Read + Drop,
    F: FnMut(&str) -> io::Result<File>,
    In: Read + Drop,
    Log: Write,
>(
    means: Means<K, D>,
    request: &Request,
    path: &str,
    opener: &mut F,
    input: In,
    log: &mut Watch<Log>,
) -> u8
    requires callable { F.IsAlwaysCallable opener.old }
    requires named { out_of request.now ≡ Some path.now }
    ensures inputs { SparesInputs Log.contents request.now opener.old opener.new result log.old
        log.new }
    ensures file { EndsInFile F.FnMut opener.old opener.new In.remaining File.remaining D.fresh
        D.File.contents D.Flushes D.Renames means.disk Log.contents request.now input result log.old
        log.new }
{
    if is_read(&means.disk, &request.files, path) {
        return refuse_input(path, log);
    }
    // No run before this one had this number.
    let number = micros_of(means.clock.since_1970());
    let Ok(temporary) = temporary_name(means.alloc, path, number) else {
        return refuse(TextFault::Memory, log);
    };
    let place = Place {
        disk: means.disk,
        temporary: temporary.as_str(),
        path,
    };
    answer_at(means, request, &place, opener, input, log)
}

/// The same with the place of the file. While a run goes on, a saver puts rosters there that the log has
/// reported, and all memory that it needs is asked for before the run.
fn answer_at<
    K: Clock + Copy,
    D: Disk + Copy,
    File: Read + Drop,
    F: FnMut(&str) -> io::Result<File>,
    In: Read + Drop,
    Log: Write,
>(
    means: Means<K, D>,
    request: &Request,
    place: &Place<'_, D>,
    opener: &mut F,
    input: In,
    log: &mut Watch<Log>,
) -> u8
    requires callable { F.IsAlwaysCallable opener.old }
    requires named { out_of request.now ≡ Some place.now.path.now }
    requires temporary { IsTemporaryName place.now.path.now place.now.temporary.now }
    ensures file { EndsInFile F.FnMut opener.old opener.new In.remaining File.remaining D.fresh
        D.File.contents D.Flushes D.Renames place.now.disk Log.contents request.now input result
        log.old log.new }
{
    if !place.is_open() {
        return refuse_write(&request.out, log);
    }
    let Ok(writer) = late_writer(means.alloc, place) else {
        return refuse(TextFault::Memory, log);
    };
    let Ok(early) = late_writer(means.alloc, place) else {
        return refuse(TextFault::Memory, log);
    };
    let saver = FileSaver::new(means.clock, place, early);
    let mut aids = Aids::new(means.alloc, means.clock, saver);
    let (status, written) = answer_over(&mut aids, request, opener, input, writer, log);
    if status != 0 {
        remove_last(place, written);
        return status;
    }
    if put_last(place, written) {
        return 0;
    }
    refuse_write(&request.out, log)
}

/// Whether the file of this path is one of those that are read, or standard input if none is.
fn is_read<D: Disk>(disk: &D, files: &[String], path: &str) -> bool
    ensures named { Contains (map string_bytes files.now) path.now → result ≡ true }
{
    if files.is_empty() {
        return disk.is_one(STANDARD_INPUT, path);
    }
    is_named(files, path) || files.iter().any(|file| disk.is_one(file.as_str(), path))
}

/// Whether one of these files is named by the path itself.
fn is_named(files: &[String], path: &str) -> bool
    ensures { result ≡ list_any (λ file. bytes_eq path.now (string_bytes file)) files.now }
{
    files.iter().any(|file| path == file.as_str())
}

const STANDARD_INPUT: &str = "/dev/stdin";
