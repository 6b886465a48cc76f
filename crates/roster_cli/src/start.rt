//! The program from its words and streams to its status.

ghost use Rattle.std.specs.Prelude.{◌≡◌, [], IfErr, IfOk, OnSome, map, option_map, string_bytes};
ghost use Rattle.std.specs.Io.KnownBytes.{Keeps};
ghost use Rattle.std.specs.Io.Buffered.{writer_buffer, writer_contents};
ghost use Rattle.roster_answers.specs.Answer.{Logs};
ghost use Rattle.roster_cli.specs.Answer.{write_line};
ghost use Rattle.roster_cli.specs.Saving.{ShowsSome};
ghost use Rattle.roster_cli.specs.Start.{AnswersCommandLine, AnswersGiven, AnswersWords, AreUnread, AreWordsOf, EndsInFile, EndsOut, EndsOver, FailsToOpenAll, IsUnopened, OpensAll, OpensAndEnds, PrintsWords, SendsText, SparesInputs};

use crate::aids::Aids;
use crate::answer::run_saving;
use crate::faults::refuse_write;
use crate::into_file::answer_into;
use roster_answers::{refuse, refuse_output};
use roster_input::Joined;
use roster_out::{Disk, SystemDisk};
use roster_polish::{NoSaves, Saves};
use roster_request::{CliFault, Request, request_of};
use roster_text::{TextFault, Watch, write_bytes};
use std::alloc::Global;
use std::env::Args;
use std::io::{BufWriter, ErrorKind, Read, Write};
use std::rt::{Env, Files};
use std::time::Clock;
use std::{env, fs, io};

const WORDS_ARE_NO_TEXT: &str = "error: a word of the command line is not UTF-8\n";

/// Answers the command line of a program: reads the files that it names, or `input` if it names none, writes
/// to `output`, and answers the status and the output. What the words are, and what the files contain, no
/// clause can say.
pub fn answer_command_line<
    R: Env + Files + Clock + AllocGlobal,
    In: Read + Drop,
    Out: Write + Drop,
    Log: Write,
>(rt: &R, input: In, output: BufWriter<Out>, log: &mut Watch<Log>) -> (u8, BufWriter<Out>)
    ensures answers { AnswersCommandLine WORDS_ARE_NO_TEXT.now In.remaining R.File.remaining
        (writer_contents Out.contents) writer_buffer Log.contents input result.0 output result.1
        log.old log.new }
{
    answer_given(rt, env::args(rt), input, output, log)
}

/// The same, with what the system gave for the words.
fn answer_given<R: Files + Clock + AllocGlobal, In: Read + Drop, Out: Write + Drop, Log: Write>(
    rt: &R,
    given: io::Result<Args>,
    input: In,
    output: BufWriter<Out>,
    log: &mut Watch<Log>,
) -> (u8, BufWriter<Out>)
    ensures answers { AnswersGiven WORDS_ARE_NO_TEXT.now In.remaining R.File.remaining
        (writer_contents Out.contents) writer_buffer Log.contents given input result.0 output
        result.1 log.old log.new }
{
    match words_of(rt.alloc(), given) {
        Ok(words) => answer_words(rt, &words, input, output, log),
        Err(fault) => refuse_words(fault, output, log),
    }
}

/// The words of the command line, in their order.
fn words_of(alloc: Global, given: io::Result<Args>) -> Result<Vec<String>, CliFault>
    ensures words { IfOk result (λ words. AreWordsOf given (map string_bytes words.items)) }
    ensures unread { IfErr result (AreUnread WORDS_ARE_NO_TEXT.now given) }
{
    let given = match given {
        Ok(given) => given,
        Err(error) if error.kind() == ErrorKind::OutOfMemory => return Err(CliFault::Memory),
        Err(_) => return Err(CliFault::Usage(String::from_str(alloc, WORDS_ARE_NO_TEXT)?)),
    };
    // `collect` would try an allocation again that was refused.
    let mut words = Vec::with_capacity(alloc, given.len())?;
    words.extend(given)?;
    Ok(words)
}

/// Does what these words ask for, the program's name being the first of them. Answers the status and the
/// output.
pub fn answer_words<R: Files + Clock + AllocGlobal, In: Read + Drop, Out: Write + Drop, Log: Write>(
    rt: &R,
    words: &[String],
    input: In,
    output: BufWriter<Out>,
    log: &mut Watch<Log>,
) -> (u8, BufWriter<Out>)
    ensures answers { AnswersWords In.remaining R.File.remaining (writer_contents Out.contents)
        writer_buffer Log.contents (map string_bytes words.now) input result.0 output result.1
        log.old log.new }
{
    let alloc = rt.alloc();
    match request_of(alloc, words) {
        Ok(request) => {
            let mut opener = |path: &str| fs::open(rt, path);
            let means = Means {
                alloc,
                clock: rt,
                disk: SystemDisk { files: rt },
            };
            answer_request(means, &request, &mut opener, input, output, log)
        }
        Err(fault) => refuse_words(fault, output, log),
    }
}

/// Reports why words are no request. A help text is what was asked for, so it goes to the output.
fn refuse_words<Out: Write + Drop, Log: Write>(
    fault: CliFault,
    output: BufWriter<Out>,
    log: &mut Watch<Log>,
) -> (u8, BufWriter<Out>)
    ensures printed { PrintsWords (writer_contents Out.contents) writer_buffer Log.contents fault
        result.0 output result.1 log.old log.new }
{
    match fault {
        CliFault::Memory => (refuse(TextFault::Memory, log), output),
        CliFault::Usage(text) => {
            let _ = write_bytes(log, text.as_bytes());
            (2, output)
        }
        CliFault::Help(text) => help(text.as_bytes(), output, log),
    }
}

/// Writes a help text to the output.
fn help<Out: Write + Drop, Log: Write>(
    text: &[u8],
    mut output: BufWriter<Out>,
    log: &mut Watch<Log>,
) -> (u8, BufWriter<Out>)
    ensures sent { SendsText (writer_contents Out.contents) writer_buffer Log.contents text.now
        result.0 output result.1 log.old log.new }
{
    match output.write_all(text) {
        Ok(()) => flush(output, &None, log),
        Err(_) => (refuse_output(log), output),
    }
}

/// What a run takes from the system: memory, the clock by which it ends if it has a limit of time, and the
/// disk, if the roster goes to a file.
#[derive(Clone, Copy)]
pub(crate) struct Means<K, D> {
    pub(crate) alloc: Global,
    pub(crate) clock: K,
    pub(crate) disk: D,
}

/// Answers a request over the files that it names, each opened by one call, or over `input` if it names none.
/// The answer goes to `output`, or to the file that the request names for it.
fn answer_request<
    K: Clock + Copy,
    D: Disk + Copy,
    File: Read + Drop,
    F: FnMut(&str) -> io::Result<File>,
    In: Read + Drop,
    Out: Write + Drop,
    Log: Write,
>(
    means: Means<K, D>,
    request: &Request,
    opener: &mut F,
    input: In,
    output: BufWriter<Out>,
    log: &mut Watch<Log>,
) -> (u8, BufWriter<Out>)
    requires { F.IsAlwaysCallable opener.old }
    ensures output { EndsOut F.FnMut opener.old opener.new In.remaining File.remaining Out.contents
        Log.contents request.now input result.0 output result.1 log.old log.new }

    // With a file for the answer, nothing goes to the output.
    ensures apart { OnSome request.now.out (result.1 ≡ output) }
    ensures inputs { SparesInputs Log.contents request.now opener.old opener.new result.0 log.old
        log.new }
    ensures file { EndsInFile F.FnMut opener.old opener.new In.remaining File.remaining D.fresh
        D.File.contents D.Flushes D.Renames means.disk Log.contents request.now input result.0
        log.old log.new }
{
    match &request.out {
        None => {
            let mut aids = Aids::new(means.alloc, means.clock, NoSaves);
            answer_over(&mut aids, request, opener, input, output, log)
        }
        Some(path) => {
            let status = answer_into(means, request, path.as_str(), opener, input, log);
            (status, output)
        }
    }
}

/// The same with an output that is open.
pub(crate) fn answer_over<
    K: Clock + Copy,
    S: Saves,
    File: Read + Drop,
    F: FnMut(&str) -> io::Result<File>,
    In: Read + Drop,
    Out: Write + Drop,
    Log: Write,
>(
    aids: &mut Aids<K, S>,
    request: &Request,
    opener: &mut F,
    input: In,
    output: BufWriter<Out>,
    log: &mut Watch<Log>,
) -> (u8, BufWriter<Out>)
    requires { F.IsAlwaysCallable opener.old }
    ensures { OpensAndEnds F.FnMut opener.old opener.new In.remaining File.remaining
        (writer_contents Out.contents) writer_buffer Log.contents request.now input result.0 output
        result.1 log.old log.new }
{
    if request.files.is_empty() {
        return run_and_flush(aids, request, input, output, log);
    }
    match open_all(aids.alloc, &request.files, opener) {
        Ok(files) => run_and_flush(aids, request, Joined::new(files), output, log),
        Err(fault) => (refuse(fault, log), output),
    }
}

/// Opens files in order, each by one call, up to the first that can't be opened.
fn open_all<File: Drop, F: FnMut(&str) -> io::Result<File>>(
    alloc: Global,
    paths: &[String],
    opener: &mut F,
) -> Result<Vec<File>, TextFault>
    requires { F.IsAlwaysCallable opener.old }
    ensures opened { IfOk result (λ files. OpensAll F.FnMut opener.old (map string_bytes paths.now)
        files.items opener.new) }
    ensures failed { IfErr result (FailsToOpenAll F.FnMut opener.old (map string_bytes paths.now)
        opener.new) }
    ensures unopened { IfErr result IsUnopened }
{
    let mut files = Vec::with_capacity(alloc, paths.len())?;
    for path in paths {
        match opener(path.as_str()) {
            Ok(file) => files.push(file)?,
            Err(error) if error.kind() == ErrorKind::OutOfMemory => return Err(TextFault::Memory),
            Err(_) => return Err(TextFault::ReadFailed),
        }
    }
    Ok(files)
}

/// Answers a request over the bytes of one reader.
fn run_and_flush<K: Clock + Copy, S: Saves, In: Read + Drop, Out: Write + Drop, Log: Write>(
    aids: &mut Aids<K, S>,
    request: &Request,
    input: In,
    output: BufWriter<Out>,
    log: &mut Watch<Log>,
) -> (u8, BufWriter<Out>)
    ensures ends { EndsOver In.remaining (writer_contents Out.contents) writer_buffer Log.contents
        request.now input result.0 output result.1 log.old log.new }
    ensures saved { ShowsSome S.Saw Log.contents log.old request.now.command
        aids.old.reporting.saver aids.new.reporting.saver }
{
    let mut input = Watch::new(input);
    let mut watched = Watch::new(output);
    let status = run_saving(aids, request, &mut input, &mut watched, log);
    let output = watched.into_inner();
    if status != 0 {
        return (status, output);
    }
    flush(output, &request.out, log)
}

/// Sends on what is still in the buffer of the output, which goes to `out`, if that names a file.
fn flush<Out: Write + Drop, Log: Write>(
    mut output: BufWriter<Out>,
    out: &Option<String>,
    log: &mut Watch<Log>,
) -> (u8, BufWriter<Out>)
    ensures sent { result.0 ≡ 0 → (writer_buffer result.1 ≡ []) × (log.new ≡ log.old) }
    ensures failed { (result.0 ≡ 0 → ⊥) → (result.0 ≡ 3)
        × Logs Log.contents log.old log.new (write_line (option_map string_bytes out.now)) }
    ensures bytes { Keeps (writer_contents Out.contents output)
        (writer_contents Out.contents result.1) }
{
    match output.flush() {
        Ok(()) => (0, output),
        Err(_) => (refuse_write(out, log), output),
    }
}
