//! A command, from the bytes of its input to its output, its log and its status.

ghost use Rattle.std.specs.Prelude.{◌≡◌, ◌≢◌, ◌⊎◌, Contains, [], ◌∷◌, codes};
ghost use Rattle.roster_answers.specs.Answer.{FailsOnce, Logs, input_of, outcome_of, output_of};
ghost use Rattle.roster_cli.specs.Answer.{Answers, IsAnswered, IsLogFailed, IsSilent, StopsRun, PrintsOutput};
ghost use Rattle.roster_cli.specs.Saving.{ShowsSome, ShowsSpelled};

use crate::aids::Aids;
use crate::commands::{keep_of, report};
use crate::faults::report_to;
use roster_answers::{Fault, keep_roster, read_instance, report_fault};
use roster_instance::CaseFault;
use roster_polish::{NoSaves, Saves};
use roster_request::{Command, Request};
use roster_text::{Watch, read_all};
use roster_timer::NoClock;
use std::alloc::Global;
use std::io::{Read, Write};
use std::time::Clock;

/// Answers a request: reads the input to its end, writes the output, and answers the status. The command's
/// log goes to `log`, all of it before the output begins, and after that the line of a fault. If the request
/// names a file for the output, its path stands in the line of a write that fails. There is no clock, so a
/// limit of time doesn't end it.
pub fn run<R: Read, Out: Write, Log: Write>(
    alloc: Global,
    request: &Request,
    input: &mut Watch<R>,
    output: &mut Watch<Out>,
    log: &mut Watch<Log>,
) -> u8
    ensures status { Contains (0 ∷ 1 ∷ 3 ∷ 4 ∷ []) result }

    // What is answered, if nothing is refused.
    ensures done { result ≡ 0 → IsAnswered (input_of R.remaining input.old input.new)
        (output_of Out.contents output.old output.new)
        (output_of Log.contents log.old log.new) request.now.command }
    ensures silent { result ≡ 0 → IsSilent request.now.command → log.new ≡ log.old }

    // Otherwise there is a fault, with its status and its line.
    ensures refused { result ≢ 0 → StopsRun (input_of R.remaining input.old input.new)
        (output_of Out.contents output.old output.new)
        (output_of Log.contents log.old log.new) request.now result }

    // A read or an output write that fails is reported as such. The only other cause of status 3 is a log
    // that fails.
    ensures read_failed { input.new.failures ≢ input.old.failures → (result ≡ 3)
        × (output.new ≡ output.old) × Logs Log.contents log.old log.new (codes "read failed\n") }
    ensures write_failed { output.new.failures ≢ output.old.failures → (result ≡ 3)
        × PrintsOutput (output_of Log.contents log.old log.new) request.now }
    ensures device { result ≡ 3 → FailsOnce input.old input.new ⊎ FailsOnce output.old output.new
        ⊎ IsLogFailed (output_of Log.contents log.old log.new) request.now.command }
{
    run_timed(alloc, request, NoClock, input, output, log)
}

/// The same with a clock, by which a run ends that has a limit of time.
pub fn run_timed<K: Clock + Copy, R: Read, Out: Write, Log: Write>(
    alloc: Global,
    request: &Request,
    clock: K,
    input: &mut Watch<R>,
    output: &mut Watch<Out>,
    log: &mut Watch<Log>,
) -> u8
    ensures status { Contains (0 ∷ 1 ∷ 3 ∷ 4 ∷ []) result }

    // What is answered, if nothing is refused.
    ensures done { result ≡ 0 → IsAnswered (input_of R.remaining input.old input.new)
        (output_of Out.contents output.old output.new)
        (output_of Log.contents log.old log.new) request.now.command }
    ensures silent { result ≡ 0 → IsSilent request.now.command → log.new ≡ log.old }

    // Otherwise there is a fault, with its status and its line.
    ensures refused { result ≢ 0 → StopsRun (input_of R.remaining input.old input.new)
        (output_of Out.contents output.old output.new)
        (output_of Log.contents log.old log.new) request.now result }

    // A read or an output write that fails is reported as such. The only other cause of status 3 is a log
    // that fails.
    ensures read_failed { input.new.failures ≢ input.old.failures → (result ≡ 3)
        × (output.new ≡ output.old) × Logs Log.contents log.old log.new (codes "read failed\n") }
    ensures write_failed { output.new.failures ≢ output.old.failures → (result ≡ 3)
        × PrintsOutput (output_of Log.contents log.old log.new) request.now }
    ensures device { result ≡ 3 → FailsOnce input.old input.new ⊎ FailsOnce output.old output.new
        ⊎ IsLogFailed (output_of Log.contents log.old log.new) request.now.command }
{
    let mut aids = Aids::new(alloc, clock, NoSaves);
    run_saving(&mut aids, request, input, output, log)
}

/// The same with a saver, which is shown the rosters of a run that the log has reported.
pub fn run_saving<K: Clock + Copy, S: Saves, R: Read, Out: Write, Log: Write>(
    aids: &mut Aids<K, S>,
    request: &Request,
    input: &mut Watch<R>,
    output: &mut Watch<Out>,
    log: &mut Watch<Log>,
) -> u8
    ensures status { Contains (0 ∷ 1 ∷ 3 ∷ 4 ∷ []) result }

    // What is answered, if nothing is refused.
    ensures done { result ≡ 0 → IsAnswered (input_of R.remaining input.old input.new)
        (output_of Out.contents output.old output.new)
        (output_of Log.contents log.old log.new) request.now.command }
    ensures silent { result ≡ 0 → IsSilent request.now.command → log.new ≡ log.old }

    // Otherwise there is a fault, with its status and its line.
    ensures refused { result ≢ 0 → StopsRun (input_of R.remaining input.old input.new)
        (output_of Out.contents output.old output.new)
        (output_of Log.contents log.old log.new) request.now result }

    // A read or an output write that fails is reported as such. The only other cause of status 3 is a log
    // that fails.
    ensures read_failed { input.new.failures ≢ input.old.failures → (result ≡ 3)
        × (output.new ≡ output.old) × Logs Log.contents log.old log.new (codes "read failed\n") }
    ensures write_failed { output.new.failures ≢ output.old.failures → (result ≡ 3)
        × PrintsOutput (output_of Log.contents log.old log.new) request.now }
    ensures device { result ≡ 3 → FailsOnce input.old input.new ⊎ FailsOnce output.old output.new
        ⊎ IsLogFailed (output_of Log.contents log.old log.new) request.now.command }

    // What is shown while the run goes on.
    ensures saved { ShowsSome S.Saw Log.contents log.old request.now.command
        aids.old.reporting.saver aids.new.reporting.saver }
{
    run_command(aids, request, input, output, log)
}

fn run_command<K: Clock + Copy, S: Saves, R: Read, Out: Write, Log: Write>(
    aids: &mut Aids<K, S>,
    request: &Request,
    input: &mut Watch<R>,
    output: &mut Watch<Out>,
    log: &mut Watch<Log>,
) -> u8
    ensures done { result ≡ 0 → IsAnswered (input_of R.remaining input.old input.new)
        (output_of Out.contents output.old output.new)
        (output_of Log.contents log.old log.new) request.now.command }
    ensures refused { result ≢ 0 → StopsRun (input_of R.remaining input.old input.new)
        (output_of Out.contents output.old output.new)
        (output_of Log.contents log.old log.new) request.now result }
    ensures saved { ShowsSome S.Saw Log.contents log.old request.now.command
        aids.old.reporting.saver aids.new.reporting.saver }
{
    let source = match read_all(aids.alloc, input) {
        Ok(source) => source,
        Err(fault) => return report_fault(Fault::Text(fault), log),
    };
    match report_bytes(aids, &request.command, &source, output, log) {
        Ok(()) => 0,
        Err(fault) => report_to(fault, &request.out, log),
    }
}

/// Reports on the instance that the bytes spell.
fn report_bytes<'a, K: Clock + Copy, S: Saves, Out: Write, Log: Write>(
    aids: &mut Aids<K, S>,
    command: &'a Command,
    source: &'a [u8],
    output: &mut Watch<Out>,
    log: &mut Watch<Log>,
) -> Result<(), Fault<'a>>
    ensures answers { Answers (output_of Out.contents output.old output.new)
        (output_of Log.contents log.old log.new) command.now source.now (outcome_of result) }
    ensures saved { ShowsSpelled S.Saw Log.contents log.old command.now source.now
        aids.old.reporting.saver aids.new.reporting.saver }
{
    let given = read_instance(aids.alloc, source)?;
    let Ok(instance) = keep_roster(aids.alloc, given, keep_of(command)) else {
        return Err(Fault::Case(CaseFault::Memory, &[]));
    };
    report(aids, command, instance, output, log)
}
