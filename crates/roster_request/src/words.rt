//! From words to a request.

ghost use Rattle.std.specs.Prelude.{◌≡◌, ◌≢◌, ◌≤◌, [], Some, codes, IfOk, IfErr, IfSome, OnOk, IsSomeAnd, map, option_map, string_bytes};
ghost use Rattle.clap.specs.Words.{fault_of, first_of, found_of, kind_of, rows_of, subcommand_rows_of};
ghost use Rattle.roster_request.specs.CommandLine.{AreSeconds, HasArguments, HasFrom, HasKeep, HasNodes, HasNumber, HasNumberIfGiven, HasRounds, HasSearches, HasSeconds, HasSeed, HasText, IsAsked, IsAskedIn, IsFlag, IsGiven, IsInRange, IsNameOf, IsNumberIfGiven, IsNumberOf, IsOneOf, Meets, Refuses, HasKindOf, commands, files_in, name_of, program, with_assignment, with_from, with_keep, with_nodes, with_nurse, with_rounds, with_searches, with_seconds};
ghost use Rattle.roster_request.specs.Limits.{most_from, most_keep, most_nodes, most_rounds, most_searches};

use crate::program::{
    DAY, FILES, FROM, JSON, KEEP, KICKS, NODES, NURSE, NumberOption, OUT, OptionalNumber, ROUNDS,
    SEARCHES, SECONDS, SEED, SHIFT, SKILL, program,
};
use crate::request::{CliFault, Command, Request};
use crate::texts::EXAMPLES;
use clap::ArgMatches;
use clap::error::ErrorKind;
use std::alloc::{AllocError, Global};
use std::convert::AsStr;

/// What the words of a command line ask for. The program's name is the first of them.
pub fn request_of<S: AsStr>(alloc: Global, words: &[S]) -> Result<Request, CliFault>
    // The command with its arguments, the files and the file for the roster are those that clap's matches
    // give for the words.
    ensures request { IfOk result (IsAsked (map S.text words.now)) }
    // The rounds, the branchings, the searches and the seconds of a run, the first week that may change, and
    // the points are within their limits.
    ensures range { IfOk result (λ r. IsInRange r.command) }
    ensures faultless { OnOk result (fault_of program (map S.text words.now) ≡ []) }
    ensures refusal { IfErr result (Refuses (map S.text words.now)) }
    ensures text { IfErr result HasText }
{
    match program(alloc)?.try_get_matches_from(words) {
        Ok(matches) => request_in(alloc, &matches),
        Err(error) => Err(refusal(alloc, words, &error)),
    }
}

fn request_in(alloc: Global, matches: &ArgMatches<'_>) -> Result<Request, CliFault>
    requires met { IsSomeAnd (subcommand_rows_of matches.now) (λ met. IsNameOf commands met.0) }
    requires nurse { Meets with_nurse (IsGiven (codes "nurse")) (subcommand_rows_of matches.now) }
    requires day { Meets with_assignment (IsGiven (codes "day")) (subcommand_rows_of matches.now) }
    requires shift { Meets with_assignment (IsGiven (codes "shift"))
        (subcommand_rows_of matches.now) }
    requires rounds { Meets with_rounds HasRounds (subcommand_rows_of matches.now) }
    requires nodes { Meets with_nodes HasNodes (subcommand_rows_of matches.now) }
    requires searches { Meets with_searches HasSearches (subcommand_rows_of matches.now) }
    requires seconds { Meets with_seconds HasSeconds (subcommand_rows_of matches.now) }
    requires seed { Meets with_searches HasSeed (subcommand_rows_of matches.now) }
    requires from { Meets with_from HasFrom (subcommand_rows_of matches.now) }
    requires keep { Meets with_keep HasKeep (subcommand_rows_of matches.now) }
    ensures request { IfOk result (IsAskedIn (subcommand_rows_of matches.now)) }
    ensures range { IfOk result (λ r. IsInRange r.command) }
    ensures memory { IfErr result (λ e. e ≡ CliFault.Memory) }
{
    let Some((name, given)) = matches.subcommand() else {
        unreachable!()
    };
    Ok(Request {
        command: command_in(alloc, name, given)?,
        files: files_of(alloc, given)?,
        out: text_if_given(alloc, given, OUT)?,
    })
}

/// The command of this name, with its own arguments.
fn command_in(alloc: Global, name: &str, given: &ArgMatches<'_>) -> Result<Command, AllocError>
    requires name { IsNameOf commands name.now }
    requires nurse { IsOneOf with_nurse name.now →
        IsGiven (codes "nurse") (rows_of (found_of given.now)) }
    requires day { IsOneOf with_assignment name.now →
        IsGiven (codes "day") (rows_of (found_of given.now)) }
    requires shift { IsOneOf with_assignment name.now →
        IsGiven (codes "shift") (rows_of (found_of given.now)) }
    requires rounds { IsOneOf with_rounds name.now → HasRounds (rows_of (found_of given.now)) }
    requires nodes { IsOneOf with_nodes name.now → HasNodes (rows_of (found_of given.now)) }
    requires searches { IsOneOf with_searches name.now →
        HasSearches (rows_of (found_of given.now)) }
    requires seconds { IsOneOf with_seconds name.now → HasSeconds (rows_of (found_of given.now)) }
    requires seed { IsOneOf with_searches name.now → HasSeed (rows_of (found_of given.now)) }
    requires from { IsOneOf with_from name.now → HasFrom (rows_of (found_of given.now)) }
    requires keep { IsOneOf with_keep name.now → HasKeep (rows_of (found_of given.now)) }
    ensures name { IfOk result (λ command. name_of command ≡ name.now) }
    ensures arguments { IfOk result (λ command. HasArguments command
        (rows_of (found_of given.now))) }
    ensures range { IfOk result IsInRange }
{
    match name {
        "show" => Ok(Command::Show),
        "cost" => Ok(Command::Cost {
            json: json_of(given),
        }),
        "sizes" => Ok(Command::Sizes {
            json: json_of(given),
        }),
        "best" => Ok(Command::Best {
            nurse: given_text(alloc, given, NURSE)?,
            from: from_of(given),
            keep: keep_of(given),
        }),
        "improve" => Ok(Command::Improve {
            rounds: rounds_of(given),
            from: from_of(given),
            keep: keep_of(given),
        }),
        "bound" => Ok(Command::Bound {
            rounds: rounds_of(given),
            nodes: nodes_of(given),
            seconds: seconds_of(given),
            from: from_of(given),
            keep: keep_of(given),
        }),
        "polish" => Ok(Command::Polish {
            searches: searches_of(given),
            seconds: seconds_of(given),
            seed: seed_of(given),
            from: from_of(given),
            kicks_alone: kicks_alone_of(given),
            keep: keep_of(given),
        }),
        "plan" => Ok(Command::Plan {
            searches: searches_of(given),
            seconds: seconds_of(given),
            seed: seed_of(given),
            from: from_of(given),
            keep: keep_of(given),
        }),
        "who" => Ok(Command::Who {
            day: given_text(alloc, given, DAY)?,
            shift: given_text(alloc, given, SHIFT)?,
            skill: text_if_given(alloc, given, SKILL)?,
            from: from_of(given),
            json: json_of(given),
        }),
        _ => unreachable!(),
    }
}

/// The text of a required argument.
fn given_text(alloc: Global, given: &ArgMatches<'_>, name: &str) -> Result<String, AllocError>
    requires { IsGiven name.now (rows_of (found_of given.now)) }
    ensures { IfOk result (λ text. first_of name.now (rows_of (found_of given.now)) ≡ Some
        (string_bytes text)) }
{
    let Some(text) = given.get_str(name) else {
        unreachable!()
    };
    String::from_str(alloc, text)
}

/// The text of an argument, if it is given.
fn text_if_given(
    alloc: Global,
    given: &ArgMatches<'_>,
    name: &str,
) -> Result<Option<String>, AllocError>
    ensures { IfOk result (λ text. first_of name.now (rows_of (found_of given.now))
        ≡ option_map string_bytes text) }
{
    match given.get_str(name) {
        None => Ok(None),
        Some(text) => Ok(Some(String::from_str(alloc, text)?)),
    }
}

/// The number of rounds.
fn rounds_of(given: &ArgMatches<'_>) -> u16
    requires { HasRounds (rows_of (found_of given.now)) }
    ensures rounds { IsNumberOf (codes "rounds") result (rows_of (found_of given.now)) }
    ensures range { result ≤ most_rounds }
{
    number_of(given, ROUNDS) as u16
}

/// How many branchings a lower bound may make.
fn nodes_of(given: &ArgMatches<'_>) -> u16
    requires { HasNodes (rows_of (found_of given.now)) }
    ensures nodes { IsNumberOf (codes "nodes") result (rows_of (found_of given.now)) }
    ensures range { result ≤ most_nodes }
{
    number_of(given, NODES) as u16
}

/// The number of searches, if one is given.
fn searches_of(given: &ArgMatches<'_>) -> Option<u32>
    requires { HasSearches (rows_of (found_of given.now)) }
    ensures searches { IsNumberIfGiven (codes "searches") result (rows_of (found_of given.now)) }
    ensures range { IfSome result (λ searches. searches ≤ most_searches) }
{
    number_if_given(given, SEARCHES)
}

/// After about how many seconds the run ends at the latest, if that is given.
fn seconds_of(given: &ArgMatches<'_>) -> Option<u32>
    requires { HasSeconds (rows_of (found_of given.now)) }
    ensures seconds { IsNumberIfGiven (codes "seconds") result (rows_of (found_of given.now)) }
    ensures range { IfSome result AreSeconds }
{
    number_if_given(given, SECONDS)
}

/// The seed of the random numbers.
fn seed_of(given: &ArgMatches<'_>) -> u32
    requires { HasSeed (rows_of (found_of given.now)) }
    ensures { IsNumberOf (codes "seed") result (rows_of (found_of given.now)) }
{
    number_of(given, SEED)
}

/// Whether only kicks are asked for.
fn kicks_alone_of(given: &ArgMatches<'_>) -> bool
    ensures { IsFlag (codes "kicks") result (rows_of (found_of given.now)) }
{
    given.get_flag(KICKS)
}

/// Whether the report is to be JSON.
fn json_of(given: &ArgMatches<'_>) -> bool
    ensures { IsFlag (codes "json") result (rows_of (found_of given.now)) }
{
    given.get_flag(JSON)
}

/// The first week that may change.
fn from_of(given: &ArgMatches<'_>) -> u16
    requires { HasFrom (rows_of (found_of given.now)) }
    ensures from { IsNumberOf (codes "from") result (rows_of (found_of given.now)) }
    ensures range { result ≤ most_from }
{
    number_of(given, FROM) as u16
}

/// How many points each day costs that changes from the given roster.
fn keep_of(given: &ArgMatches<'_>) -> u16
    requires { HasKeep (rows_of (found_of given.now)) }
    ensures keep { IsNumberOf (codes "keep") result (rows_of (found_of given.now)) }
    ensures range { result ≤ most_keep }
{
    number_of(given, KEEP) as u16
}

/// The number of an option, which `clap` has read in its range, or has by its default.
fn number_of(given: &ArgMatches<'_>, option: NumberOption) -> u32
    requires { HasNumber option.name.now 0 option.most (rows_of (found_of given.now)) }
    ensures number { IsNumberOf option.name.now result (rows_of (found_of given.now)) }
    ensures range { result ≤ option.most }
{
    let Some(number) = given.get_one::<u32>(option.name) else {
        unreachable!()
    };
    number
}

/// The number of an option without a default, which `clap` has read in its range if it is given.
fn number_if_given(given: &ArgMatches<'_>, option: OptionalNumber) -> Option<u32>
    requires { HasNumberIfGiven option.name.now option.least option.most
        (rows_of (found_of given.now)) }
    ensures number { IsNumberIfGiven option.name.now result (rows_of (found_of given.now)) }
    ensures range { IfSome result (λ n. (option.least ≤ n) × (n ≤ option.most)) }
{
    given.get_one::<u32>(option.name)
}

fn files_of(alloc: Global, given: &ArgMatches<'_>) -> Result<Vec<String>, AllocError>
    ensures { IfOk result (λ files. map string_bytes files.items ≡ files_in
        (rows_of (found_of given.now))) }
{
    let mut files = Vec::new(alloc);
    for file in given.get_strs(FILES).unwrap_or(&[]) {
        files.push(String::from_str(alloc, file)?)?;
    }
    Ok(files)
}

/// Why words are no request, if `clap` refuses them with this error.
fn refusal<S: AsStr>(alloc: Global, words: &[S], error: &clap::Error) -> CliFault
    ensures kind { HasKindOf (kind_of error.now) result }
    ensures text { HasText result }
{
    if error.kind() == ErrorKind::OutOfMemory {
        return CliFault::Memory;
    }
    match message(alloc, words, error) {
        Err(_) => CliFault::Memory,
        Ok(text) if error.use_stderr() => CliFault::Usage(text),
        Ok(text) => CliFault::Help(text),
    }
}

/// The text of an error. `clap` takes a negative number for an unknown option; then the text says instead
/// that the number isn't taken. (`clap` doesn't state the matches of a command that allows negative numbers.)
fn message<S: AsStr>(alloc: Global, words: &[S], error: &clap::Error) -> Result<String, AllocError>
    ensures { IfOk result (λ text. string_bytes text ≢ []) }
{
    if error.kind() != ErrorKind::UnknownArgument {
        return text_of(alloc, error);
    }
    let joined = with_numbers_joined(alloc, words)?;
    match refused(alloc, joined.as_slice())? {
        Some(other) => text_of(alloc, &other),
        None => text_of(alloc, error),
    }
}

/// The error of words of which a value isn't taken.
fn refused<'a>(alloc: Global, words: &'a [String]) -> Result<Option<clap::Error>, AllocError> {
    match program(alloc)?.try_get_matches_from(words) {
        Ok(_matches) => Ok(None),
        Err(error) => match error.kind() {
            ErrorKind::ValueValidation => Ok(Some(error)),
            ErrorKind::OutOfMemory => Err(AllocError),
            _ => Ok(None),
        },
    }
}

/// The words, with each negative number joined to the option before it, as in `--from=-1`.
fn with_numbers_joined<S: AsStr>(alloc: Global, words: &[S]) -> Result<Vec<String>, AllocError> {
    let mut joined: Vec<String> = Vec::with_capacity(alloc, words.len())?;
    let mut before = "";
    for word in words {
        let word = word.as_str();
        match joined.last_mut() {
            Some(option) if is_option(before) && is_negative(word) => {
                option.push_str("=")?;
                option.push_str(word)?;
            }
            _ => joined.push(String::from_str(alloc, word)?)?,
        }
        before = word;
    }
    Ok(joined)
}

/// Whether a word is an option without a value in it.
fn is_option(word: &str) -> bool {
    word.starts_with("--") && !word.contains('=')
}

/// Whether a word begins as a negative number does.
fn is_negative(word: &str) -> bool {
    matches!(word.as_bytes(), [b'-', b'0'..=b'9', ..])
}

/// The text of an error. `clap` doesn't promise that there is one; if it is empty, the examples take its
/// place.
fn text_of(alloc: Global, error: &clap::Error) -> Result<String, AllocError>
    ensures { IfOk result (λ text. string_bytes text ≢ []) }
{
    let text = error.to_string(alloc)?;
    if text.is_empty() {
        return String::from_str(alloc, EXAMPLES);
    }
    Ok(text)
}
