//! The command line of the program, as `clap` reads it.

ghost use Rattle.std.specs.Prelude.{◌≡◌, [], ◌∷◌, codes, drop, IfOk, IsOkAnd, false, true};
ghost use Rattle.std.specs.List.{fold};
ghost use Rattle.clap.specs.Words.{app_of, new_app, rule_of, with_rule, with_subcommand};
ghost use Rattle.roster_request.specs.CommandLine.{bare, command_of, commands, files_rule, flag_rule, from_rule, given_rule, json_rule, keep_rule, kicks_rule, nodes_rule, number_rule, optional_rule, out_rule, own_command_of, nurse_rule, plan, program, report_of, rounds_rule, searches_rule, searching, seconds_rule, seed_rule, skill_rule, value_rule, who};

use crate::texts::{
    ABOUT, BEST, BEST_HELP, BOUND, BOUND_HELP, COST, COST_HELP, EXAMPLES, FIRST_WEEK, IMPROVE,
    IMPROVE_HELP, JSON_LINES, KEPT_POINTS, KICKS_ALONE, NODE_COUNT, NURSE_NAME, OUT_FILE, PLAN,
    PLAN_HELP, POLISH, POLISH_HELP, ROUND_COUNT, SEARCH_COUNT, SECOND_COUNT, SEED_NUMBER,
    SHIFT_NAME, SHOW, SHOW_HELP, SIZES, SIZES_HELP, SKILL_NAME, TEXTS, WEEK_AND_DAY, WHO, WHO_HELP,
};
use clap::builder::ValueParser;
use clap::{Arg, ArgAction, Command};
use std::alloc::{AllocError, Global};

/// The name of the argument for a command's files.
pub(crate) const FILES: &str = "FILE";

/// The name of the option for a command's nurse.
pub(crate) const NURSE: &str = "nurse";

/// The names of the options for an assignment.
pub(crate) const DAY: &str = "day";

pub(crate) const SHIFT: &str = "shift";

pub(crate) const SKILL: &str = "skill";

/// The name of the option for the file to which the roster goes.
pub(crate) const OUT: &str = "out";

/// The name of the flag for kicks only.
pub(crate) const KICKS: &str = "kicks";

/// The name of the flag for a report as JSON.
pub(crate) const JSON: &str = "json";

/// A number that a command may be given by the option `name`, from 0 to `most`. It is `default` if it isn't
/// given. The help calls it `value`, and says `help` about it.
#[derive(Clone, Copy)]
pub(crate) struct NumberOption {
    pub(crate) name: &'static str,
    pub(crate) value: &'static str,
    pub(crate) most: u32,
    pub(crate) default: &'static str,
    pub(crate) help: &'static str,
}

/// How many rounds a run may make.
pub(crate) const ROUNDS: NumberOption = NumberOption {
    name: "rounds",
    value: "N",
    most: 1000,
    default: "100",
    help: ROUND_COUNT,
};

/// How many branchings a lower bound may make.
pub(crate) const NODES: NumberOption = NumberOption {
    name: "nodes",
    value: "N",
    most: 10_000,
    default: "0",
    help: NODE_COUNT,
};

/// A number that a command may be given by the option `name`, from `least` to `most`. It has no default. The
/// help calls it `value`, and says `help` about it.
#[derive(Clone, Copy)]
pub(crate) struct OptionalNumber {
    pub(crate) name: &'static str,
    pub(crate) value: &'static str,
    pub(crate) least: u32,
    pub(crate) most: u32,
    pub(crate) help: &'static str,
}

/// How many searches a run may make. If they are left out, their number depends on the case.
pub(crate) const SEARCHES: OptionalNumber = OptionalNumber {
    name: "searches",
    value: "N",
    least: 0,
    most: 10_000_000,
    help: SEARCH_COUNT,
};

/// After about how many seconds a run ends at the latest.
pub(crate) const SECONDS: OptionalNumber = OptionalNumber {
    name: "seconds",
    value: "S",
    least: 1,
    most: 86_400,
    help: SECOND_COUNT,
};

/// The seed of a run's random numbers.
pub(crate) const SEED: NumberOption = NumberOption {
    name: "seed",
    value: "S",
    most: u32::MAX,
    default: "1",
    help: SEED_NUMBER,
};

/// The first week that may change. The greatest freezes all weeks of the longest case.
pub(crate) const FROM: NumberOption = NumberOption {
    name: "from",
    value: "V",
    most: 52,
    default: "0",
    help: FIRST_WEEK,
};

/// How many points each day costs that changes from the given roster.
pub(crate) const KEEP: NumberOption = NumberOption {
    name: "keep",
    value: "N",
    most: 100,
    default: "0",
    help: KEPT_POINTS,
};

/// A command with the arguments that were added so far, or the fault that there was no memory for one of
/// them.
type Made<'a> = Result<Command<'a>, AllocError>;

/// The command line of the program.
pub(crate) fn program<'a>(alloc: Global) -> Result<Command<'a>, AllocError>
    ensures { IfOk result (λ c. app_of c ≡ program) }
{
    let with_show = with_files_command(alloc, Ok(bare(alloc)), "show", SHOW, SHOW_HELP);
    let with_cost = with_report_command(alloc, with_show, "cost", COST, COST_HELP);
    let with_sizes = with_report_command(alloc, with_cost, "sizes", SIZES, SIZES_HELP);
    with_search_commands(alloc, with_sizes)
}

/// A program with the commands that search, after those that it has already.
fn with_search_commands<'a>(alloc: Global, program: Made<'a>) -> Made<'a>
    ensures { IfOk result (λ c. IsOkAnd program.entry
        (λ p. app_of c ≡ fold with_subcommand (app_of p) (drop 3 commands))) }
{
    let with_best = with_command(program, best_command(alloc));
    let with_improve = with_command(with_best, improve_command(alloc));
    let with_bound = with_command(with_improve, bound_command(alloc));
    let with_polish = with_command(with_bound, polish_command(alloc));
    let with_plan = with_command(with_polish, plan_command(alloc));
    with_command(with_plan, who_command(alloc))
}

/// The program before its commands.
fn bare<'a>(alloc: Global) -> Command<'a>
    ensures { app_of result ≡ bare }
{
    Command::new(alloc, "roster")
        .version("1.0.0")
        .about(ABOUT)
        .after_help(EXAMPLES)
        .subcommand_required(true)
        .arg_required_else_help(true)
}

// ---- commands

/// A program with one more command that reads files.
fn with_files_command<'a>(
    alloc: Global,
    program: Made<'a>,
    name: &'a str,
    about: &'a str,
    help: &'a str,
) -> Made<'a>
    ensures { IfOk result (λ c. IsOkAnd program.entry
        (λ p. app_of c ≡ with_subcommand (app_of p) (command_of name.now).top)) }
{
    let command = Ok(command(alloc, name, about, help));
    with_command(program, with_files(alloc, command))
}

/// A program with one more command that writes a report, as JSON if it is asked to.
fn with_report_command<'a>(
    alloc: Global,
    program: Made<'a>,
    name: &'a str,
    about: &'a str,
    help: &'a str,
) -> Made<'a>
    ensures { IfOk result (λ c. IsOkAnd program.entry
        (λ p. app_of c ≡ with_subcommand (app_of p) (report_of name.now).top)) }
{
    let command = Ok(command(alloc, name, about, help));
    with_command(program, with_files(alloc, with_json(alloc, command)))
}

/// A program with one more command.
fn with_command<'a>(program: Made<'a>, command: Made<'a>) -> Made<'a>
    ensures { IfOk result (λ c. IsOkAnd program.entry
        (λ p. IsOkAnd command.entry (λ added. (app_of added).top.is_plain ≡ true →
        app_of c ≡ with_subcommand (app_of p) (app_of added).top))) }
{
    match (program, command) {
        (Ok(program), Ok(command)) => program.subcommand(command),
        (Err(e), other) | (other, Err(e)) => {
            drop(other);
            Err(e)
        }
    }
}

/// The command `best`.
fn best_command<'a>(alloc: Global) -> Made<'a>
    ensures { IfOk result (λ c. app_of c ≡ own_command_of
        (nurse_rule ∷ out_rule ∷ from_rule ∷ keep_rule ∷ [])
        (codes "best")) }
{
    let nurse = given_arg(alloc, NURSE, "NAME", NURSE_NAME);
    let with_nurse = command(alloc, "best", BEST, BEST_HELP).arg(nurse);
    with_weeks(alloc, with_out(alloc, with_nurse))
}

/// The command `who`.
fn who_command<'a>(alloc: Global) -> Made<'a>
    ensures { IfOk result (λ c. app_of c ≡ who) }
{
    let command = Ok(command(alloc, "who", WHO, WHO_HELP));
    let with_day = with_given(alloc, command, DAY, "V:DAY", WEEK_AND_DAY);
    let with_shift = with_given(alloc, with_day, SHIFT, "NAME", SHIFT_NAME);
    let with_from = with_number(alloc, with_skill(alloc, with_shift), FROM);
    with_files(alloc, with_json(alloc, with_from))
}

/// The command `improve`.
fn improve_command<'a>(alloc: Global) -> Made<'a>
    ensures { IfOk result (λ c. app_of c ≡ own_command_of
        (rounds_rule ∷ out_rule ∷ from_rule ∷ keep_rule ∷ [])
        (codes "improve")) }
{
    let command = Ok(command(alloc, "improve", IMPROVE, IMPROVE_HELP));
    let with_rounds = with_number(alloc, command, ROUNDS);
    with_weeks(alloc, with_out(alloc, with_rounds))
}

/// The command `bound`.
fn bound_command<'a>(alloc: Global) -> Made<'a>
    ensures { IfOk result (λ c. app_of c ≡ own_command_of
        (rounds_rule ∷ nodes_rule ∷ seconds_rule ∷ from_rule ∷ keep_rule ∷ []) (codes "bound")) }
{
    let command = Ok(command(alloc, "bound", BOUND, BOUND_HELP));
    let with_rounds = with_number(alloc, command, ROUNDS);
    let with_nodes = with_number(alloc, with_rounds, NODES);
    with_weeks(alloc, with_optional(alloc, with_nodes, SECONDS))
}

/// The command `polish`.
fn polish_command<'a>(alloc: Global) -> Made<'a>
    ensures { IfOk result (λ c. app_of c ≡ own_command_of
        (searches_rule ∷ seconds_rule ∷ seed_rule ∷ kicks_rule ∷ out_rule ∷ from_rule ∷ keep_rule ∷ [])
        (codes "polish")) }
{
    let searching = searching_command(alloc, "polish", POLISH, POLISH_HELP);
    let with_kicks = with_kicks(alloc, searching);
    with_weeks(alloc, with_out(alloc, with_kicks))
}

/// The command `plan`.
fn plan_command<'a>(alloc: Global) -> Made<'a>
    ensures { IfOk result (λ c. app_of c ≡ plan) }
{
    let searching = searching_command(alloc, "plan", PLAN, PLAN_HELP);
    with_weeks(alloc, with_out(alloc, searching))
}

/// A command with a number of searches, with seconds and a seed, before its other arguments.
fn searching_command<'a>(alloc: Global, name: &'a str, about: &'a str, help: &'a str) -> Made<'a>
    ensures { IfOk result (λ c. app_of c ≡ searching name.now) }
{
    let command = Ok(command(alloc, name, about, help));
    let with_searches = with_optional(alloc, command, SEARCHES);
    let with_seconds = with_optional(alloc, with_searches, SECONDS);
    with_number(alloc, with_seconds, SEED)
}

/// A command before its arguments are added, with its help texts.
fn command<'a>(alloc: Global, name: &'a str, about: &'a str, help: &'a str) -> Command<'a>
    ensures { app_of result ≡ new_app name.now }
{
    Command::new(alloc, name).about(about).after_help(help)
}

/// A command with the last of its arguments: the first week that may change, the points for a changed day,
/// and the files.
fn with_weeks<'a>(alloc: Global, command: Made<'a>) -> Made<'a>
    ensures { IfOk result (λ c. IsOkAnd command.entry
        (λ before. app_of c ≡ with_rule (with_rule (with_rule (app_of before) from_rule)
        keep_rule) files_rule)) }
{
    let with_from = with_number(alloc, command, FROM);
    with_files(alloc, with_number(alloc, with_from, KEEP))
}

/// A command with one more required value.
fn with_given<'a>(
    alloc: Global,
    command: Made<'a>,
    name: &'a str,
    value: &'a str,
    help: &'a str,
) -> Made<'a>
    ensures { IfOk result (λ c. IsOkAnd command.entry
        (λ before. app_of c ≡ with_rule (app_of before) (given_rule name.now))) }
{
    command?.arg(given_arg(alloc, name, value, help))
}

/// A command that may be given the name of a skill.
fn with_skill<'a>(alloc: Global, command: Made<'a>) -> Made<'a>
    ensures { IfOk result (λ c. IsOkAnd command.entry
        (λ before. app_of c ≡ with_rule (app_of before) skill_rule)) }
{
    command?.arg(skill_arg(alloc))
}

/// A command whose roster may go to a file.
fn with_out<'a>(alloc: Global, command: Made<'a>) -> Made<'a>
    ensures { IfOk result (λ c. IsOkAnd command.entry
        (λ before. app_of c ≡ with_rule (app_of before) out_rule)) }
{
    command?.arg(out_arg(alloc))
}

/// A command with one more number that has a default.
fn with_number<'a>(alloc: Global, command: Made<'a>, option: NumberOption) -> Made<'a>
    ensures { IfOk result (λ c. IsOkAnd command.entry
        (λ before. app_of c ≡ with_rule (app_of before)
        (number_rule option.name.now option.most option.default.now))) }
{
    command?.arg(number_arg(alloc, option))
}

/// A command with one more number that may be left out.
fn with_optional<'a>(alloc: Global, command: Made<'a>, option: OptionalNumber) -> Made<'a>
    ensures { IfOk result (λ c. IsOkAnd command.entry
        (λ before. app_of c ≡ with_rule (app_of before)
        (optional_rule option.name.now option.least option.most))) }
{
    command?.arg(optional_arg(alloc, option))
}

/// A command that may be asked for kicks only.
fn with_kicks<'a>(alloc: Global, command: Made<'a>) -> Made<'a>
    ensures { IfOk result (λ c. IsOkAnd command.entry
        (λ before. app_of c ≡ with_rule (app_of before) kicks_rule)) }
{
    command?.arg(flag_arg(alloc, KICKS, KICKS_ALONE))
}

/// A command that may be asked for JSON.
fn with_json<'a>(alloc: Global, command: Made<'a>) -> Made<'a>
    ensures { IfOk result (λ c. IsOkAnd command.entry
        (λ before. app_of c ≡ with_rule (app_of before) json_rule)) }
{
    command?.arg(flag_arg(alloc, JSON, JSON_LINES))
}

/// A command that reads any number of files.
fn with_files<'a>(alloc: Global, command: Made<'a>) -> Made<'a>
    ensures { IfOk result (λ c. IsOkAnd command.entry
        (λ before. app_of c ≡ with_rule (app_of before) files_rule)) }
{
    command?.arg(files_arg(alloc))
}

// ---- arguments

/// Any number of files.
fn files_arg<'a>(alloc: Global) -> Arg<'a>
    ensures rule { rule_of result ≡ files_rule }
    ensures local { result.global ≡ false }
{
    Arg::new(alloc, FILES)
        .action(ArgAction::Append)
        .num_args(0..)
        .help(TEXTS)
}

/// A required value.
fn given_arg<'a>(alloc: Global, name: &'a str, value: &'a str, help: &'a str) -> Arg<'a>
    ensures rule { rule_of result ≡ given_rule name.now }
    ensures local { result.global ≡ false }
{
    value_arg(alloc, name, value).required(true).help(help)
}

/// The name of a skill, which may be left out.
fn skill_arg<'a>(alloc: Global) -> Arg<'a>
    ensures rule { rule_of result ≡ skill_rule }
    ensures local { result.global ≡ false }
{
    value_arg(alloc, SKILL, "NAME").help(SKILL_NAME)
}

/// The file to which the roster goes, which may be left out.
fn out_arg<'a>(alloc: Global) -> Arg<'a>
    ensures rule { rule_of result ≡ out_rule }
    ensures local { result.global ≡ false }
{
    value_arg(alloc, OUT, "FILE").help(OUT_FILE)
}

/// A flag.
fn flag_arg<'a>(alloc: Global, name: &'a str, help: &'a str) -> Arg<'a>
    ensures rule { rule_of result ≡ flag_rule name.now }
    ensures local { result.global ≡ false }
{
    Arg::new(alloc, name)
        .long(name)
        .action(ArgAction::SetTrue)
        .help(help)
}

/// A number that may be left out.
fn optional_arg<'a>(alloc: Global, option: OptionalNumber) -> Arg<'a>
    ensures rule { rule_of result ≡ optional_rule option.name.now option.least option.most }
    ensures local { result.global ≡ false }
{
    value_arg(alloc, option.name, option.value)
        .value_parser(ValueParser::Signed(i64::from(option.least), i64::from(option.most)))
        .help(option.help)
}

/// A number that has a default.
fn number_arg<'a>(alloc: Global, option: NumberOption) -> Arg<'a>
    ensures rule { rule_of result ≡ number_rule option.name.now option.most option.default.now }
    ensures local { result.global ≡ false }
{
    value_arg(alloc, option.name, option.value)
        .value_parser(ValueParser::Signed(0, i64::from(option.most)))
        .default_value(option.default)
        .help(option.help)
}

/// An option with a value, which the help calls `value`.
fn value_arg<'a>(alloc: Global, name: &'a str, value: &'a str) -> Arg<'a>
    ensures rule { rule_of result ≡ value_rule name.now }
    ensures local { result.global ≡ false }
{
    Arg::new(alloc, name)
        .long(name)
        .value_name(value)
        .action(ArgAction::Set)
}
