// The arguments that the program takes, as they are declared.
ghost use Rattle.std.specs.Prelude.{◌≡◌, ◌++◌, IfOk, List, [], codes};
ghost use Rattle.clap.specs.Walk.{Rule, Text};
ghost use Rattle.clap.specs.Words.{app_of};
ghost use Rattle.command_line.specs.Program as app;

use crate::help::{
    ANSWERS, APPLY_USAGE, ARCHIVE_STATUS_HELP, CHECK_PLAN_USAGE, CHECK_REFUTATION_USAGE, GUIDE,
    KEEP_BACK_HELP, QUESTIONS, REFUTATION_FORMAT_HELP, REFUTATIONS_HELP, RELATION_HELP, SHARD_HELP,
    SOLVE_USAGE, VERSION, VERSION_AND_TOOLCHAIN, WITHOUT_ESSENTIAL_HELP,
};
use clap::{Arg, ArgAction, Command, value_parser};
use std::alloc::{AllocError, Global};

/// The command line of the program. Memory alone can fail.
pub fn program<'a>(alloc: Global) -> Result<Command<'a>, AllocError>
    ensures { IfOk result (λ c. app_of c ≡ app.debplan_app) }
{
    let start = command_of(
        alloc,
        "debplan",
        "Find and check plans of dpkg actions for Debian packages",
        GUIDE,
    )
    .version(VERSION)
    .long_version(VERSION_AND_TOOLCHAIN)
    .subcommand_required(true);
    let with_compare = start.subcommand(compare(alloc)?)?;
    let with_candidate = with_compare.subcommand(candidate(alloc)?)?;
    let with_solve = with_candidate.subcommand(solve(alloc)?)?;
    let with_plan = with_solve.subcommand(check_plan(alloc)?)?;
    let with_refutation = with_plan.subcommand(check_refutation(alloc)?)?;
    let with_apply = with_refutation.subcommand(apply(alloc)?)?;
    let with_installable = with_apply.subcommand(installable(alloc)?)?;
    let whole = with_installable.subcommand(batch(alloc)?)?;
    Ok(whole)
}

// The command of this name, which does this, with the text below its help.
fn command_of<'a>(alloc: Global, name: &'a str, about: &'a str, below: &'a str) -> Command<'a>
    ensures { app.Declares (app.command name.entry.now []) result }
{
    Command::new(alloc, name).about(about).after_help(below)
}

fn compare<'a>(alloc: Global) -> Result<Command<'a>, AllocError>
    ensures { IfOk result (app.Declares app.compare_command) }
{
    let start = command_of(alloc, "compare", "Compare two versions", ANSWERS);
    let version = word(alloc, "version", "V", "A version");
    let relation = word(alloc, "relation", "REL", RELATION_HELP);
    let other = word(alloc, "other", "W", "The version to compare it to");
    let with_version = start.arg(version)?;
    let with_relation = with_version.arg(relation)?;
    let whole = with_relation.arg(other)?;
    Ok(whole)
}

fn candidate<'a>(alloc: Global) -> Result<Command<'a>, AllocError>
    ensures { IfOk result (app.Declares app.candidate_command) }
{
    let start = command_of(
        alloc,
        "candidate",
        "Show the candidate version of each package and its priority",
        ANSWERS,
    );
    let name = repeatable(word(alloc, "name", "NAME", "The name of a package, or several"));
    let optioned = with_options(alloc, start)?;
    let with_telling = with_telling(alloc, optioned)?;
    let whole = with_telling.arg(name)?;
    Ok(whole)
}

fn solve<'a>(alloc: Global) -> Result<Command<'a>, AllocError>
    ensures { IfOk result (app.Declares app.solve_command) }
{
    let start = command_of(
        alloc,
        "solve",
        "Find a plan for a request, or a refutation",
        ANSWERS,
    )
    .override_usage(SOLVE_USAGE);
    let limit = limit(alloc);
    let optioned = with_options(alloc, start)?;
    let with_goals = with_request(alloc, optioned)?;
    let with_limit = with_goals.arg(limit)?;
    let with_extent = with_extent(alloc, with_limit)?;
    with_telling(alloc, with_extent)
}

fn check_plan<'a>(alloc: Global) -> Result<Command<'a>, AllocError>
    ensures { IfOk result (app.Declares app.check_plan_command) }
{
    let start = command_of(
        alloc,
        "check-plan",
        "Check a plan of dpkg actions: each step by Policy, and the end",
        ANSWERS,
    )
    .override_usage(CHECK_PLAN_USAGE);
    let judged = plan(alloc);
    let optioned = with_options(alloc, start)?;
    let with_goals = with_request(alloc, optioned)?;
    let with_telling = with_telling(alloc, with_goals)?;
    let whole = with_telling.arg(judged)?;
    Ok(whole)
}

fn check_refutation<'a>(alloc: Global) -> Result<Command<'a>, AllocError>
    ensures { IfOk result (app.Declares app.check_refutation_command) }
{
    let start = command_of(
        alloc,
        "check-refutation",
        "Check a refutation: that no choice among the admitted versions fulfils the request",
        ANSWERS,
    )
    .override_usage(CHECK_REFUTATION_USAGE);
    let judged = word(
        alloc,
        "refutation",
        "REFUTATION",
        "The refutation, with a premise or a derived clause on each line; - is standard input",
    );
    let optioned = with_options(alloc, start)?;
    let with_goals = with_request(alloc, optioned)?;
    let with_telling = with_telling(alloc, with_goals)?;
    let whole = with_telling.arg(judged)?;
    Ok(whole)
}

fn apply<'a>(alloc: Global) -> Result<Command<'a>, AllocError>
    ensures { IfOk result (app.Declares app.apply_command) }
{
    let start = command_of(
        alloc,
        "apply",
        "Carry a good plan out on the status database, by a journal, and write the status file at its end",
        ANSWERS,
    )
    .override_usage(APPLY_USAGE);
    let journal = option(
        alloc,
        "journal",
        "FILE",
        "The journal of the plan: made where there is none, and gone on with where the plan was begun",
    );
    let output = option(
        alloc,
        "output",
        "FILE",
        "Where the status file at the end of the plan is written, whole and in one go",
    );
    let judged = plan(alloc);
    let optioned = with_options(alloc, start)?;
    let with_goals = with_request(alloc, optioned)?;
    let with_journal = with_goals.arg(journal)?;
    let with_output = with_journal.arg(output)?;
    let whole = with_output.arg(judged)?;
    Ok(whole)
}

fn installable<'a>(alloc: Global) -> Result<Command<'a>, AllocError>
    ensures { IfOk result (app.Declares app.installable_command) }
{
    let start = command_of(
        alloc,
        "installable",
        "Say of each package of the indices, or of some, whether it can be installed",
        ANSWERS,
    );
    let refutations = optional(alloc, "refutations", "DIR", REFUTATIONS_HELP);
    let names = names(alloc);
    let optioned = with_archive_options(alloc, start)?;
    let with_survey = with_survey(alloc, optioned)?;
    let with_refutations = with_survey.arg(refutations)?;
    let told = with_telling(alloc, with_refutations)?;
    let whole = told.arg(names)?;
    Ok(whole)
}

fn batch<'a>(alloc: Global) -> Result<Command<'a>, AllocError>
    ensures { IfOk result (app.Declares app.batch_command) }
{
    let start = command_of(
        alloc,
        "batch",
        "Answer many questions over one reading: each line of standard input is a question as JSON",
        QUESTIONS,
    );
    let limit = limit(alloc);
    let optioned = with_options(alloc, start)?;
    let whole = optioned.arg(limit)?;
    Ok(whole)
}

// The command with the options that say which packages are asked about, and what is asked for beside each.
fn with_survey<'a>(alloc: Global, start: Command<'a>) -> Result<Command<'a>, AllocError>
    ensures { (name : Text) (rules : List Rule) → app.Declares (app.command name rules) start.entry
        → IfOk result (app.Declares (app.command name (rules ++ app.survey_options))) }
{
    let all_versions = flag(
        alloc,
        "all-versions",
        "Admit each version that may become the candidate, as a line all-versions of a request does",
    );
    let without_essential = flag(alloc, "without-essential", WITHOUT_ESSENTIAL_HELP);
    let shard = optional(alloc, "shard", "K/N", SHARD_HELP);
    let limit = limit(alloc);
    let with_versions = start.arg(all_versions)?;
    let with_essential = with_versions.arg(without_essential)?;
    let with_shard = with_essential.arg(shard)?;
    let whole = with_shard.arg(limit)?;
    Ok(whole)
}

// The command with the options that say what is requested, of which `call_of` wants one kind.
fn with_request<'a>(alloc: Global, start: Command<'a>) -> Result<Command<'a>, AllocError>
    ensures { (name : Text) (rules : List Rule) → app.Declares (app.command name rules) start.entry
        → IfOk result (app.Declares (app.command name (rules ++ app.request_options))) }
{
    let request = optional(
        alloc,
        "request",
        "FILE",
        "Goals, one a line: install, remove, purge or upgrade NAME, upgrade-all, no-remove; - is standard input",
    );
    let goal = repeatable(optional(
        alloc,
        "goal",
        "TEXT",
        "A goal, in place of --request; may be given several times",
    ));
    let with_file = start.arg(request)?;
    let whole = with_file.arg(goal)?;
    Ok(whole)
}

// The command with the options that say how much of a request has to be fulfilled, of which `call_of` takes the second beside the
// first alone.
fn with_extent<'a>(alloc: Global, start: Command<'a>) -> Result<Command<'a>, AllocError>
    ensures { (name : Text) (rules : List Rule) → app.Declares (app.command name rules) start.entry
        → IfOk result (app.Declares (app.command name (rules ++ app.extent_options))) }
{
    let keep_back = flag(alloc, "keep-back", KEEP_BACK_HELP);
    let output = optional(
        alloc,
        "request-out",
        "FILE",
        "With --keep-back, where the request that is left is written",
    );
    let version = optional(alloc, "refutation-format", "N", REFUTATION_FORMAT_HELP);
    let with_flag = start.arg(keep_back)?;
    let with_output = with_flag.arg(output)?;
    let whole = with_output.arg(version)?;
    Ok(whole)
}

// The command with the options that say how an answer is told.
fn with_telling<'a>(alloc: Global, start: Command<'a>) -> Result<Command<'a>, AllocError>
    ensures { (name : Text) (rules : List Rule) → app.Declares (app.command name rules) start.entry
        → IfOk result (app.Declares (app.command name (rules ++ app.telling_options))) }
{
    let explain = flag(
        alloc,
        "explain",
        "Write sentences on the answer to standard error too",
    );
    let format = optional(
        alloc,
        "format",
        "FORMAT",
        "How the answer is written, text if not given [possible values: text, json]",
    );
    let with_explain = start.arg(explain)?;
    let whole = with_explain.arg(format)?;
    Ok(whole)
}

fn plan<'a>(alloc: Global) -> Arg<'a>
    ensures { app.Takes (app.word (codes "plan")) result }
{
    word(
        alloc,
        "plan",
        "PLAN",
        "The plan, with an action on each line; - is standard input",
    )
}

fn limit<'a>(alloc: Global) -> Arg<'a>
    ensures { app.Takes (app.number (app.optional (app.option (codes "limit")))) result }
{
    let parser = value_parser!(u32);
    let taken = optional(
        alloc,
        "limit",
        "N",
        "Give up after N conflicts of the search, 100000 if not given",
    );
    taken.value_parser(parser)
}

// The names of packages, of which there may be none.
fn names<'a>(alloc: Global) -> Arg<'a>
    ensures { app.Takes (app.optional (app.repeatable (app.word (codes "name")))) result }
{
    repeatable(word(
        alloc,
        "name",
        "NAME",
        "The name of a package, or several; all packages where there is none",
    ))
    .required(false)
}

// The command with the options that say which packages there are, and what is preferred among them.
fn with_options<'a>(alloc: Global, start: Command<'a>) -> Result<Command<'a>, AllocError>
    ensures { (name : Text) → app.Declares (app.command name []) start.entry
        → IfOk result (app.Declares (app.command name app.options)) }
{
    let status = option(alloc, "status", "FILE", "The status file of dpkg");
    with_files(alloc, start, status)
}

// The command with these options, of which the status file may be left out.
fn with_archive_options<'a>(alloc: Global, start: Command<'a>) -> Result<Command<'a>, AllocError>
    ensures { (name : Text) → app.Declares (app.command name []) start.entry
        → IfOk result (app.Declares (app.command name app.archive_options)) }
{
    let status = optional(alloc, "status", "FILE", ARCHIVE_STATUS_HELP);
    with_files(alloc, start, status)
}

// The command with these options, with this one for the status file.
fn with_files<'a>(
    alloc: Global,
    start: Command<'a>,
    status: Arg<'a>,
) -> Result<Command<'a>, AllocError>
    ensures { (name : Text) (rule : Rule) → app.Declares (app.command name []) start.entry
        → app.Takes rule status.entry
        → IfOk result (app.Declares (app.command name (app.options_with rule))) }
{
    let arch = option(alloc, "arch", "ARCH", "The architecture, such as amd64");
    let sources = option(
        alloc,
        "sources",
        "FILE",
        "The list of Packages files with their release keys",
    );
    let preferences = optional(
        alloc,
        "preferences",
        "FILE",
        "Pins, as in apt_preferences(5)",
    );
    let target = optional(
        alloc,
        "target",
        "REL",
        "The release to prefer, as for apt-get --target-release",
    );
    let with_arch = start.arg(arch)?;
    let with_status = with_arch.arg(status)?;
    let with_sources = with_status.arg(sources)?;
    let with_preferences = with_sources.arg(preferences)?;
    let whole = with_preferences.arg(target)?;
    Ok(whole)
}

// What may stand there more than once.
fn repeatable<'a>(argument: Arg<'a>) -> Arg<'a>
    ensures { (rule : Rule) → app.Takes rule argument.entry
        → app.Takes (app.repeatable rule) result }
{
    argument.action(ArgAction::Append)
}

// An option without a value.
fn flag<'a>(alloc: Global, name: &'a str, help: &'a str) -> Arg<'a>
    ensures { app.Takes (app.flag name.entry.now) result }
{
    Arg::new(alloc, name)
        .long(name)
        .action(ArgAction::SetTrue)
        .help(help)
}

// A word behind its option, which may be left out.
fn optional<'a>(alloc: Global, name: &'a str, value: &'a str, help: &'a str) -> Arg<'a>
    ensures { app.Takes (app.optional (app.option name.entry.now)) result }
{
    option(alloc, name, value, help).required(false)
}

// A word that is required behind its option.
fn option<'a>(alloc: Global, name: &'a str, value: &'a str, help: &'a str) -> Arg<'a>
    ensures { app.Takes (app.option name.entry.now) result }
{
    word(alloc, name, value, help).long(name)
}

// A word that is required.
fn word<'a>(alloc: Global, name: &'a str, value: &'a str, help: &'a str) -> Arg<'a>
    ensures { app.Takes (app.word name.entry.now) result }
{
    Arg::new(alloc, name)
        .value_name(value)
        .help(help)
        .required(true)
}
