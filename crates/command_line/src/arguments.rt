// The words of a command line as a call.
ghost use Rattle.std.specs.Prelude.{◌≡◌, ◌∷◌, IfOk, [], codes, map, option_map, string_bytes};
ghost use Rattle.std.specs.Option.{unwrap_or};
ghost use Rattle.clap.specs.Kinds.{HasKind};
ghost use Rattle.clap.specs.Walk.{all_of, first_of, rows_of};
ghost use Rattle.clap.specs.Words.{found_of, kind_of, subcommand_rows_of};
ghost use Rattle.command_line.specs.Asked.{asked_by, extent_by, given_by, request_by, survey_by, texts_by};
ghost use Rattle.command_line.specs.Number.{limit_of, shard_of};
ghost use Rattle.command_line.specs.Spelled as spell;
ghost use Rattle.command_line.specs.Values as value;
ghost use Rattle.command_line.specs.Asked as ask;

use crate::call::{Call, Extent, Format, Options, Relation, RequestSource, Survey};
use crate::declare::program;
use crate::number::{limit_of, shard_of};
use clap::error::ErrorKind;
use clap::{ArgMatches, Error};
use std::alloc::{AllocError, Global};

/// The path of an empty status file, by which nothing is installed.
const NOTHING_INSTALLED: &str = "/dev/null";

/// The call that the words spell, of which the first is the program's own name and each option is joined to its value, or what is
/// to be said of the words: help, the version, or how they are wrong.
pub fn call_of<'a>(alloc: Global, words: &'a [String]) -> Result<Call<'a>, Error>
    ensures { spell.IsAnswer (map string_bytes words.entry.now) result }
{
    let matches = program(alloc)?.try_get_matches_from(words)?;
    match call_in(alloc, &matches)? {
        Some(call) => Ok(call),
        None => Err(mistake(alloc, mistake_in(&matches))),
    }
}

// The call that these values make, unless one is missing, or isn't what its command wants. Memory alone can fail.
fn call_in<'a>(alloc: Global, matches: &ArgMatches<'a>) -> Result<Option<Call<'a>>, AllocError>
    ensures { IfOk result
        (λ call. option_map asked_by call ≡ spell.asked_of (subcommand_rows_of matches.now)) }
{
    match matches.subcommand() {
        Some(named) => call_of_command(alloc, named.0, named.1),
        None => Ok(None),
    }
}

// The call that these values of the command of this name make. Memory alone can fail.
fn call_of_command<'a>(
    alloc: Global,
    command: &str,
    values: &ArgMatches<'a>,
) -> Result<Option<Call<'a>>, AllocError>
    ensures { IfOk result
        (λ call. option_map asked_by call
        ≡ spell.asked_in command.now (rows_of (found_of values.now))) }
{
    let request = request_in(alloc, values)?;
    let names = texts_in(alloc, values, "name")?;
    Ok(call_named(alloc, command, values, request, names))
}

// The call that these values of the command of this name make, with the request and the names that are among them.
fn call_named<'a>(
    alloc: Global,
    command: &str,
    values: &ArgMatches<'a>,
    request: Option<RequestSource<'a>>,
    names: Option<Vec<&'a str>>,
) -> Option<Call<'a>>
    requires request { option_map request_by request
        ≡ value.request_in (rows_of (found_of values.now)) }
    requires names { option_map (λ names. texts_by names.items) names
        ≡ all_of (codes "name") (rows_of (found_of values.now)) }
    ensures { option_map asked_by result
        ≡ spell.asked_in command.now (rows_of (found_of values.now)) }
{
    match command {
        "compare" => comparison_in(values),
        "candidate" => candidate_in(values, names),
        "solve" => solve_in(values, request),
        "check-plan" => plan_in(values, request),
        "check-refutation" => refutation_in(values, request),
        "apply" => apply_in(values, request),
        "installable" => installable_in(alloc, values, names),
        "batch" => batch_in(values),
        _ => None,
    }
}

// What is wrong with words that `clap` takes.
fn mistake_in(matches: &ArgMatches<'_>) -> &'static str {
    match matches.subcommand() {
        Some(named) if named.0 != "compare" => mistake_of_values(named.1),
        _ => "REL is one of lt, le, eq, ne, ge and gt",
    }
}

// What is wrong with these values of a command over files.
fn mistake_of_values(values: &ArgMatches<'_>) -> &'static str {
    if format_in(values).is_none() {
        return "FORMAT is text or json";
    }
    if extent_in(values).is_none() {
        return mistake_of_extent(values);
    }
    if shard_of(text_in(values, "shard")).is_none() {
        return "--shard K/N wants two numbers, the first from 1 to the second";
    }
    if limit_of(text_in(values, "limit")).is_none() {
        return "N is a number without a sign or a leading zero";
    }
    mistake_of_request(values)
}

// What is wrong with how much of the request has to be fulfilled.
fn mistake_of_extent(values: &ArgMatches<'_>) -> &'static str {
    match (
        is_set(values, "keep-back"),
        values.contains_id("request-out"),
    ) {
        (true, _) => "--refutation-format N is given beside --keep-back",
        (false, true) => "--request-out FILE is given without --keep-back",
        (false, false) => "--refutation-format N is 1 or 2",
    }
}

// What is wrong with these values of a command with a request.
fn mistake_of_request(values: &ArgMatches<'_>) -> &'static str {
    match (values.contains_id("request"), values.contains_id("goal")) {
        (true, true) => "the request is given as --request FILE or as --goal TEXT, not as both",
        (false, false) => "the request is missing: --request FILE, or --goal TEXT once or more",
        _ => "standard input (-) can be read as one file alone",
    }
}

// The first value of this name.
fn text_in<'a>(values: &ArgMatches<'a>, name: &str) -> Option<&'a str>
    ensures { option_map (λ word. word.now) result
        ≡ first_of name.now (rows_of (found_of values.now)) }
{
    values.get_str(name)
}

// The values of this name, of all its uses. Memory alone can fail.
fn texts_in<'a>(
    alloc: Global,
    values: &ArgMatches<'a>,
    name: &str,
) -> Result<Option<Vec<&'a str>>, AllocError>
    ensures { IfOk result (λ texts.
        option_map (λ texts. texts_by texts.items) texts
        ≡ all_of name.now (rows_of (found_of values.now))) }
{
    match values.get_strs(name) {
        Some(texts) => Ok(Some(texts.to_vec(alloc)?)),
        None => Ok(None),
    }
}

// Whether the flag of this name stands among the words: `clap` gives each flag a value.
fn is_set(values: &ArgMatches<'_>, name: &str) -> bool
    ensures { result ≡ value.is_set (first_of name.now (rows_of (found_of values.now))) }
{
    match text_in(values, name) {
        Some(word) => word == "true",
        None => false,
    }
}

// Whether sentences are asked for.
fn explains_in(values: &ArgMatches<'_>) -> bool
    ensures { result ≡ value.explains_in (rows_of (found_of values.now)) }
{
    is_set(values, "explain")
}

// How the answer is written, unless the word for it is none of a format.
fn format_in(values: &ArgMatches<'_>) -> Option<Format>
    ensures { result ≡ value.format_in (rows_of (found_of values.now)) }
{
    format_of(text_in(values, "format"))
}

fn format_of(word: Option<&str>) -> Option<Format>
    ensures { result ≡ value.format_of (option_map (λ word. word.now) word.entry) }
{
    match word {
        None => Some(Format::Text),
        Some(word) => format_named(word),
    }
}

// The format that the word names.
fn format_named(word: &str) -> Option<Format>
    ensures { result ≡ value.format_named word.now }
{
    match word {
        "text" => Some(Format::Text),
        "json" => Some(Format::Json),
        _ => None,
    }
}

// How much of the request has to be fulfilled, unless a path is given for what is left where all of it has to be, or a version of the
// text of a refutation where not all of it has to be.
fn extent_in<'a>(values: &ArgMatches<'a>) -> Option<Extent<'a>>
    ensures { option_map extent_by result ≡ value.extent_in (rows_of (found_of values.now)) }
{
    extent_of(
        is_set(values, "keep-back"),
        text_in(values, "request-out"),
        text_in(values, "refutation-format"),
    )
}

fn extent_of<'a>(
    keeps_back: bool,
    path: Option<&'a str>,
    version: Option<&'a str>,
) -> Option<Extent<'a>>
    ensures { option_map extent_by result
        ≡ value.extent_of keeps_back (option_map (λ word. word.now) path.entry)
        (option_map (λ word. word.now) version.entry) }
{
    match (keeps_back, path, version) {
        (true, path, None) => Some(Extent::Possible(path)),
        (true, _, Some(_)) => None,
        (false, None, version) => whole_of(version),
        (false, Some(_), _) => None,
    }
}

// All of the request, unless the word for the version of the text of a refutation is none of one.
fn whole_of<'a>(version: Option<&str>) -> Option<Extent<'a>>
    ensures { option_map extent_by result
        ≡ value.whole_of (option_map (λ word. word.now) version.entry) }
{
    match version {
        None => Some(Extent::Whole { names_pairs: false }),
        Some(word) => {
            let names_pairs = naming_of(word)?;
            Some(Extent::Whole { names_pairs })
        }
    }
}

// Whether the version of the text of a refutation that the word names names pairs.
fn naming_of(word: &str) -> Option<bool>
    ensures { result ≡ value.naming_of word.now }
{
    match word {
        "1" => Some(false),
        "2" => Some(true),
        _ => None,
    }
}

fn comparison_in<'a>(values: &ArgMatches<'a>) -> Option<Call<'a>>
    ensures { let rows = rows_of (found_of values.now) in option_map asked_by result
        ≡ spell.comparison_of
        (first_of (codes "version") rows) (first_of (codes "relation") rows)
        (first_of (codes "other") rows) }
{
    let version = text_in(values, "version")?;
    let relation = text_in(values, "relation")?;
    let other = text_in(values, "other")?;
    Some(Call::Compare {
        version,
        relation: relation_of(relation)?,
        other,
    })
}

// The relation that the word names (deb-version(7)).
fn relation_of(word: &str) -> Option<Relation>
    ensures { result ≡ value.relation_of word.now }
{
    match word {
        "lt" => Some(Relation::Earlier),
        "le" => Some(Relation::EarlierOrEqual),
        "eq" => Some(Relation::Equal),
        "ne" => Some(Relation::NotEqual),
        "ge" => Some(Relation::LaterOrEqual),
        "gt" => Some(Relation::Later),
        _ => None,
    }
}

// The options, unless one that is required is missing.
fn options_in<'a>(values: &ArgMatches<'a>) -> Option<Options<'a>>
    ensures { option_map given_by result ≡ value.given_in (rows_of (found_of values.now)) }
{
    options_with(text_in(values, "status"), values)
}

// The options of a command that may leave the status file out, unless one that is required is missing.
fn archive_options_in<'a>(values: &ArgMatches<'a>) -> Option<Options<'a>>
    ensures { option_map given_by result ≡ value.archive_given_in (rows_of (found_of values.now)) }
{
    match text_in(values, "status") {
        Some(status) => options_with(Some(status), values),
        None => options_with(Some(NOTHING_INSTALLED), values),
    }
}

// The options with this path of the status file, unless one that is required is missing.
fn options_with<'a>(status: Option<&'a str>, values: &ArgMatches<'a>) -> Option<Options<'a>>
    ensures { option_map given_by result
        ≡ value.given_with (option_map (λ word. word.now) status.entry)
        (rows_of (found_of values.now)) }
{
    let arch = text_in(values, "arch")?;
    let status = status?;
    let sources = text_in(values, "sources")?;
    let preferences = text_in(values, "preferences");
    let target = text_in(values, "target");
    Some(Options {
        arch,
        status,
        sources,
        preferences,
        target,
    })
}

// The request, unless it's missing or given in both ways. Memory alone can fail.
fn request_in<'a>(
    alloc: Global,
    values: &ArgMatches<'a>,
) -> Result<Option<RequestSource<'a>>, AllocError>
    ensures { IfOk result
        (λ request. option_map request_by request
        ≡ value.request_in (rows_of (found_of values.now))) }
{
    let goals = texts_in(alloc, values, "goal")?;
    Ok(request_of(text_in(values, "request"), goals))
}

fn request_of<'a>(path: Option<&'a str>, goals: Option<Vec<&'a str>>) -> Option<RequestSource<'a>>
    ensures { option_map request_by result
        ≡ value.request_of (option_map (λ word. word.now) path.entry)
        (option_map (λ texts. texts_by texts.items) goals.entry) }
{
    match (path, goals) {
        (Some(path), None) => Some(RequestSource::File(path)),
        (None, Some(goals)) => Some(RequestSource::Goals(goals)),
        _ => None,
    }
}

// The path of what is judged, unless it's missing, or would be read where the request is read too.
fn judged_in<'a>(
    values: &ArgMatches<'a>,
    name: &str,
    request: &RequestSource<'_>,
) -> Option<&'a str>
    ensures { option_map (λ word. word.now) result
        ≡ spell.judged_beside (request_by request.now)
        (first_of name.now (rows_of (found_of values.now))) }
{
    let judged = text_in(values, name)?;
    if is_read_twice(request, judged) {
        return None;
    }
    Some(judged)
}

fn is_read_twice(request: &RequestSource<'_>, judged: &str) -> bool
    ensures { result ≡ spell.is_read_twice (request_by request.now) judged.now }
{
    match request {
        RequestSource::File(path) => *path == "-" && judged == "-",
        RequestSource::Goals(_) => false,
    }
}

fn candidate_in<'a>(values: &ArgMatches<'a>, names: Option<Vec<&'a str>>) -> Option<Call<'a>>
    ensures { let rows = rows_of (found_of values.now) in option_map asked_by result
        ≡ spell.candidate_of
        (value.given_in rows) (option_map (λ names. texts_by names.items) names.entry)
        (value.explains_in rows) (value.format_in rows) }
{
    let options = options_in(values)?;
    let names = names?;
    let format = format_in(values)?;
    let explains = explains_in(values);
    Some(Call::Candidate {
        options,
        names,
        explains,
        format,
    })
}

fn solve_in<'a>(values: &ArgMatches<'a>, request: Option<RequestSource<'a>>) -> Option<Call<'a>>
    ensures { let rows = rows_of (found_of values.now) in option_map asked_by result
        ≡ spell.solve_of
        (value.given_in rows) (option_map request_by request.entry)
        (limit_of (first_of (codes "limit") rows)) (value.extent_in rows)
        (value.explains_in rows) (value.format_in rows) }
{
    let options = options_in(values)?;
    let request = request?;
    let limit = limit_of(text_in(values, "limit"))?;
    let extent = extent_in(values)?;
    let format = format_in(values)?;
    let explains = explains_in(values);
    Some(Call::Solve {
        options,
        request,
        limit,
        extent,
        explains,
        format,
    })
}

fn plan_in<'a>(values: &ArgMatches<'a>, request: Option<RequestSource<'a>>) -> Option<Call<'a>>
    ensures { let rows = rows_of (found_of values.now) in option_map asked_by result
        ≡ spell.judged_of ask.check_plan
        (value.given_in rows) (option_map request_by request.entry) (first_of (codes "plan") rows)
        (value.explains_in rows)
        (value.format_in rows) }
{
    let options = options_in(values)?;
    let request = request?;
    let format = format_in(values)?;
    let plan = judged_in(values, "plan", &request)?;
    let explains = explains_in(values);
    Some(Call::CheckPlan {
        options,
        request,
        plan,
        explains,
        format,
    })
}

fn refutation_in<'a>(
    values: &ArgMatches<'a>,
    request: Option<RequestSource<'a>>,
) -> Option<Call<'a>>
    ensures { let rows = rows_of (found_of values.now) in option_map asked_by result
        ≡ spell.judged_of ask.check_refutation
        (value.given_in rows) (option_map request_by request.entry)
        (first_of (codes "refutation") rows) (value.explains_in rows)
        (value.format_in rows) }
{
    let options = options_in(values)?;
    let request = request?;
    let format = format_in(values)?;
    let refutation = judged_in(values, "refutation", &request)?;
    let explains = explains_in(values);
    Some(Call::CheckRefutation {
        options,
        request,
        refutation,
        explains,
        format,
    })
}

fn apply_in<'a>(values: &ArgMatches<'a>, request: Option<RequestSource<'a>>) -> Option<Call<'a>>
    ensures { let rows = rows_of (found_of values.now) in option_map asked_by result
        ≡ spell.apply_of
        (value.given_in rows) (option_map request_by request.entry) (first_of (codes "plan") rows)
        (first_of (codes "journal") rows)
        (first_of (codes "output") rows) }
{
    let options = options_in(values)?;
    let request = request?;
    let plan = judged_in(values, "plan", &request)?;
    let journal = text_in(values, "journal")?;
    let output = text_in(values, "output")?;
    Some(Call::Apply {
        options,
        request,
        plan,
        journal,
        output,
    })
}

fn installable_in<'a>(
    alloc: Global,
    values: &ArgMatches<'a>,
    names: Option<Vec<&'a str>>,
) -> Option<Call<'a>>
    ensures { let rows = rows_of (found_of values.now) in option_map asked_by result
        ≡ spell.installable_of
        (value.archive_given_in rows)
        (value.survey_with (option_map (λ names. texts_by names.items) names.entry) rows)
        (first_of (codes "refutations") rows) (value.explains_in rows) (value.format_in rows) }
{
    let options = archive_options_in(values)?;
    let survey = survey_in(alloc, values, names)?;
    let refutations = text_in(values, "refutations");
    let format = format_in(values)?;
    let explains = explains_in(values);
    Some(Call::Installable {
        options,
        survey,
        refutations,
        explains,
        format,
    })
}

fn batch_in<'a>(values: &ArgMatches<'a>) -> Option<Call<'a>>
    ensures { let rows = rows_of (found_of values.now) in option_map asked_by result
        ≡ spell.batch_of
        (value.given_in rows) (limit_of (first_of (codes "limit") rows)) }
{
    let options = options_in(values)?;
    let limit = limit_of(text_in(values, "limit"))?;
    Some(Call::Batch { options, limit })
}

// Which packages are asked about, unless the shard or the limit is none.
fn survey_in<'a>(
    alloc: Global,
    values: &ArgMatches<'a>,
    names: Option<Vec<&'a str>>,
) -> Option<Survey<'a>>
    ensures { option_map survey_by result
        ≡ value.survey_with (option_map (λ names. texts_by names.items) names.entry)
        (rows_of (found_of values.now)) }
{
    let shard = shard_of(text_in(values, "shard"))?;
    let limit = limit_of(text_in(values, "limit"))?;
    let asks_all_versions = is_set(values, "all-versions");
    let without_essential = is_set(values, "without-essential");
    Some(Survey {
        names: words_or_none(alloc, names),
        asks_all_versions,
        without_essential,
        shard,
        limit,
    })
}

// The words, or none.
fn words_or_none<'a>(alloc: Global, words: Option<Vec<&'a str>>) -> Vec<&'a str>
    ensures { texts_by result.items
        ≡ unwrap_or (option_map (λ words. texts_by words.items) words.entry) [] }
{
    match words {
        Some(words) => words,
        None => Vec::new(alloc),
    }
}

/// What is to be said of words that are wrong as this text says.
pub fn mistake(alloc: Global, text: &str) -> Error
    ensures { HasKind (ErrorKind.ValueValidation ∷ []) result }
{
    match said_of_program(alloc, text) {
        Ok(error) => error,
        Err(e) => e.into(),
    }
}

fn said_of_program(alloc: Global, text: &str) -> Result<Error, AllocError>
    ensures { IfOk result (λ e. kind_of e ≡ ErrorKind.ValueValidation) }
{
    program(alloc)?.error(ErrorKind::ValueValidation, text)
}
