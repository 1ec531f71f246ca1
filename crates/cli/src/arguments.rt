//! What an answer is given by: settings and paths, from the options of a command line.
ghost use Rattle.std.specs.Prelude.{◌≡◌, IfOk, option_map};
ghost use Rattle.cli.specs.Calls.{texts_at};
ghost use Rattle.cli.specs.Files.{Files, text_at};
ghost use Rattle.cli.specs.Places.{comparison_of, file_path, goal_lines, goals_by, lines_of, paths_asked, paths_for, paths_given, paths_read, place_path, request_at, request_path, texts_for};
ghost use Rattle.command_line.specs.Asked.{RequestSource as RequestOf, asked_by, given_by, request_by, texts_by};

use crate::files::{Paths, TextAt};
use cli_engine::Comparison;
use command_line::{Call, Format, Options, Relation, RequestSource};
use inputs::Settings;
use std::alloc::{AllocError, Global};

/// What an answer is given by: for which architecture texts are read, which release is preferred, where the texts are, whether
/// sentences are wanted beside it, and how it is written.
#[derive(Clone, Copy)]
pub(crate) struct Arguments<'a> {
    /// The architecture, and the target release.
    pub(crate) settings: Settings<'a>,
    /// Where the texts are.
    pub(crate) paths: Paths<'a>,
    /// Whether sentences on the answer are wanted.
    pub(crate) explains: bool,
    /// How the answer is written.
    pub(crate) format: Format,
}

/// Where the request is, of which this is the text of its goals.
pub(crate) fn place_of<'a>(request: &'a RequestSource<'a>, goals: &'a [u8]) -> TextAt<'a>
    requires { goals.now ≡ goal_lines (request_by request.now) }
    ensures text { (at : Files) → text_at at result ≡ request_at at (request_by request.entry.now) }
    ensures path { place_path result ≡ request_path (request_by request.entry.now) }
{
    match request {
        RequestSource::File(path) => TextAt::File(*path),
        RequestSource::Goals(_) => TextAt::Given(goals),
    }
}

/// The text of the goals of the call's request, each a line, which is empty where it is a file or where there is none. Memory alone can
/// fail.
pub(crate) fn goals_of(alloc: Global, call: &Call<'_>) -> Result<Vec<u8>, AllocError>
    ensures { IfOk result (λ text. text.items ≡ goals_by (asked_by call.now)) }
{
    match call {
        Call::Compare { .. }
        | Call::Candidate { .. }
        | Call::Installable { .. }
        | Call::Batch { .. } => Ok(Vec::new(alloc)),
        Call::Solve { request, .. }
        | Call::CheckPlan { request, .. }
        | Call::CheckRefutation { request, .. }
        | Call::Apply { request, .. } => goals_in(alloc, request),
    }
}

// The text of the goals of the request.
fn goals_in(alloc: Global, request: &RequestSource<'_>) -> Result<Vec<u8>, AllocError>
    ensures { IfOk result (λ text. text.items ≡ goal_lines (request_by request.now)) }
{
    match request {
        RequestSource::File(_) => Ok(Vec::new(alloc)),
        RequestSource::Goals(goals) => lines(alloc, goals.as_slice()),
    }
}

// These texts, each a line.
fn lines(alloc: Global, texts: &[&str]) -> Result<Vec<u8>, AllocError>
    ensures { IfOk result (λ text. text.items ≡ lines_of (texts_by texts.now)) }
{
    let mut all = Vec::new(alloc);
    for text in texts {
        all.extend_from_slice(text.as_bytes())?;
        all.extend_from_slice(b"\n")?;
    }
    Ok(all)
}

/// How versions are compared, by the word of a command line.
pub(crate) fn comparison_by(relation: Relation) -> Comparison
    ensures { result ≡ comparison_of relation }
{
    match relation {
        Relation::Earlier => Comparison::Earlier,
        Relation::EarlierOrEqual => Comparison::EarlierOrEqual,
        Relation::Equal => Comparison::Equal,
        Relation::NotEqual => Comparison::NotEqual,
        Relation::LaterOrEqual => Comparison::LaterOrEqual,
        Relation::Later => Comparison::Later,
    }
}

/// What an answer is given by, with the place of the request and the path of what is judged, which are empty where none is read.
pub(crate) fn arguments_by<'a>(
    options: &'a Options<'a>,
    request: TextAt<'a>,
    judged: &'a str,
    explains: bool,
    format: Format,
) -> Arguments<'a>
    ensures texts { (at : Files) (asked : RequestOf) → text_at at request.entry
        ≡ request_at at asked
        → texts_at at result ≡ texts_for at (given_by options.entry.now) asked }
    ensures asked { (asked : RequestOf) → place_path request.entry ≡ request_path asked
        → paths_asked result.paths ≡ paths_given (given_by options.entry.now) asked }
    ensures read { (asked : RequestOf) → place_path request.entry ≡ request_path asked
        → paths_read result.paths ≡ paths_for (given_by options.entry.now) asked judged.entry.now }
    ensures judged { result.paths.judged.now ≡ judged.entry.now }
    ensures format { result.format ≡ format }
{
    Arguments {
        settings: settings_by(options),
        paths: Paths {
            status: file_path(options.status),
            sources: file_path(options.sources),
            preferences: options.preferences.map(|path| file_path(path)),
            request,
            judged,
        },
        explains,
        format,
    }
}

// The path of a file that is never standard input, also where it is `-`.
fn file_path<'a>(path: &'a str) -> &'a str
    ensures { result.now ≡ file_path path.now }
{
    if path == "-" { "./-" } else { path }
}

fn settings_by<'a>(options: &Options<'a>) -> Settings<'a>
    ensures arch { result.arch.now ≡ options.now.arch.now }
    ensures target { option_map (λ word. word.now) result.target
        ≡ option_map (λ word. word.now) options.now.target }
{
    Settings {
        arch: options.arch.as_bytes(),
        target: options.target.map(|word| word.as_bytes()),
    }
}
