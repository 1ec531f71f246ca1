//! Words of a command line that name one file in two places, of which one would be written.
ghost use Rattle.std.specs.Prelude.{◌≡◌, ◌∷◌, ◌++◌, [], ⊤, IfOk, MatchOption, OnOk, Some, map};
ghost use Rattle.std.specs.Option.{option_map};
ghost use Rattle.cli.specs.Applied.{AreApart};
ghost use Rattle.cli.specs.Files.{Files};
ghost use Rattle.cli.specs.Places.{AreOthers, IsFree, paths_asked, paths_read};
ghost use Rattle.outcomes.specs.Outcome.{IsOutcomeOfOneFile};

use crate::applied::Target;
use crate::files::{Paths, TextAt};
use crate::host::Host;
use apply_engine::GoodPlan;
use outcomes::{Outcome, outcome_of_one_file};
use std::alloc::{AllocError, Global};

/// The path of a file that is read, and the words by which a person knows it.
#[derive(Drop)]
pub(crate) struct Place<'a> {
    /// Its path.
    pub(crate) path: &'a [u8],
    /// Its words.
    pub(crate) words: String,
}

// Adds a place.
fn push_place<'a>(
    alloc: Global,
    places: &mut Vec<Place<'a>>,
    path: &'a [u8],
    words: &str,
) -> Result<(), AllocError>
    ensures { OnOk result
        (map (λ place. place.path.now) places.new.items
        ≡ map (λ place. place.path.now) places.old.items ++ path.now ∷ []) }
{
    let words = words.to_string(alloc)?;
    places.push(Place { path, words })?;
    Ok(())
}

/// The places of the files at these paths, without what is judged.
pub(crate) fn places_asked<'a>(
    alloc: Global,
    paths: &Paths<'a>,
) -> Result<Vec<Place<'a>>, AllocError>
    ensures { IfOk result
        (λ places. map (λ place. place.path.now) places.items ≡ paths_asked paths.now) }
{
    let mut places = Vec::new(alloc);
    push_place(alloc, &mut places, paths.status.as_bytes(), "--status")?;
    push_place(alloc, &mut places, paths.sources.as_bytes(), "--sources")?;
    if let Some(path) = paths.preferences {
        push_place(alloc, &mut places, path.as_bytes(), "--preferences")?;
    }
    if let TextAt::File(path) = paths.request {
        push_place(alloc, &mut places, path.as_bytes(), "--request")?;
    }
    Ok(places)
}

// The places of the files at these paths.
fn places_read<'a>(alloc: Global, paths: &Paths<'a>) -> Result<Vec<Place<'a>>, AllocError>
    ensures { IfOk result
        (λ places. map (λ place. place.path.now) places.items ≡ paths_read paths.now) }
{
    let mut places = places_asked(alloc, paths)?;
    push_place(alloc, &mut places, paths.judged.as_bytes(), "PLAN")?;
    Ok(places)
}

// The places of these indices, by their numbers, counted from 1.
fn places_of_indices<'a>(alloc: Global, files: &'a [Vec<u8>]) -> Result<Vec<Place<'a>>, AllocError>
    ensures { IfOk result
        (λ places. map (λ place. place.path.now) places.items
        ≡ map (λ file. file.items) files.now) }
{
    let mut places = Vec::new(alloc);
    let mut number = 0usize;
    for file in files {
        number = number.saturating_add(1);
        let words = format!(in alloc; "index {number}")?;
        push_place(alloc, &mut places, file.as_slice(), words.as_str())?;
    }
    Ok(places)
}

// The first of the places that is the file of this path.
fn first_same<'p, 'a, H: Host>(
    host: &H,
    path: &[u8],
    places: &'p [Place<'a>],
) -> Option<&'p Place<'a>>
    ensures { (at : Files) → H.files host.now ≡ Some at
        → MatchOption result (AreOthers path.now (map (λ place. place.path.now) places.now))
        (λ _. ¬ AreOthers path.now (map (λ place. place.path.now) places.now)) }
{
    for place in places {
        if host.is_same_file(path, place.path) {
            return Some(place);
        }
    }
    None
}

// What is printed if the path, which is written and has these words, is that of a standard stream or of one of the files at these places.
fn one_file_at<H: Host>(
    alloc: Global,
    host: &H,
    words: &str,
    path: &[u8],
    places: &[Place<'_>],
) -> Result<Option<Outcome>, AllocError>
    ensures printed { IfOk result (λ outcome. MatchOption outcome ⊤ IsOutcomeOfOneFile) }
    ensures apart { (at : Files) → H.files host.now ≡ Some at
        → IfOk result (λ outcome. MatchOption outcome
        (AreOthers path.now (map (λ place. place.path.now) places.now))
        (λ _. ¬ AreOthers path.now (map (λ place. place.path.now) places.now))) }
{
    if let Some(stream) = host.stream_at(path) {
        return Ok(Some(outcome_of_one_file(alloc, words, stream)?));
    }
    match first_same(host, path, places) {
        Some(place) => {
            let other = place.words.as_str();
            Ok(Some(outcome_of_one_file(alloc, words, other)?))
        }
        None => Ok(None),
    }
}

// What is printed if the journal or the output of the target is a standard stream or one of the files at these places, or if both are one
// file.
fn one_file<H: Host>(
    alloc: Global,
    host: &H,
    target: Target<'_>,
    places: &[Place<'_>],
) -> Result<Option<Outcome>, AllocError>
    ensures printed { IfOk result (λ outcome. MatchOption outcome ⊤ IsOutcomeOfOneFile) }
    ensures apart { (at : Files) → H.files host.now ≡ Some at
        → IfOk result (λ outcome. MatchOption outcome
        (AreApart target.entry.journal.now target.entry.output.now
        (map (λ place. place.path.now) places.now))
        (λ _. ¬ AreApart target.entry.journal.now target.entry.output.now
        (map (λ place. place.path.now) places.now))) }
{
    let Target { journal, output } = target;
    if host.is_same_file(journal, output) {
        return Ok(Some(outcome_of_one_file(alloc, "--journal", "--output")?));
    }
    match one_file_at(alloc, host, "--journal", journal, places)? {
        Some(outcome) => Ok(Some(outcome)),
        None => one_file_at(alloc, host, "--output", output, places),
    }
}

/// What is printed if the path of the output of a request that is left, if there is one, is that of a standard stream or of one of the
/// files at these paths.
pub(crate) fn one_file_of_request<H: Host>(
    alloc: Global,
    host: &H,
    output: Option<&str>,
    paths: &Paths<'_>,
) -> Result<Option<Outcome>, AllocError>
    ensures printed { IfOk result (λ outcome. MatchOption outcome ⊤ IsOutcomeOfOneFile) }
    ensures apart { (at : Files) → H.files host.now ≡ Some at
        → IfOk result (λ outcome. MatchOption outcome
        (IsFree (option_map (λ path. path.now) output.entry) (paths_asked paths.now))
        (λ _. ¬ IsFree (option_map (λ path. path.now) output.entry) (paths_asked paths.now))) }
{
    match output {
        None => Ok(None),
        Some(path) => {
            let places = places_asked(alloc, paths)?;
            one_file_at(
                alloc,
                host,
                "--request-out",
                path.as_bytes(),
                places.as_slice(),
            )
        }
    }
}

/// What is printed if the journal or the output of the target is a standard stream or one of the files at these paths, or if both are one
/// file.
pub(crate) fn one_file_of_paths<H: Host>(
    alloc: Global,
    host: &H,
    target: Target<'_>,
    paths: &Paths<'_>,
) -> Result<Option<Outcome>, AllocError>
    ensures printed { IfOk result (λ outcome. MatchOption outcome ⊤ IsOutcomeOfOneFile) }
    ensures apart { (at : Files) → H.files host.now ≡ Some at
        → IfOk result (λ outcome. MatchOption outcome
        (AreApart target.entry.journal.now target.entry.output.now (paths_read paths.now))
        (λ _. ¬ AreApart target.entry.journal.now target.entry.output.now (paths_read paths.now))) }
{
    let places = places_read(alloc, paths)?;
    one_file(alloc, host, target, places.as_slice())
}

/// The same of the indices by which the plan was judged.
pub(crate) fn one_file_of_indices<H: Host>(
    alloc: Global,
    host: &H,
    target: Target<'_>,
    plan: &GoodPlan,
) -> Result<Option<Outcome>, AllocError>
    ensures printed { IfOk result (λ outcome. MatchOption outcome ⊤ IsOutcomeOfOneFile) }
    ensures apart { (at : Files) → H.files host.now ≡ Some at
        → IfOk result (λ outcome. MatchOption outcome
        (AreApart target.entry.journal.now target.entry.output.now plan.now.indices)
        (λ _. ¬ AreApart target.entry.journal.now target.entry.output.now plan.now.indices)) }
{
    let places = places_of_indices(alloc, plan.indices())?;
    one_file(alloc, host, target, places.as_slice())
}
