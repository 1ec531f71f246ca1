//! The folder of refutations, before anything is read.
ghost use Rattle.std.specs.Prelude.{◌≡◌, ◌≢◌, [], IfOk, MatchOption, Some, map};
ghost use Rattle.std.specs.Option.{option_map};
ghost use Rattle.cli.specs.Files.{Files};
ghost use Rattle.cli.specs.Packages.{IsFolderRefused};
ghost use Rattle.cli.specs.Places as Spec;
ghost use Rattle.cli.specs.Places.{AreOutside, IsFolderFree, paths_asked};
ghost use Rattle.outcomes.specs.Survey.{IsFolderUnwritten};

use crate::files::Paths;
use crate::host::{Host, PutError};
use crate::one_file::{Place, places_asked};
use outcomes::{Outcome, outcome_of_one_file, outcome_of_unwritten_folder};
use std::alloc::{AllocError, Global};

// Whether a file of this name may be put into the folder.
fn may_be_put<H: Host>(host: &H, folder: &[u8], path: &[u8]) -> bool
    ensures { (at : Files) → H.files host.now ≡ Some at
        → result ≡ Spec.may_be_put folder.now path.now }
{
    (path.ends_with(b".request") || path.ends_with(b".refutation"))
        && host.is_in_folder(folder, path)
}

// The first of the places whose file may be put into the folder.
fn first_inside<'p, 'a, H: Host>(
    host: &H,
    folder: &[u8],
    places: &'p [Place<'a>],
) -> Option<&'p Place<'a>>
    ensures { (at : Files) → H.files host.now ≡ Some at
        → MatchOption result (AreOutside folder.now (map (λ place. place.path.now) places.now))
        (λ _. ¬ AreOutside folder.now (map (λ place. place.path.now) places.now)) }
{
    for place in places {
        if may_be_put(host, folder, place.path) {
            return Some(place);
        }
    }
    None
}

// What is printed if one of the files at these places may be put into the folder.
fn refused_inside<H: Host>(
    alloc: Global,
    host: &H,
    folder: &str,
    paths: &Paths<'_>,
) -> Result<Option<Outcome>, AllocError>
    ensures { (at : Files) → H.files host.now ≡ Some at
        → IfOk result (λ outcome. MatchOption outcome
        (AreOutside folder.now (paths_asked paths.now))
        (IsFolderRefused (Some folder.now) (paths_asked paths.now))) }
{
    let places = places_asked(alloc, paths)?;
    match first_inside(host, folder.as_bytes(), places.as_slice()) {
        Some(place) => {
            let words = place.words.as_str();
            Ok(Some(outcome_of_one_file(alloc, "--refutations", words)?))
        }
        None => Ok(None),
    }
}

// What is printed if no file can be written in the folder, whose path may not be empty. Memory alone can fail.
fn refused_folder<H: Host>(
    alloc: Global,
    host: &mut H,
    folder: &str,
) -> Result<Option<Outcome>, AllocError>
    ensures printed { IfOk result
        (λ outcome. MatchOption outcome (folder.now ≢ []) IsFolderUnwritten) }
    ensures same { H.files host.new ≡ H.files host.old }
    ensures keeps { H.kept host.new ≡ H.kept host.old }
{
    if folder.is_empty() {
        return Ok(Some(outcome_of_unwritten_folder(alloc)?));
    }
    match host.try_folder(alloc, folder.as_bytes()) {
        Ok(()) => Ok(None),
        Err(PutError::Unwritten) => Ok(Some(outcome_of_unwritten_folder(alloc)?)),
        Err(PutError::OutOfMemory) => Err(AllocError),
    }
}

/// What is printed if the folder of refutations, if there is one, is refused: its path is empty, no file can be written there, or one of the
/// files that are read may be one of those that are put there. Memory alone can fail.
pub(crate) fn refused_place<H: Host>(
    alloc: Global,
    host: &mut H,
    folder: Option<&str>,
    paths: &Paths<'_>,
) -> Result<Option<Outcome>, AllocError>
    ensures printed { (at : Files) → H.files host.old ≡ Some at
        → IfOk result (λ outcome. MatchOption outcome
        (IsFolderFree (option_map (λ path. path.now) folder.entry) (paths_asked paths.now))
        (IsFolderRefused (option_map (λ path. path.now) folder.entry) (paths_asked paths.now))) }
    ensures same { H.files host.new ≡ H.files host.old }
    ensures keeps { H.kept host.new ≡ H.kept host.old }
{
    let Some(folder) = folder else {
        return Ok(None);
    };
    match refused_folder(alloc, host, folder)? {
        Some(outcome) => Ok(Some(outcome)),
        None => refused_inside(alloc, host, folder, paths),
    }
}
