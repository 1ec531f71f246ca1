//! Which packages of the indices can't be installed, by the files of a host.
ghost use Rattle.std.specs.Prelude.{◌≡◌, IfOk, Ok, Some, option_map};
ghost use Rattle.cli.specs.Calls.{texts_at};
ghost use Rattle.cli.specs.Files.{Files};
ghost use Rattle.cli.specs.Kept.{Kept};
ghost use Rattle.cli.specs.Leaving.{IsLeftWith};
ghost use Rattle.cli.specs.Packages.{IsLeftOfPackages, IsLeftOfSurveyIn, IsLeftOfSurveyed, IsOutcomeOfPackages, IsOutcomeOfSurveyIn, IsOutcomeOfSurveyed, IsQuestionOf, IsShardOfWords};
ghost use Rattle.cli.specs.Places.{paths_asked};
ghost use Rattle.command_line.specs.Asked.{survey_by};
ghost use Rattle.installable.specs.Answers.{IsSaidOfPackages};

use crate::arguments::Arguments;
use crate::asking::{context_if, is_document, unless_refused};
use crate::files::{HostShelf, Openings, ask_files};
use crate::folder::refused_place;
use crate::host::Host;
use crate::refutations::{files_of_survey, put_files, tell_all_lost};
use crate::told::tell_refusal;
use cli_engine::Notes;
use command_line::{Format, ShardNumber as ShardWords, Survey};
use inputs::Refusal;
use installable::{Installability, Installable, PackageAnswer, Refuted, Shard, Surveyed};
use outcomes::{Outcome, outcome_of_refusal, outcome_of_survey, outcome_of_surveyed};
use std::alloc::{AllocError, Global};

// The shard that is the K-th of every N.
fn shard_of(words: ShardWords) -> Shard
    ensures { IsShardOfWords words result }
{
    Shard {
        before: (words.number as usize).saturating_sub(1),
        between: (words.of as usize).saturating_sub(1),
    }
}

/// The question that the words ask, and whether reasons are wanted.
pub(crate) fn question_of<'n>(survey: &'n Survey<'n>, explains: bool) -> Installable<'n>
    ensures { IsQuestionOf (survey_by survey.now) result }
{
    Installable {
        names: survey.names.as_slice(),
        asks_all_versions: survey.asks_all_versions,
        without_essential: survey.without_essential,
        shard: shard_of(survey.shard),
        limit: survey.limit,
        explains,
    }
}

// What is said of the packages by the files of the host; a refusal is told where sentences are wanted.
fn said_of_packages<H: Host>(
    alloc: Global,
    host: &mut H,
    arguments: &Arguments<'_>,
    question: &Installable<'_>,
    notes: &mut Notes,
) -> Result<Result<Surveyed, Refusal>, AllocError>
    ensures said { (at : Files) → H.files host.old ≡ Some at
        → IfOk result (IsSaidOfPackages (texts_at at arguments.now) question.now) }
    ensures same { H.files host.new ≡ H.files host.old }
    ensures keeps { H.kept host.new ≡ H.kept host.old }
{
    let Arguments {
        settings,
        explains,
        ..
    } = *arguments;
    let mut context = context_if(alloc, explains);
    let mut shelf = HostShelf {
        host,
        paths: &arguments.paths,
        context: &mut context,
        openings: Openings::none(),
    };
    let said = ask_files(alloc, &mut shelf, &settings, question, &mut ());
    unless_refused(tell_refusal(alloc, &said, &shelf, notes), notes);
    Ok(said)
}

// Tells the reasons of a request of this subject, if it is refuted, below a line with the subject.
fn tell_reasons(
    subject: &[u8],
    installability: &Installability,
    notes: &mut Notes,
) -> Result<(), AllocError> {
    match installability {
        Installability::Broken(
            Refuted {
                reasons: Some(reasons),
                ..
            },
        ) => {
            notes.add(subject)?;
            notes.add(b":\n")?;
            notes.add(reasons.as_slice())
        }
        _ => Ok(()),
    }
}

// Tells the reasons of a package that can't be installed.
fn tell_package(
    alloc: Global,
    answer: &PackageAnswer,
    notes: &mut Notes,
) -> Result<(), AllocError> {
    let mut subject = answer.name.as_bytes().to_vec(alloc)?;
    subject.extend_from_slice(b" ")?;
    subject.extend_from_slice(answer.version.as_bytes())?;
    tell_reasons(subject.as_slice(), &answer.installability, notes)
}

// Tells the reasons of each answer that is a no, in the order of the answers.
fn tell_survey(
    alloc: Global,
    said: &Result<Surveyed, Refusal>,
    notes: &mut Notes,
) -> Result<(), AllocError> {
    if let Ok(surveyed) = said {
        tell_reasons(b"base", &surveyed.base, notes)?;
        for answer in surveyed.packages.as_slice() {
            tell_package(alloc, answer, notes)?;
        }
    }
    Ok(())
}

// What is printed of these answers, whose files are put in the folder; which couldn't be written is told.
fn outcome_of_answers<H: Host>(
    alloc: Global,
    host: &mut H,
    folder: &str,
    format: Format,
    surveyed: &Surveyed,
    notes: &mut Notes,
) -> Result<Outcome, AllocError>
    ensures printed { IfOk result (IsOutcomeOfSurveyIn (Some folder.now) format (Ok surveyed.now)) }
    ensures left { (at : Files) (was : Kept H.Journal) → H.files host.old ≡ Some at
        → H.kept host.old ≡ Some was → IsLeftWith
        (IsLeftOfSurveyIn (Some folder.now) format (Ok surveyed.now) at was) at was result
        (H.files host.new) (H.kept host.new) }
{
    let files = files_of_survey(alloc, folder, surveyed)?;
    let lost = put_files(alloc, host, files.as_slice())?;
    let lost = lost.as_slice();
    tell_all_lost(lost, notes);
    outcome_of_surveyed(alloc, format, lost.len(), surveyed)
}

// What is printed of what is said of packages, whose files are put in the folder.
fn outcome_in_folder<H: Host>(
    alloc: Global,
    host: &mut H,
    folder: &str,
    format: Format,
    said: &Result<Surveyed, Refusal>,
    notes: &mut Notes,
) -> Result<Outcome, AllocError>
    ensures printed { IfOk result (IsOutcomeOfSurveyIn (Some folder.now) format said.now) }
    ensures left { (at : Files) (was : Kept H.Journal) → H.files host.old ≡ Some at
        → H.kept host.old ≡ Some was → IsLeftWith
        (IsLeftOfSurveyIn (Some folder.now) format said.now at was) at was result (H.files host.new)
        (H.kept host.new) }
{
    match said {
        Ok(surveyed) => outcome_of_answers(alloc, host, folder, format, surveyed, notes),
        Err(refusal) => outcome_of_refusal(alloc, refusal),
    }
}

// What is printed of what is said of packages, whose files are put in the folder, if there is one.
fn outcome_of_said<H: Host>(
    alloc: Global,
    host: &mut H,
    folder: Option<&str>,
    format: Format,
    said: &Result<Surveyed, Refusal>,
    notes: &mut Notes,
) -> Result<Outcome, AllocError>
    ensures printed { IfOk result
        (IsOutcomeOfSurveyIn (option_map (λ path. path.now) folder.entry) format said.now) }
    ensures left { (at : Files) (was : Kept H.Journal) → H.files host.old ≡ Some at
        → H.kept host.old ≡ Some was → IsLeftWith
        (IsLeftOfSurveyIn (option_map (λ path. path.now) folder.entry) format said.now at was)
        at was result (H.files host.new) (H.kept host.new) }
{
    match folder {
        None => outcome_of_survey(alloc, format, said),
        Some(folder) => outcome_in_folder(alloc, host, folder, format, said, notes),
    }
}

// What is printed of the packages that the words ask about, whose files may be put in the folder, if there is one.
fn outcome_of_asked<H: Host>(
    alloc: Global,
    host: &mut H,
    arguments: &Arguments<'_>,
    survey: &Survey<'_>,
    folder: Option<&str>,
    notes: &mut Notes,
) -> Result<Outcome, AllocError>
    ensures printed { (at : Files) → H.files host.old ≡ Some at
        → IfOk result (IsOutcomeOfSurveyed (texts_at at arguments.now)
        (survey_by survey.now) (option_map (λ path. path.now) folder.entry) arguments.now.format) }
    ensures left { (at : Files) (was : Kept H.Journal) → H.files host.old ≡ Some at
        → H.kept host.old ≡ Some was → IsLeftWith
        (IsLeftOfSurveyed (texts_at at arguments.now) (survey_by survey.now)
        (option_map (λ path. path.now) folder.entry)
        arguments.now.format at was)
        at was result (H.files host.new) (H.kept host.new) }
{
    notes.wanted = arguments.explains;
    let question = question_of(survey, arguments.explains || is_document(arguments.format));
    let said = said_of_packages(alloc, host, arguments, &question, notes)?;
    unless_refused(tell_survey(alloc, &said, notes), notes);
    outcome_of_said(alloc, host, folder, arguments.format, &said, notes)
}

/// What is printed of the packages that the words ask about, of which each that is broken has its request and its refutation put as files
/// in the folder, if there is one, before anything is printed. A folder that is refused is so before anything is read. Memory alone can
/// fail.
pub(crate) fn outcome_of_packages<H: Host>(
    alloc: Global,
    host: &mut H,
    arguments: &Arguments<'_>,
    survey: &Survey<'_>,
    folder: Option<&str>,
    notes: &mut Notes,
) -> Result<Outcome, AllocError>
    ensures printed { (at : Files) → H.files host.old ≡ Some at
        → IfOk result (IsOutcomeOfPackages (texts_at at arguments.now)
        (paths_asked arguments.now.paths)
        (survey_by survey.now) (option_map (λ path. path.now) folder.entry) arguments.now.format) }
    ensures left { (at : Files) (was : Kept H.Journal) → H.files host.old ≡ Some at
        → H.kept host.old ≡ Some was → IsLeftWith
        (IsLeftOfPackages (texts_at at arguments.now) (paths_asked arguments.now.paths)
        (survey_by survey.now)
        (option_map (λ path. path.now) folder.entry)
        arguments.now.format at was)
        at was result (H.files host.new) (H.kept host.new) }
{
    match refused_place(alloc, host, folder, &arguments.paths)? {
        Some(outcome) => Ok(outcome),
        None => outcome_of_asked(alloc, host, arguments, survey, folder, notes),
    }
}
