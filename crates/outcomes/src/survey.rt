//! What is printed of packages that are asked about, and how the program ends then.
ghost use Rattle.std.specs.Prelude.{◌≡◌, ◌++◌, IfOk, Ok, OnOk, codes, length, string_bytes};
ghost use Rattle.std.specs.List.{flat_map, list_any};
ghost use Rattle.outcomes.specs.Survey as Spec;

use crate::exit::Exit;
use crate::outcome::{Outcome, outcome_of_refusal};
use crate::survey_documents::survey_documents;
use command_line::Format;
use inputs::Refusal;
use installable::{Installability, PackageAnswer, Surveyed};
use rules::Items;
use std::alloc::{AllocError, Global};

// Whether the request has no acceptable selection.
fn is_broken(installability: &Installability) -> bool
    ensures { result ≡ Spec.is_broken installability.now }
{
    matches!(installability, Installability::Broken(_))
}

// Whether it isn't known that the request has one.
fn is_undecided(installability: &Installability) -> bool
    ensures { result ≡ Spec.is_undecided installability.now }
{
    matches!(
        installability,
        Installability::Limit(_) | Installability::Unchecked
    )
}

// Writes the word, the subject and the end of a line.
fn push_line(text: &mut Vec<u8>, word: &[u8], subject: &[u8]) -> Result<(), AllocError>
    ensures { OnOk result
        (text.new.items ≡ text.old.items ++ (word.now ++ (subject.now ++ codes "\n"))) }
{
    text.extend_from_slice(word)?;
    text.extend_from_slice(subject)?;
    text.extend_from_slice(b"\n")
}

/// Writes the line of a request of this subject, if there is one. Memory alone can fail.
pub(crate) fn push_installability(
    text: &mut Vec<u8>,
    subject: &[u8],
    installability: &Installability,
) -> Result<(), AllocError>
    ensures { OnOk result
        (text.new.items ≡ text.old.items ++ Spec.line_of subject.now installability.now) }
{
    match installability {
        Installability::Installable => Ok(()),
        Installability::Broken(_) => push_line(text, b"broken ", subject),
        Installability::Limit(_) | Installability::Unchecked => {
            push_line(text, b"undecided ", subject)
        }
    }
}

/// The package, as it is named in its line. Memory alone can fail.
pub(crate) fn subject_of(alloc: Global, answer: &PackageAnswer) -> Result<Vec<u8>, AllocError>
    ensures { IfOk result (λ text. text.items ≡ Spec.subject_of answer.now) }
{
    let mut text = answer.name.as_bytes().to_vec(alloc)?;
    text.extend_from_slice(b" ")?;
    text.extend_from_slice(answer.version.as_bytes())?;
    Ok(text)
}

// Writes the line of a package, if there is one.
fn push_package(alloc: Global, text: &mut Vec<u8>, answer: &PackageAnswer) -> Result<(), AllocError>
    ensures { OnOk result (text.new.items ≡ text.old.items ++ Spec.package_line answer.now) }
{
    let subject = subject_of(alloc, answer)?;
    push_installability(text, subject.as_slice(), &answer.installability)
}

// Writes the lines of packages.
fn push_packages(
    alloc: Global,
    text: &mut Vec<u8>,
    answers: &[PackageAnswer],
) -> Result<(), AllocError>
    ensures { OnOk result
        (text.new.items ≡ text.old.items ++ flat_map Spec.package_line answers.now) }
{
    for answer in answers {
        push_package(alloc, text, answer)?;
    }
    Ok(())
}

/// How many packages are broken.
pub(crate) fn count_broken(answers: &[PackageAnswer]) -> usize
    ensures { result ≡ length (Spec.broken_of answers.now) }
{
    answers
        .iter()
        .filter(|answer| is_broken(&answer.installability))
        .count()
}

/// How many packages are undecided.
pub(crate) fn count_undecided(answers: &[PackageAnswer]) -> usize
    ensures { result ≡ length (Spec.undecided_of answers.now) }
{
    answers
        .iter()
        .filter(|answer| is_undecided(&answer.installability))
        .count()
}

// How many packages are undecided, in words, where some are.
fn undecided_words(alloc: Global, number: usize) -> Result<String, AllocError>
    ensures { IfOk result (λ words. string_bytes words ≡ Spec.undecided_words number) }
{
    match number {
        0 => Ok(String::new(alloc)),
        _ => format!(in alloc; ", undecided {number}"),
    }
}

// How many files couldn't be written, in words, if some couldn't.
fn unwritten_words(alloc: Global, number: usize) -> Result<String, AllocError>
    ensures { IfOk result (λ words. string_bytes words ≡ Spec.unwritten_words number) }
{
    match number {
        0 => Ok(String::new(alloc)),
        _ => format!(in alloc; ", unwritten {number}"),
    }
}

/// The last line, with how many files couldn't be written. Memory alone can fail.
pub(crate) fn counts_line(
    alloc: Global,
    unwritten: usize,
    answers: &[PackageAnswer],
) -> Result<Vec<u8>, AllocError>
    ensures { IfOk result (λ line. line.items ≡ Spec.counts_line unwritten answers.now) }
{
    let asked = answers.len();
    let broken = count_broken(answers);
    let undecided = undecided_words(alloc, count_undecided(answers))?;
    let unwritten = unwritten_words(alloc, unwritten)?;
    let (undecided, unwritten) = (undecided.as_str(), unwritten.as_str());
    Ok(format!(in alloc; "checked {asked}, broken {broken}{undecided}{unwritten}\n")?.into_bytes())
}

// The text that is printed of the answers, with how many files couldn't be written.
fn counted_text(alloc: Global, unwritten: usize, surveyed: &Surveyed) -> Result<Vec<u8>, AllocError>
    ensures { IfOk result (λ text. text.items ≡ Spec.counted_text unwritten surveyed.now) }
{
    let packages = surveyed.packages.as_slice();
    let mut text = Vec::new(alloc);
    push_installability(&mut text, b"base", &surveyed.base)?;
    push_packages(alloc, &mut text, packages)?;
    let counts = counts_line(alloc, unwritten, packages)?;
    text.extend_from_slice(counts.as_slice())?;
    Ok(text)
}

/// The text that is printed of the answers about packages: `broken base` or `undecided base` if what stands beside each package can't be
/// had by itself or isn't decided; `broken NAME VERSION` or `undecided NAME VERSION` for each package of which that is so, in their order;
/// and `checked NUMBER, broken NUMBER`, with `, undecided NUMBER` after it if some are. Memory alone can fail.
pub fn survey_text(alloc: Global, surveyed: &Surveyed) -> Result<Vec<u8>, AllocError>
    ensures { IfOk result (λ text. text.items ≡ Spec.survey_text surveyed.now) }
{
    counted_text(alloc, 0, surveyed)
}

// Whether one of the packages is broken.
fn has_broken(answers: &[PackageAnswer]) -> bool
    ensures { result ≡ list_any (λ answer. Spec.is_broken answer.installability) answers.now }
{
    answers
        .iter()
        .any(|answer| is_broken(&answer.installability))
}

// Whether one of the packages is undecided.
fn has_undecided(answers: &[PackageAnswer]) -> bool
    ensures { result ≡ list_any (λ answer. Spec.is_undecided answer.installability) answers.now }
{
    answers
        .iter()
        .any(|answer| is_undecided(&answer.installability))
}

/// How the program ends with these answers about packages: undecided where one is, and else no where one is broken.
pub fn exit_of_survey(surveyed: &Surveyed) -> Exit
    ensures { result ≡ Spec.exit_of_survey surveyed.now }
{
    let packages = surveyed.packages.as_slice();
    if is_undecided(&surveyed.base) || has_undecided(packages) {
        Exit::Undecided
    } else if is_broken(&surveyed.base) || has_broken(packages) {
        Exit::No
    } else {
        Exit::Success
    }
}

// How the program ends if so many files couldn't be written.
fn exit_with(unwritten: usize, surveyed: &Surveyed) -> Exit
    ensures { result ≡ Spec.exit_with unwritten surveyed.now }
{
    match unwritten {
        0 => exit_of_survey(surveyed),
        _ => Exit::Device,
    }
}

// The answers in the format, with how many files couldn't be written.
fn printed_in(
    alloc: Global,
    format: Format,
    unwritten: usize,
    surveyed: &Surveyed,
) -> Result<Vec<u8>, AllocError>
    ensures { IfOk result (λ text. Spec.IsSurveyIn format unwritten surveyed.now text.items) }
{
    match format {
        Format::Text => counted_text(alloc, unwritten, surveyed),
        Format::Json => survey_documents(alloc, unwritten, surveyed),
    }
}

/// What is printed of the answers about packages, of which no file is to be written: they on standard output, in this format, or the line
/// of a refusal on standard error. Memory alone can fail.
pub fn outcome_of_survey(
    alloc: Global,
    format: Format,
    answer: &Result<Surveyed, Refusal>,
) -> Result<Outcome, AllocError>
    ensures { IfOk result (λ outcome. Spec.IsOutcomeOfSurvey format 0 answer.now outcome) }
{
    match answer {
        Ok(surveyed) => outcome_of_surveyed(alloc, format, 0, surveyed),
        Err(refusal) => outcome_of_refusal(alloc, refusal),
    }
}

/// What is printed of what is answered about packages, of whose files so many couldn't be written: the answers on standard output, in
/// this format, and in the last line that number, if it isn't 0. Memory alone can fail.
pub fn outcome_of_surveyed(
    alloc: Global,
    format: Format,
    unwritten: usize,
    surveyed: &Surveyed,
) -> Result<Outcome, AllocError>
    ensures { IfOk result
        (λ outcome. Spec.IsOutcomeOfSurvey format unwritten (Ok surveyed.now) outcome) }
{
    let text = Items::new(printed_in(alloc, format, unwritten, surveyed)?);
    Ok(Outcome::Answer(text, exit_with(unwritten, surveyed)))
}

/// What is printed if no file can be written in the folder of refutations. Memory alone can fail.
pub fn outcome_of_unwritten_folder(alloc: Global) -> Result<Outcome, AllocError>
    ensures { IfOk result Spec.IsFolderUnwritten }
{
    let line = Items::new(b"debplan: refutations: E26 Write\n".to_vec(alloc)?);
    Ok(Outcome::Complaint(line, Exit::Device))
}
