// What the program prints, and on which stream.
ghost use Rattle.std.specs.Prelude.{◌≡◌, ◌≢◌, IfOk, map};
ghost use Rattle.clap.specs.Values.{kind_of};
ghost use Rattle.outcomes.specs.Answer.{applied_line, solved_text, verdict_line};
ghost use Rattle.outcomes.specs.Exit.{exit_of_solved, exit_of_verdict};
ghost use Rattle.outcomes.specs.Outcome.{IsOutcomeIn, IsOutcomeOfCandidates, IsOutcomeOfComparison, IsOutcomeOfKind, IsOutcomeOfOneFile, IsOutcomeOfPlan, IsOutcomeOfRefusal, IsOutcomeOfRefutation, IsOutcomeOfSolved, IsOutcomeOfStopped, IsOutcomeOfUnbegun, IsPrintedAs, IsRequestUnwritten, IsUnwritten, one_file_line as line_of_one_file};
ghost use Rattle.outcomes.specs.declared.exit.Exit.TheVariants as exit;
ghost use Rattle.outcomes.specs.declared.outcome.Outcome.TheVariants as printed;
ghost use Rattle.serde_json.specs.View.{members_view};

use crate::answer::{
    applied_line, candidate_lines, comparison_line, refutation_line, solved_text, verdict_line,
};
use crate::exit::{
    Exit, exit_of_begin_error, exit_of_candidates, exit_of_comparison, exit_of_refusal,
    exit_of_refutation, exit_of_run_error, exit_of_solved, exit_of_verdict,
};
use apply::{BeginError, CatchUpError, RunError};
use clap::Error;
use clap::error::ErrorKind;
use cli_engine::{Answered, CandidateAnswer, JudgedPlan, JudgedRefutation, Refusal};
use command_line::{COMMANDS, Format};
use journal::{CreateError, OpenError};
use json_answers::{Members, document};
use refusal_lines::{refusal_line, stopped_line, unbegun_line};
use rules::{Items, Verdict};
use std::alloc::{AllocError, Global};

/// What the program prints, and how it ends.
#[derive(Drop)]
pub enum Outcome {
    /// This text on standard output.
    Answer(Items<u8>, Exit),
    /// This text on standard error.
    Complaint(Items<u8>, Exit),
}

/// What is printed of the answer to a plan: the line of its verdict on standard output, or of a refusal on standard error. Memory alone
/// can fail.
pub fn outcome_of_plan(
    alloc: Global,
    answer: &Result<JudgedPlan, Refusal>,
) -> Result<Outcome, AllocError>
    ensures { IfOk result (λ outcome. IsOutcomeOfPlan answer.now outcome) }
{
    match answer {
        Ok(judged) => outcome_of_verdict(alloc, &judged.verdict),
        Err(refusal) => outcome_of_refusal(alloc, refusal),
    }
}

/// What is printed of a verdict on a plan: its line on standard output. Memory alone can fail.
pub fn outcome_of_verdict(alloc: Global, verdict: &Verdict) -> Result<Outcome, AllocError>
    ensures { IfOk result
        (λ outcome. outcome
        ≡ printed.Answer (verdict_line verdict.now) (exit_of_verdict verdict.now)) }
{
    let line = Items::new(verdict_line(alloc, verdict)?);
    Ok(Outcome::Answer(line, exit_of_verdict(verdict)))
}

/// What is printed of the answer to a refutation: the line of its verdict on standard output, or of a refusal on standard error. Memory
/// alone can fail.
pub fn outcome_of_refutation(
    alloc: Global,
    answer: &Result<JudgedRefutation, Refusal>,
) -> Result<Outcome, AllocError>
    ensures { IfOk result (λ outcome. IsOutcomeOfRefutation answer.now outcome) }
{
    match answer {
        Ok(judged) => {
            let line = Items::new(refutation_line(alloc, &judged.verdict)?);
            Ok(Outcome::Answer(line, exit_of_refutation(&judged.verdict)))
        }
        Err(refusal) => outcome_of_refusal(alloc, refusal),
    }
}

/// What is printed of the answer to a request: its text on standard output, or the line of a refusal on standard error. Memory alone can
/// fail.
pub fn outcome_of_solved(
    alloc: Global,
    answer: &Result<Answered, Refusal>,
) -> Result<Outcome, AllocError>
    ensures { IfOk result (λ outcome. IsOutcomeOfSolved answer.now outcome) }
{
    match answer {
        Ok(answered) => outcome_of_answered(alloc, answered),
        Err(refusal) => outcome_of_refusal(alloc, refusal),
    }
}

/// What is printed of what is answered to a request: its text on standard output. Memory alone can fail.
pub fn outcome_of_answered(alloc: Global, answered: &Answered) -> Result<Outcome, AllocError>
    ensures { IfOk result
        (λ outcome. outcome
        ≡ printed.Answer (solved_text answered.now) (exit_of_solved answered.now.solved)) }
{
    let text = Items::new(solved_text(alloc, answered)?);
    Ok(Outcome::Answer(text, exit_of_solved(&answered.solved)))
}

/// What is printed of a comparison: its line on standard output, or that of a refusal on standard error. Memory alone can fail.
pub fn outcome_of_comparison(
    alloc: Global,
    answer: &Result<bool, Refusal>,
) -> Result<Outcome, AllocError>
    ensures { IfOk result (λ outcome. IsOutcomeOfComparison answer.now outcome) }
{
    match answer {
        Ok(answer) => {
            let line = Items::new(comparison_line(alloc, *answer)?);
            Ok(Outcome::Answer(line, exit_of_comparison(*answer)))
        }
        Err(refusal) => outcome_of_refusal(alloc, refusal),
    }
}

/// What is printed of the candidates of these names: a line for each on standard output, or that of a refusal on standard error. Memory
/// alone can fail.
pub fn outcome_of_candidates(
    alloc: Global,
    names: &[&str],
    answer: &Result<Items<Option<CandidateAnswer>>, Refusal>,
) -> Result<Outcome, AllocError>
    ensures { IfOk result
        (λ outcome. IsOutcomeOfCandidates (map (λ name. name.now) names.now) answer.now outcome) }
{
    match answer {
        Ok(candidates) => {
            let lines = Items::new(candidate_lines(alloc, names, candidates.as_slice())?);
            let exit = exit_of_candidates(candidates.as_slice());
            Ok(Outcome::Answer(lines, exit))
        }
        Err(refusal) => outcome_of_refusal(alloc, refusal),
    }
}

/// What is printed of this outcome in the format, which is a document with these members where it is JSON. Memory alone can fail.
pub fn outcome_in(
    alloc: Global,
    format: Format,
    outcome: Outcome,
    members: Members,
) -> Result<Outcome, AllocError>
    ensures { IfOk result (IsOutcomeIn format (members_view members.map.entries) outcome) }
{
    match outcome {
        Outcome::Answer(text, exit) => {
            let printed = printed_as(alloc, format, text, members)?;
            Ok(Outcome::Answer(printed, exit))
        }
        Outcome::Complaint(text, exit) => Ok(Outcome::Complaint(text, exit)),
    }
}

// The text in the format.
fn printed_as(
    alloc: Global,
    format: Format,
    text: Items<u8>,
    members: Members,
) -> Result<Items<u8>, AllocError>
    ensures { IfOk result (IsPrintedAs format (members_view members.map.entries) text) }
{
    match format {
        Format::Text => Ok(text),
        Format::Json => Ok(Items::new(document(alloc, members, text.as_slice())?)),
    }
}

/// What is printed of a refusal: its line on standard error. Memory alone can fail.
pub fn outcome_of_refusal(alloc: Global, refusal: &Refusal) -> Result<Outcome, AllocError>
    ensures { IfOk result (λ outcome. IsOutcomeOfRefusal refusal.now outcome) }
{
    let line = Items::new(refusal_line(alloc, refusal)?);
    Ok(Outcome::Complaint(line, exit_of_refusal(refusal)))
}

/// What is printed of a plan for which no journal is made, for this. Where memory was wanting, that fails here. Memory alone can fail.
pub fn outcome_of_unbegun(alloc: Global, e: BeginError) -> Result<Outcome, AllocError>
    ensures { IfOk result (IsOutcomeOfUnbegun e) }
{
    match e {
        BeginError::NotRead(OpenError::OutOfMemory)
        | BeginError::NotCreated(CreateError::OutOfMemory) => Err(AllocError),
        _ => {
            let line = Items::new(unbegun_line(alloc, e)?);
            Ok(Outcome::Complaint(line, exit_of_begin_error(e)))
        }
    }
}

/// What is printed of a plan that its journal didn't carry out for this. Where memory was wanting, that fails here. Memory alone can
/// fail.
pub fn outcome_of_stopped(alloc: Global, e: &RunError<'_>) -> Result<Outcome, AllocError>
    ensures { IfOk result (IsOutcomeOfStopped e.now) }
{
    if is_for_memory(e) {
        return Err(AllocError);
    }
    let line = Items::new(stopped_line(alloc, e)?);
    Ok(Outcome::Complaint(line, exit_of_run_error(e)))
}

// The line that says that two places are one file.
fn one_file_line(alloc: Global, first: &str, other: &str) -> Result<Vec<u8>, AllocError>
    ensures { IfOk result (λ line. line.items ≡ line_of_one_file first.now other.now) }
{
    Ok(format!(in alloc; "debplan: {first} and {other} are one file\n")?.into_bytes())
}

/// What is printed of words that name one file in these two places. Memory alone can fail.
pub fn outcome_of_one_file(alloc: Global, first: &str, other: &str) -> Result<Outcome, AllocError>
    ensures { IfOk result IsOutcomeOfOneFile }
{
    let line = Items::new(one_file_line(alloc, first, other)?);
    Ok(Outcome::Complaint(line, Exit::Usage))
}

/// What is printed of an output that couldn't be written. Memory alone can fail.
pub fn outcome_of_unwritten(alloc: Global) -> Result<Outcome, AllocError>
    ensures { IfOk result IsUnwritten }
{
    let line = Items::new(b"debplan: output: E26 Write\n".to_vec(alloc)?);
    Ok(Outcome::Complaint(line, Exit::Device))
}

/// What is printed of a request that is left and couldn't be written. Memory alone can fail.
pub fn outcome_of_unwritten_request(alloc: Global) -> Result<Outcome, AllocError>
    ensures { IfOk result IsRequestUnwritten }
{
    let line = Items::new(b"debplan: request-out: E26 Write\n".to_vec(alloc)?);
    Ok(Outcome::Complaint(line, Exit::Device))
}

/// What is printed of a plan of so many steps that was carried out. Memory alone can fail.
pub fn outcome_of_steps(alloc: Global, steps: usize) -> Result<Outcome, AllocError>
    ensures { IfOk result (λ outcome. outcome ≡ printed.Answer (applied_line steps) exit.Success) }
{
    let line = Items::new(applied_line(alloc, steps)?);
    Ok(Outcome::Answer(line, Exit::Success))
}

// Whether memory was wanting for the journal: then it isn't refused.
fn is_for_memory(e: &RunError<'_>) -> bool {
    match e {
        RunError::NotOpened(e) => *e == OpenError::OutOfMemory,
        RunError::NotFinished { cause, .. } => matches!(cause, CatchUpError::OutOfMemory),
    }
}

/// What is printed of words that ask for help or are wrong. Memory alone can fail.
pub fn outcome_of_usage(alloc: Global, error: &Error) -> Result<Outcome, AllocError>
    ensures { IfOk result
        (λ outcome. (kind_of error.now ≢ ErrorKind.OutOfMemory)
        × IsOutcomeOfKind (kind_of error.now) outcome) }
{
    match error.kind() {
        ErrorKind::OutOfMemory => Err(AllocError),
        ErrorKind::DisplayHelp | ErrorKind::DisplayVersion => {
            Ok(Outcome::Answer(usage_text(alloc, error)?, Exit::Success))
        }
        _ => Ok(Outcome::Complaint(usage_text(alloc, error)?, Exit::Usage)),
    }
}

// The text of this error, and the commands where one is named that there is none of.
fn usage_text(alloc: Global, error: &Error) -> Result<Items<u8>, AllocError> {
    let mut text = error.to_string(alloc)?;
    if error.kind() == ErrorKind::InvalidSubcommand {
        text.push_str(COMMANDS)?;
    }
    Ok(Items::new(text.into_bytes()))
}
