// A verdict on a plan or a refutation, candidates and the answer of a comparison as the line that is printed of it (this
// project's own form).
ghost use Rattle.std.specs.Prelude.{◌≡◌, ◌++◌, IfOk, codes, decimal, map};
ghost use Rattle.std.specs.Fmt.{signed_decimal};
ghost use Rattle.std.specs.Option.{option_copied};
ghost use Rattle.outcomes.specs.Answer as Spec;

use cli_engine::{Answered, CandidateAnswer, RefutationVerdict, Solved, Undecided};
use plantext::{write_plan, write_plan_2};
use refutation_text::write_refutation;
use rules::{Reason, Rule, Text, Verdict};
use std::alloc::{AllocError, Global};

/// The line that is printed of a verdict: `yes`, `no start F0 StartConflict`, `no step NUMBER CODE RULE` or
/// `no end F11 REASON`. Memory alone can fail.
pub fn verdict_line(alloc: Global, verdict: &Verdict) -> Result<Vec<u8>, AllocError>
    ensures { IfOk result (λ line. line.items ≡ Spec.verdict_line verdict.now) }
{
    match verdict {
        Verdict::Yes => b"yes\n".to_vec(alloc),
        Verdict::Start => b"no start F0 StartConflict\n".to_vec(alloc),
        Verdict::Step(number, rule) => step_line(alloc, *number, *rule),
        Verdict::End(reason) => end_line(alloc, reason),
    }
}

/// The line that is printed of the verdict on a refutation: `yes`, or `no line NUMBER`. Memory alone can fail.
pub fn refutation_line(alloc: Global, verdict: &RefutationVerdict) -> Result<Vec<u8>, AllocError>
    ensures { IfOk result (λ line. line.items ≡ Spec.refutation_line verdict.now) }
{
    match verdict {
        RefutationVerdict::Yes => b"yes\n".to_vec(alloc),
        RefutationVerdict::No(number) => Ok(format!(in alloc; "no line {number}\n")?.into_bytes()),
    }
}

/// The text that is printed of the answer to a request: a plan, in version 2 where the request asks for all versions, a refutation, with
/// its pairs named where that is asked for, or `undecided` with what it is undecided for. Memory alone can fail.
pub fn solved_text(alloc: Global, answered: &Answered) -> Result<Vec<u8>, AllocError>
    ensures { IfOk result (λ text. text.items ≡ Spec.solved_text answered.now) }
{
    match &answered.naming {
        Some(text) => text.as_slice().to_vec(alloc),
        None => text_for(alloc, &answered.solved, answered.asks_all_versions),
    }
}

// The text of the answer to a request that asks for all versions, or doesn't; the pairs of a refutation have numbers.
fn text_for(alloc: Global, solved: &Solved, asks_all_versions: bool) -> Result<Vec<u8>, AllocError>
    ensures { IfOk result (λ text. text.items ≡ Spec.text_for asks_all_versions solved.now) }
{
    match solved {
        Solved::Plan(steps) if asks_all_versions => write_plan_2(alloc, steps.as_slice()),
        Solved::Plan(steps) => {
            let text = write_plan(alloc, steps.as_slice())?;
            Ok(text)
        }
        Solved::Refuted(refutation) => {
            let text = write_refutation(alloc, refutation)?;
            Ok(text)
        }
        Solved::Undecided(why) => undecided_line(alloc, why),
    }
}

// The line that says why a request is undecided.
fn undecided_line(alloc: Global, why: &Undecided) -> Result<Vec<u8>, AllocError>
    ensures { IfOk result (λ line. line.items ≡ Spec.undecided_line why.now) }
{
    match why {
        Undecided::Limit(limit) => Ok(format!(in alloc; "undecided limit {limit}\n")?.into_bytes()),
        Undecided::Start => b"undecided blocked start\n".to_vec(alloc),
        Undecided::Stuck(_) => b"undecided blocked stuck\n".to_vec(alloc),
        Undecided::Unchecked => b"undecided unchecked\n".to_vec(alloc),
    }
}

/// The line that is printed of a plan that was carried out: `applied NUMBER`, with the number of its steps. Memory alone can fail.
pub fn applied_line(alloc: Global, steps: usize) -> Result<Vec<u8>, AllocError>
    ensures { IfOk result (λ line. line.items ≡ Spec.applied_line steps) }
{
    Ok(format!(in alloc; "applied {steps}\n")?.into_bytes())
}

/// The line that is printed of a comparison: `yes` or `no`. Memory alone can fail.
pub fn comparison_line(alloc: Global, answer: bool) -> Result<Vec<u8>, AllocError>
    ensures { IfOk result (λ line. line.items ≡ Spec.comparison_line answer) }
{
    if answer {
        b"yes\n".to_vec(alloc)
    } else {
        b"no\n".to_vec(alloc)
    }
}

/// The lines that are printed of the candidates of these names, each in the place of its name. Memory alone can fail.
pub fn candidate_lines(
    alloc: Global,
    names: &[&str],
    candidates: &[Option<CandidateAnswer>],
) -> Result<Vec<u8>, AllocError>
    ensures { IfOk result
        (λ lines. lines.items
        ≡ Spec.candidate_lines (map (λ name. name.now) names.now) candidates.now) }
{
    let mut lines = Vec::new(alloc);
    let mut rest = candidates;
    for name in names {
        let Some((candidate, behind)) = rest.split_first() else {
            return Ok(lines);
        };
        let line = candidate_line(alloc, name.as_bytes(), candidate.as_ref())?;
        lines.extend_from_slice(line.as_slice())?;
        rest = behind;
    }
    Ok(lines)
}

/// The line that is printed of the candidate of a name: `NAME VERSION PRIORITY`, or `NAME none`. Memory alone can fail.
pub fn candidate_line(
    alloc: Global,
    name: &[u8],
    candidate: Option<&CandidateAnswer>,
) -> Result<Vec<u8>, AllocError>
    ensures { IfOk result
        (λ line. line.items ≡ Spec.candidate_line name.now (option_copied candidate.entry)) }
{
    match candidate {
        None => line_of_words(alloc, name, b"none"),
        Some(candidate) => rated_line(alloc, name, candidate.version(), candidate.priority()),
    }
}

// The line of two words.
fn line_of_words(alloc: Global, word: &[u8], other: &[u8]) -> Result<Vec<u8>, AllocError>
    ensures { IfOk result
        (λ line. line.items ≡ word.now ++ (codes " " ++ (other.now ++ codes "\n"))) }
{
    let mut line = word.to_vec(alloc)?;
    line.extend_from_slice(b" ")?;
    line.extend_from_slice(other)?;
    line.extend_from_slice(b"\n")?;
    Ok(line)
}

// The line of a version with its priority.
fn rated_line(
    alloc: Global,
    name: &[u8],
    version: &[u8],
    priority: i32,
) -> Result<Vec<u8>, AllocError>
    ensures { IfOk result (λ line. line.items
        ≡ name.now ++ (codes " "
        ++ ((version.now ++ (codes " " ++ signed_decimal priority)) ++ codes "\n"))) }
{
    let mut words = version.to_vec(alloc)?;
    let priority = format!(in alloc; " {priority}")?;
    words.extend_from_slice(priority.as_bytes())?;
    line_of_words(alloc, name, words.as_slice())
}

// The line of a step that breaks a rule.
fn step_line(alloc: Global, number: usize, rule: Rule) -> Result<Vec<u8>, AllocError>
    ensures { IfOk result
        (λ line. line.items ≡ codes "no step "
        ++ (decimal number ++ (codes " " ++ (Spec.rule_words rule ++ codes "\n")))) }
{
    let rule = rule_words(rule);
    Ok(format!(in alloc; "no step {number} {rule}\n")?.into_bytes())
}

// The line of a reason against the end.
fn end_line(alloc: Global, reason: &Reason) -> Result<Vec<u8>, AllocError>
    ensures { IfOk result
        (λ line. line.items ≡ codes "no end F11 " ++ (Spec.reason_words reason.now ++ codes "\n")) }
{
    match reason {
        Reason::Unfinished(name) => named_line(alloc, "Unfinished", name),
        Reason::Relation(name) => named_line(alloc, "Relation", name),
        Reason::Essential(name) => named_line(alloc, "Essential", name),
        Reason::Goal(number) => Ok(format!(in alloc; "no end F11 Goal {number}\n")?.into_bytes()),
    }
}

// The line of a reason that names a package.
fn named_line(alloc: Global, reason: &str, name: &Text) -> Result<Vec<u8>, AllocError>
    ensures { IfOk result (λ line.
        line.items ≡ ((codes "no end F11 " ++ (reason.now ++ codes " ")) ++ name.now)
        ++ codes "\n") }
{
    let mut line = format!(in alloc; "no end F11 {reason} ")?.into_bytes();
    line.extend_from_slice(name.as_bytes())?;
    line.extend_from_slice(b"\n")?;
    Ok(line)
}

// The code and the name of a rule.
fn rule_words(rule: Rule) -> &'static str
    ensures { result.now ≡ Spec.rule_words rule }
{
    match rule {
        Rule::StartConflict => "F0 StartConflict",
        Rule::PreDepends => "F1 PreDepends",
        Rule::Conflict => "F2 Conflict",
        Rule::Breaks => "F3 Breaks",
        Rule::Depends => "F4 Depends",
        Rule::Group => "F5 Group",
        Rule::NeededBy => "F6 NeededBy",
        Rule::Essential => "F7 Essential",
        Rule::Held => "F8 Held",
        Rule::WrongState => "F9 WrongState",
        Rule::NotAdmitted => "F10 NotAdmitted",
        Rule::End => "F11 End",
    }
}
