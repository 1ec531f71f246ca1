// Sentences on a plan's no.

ghost use Rattle.std.specs.Prelude.{◌≡◌, IfOk, MatchOption, ⊤};
ghost use Rattle.rules.specs.Database.{HasDistinctNames};
ghost use Rattle.rules.specs.Verdict.{IsBuiltOn, IsVerdict};
ghost use Rattle.rules.specs.declared.step.Verdict.TheVariants as verdicts;
ghost use Rattle.plan_sentences.specs.No as Spec;

use crate::bare::push_bare;
use crate::end::end_text;
use crate::shown::witness_told;
use crate::start::push_start;
use crate::words::code_of;
use index::IndexPackage;
use phrases::push_count;
use plancheck::stanzas_for;
use plancheck_state::Records;
use plantext::write_step;
use rules::{Reason, Rule, Step, Verdict};
use std::alloc::{AllocError, Global};
use universe::Universe;
use witness::{Witness, find_witness, turn};

// The line of the step, without its newline.
fn line_text(alloc: Global, step: &Step) -> Result<Vec<u8>, AllocError>
    ensures { IfOk result (λ text. text.items ≡ Spec.line_words step.now) }
{
    let line = write_step(alloc, step)?;
    let mut text = Vec::new(alloc);
    let bytes = line.as_slice();
    for byte in bytes {
        if *byte != b'\n' {
            text.push(*byte)?;
        }
    }
    Ok(text)
}

// The number of the step, its line of the plan, and the rule that it fails.
fn step_text(alloc: Global, number: usize, step: &Step, rule: Rule) -> Result<Vec<u8>, AllocError>
    ensures { IfOk result (λ text. text.items ≡ Spec.step_words number step.now rule) }
{
    let line = line_text(alloc, step)?;
    let mut text = Vec::new(alloc);
    text.extend_from_slice(b"Step ")?;
    push_count(&mut text, number)?;
    text.extend_from_slice(b" is '")?;
    text.extend_from_slice(line.as_slice())?;
    text.extend_from_slice(b"', which isn't allowed (")?;
    text.extend_from_slice(code_of(rule))?;
    text.extend_from_slice(b"): ")?;
    Ok(text)
}

// What stands against the step in these records.
fn reason_text(
    alloc: Global,
    db: &Records<'_, '_>,
    universe: &Universe<'_, '_>,
    listed: &Option<IndexPackage<'_>>,
    step: &Step,
    rule: Rule,
    witness: &Option<Witness>,
) -> Result<Vec<u8>, AllocError>
    ensures { HasDistinctNames db.now → IfOk result (λ text. MatchOption witness.now ⊤
        (λ it. Spec.IsWitnessTold listed.now db.now it text.items)) }
{
    match witness {
        Some(witness) => witness_told(alloc, db, listed, witness),
        None => {
            let mut text = Vec::new(alloc);
            push_bare(&mut text, db, universe, step, rule)?;
            Ok(text)
        }
    }
}

// Sentences on a step that isn't allowed.
fn step_sentences<'p, 'a>(
    alloc: Global,
    start: &Records<'p, 'a>,
    universe: &Universe<'_, 'a>,
    steps: &[Step],
    number: usize,
    rule: Rule,
) -> Result<Vec<u8>, AllocError>
    requires built { IsBuiltOn start.now universe.now }
    requires verdict { IsVerdict universe.now start.now steps.now (verdicts.Step number rule) }
    ensures { IfOk result (λ text.
        Spec.TellsStep universe.now start.now steps.now number rule text.items) }
{
    let witness = find_witness(alloc, start, universe, steps, number, rule)?;
    let stanzas = stanzas_for(alloc, universe, steps)?;
    let before = number - 1;
    let db = turn(alloc, start, universe, steps, stanzas.as_slice(), before)?;
    let listed = &stanzas[before];
    let step = &steps[before];
    let said = reason_text(alloc, &db, universe, listed, step, rule, &witness)?;
    let mut text = step_text(alloc, number, step, rule)?;
    text.extend_from_slice(said.as_slice())?;
    text.extend_from_slice(b".\n")?;
    Ok(text)
}

// Sentences on an end that isn't good.
fn end_sentences<'p, 'a>(
    alloc: Global,
    start: &Records<'p, 'a>,
    universe: &Universe<'_, 'a>,
    steps: &[Step],
    reason: &Reason,
) -> Result<Vec<u8>, AllocError>
    requires built { IsBuiltOn start.now universe.now }
    requires verdict { IsVerdict universe.now start.now steps.now (verdicts.End reason.now) }
    ensures { IfOk result
        (λ text. Spec.TellsEnd universe.now start.now steps.now reason.now text.items) }
{
    let stanzas = stanzas_for(alloc, universe, steps)?;
    let db = turn(
        alloc,
        start,
        universe,
        steps,
        stanzas.as_slice(),
        steps.len(),
    )?;
    let text = end_text(alloc, &db, universe, reason)?;
    Ok(text)
}

// Sentences on packages that conflict at the start.
fn start_sentences(alloc: Global, start: &Records<'_, '_>) -> Result<Vec<u8>, AllocError> {
    let mut text = Vec::new(alloc);
    push_start(alloc, &mut text, start)?;
    Ok(text)
}

/// Sentences on the verdict of a plan that isn't good: the step, the rule that it fails and what stands against it; or what is
/// against the end; or two packages that conflict at the start. They cost what `turn` and `find_witness` cost. Memory alone
/// can fail.
pub fn no_sentences<'p, 'a>(
    alloc: Global,
    start: &Records<'p, 'a>,
    universe: &Universe<'_, 'a>,
    steps: &[Step],
    verdict: &Verdict,
) -> Result<Vec<u8>, AllocError>
    requires built { IsBuiltOn start.now universe.now }
    requires verdict { IsVerdict universe.now start.now steps.now verdict.now }
    ensures { IfOk result
        (λ text. Spec.TellsNo universe.now start.now steps.now verdict.now text.items) }
{
    match verdict {
        Verdict::Yes => Ok(Vec::new(alloc)),
        Verdict::Start => start_sentences(alloc, start),
        Verdict::Step(number, rule) => {
            step_sentences(alloc, start, universe, steps, *number, *rule)
        }
        Verdict::End(reason) => end_sentences(alloc, start, universe, steps, reason),
    }
}
