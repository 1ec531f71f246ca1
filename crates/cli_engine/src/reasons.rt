//! What is told of a refutation, and of an answer to a request, where that is wanted.
ghost use Rattle.std.specs.Prelude.{◌≡◌, ◌^◌, ◌<◌, IfOk, length};
ghost use Rattle.std.specs.Option.{option_copied};
ghost use Rattle.candidates.specs.Inputs.{indices_of};
ghost use Rattle.inputs.specs.ReadAs.{IsOver, start_of};
ghost use Rattle.named_lines.specs.Judged.{IsVerdictOn};
ghost use Rattle.plan_sentences.specs.Told.{TellsPlan};
ghost use Rattle.refutation.specs.Clause.{item_at};
ghost use Rattle.refutation.specs.Refutation.{IsAccepted};
ghost use Rattle.rules.specs.Run.{IsGoodPlan};
ghost use Rattle.universe_parts.specs.Parts.{HaveDistinctNames};
ghost use Rattle.cli_engine.specs.Reasons.{AreReasons, IsToldWhere, TellsRefutation, TellsSolved, bad_line_words, fault_words, line_words, missing_words};
ghost use Rattle.cli_engine.specs.Right.{IsRight};

use crate::judged::{sentences_on, told_of};
use inputs::{Before, Requested};
use phrases::push_versioned;
use refutation::{Line, Refutation};
use refutation_sentences::{core, sentences};
use refutecheck::{Premises, Verdict as RefutationVerdict};
use rules::{Items, Step, Verdict};
use solver::Solved;
use std::alloc::{AllocError, Global};
use universe::Universe;
use written_refutation::{Missing, NumberedLines};

// The sentence on a line that names a pair which isn't admitted.
fn missing_sentence(alloc: Global, missing: &Missing) -> Result<Vec<u8>, AllocError>
    ensures { IfOk result (λ text. text.items ≡ missing_words missing.now) }
{
    let line = missing.line;
    let mut text = format!(in alloc; "Line {line} names ")?.into_bytes();
    push_versioned(
        &mut text,
        missing.pair.name.as_bytes(),
        missing.pair.version.as_bytes(),
    )?;
    text.extend_from_slice(b", which isn't admitted.\n")?;
    Ok(text)
}

// The line of this number, counted from 1.
fn line_at(lines: &[Line], number: usize) -> Option<&Line>
    ensures { option_copied result ≡ item_at lines.now number }
{
    let place = number.checked_sub(1)?;
    lines.get(place)
}

// The sentence on the bad line of this number, by what it is.
fn line_sentence(alloc: Global, line: &Line, number: usize) -> Result<Vec<u8>, AllocError>
    ensures { IfOk result (λ text. text.items ≡ line_words number line.now) }
{
    match line {
        Line::Premise(_) => Ok(format!(in alloc;
            "Line {number} isn't a premise of this request over these inputs.\n"
        )?.into_bytes()),
        Line::Derived(_, _) => Ok(format!(in alloc;
            "Line {number} doesn't follow from the lines that it names.\n"
        )?.into_bytes()),
    }
}

// The sentence on the first bad line, of this number: what is wrong with it.
fn bad_line_sentence(alloc: Global, lines: &[Line], number: usize) -> Result<Vec<u8>, AllocError>
    ensures { IfOk result
        (λ text. text.items ≡ bad_line_words number (item_at lines.now number)) }
{
    match line_at(lines, number) {
        Some(line) => line_sentence(alloc, line, number),
        None => b"Each line is right, but the last one leaves a choice.\n".to_vec(alloc),
    }
}

// The sentence on a refutation that isn't accepted, of which this is the number of the first bad line.
fn fault_sentence(
    alloc: Global,
    numbered: &NumberedLines,
    number: usize,
) -> Result<Vec<u8>, AllocError>
    ensures { IfOk result
        (λ text. text.items ≡ fault_words number numbered.now.lines numbered.now.missing) }
{
    match &numbered.missing {
        Some(missing) => missing_sentence(alloc, missing),
        None => bad_line_sentence(alloc, numbered.lines.as_slice(), number),
    }
}

// A sentence for each premise of a core of the refutation. Memory alone can fail.
fn core_sentences(
    alloc: Global,
    before: &Before<'_, '_, '_, '_, '_, '_, '_, '_>,
    universe: &Universe<'_, '_>,
    refutation: &Refutation,
    asks_all_versions: bool,
) -> Result<Vec<u8>, AllocError>
    requires few { length universe.now.pairs < 2 ^ 32 }
    requires distinct { HaveDistinctNames universe.now.starts }
    requires accepted { IsAccepted universe.now refutation.now }
    ensures { IfOk result
        (λ text. AreReasons universe.now (indices_of before.now.indices.now) refutation.now
        asks_all_versions text.items) }
{
    let premises = Premises::new(alloc, universe);
    let shorter = core(&premises, refutation)?;
    let text = sentences(
        &premises,
        before.indices,
        before.prefs,
        &shorter,
        asks_all_versions,
    )?;
    Ok(text)
}

// The sentences on a refutation with this verdict.
fn refutation_sentences_on(
    alloc: Global,
    before: &Before<'_, '_, '_, '_, '_, '_, '_, '_>,
    requested: &Requested<'_, '_>,
    numbered: &NumberedLines,
    verdict: RefutationVerdict,
) -> Result<Vec<u8>, AllocError>
    requires over { IsOver before.now requested.now.universe }
    requires verdict { IsVerdictOn requested.now.universe numbered.now verdict }
    ensures { IfOk result (λ text. TellsRefutation requested.now.universe
        (indices_of before.now.indices.now) numbered.now
        requested.now.asks_all_versions verdict text.items) }
{
    match verdict {
        RefutationVerdict::Yes => core_sentences(
            alloc,
            before,
            &requested.universe,
            &numbered.lines,
            requested.asks_all_versions,
        ),
        RefutationVerdict::No(number) => fault_sentence(alloc, numbered, number),
    }
}

/// What is told of a refutation with this verdict, where that is wanted and memory isn't refused for it: its reasons, if it is accepted,
/// and else which pair it names that isn't admitted, or what is wrong with its first bad line.
pub(crate) fn reasons_of_refutation(
    alloc: Global,
    before: &Before<'_, '_, '_, '_, '_, '_, '_, '_>,
    requested: &Requested<'_, '_>,
    numbered: &NumberedLines,
    verdict: RefutationVerdict,
    tells_reasons: bool,
) -> Option<Items<u8>>
    requires over { IsOver before.now requested.now.universe }
    requires verdict { IsVerdictOn requested.now.universe numbered.now verdict }
    ensures { IsToldWhere tells_reasons
        (TellsRefutation requested.now.universe
        (indices_of before.now.indices.now) numbered.now requested.now.asks_all_versions verdict)
        result }
{
    if !tells_reasons {
        return None;
    }
    let text = refutation_sentences_on(alloc, before, requested, numbered, verdict);
    told_of(text)
}

// The sentences on what a good plan changes.
fn plan_sentences_on<'a>(
    alloc: Global,
    before: &Before<'_, '_, '_, '_, '_, '_, '_, 'a>,
    universe: &Universe<'_, 'a>,
    steps: &[Step],
) -> Result<Vec<u8>, AllocError>
    requires over { IsOver before.now universe.now }
    requires good { IsGoodPlan universe.now (start_of before.now) steps.now }
    ensures { IfOk result
        (λ text. TellsPlan universe.now (start_of before.now) steps.now text.items) }
{
    let text = sentences_on(alloc, before.status_file, universe, steps, &Verdict::Yes)?;
    Ok(text)
}

// The sentences on an answer to a request.
fn solved_sentences<'a>(
    alloc: Global,
    before: &Before<'_, '_, '_, '_, '_, '_, '_, 'a>,
    requested: &Requested<'_, 'a>,
    solved: &Solved,
) -> Result<Vec<u8>, AllocError>
    requires over { IsOver before.now requested.now.universe }
    requires right { IsRight requested.now.universe (start_of before.now) solved.now }
    ensures { IfOk result (λ text. TellsSolved requested.now.universe
        (indices_of before.now.indices.now) (start_of before.now)
        requested.now.asks_all_versions solved.now text.items) }
{
    match solved {
        Solved::Refuted(refutation) => core_sentences(
            alloc,
            before,
            &requested.universe,
            refutation,
            requested.asks_all_versions,
        ),
        Solved::Plan(steps) => {
            plan_sentences_on(alloc, before, &requested.universe, steps.as_slice())
        }
        Solved::Undecided(_) => Ok(Vec::new(alloc)),
    }
}

/// What is told of an answer to a request, where that is wanted and memory isn't refused for it: the reasons of a refutation, and what a
/// plan changes.
pub(crate) fn reasons_of_solved<'a>(
    alloc: Global,
    before: &Before<'_, '_, '_, '_, '_, '_, '_, 'a>,
    requested: &Requested<'_, 'a>,
    solved: &Solved,
    tells_reasons: bool,
) -> Option<Items<u8>>
    requires over { IsOver before.now requested.now.universe }
    requires right { IsRight requested.now.universe (start_of before.now) solved.now }
    ensures { IsToldWhere tells_reasons
        (TellsSolved requested.now.universe
        (indices_of before.now.indices.now) (start_of before.now)
        requested.now.asks_all_versions solved.now) result }
{
    if !tells_reasons {
        return None;
    }
    let text = solved_sentences(alloc, before, requested, solved);
    told_of(text)
}
