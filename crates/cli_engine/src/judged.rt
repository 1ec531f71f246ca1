//! What is told of the verdict on a plan, where that is wanted.
ghost use Rattle.std.specs.Prelude.{◌≡◌, IfOk};
ghost use Rattle.plan_sentences.specs.No.{TellsVerdict};
ghost use Rattle.rules.specs.Verdict.{IsBuiltOn, IsVerdict};
ghost use Rattle.status_text.specs.Slot.{slot_records};
ghost use Rattle.cli_engine.specs.Reasons.{IsToldWhere, told_if};

use plan_sentences::verdict_sentences;
use plancheck_state::{parse_packages, view};
use rules::{Items, Step, Verdict};
use status_text::StatusFile;
use std::alloc::{AllocError, Global};
use universe::Universe;

/// The sentences on the verdict of these steps from this status file on. The packages of the status file are parsed once more for
/// them. Memory alone can fail.
pub(crate) fn sentences_on<'a>(
    alloc: Global,
    status_file: &StatusFile<'a>,
    universe: &Universe<'_, 'a>,
    steps: &[Step],
    verdict: &Verdict,
) -> Result<Vec<u8>, AllocError>
    requires built { IsBuiltOn (slot_records status_file.now.slots) universe.now }
    requires verdict { IsVerdict universe.now
        (slot_records status_file.now.slots) steps.now verdict.now }
    ensures { IfOk result (λ text. TellsVerdict universe.now
        (slot_records status_file.now.slots) steps.now verdict.now text.items) }
{
    let records = status_file.records(alloc)?;
    let packages = parse_packages(alloc, records.as_slice())?;
    let start = view(alloc, records.as_slice(), packages.as_slice())?;
    let text = verdict_sentences(alloc, &start, universe, steps, verdict)?;
    Ok(text)
}

/// What is told, where memory isn't refused for it.
pub(crate) fn told_of(text: Result<Vec<u8>, AllocError>) -> Option<Items<u8>>
    ensures { result ≡ told_if (λ text. text.items) text }
{
    match text {
        Ok(text) => Some(Items::new(text)),
        Err(AllocError) => None,
    }
}

/// What stands against the plan, if its verdict is a no, and what it changes, if it is yes, where that is wanted and
/// memory isn't refused for it. It costs what `sentences_on` costs.
pub(crate) fn reasons_of_plan<'a>(
    alloc: Global,
    status_file: &StatusFile<'a>,
    universe: &Universe<'_, 'a>,
    steps: &[Step],
    verdict: &Verdict,
    tells_reasons: bool,
) -> Option<Items<u8>>
    requires built { IsBuiltOn (slot_records status_file.now.slots) universe.now }
    requires verdict { IsVerdict universe.now
        (slot_records status_file.now.slots) steps.now verdict.now }
    ensures { IsToldWhere tells_reasons
        (TellsVerdict universe.now (slot_records status_file.now.slots) steps.now verdict.now)
        result }
{
    if !tells_reasons {
        return None;
    }
    let text = sentences_on(alloc, status_file, universe, steps, verdict);
    told_of(text)
}
