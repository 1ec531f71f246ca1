//! A plan judged over what the texts before the request are read as.
ghost use Rattle.std.specs.Prelude.{◌≡◌, IfErr, IfOk, Some};
ghost use Rattle.inputs.specs.ReadAs.{AreReadAs};
ghost use Rattle.inputs.specs.ReadBy.{IsReadBy};
ghost use Rattle.inputs.specs.Texts.{Shelved, texts_of};
ghost use Rattle.cli_engine.specs.Answer.{IsFirstRefusal};
ghost use Rattle.apply_engine.specs.Planned.{IsAnswerOf};

use cli_engine::{judge, read_steps};
use inputs::{Before, Refusal, Requested, Shelf, read_requested};
use rules::{Step, Verdict};
use std::alloc::Global;
use universe::Universe;

/// A plan that was judged.
#[derive(Drop)]
pub(crate) struct Judgement<'i, 'a> {
    pub(crate) universe: Universe<'i, 'a>,
    pub(crate) steps: Vec<Step>,
    pub(crate) verdict: Verdict,
}

/// The plan of a shelf, judged by its request.
pub(crate) fn judge_plan<'i, 'a, S: Shelf>(
    alloc: Global,
    shelf: &mut S,
    before: &Before<'_, '_, '_, '_, '_, '_, 'i, 'a>,
) -> Result<Judgement<'i, 'a>, Refusal>
    ensures answer { (at : Shelved) → S.known_texts shelf.old ≡ Some at
        → AreReadAs (texts_of before.now.settings.now at) before.now
        → IfOk result
        (λ judgement.
        IsAnswerOf (texts_of before.now.settings.now at) at.judged judgement.universe
        judgement.steps.items judgement.verdict) }
    ensures refused { (at : Shelved) → S.known_texts shelf.old ≡ Some at
        → AreReadAs (texts_of before.now.settings.now at) before.now
        → IfErr result
        (λ refused. IsFirstRefusal (texts_of before.now.settings.now at) at.judged refused) }
    ensures read { IsReadBy S.Shelf shelf.old result shelf.new }
{
    let Requested { universe, .. } = read_requested(alloc, shelf, before)?;
    let steps = read_steps(alloc, shelf)?;
    let verdict = judge(alloc, before.status_file, &universe, steps.as_slice())?;
    Ok(Judgement {
        universe,
        steps,
        verdict,
    })
}
