//! A good plan made ready: the text that its journal begins with, and the texts of the stanzas that it unpacks.
ghost use Rattle.std.specs.Prelude.{◌≡◌, IfErr, IfOk, Some, map};
ghost use Rattle.inputs.specs.ReadAs.{AreReadAs};
ghost use Rattle.inputs.specs.ReadBy.{IsReadBy};
ghost use Rattle.inputs.specs.Texts.{Shelved, texts_of};
ghost use Rattle.rules.specs.declared.step.Verdict.TheVariants.{Yes};
ghost use Rattle.status.specs.Text.{slots_text};
ghost use Rattle.apply_engine.specs.Planned.{IsAnswerOf, IsApplyRefusal};
ghost use Rattle.apply_engine.specs.Prepared.{IsReady};

use crate::good_plan::GoodPlan;
use inputs::{Before, Refusal, Shelf};
use rules::Step;
use status::Database;
use status_text::StatusFile;
use std::alloc::{AllocError, Global};
use universe::Universe;
use unpack_texts::fetch_texts;

// The text of a database that no action has touched: that of this status file.
fn start_text(alloc: Global, status_file: &StatusFile<'_>) -> Result<Vec<u8>, AllocError>
    ensures { IfOk result (λ text. text.items ≡ slots_text status_file.now.slots) }
{
    let database = Database::of(alloc, status_file)?;
    let text = database.text(alloc)?;
    Ok(text)
}

// The names, each with bytes of its own.
fn copies(alloc: Global, names: &[&[u8]]) -> Result<Vec<Vec<u8>>, AllocError>
    ensures { IfOk result
        (λ copies. map (λ name. name.items) copies.items ≡ map (λ name. name.now) names.now) }
{
    let mut copies = Vec::new(alloc);
    for name in names {
        copies.push(name.to_vec(alloc)?)?;
    }
    Ok(copies)
}

/// What a journal takes of these steps, which were judged good.
pub(crate) fn made_ready<S: Shelf>(
    alloc: Global,
    shelf: &mut S,
    before: &Before<'_, '_, '_, '_, '_, '_, '_, '_>,
    universe: &Universe<'_, '_>,
    steps: Vec<Step>,
) -> Result<GoodPlan, Refusal>
    ensures ready { (at : Shelved) → S.known_texts shelf.old ≡ Some at
        → AreReadAs (texts_of before.now.settings.now at) before.now
        → IsAnswerOf (texts_of before.now.settings.now at) at.judged universe.now steps.items Yes
        → IfOk result (IsReady (texts_of before.now.settings.now at) at.judged) }
    ensures refused { (at : Shelved) → S.known_texts shelf.old ≡ Some at
        → AreReadAs (texts_of before.now.settings.now at) before.now
        → IsAnswerOf (texts_of before.now.settings.now at) at.judged universe.now steps.items Yes
        → IfErr result (IsApplyRefusal (texts_of before.now.settings.now at) at.judged) }
    ensures arch { IfOk result (λ plan. plan.arch ≡ before.now.settings.now.arch.now) }
    ensures read { IsReadBy S.Shelf shelf.old result shelf.new }
{
    let arch = before.settings.arch;
    let texts = fetch_texts(alloc, shelf, arch, before.files, universe, steps.as_slice())?;
    let start = start_text(alloc, before.status_file)?;
    let indices = copies(alloc, before.files)?;
    let arch = arch.to_vec(alloc)?;
    Ok(GoodPlan {
        arch,
        start,
        steps,
        texts,
        indices,
    })
}
