// Sentences on a plan that is good, and on any verdict.

ghost use Rattle.std.specs.Prelude.{IfOk};
ghost use Rattle.rules.specs.Database.{HasDistinctNames};
ghost use Rattle.rules.specs.Run.{IsGoodPlan, Run};
ghost use Rattle.rules.specs.Verdict.{IsBuiltOn, IsVerdict};
ghost use Rattle.plan_sentences.specs.No.{TellsVerdict};
ghost use Rattle.plan_sentences.specs.Told.{TellsPlan};

use crate::changes::changes_between;
use crate::no::no_sentences;
use plancheck::stanzas_for;
use plancheck_state::Records;
use rules::{Step, Verdict};
use std::alloc::{AllocError, Global};
use universe::Universe;
use witness::turn;

/// Lines on what a good plan changes: what is new, upgraded, downgraded, removed (each with its reason, if one is found), purged
/// and deconfigured, by names in the order of their bytes; what was broken at the start and is mended or removed; and how many
/// are new, upgraded and removed. The reasons are free words, and so are the lines behind the purged ones but for the counts.
/// They cost what `turn` costs, for each record two look-ups, and for each removal what is linear in the goals and in the
/// records. Memory alone can fail.
pub fn change_sentences<'p, 'a>(
    alloc: Global,
    start: &Records<'p, 'a>,
    universe: &Universe<'_, 'a>,
    steps: &[Step],
) -> Result<Vec<u8>, AllocError>
    requires built { IsBuiltOn start.now universe.now }
    requires good { IsGoodPlan universe.now start.now steps.now }
    ensures { IfOk result (λ text. TellsPlan universe.now start.now steps.now text.items) }
{
    let stanzas = stanzas_for(alloc, universe, steps)?;
    let end = turn(
        alloc,
        start,
        universe,
        steps,
        stanzas.as_slice(),
        steps.len(),
    )?;
    let text = changes_between(alloc, start, &end, universe, steps)?;
    Ok(text)
}

/// Sentences on the verdict of a plan: `change_sentences` of a yes, `no_sentences` of a no. Memory alone can fail.
pub fn verdict_sentences<'p, 'a>(
    alloc: Global,
    start: &Records<'p, 'a>,
    universe: &Universe<'_, 'a>,
    steps: &[Step],
    verdict: &Verdict,
) -> Result<Vec<u8>, AllocError>
    requires built { IsBuiltOn start.now universe.now }
    requires verdict { IsVerdict universe.now start.now steps.now verdict.now }
    ensures { IfOk result
        (λ text. TellsVerdict universe.now start.now steps.now verdict.now text.items) }
{
    match verdict {
        Verdict::Yes => change_sentences(alloc, start, universe, steps),
        _ => no_sentences(alloc, start, universe, steps, verdict),
    }
}
