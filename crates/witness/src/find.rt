// The witness of a no.

ghost use Rattle.std.specs.Prelude.{◌≡◌, IfOk};
ghost use Rattle.rules.specs.Run.{StopsAt};
ghost use Rattle.rules.specs.Verdict.{IsBuiltOn, IsVerdict};
ghost use Rattle.rules.specs.declared.step.Verdict.TheVariants as verdicts;
ghost use Rattle.witness.specs.Found.{IsFoundAt};

use crate::step::witness_of;
use crate::taken::turn;
use crate::witness::Witness;
use plancheck::{stanza_at, stanzas_for};
use plancheck_state::Records;
use rules::{Rule, Step};
use std::alloc::{AllocError, Global};
use universe::Universe;

/// What stands against the step of this number, counted from 1, when its turn comes, where the verdict of the plan is that it
/// is the first that isn't allowed and this is the first rule that it fails; none where the rule has no witness. The steps
/// before are taken as `turn` takes them, and the stanzas of all steps are read. It costs that and what `witness_of` costs.
/// Memory alone can fail.
pub fn find_witness<'p, 'a>(
    alloc: Global,
    start: &Records<'p, 'a>,
    universe: &Universe<'_, 'a>,
    steps: &[Step],
    number: usize,
    rule: Rule,
) -> Result<Option<Witness>, AllocError>
    requires built { IsBuiltOn start.now universe.now }
    requires verdict { IsVerdict universe.now start.now steps.now (verdicts.Step number rule) }
    ensures { IfOk result
        (λ witness. IsFoundAt universe.now start.now steps.now number rule witness) }
{
    let stanzas = stanzas_for(alloc, universe, steps)?;
    let before = number - 1;
    let db = turn(alloc, start, universe, steps, stanzas.as_slice(), before)?;
    let listed = stanza_at(stanzas.as_slice(), before);
    let witness = witness_of(alloc, &db, listed, &steps[before], rule)?;
    Ok(witness)
}
