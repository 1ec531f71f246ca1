// What stands against a step of any action.

ghost use Rattle.std.specs.Prelude.{◌≡◌, true, IfOk, MatchOption};
ghost use Rattle.std.specs.Option.{option_copied};
ghost use Rattle.rules.specs.Legal.{Asks};
ghost use Rattle.rules.specs.Universe.{Universe, listed_for};
ghost use Rattle.witness.specs.Witness.{IsWitness, has_witness};

use crate::configure::against_configure;
use crate::remove::against_remove;
use crate::unpack::against_unpack;
use crate::witness::Witness;
use index::IndexPackage;
use plancheck_state::Records;
use rules::{Rule, Step};
use std::alloc::{AllocError, Global};

/// What stands against the step in these records, by this rule; of a step that unpacks, `listed` is the stanza. There is none
/// where the rule is kept, and by rules that have no witness: F5 and F7 to F10. It costs what its rule costs: at most linear
/// in the records for each clause of what the step is about, or of each installed package. Memory alone can fail.
pub fn witness_of(
    alloc: Global,
    db: &Records<'_, '_>,
    listed: Option<&IndexPackage<'_>>,
    step: &Step,
    rule: Rule,
) -> Result<Option<Witness>, AllocError>
    ensures { IfOk result (λ witness. MatchOption witness
        ((u : Universe) → option_copied listed.entry ≡ listed_for u step.now
        → has_witness step.now rule ≡ true
        → Asks u db.now step.now rule)
        (IsWitness (option_copied listed.entry) db.now step.now rule)) }
{
    match step {
        Step::Unpack(_, _) => against_unpack(alloc, db, listed, rule),
        Step::Configure(names) => against_configure(alloc, db, names.as_slice(), rule),
        Step::Remove(name) => against_remove(alloc, db, name.as_bytes(), rule),
        Step::Deconfigure(_) | Step::Purge(_) => Ok(None),
    }
}
