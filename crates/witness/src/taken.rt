// The database when the turn of a step has come.

ghost use Rattle.std.specs.Prelude.{◌≡◌, ◌≤◌, IfOk, length, map, take};
ghost use Rattle.rules.specs.Database.{HasDistinctNames};
ghost use Rattle.rules.specs.Run.{Run};
ghost use Rattle.rules.specs.Universe.{listed_for};
ghost use Rattle.witness.specs.Turn.{HasRun};

use index::IndexPackage;
use plancheck::{apply, stanza_at};
use plancheck_state::{Records, try_copy};
use rules::Step;
use std::alloc::{AllocError, Global};
use universe::Universe;

// Takes so many of the steps, each of which is allowed.
fn take_steps<'p, 'a>(
    db: &mut Records<'p, 'a>,
    universe: &Universe<'_, 'a>,
    steps: &[Step],
    stanzas: &'p [Option<IndexPackage<'a>>],
    count: usize,
) -> Result<(), AllocError>
    requires within { count ≤ length steps.now }
    requires distinct { HasDistinctNames db.old }
    requires stanzas { stanzas.now ≡ map (listed_for universe.now) steps.now }
    requires allowed { HasRun universe.now db.old (take count steps.now) }
    ensures { IfOk result (λ _. Run universe.now db.old (take count steps.now) db.new) }
{
    for place in 0..count {
        apply(db, universe, stanza_at(stanzas, place), &steps[place])?;
    }
    Ok(())
}

/// The records once so many of the steps are taken, each of which is allowed; `stanzas` are those that the steps unpack. The
/// start is copied once, and each step costs what `plancheck::apply` does. Memory alone can fail.
pub fn turn<'p, 'a>(
    alloc: Global,
    start: &Records<'p, 'a>,
    universe: &Universe<'_, 'a>,
    steps: &[Step],
    stanzas: &'p [Option<IndexPackage<'a>>],
    count: usize,
) -> Result<Records<'p, 'a>, AllocError>
    requires within { count ≤ length steps.now }
    requires distinct { HasDistinctNames start.now }
    requires stanzas { stanzas.now ≡ map (listed_for universe.now) steps.now }
    requires allowed { HasRun universe.now start.now (take count steps.now) }
    ensures { IfOk result (λ reached. Run universe.now start.now (take count steps.now) reached) }
{
    let mut db = Records::new(alloc, try_copy(alloc, start.as_slice())?)?;
    take_steps(&mut db, universe, steps, stanzas, count)?;
    Ok(db)
}
