// What a plan changes, name by name.

ghost use Rattle.std.specs.Prelude.{◌≡◌, ◌++◌, IfOk, OnOk, map};
ghost use Rattle.rules.specs.Database.{HasDistinctNames};
ghost use Rattle.plan_sentences.specs.Changes.{AreChanges, AreNames, changes_among, changes_of_name};
ghost use Rattle.plan_sentences.specs.Told.{TellsChanges};

use crate::further::further_of;
use crate::lines::text_of;
use crate::names::{Key, names_of};
use crate::told::Told;
use plancheck_state::Records;
use rules::Step;
use std::alloc::{AllocError, Global};
use universe::Universe;

// Puts what is told of the name behind the others, if something of it has changed.
fn push_told<'v, 'p, 'a>(
    alloc: Global,
    told: &mut Vec<Told<'v, 'p, 'a>>,
    start: &'v Records<'p, 'a>,
    end: &'v Records<'p, 'a>,
    universe: &Universe<'_, '_>,
    name: &'a [u8],
) -> Result<(), AllocError>
    requires start { HasDistinctNames start.now }
    requires end { HasDistinctNames end.now }
    ensures { OnOk result
        (map (λ one. one.change) told.new.items
        ≡ map (λ one. one.change) told.old.items
        ++ changes_of_name start.now end.now name.now) }
{
    let one = Told::new(alloc, start, end, universe, name)?;
    if one.kind().is_some() {
        told.push(one)?;
    }
    Ok(())
}

// The changes of these names.
fn told_of<'v, 'p, 'a>(
    alloc: Global,
    start: &'v Records<'p, 'a>,
    end: &'v Records<'p, 'a>,
    universe: &Universe<'_, '_>,
    names: &[Key<'a>],
) -> Result<Vec<Told<'v, 'p, 'a>>, AllocError>
    requires start { HasDistinctNames start.now }
    requires end { HasDistinctNames end.now }
    ensures { IfOk result (λ told. map (λ one. one.change) told.items
        ≡ changes_among start.now end.now names.now) }
{
    let mut told = Vec::new(alloc);
    for key in names {
        push_told(alloc, &mut told, start, end, universe, key.name())?;
    }
    Ok(told)
}

// The changes from the start to the end, by names in the order of their bytes.
fn told_between<'v, 'p, 'a>(
    alloc: Global,
    start: &'v Records<'p, 'a>,
    end: &'v Records<'p, 'a>,
    universe: &Universe<'_, '_>,
    names: &[Key<'a>],
) -> Result<Vec<Told<'v, 'p, 'a>>, AllocError>
    requires start { HasDistinctNames start.now }
    requires end { HasDistinctNames end.now }
    requires names { AreNames start.now end.now names.now }
    ensures { IfOk result
        (λ told. AreChanges start.now end.now (map (λ one. one.change) told.items)) }
{
    let told = told_of(alloc, start, end, universe, names)?;
    Ok(told)
}

/// The lines that say what is new, upgraded, downgraded, removed, purged or deconfigured between the start and the end of
/// these steps, which versions that came are older than the candidates of their names, and what was broken at the start, by
/// names in the order of their bytes. Memory alone can fail.
pub(crate) fn changes_between<'v, 'p, 'a>(
    alloc: Global,
    start: &'v Records<'p, 'a>,
    end: &'v Records<'p, 'a>,
    universe: &Universe<'_, '_>,
    steps: &[Step],
) -> Result<Vec<u8>, AllocError>
    requires start { HasDistinctNames start.now }
    requires end { HasDistinctNames end.now }
    ensures { IfOk result (λ text. TellsChanges start.now end.now text.items) }
{
    let names = names_of(alloc, start, end)?;
    let told = told_between(alloc, start, end, universe, names.as_slice())?;
    let further = further_of(
        alloc,
        start,
        end,
        universe,
        steps,
        names.as_slice(),
        told.as_slice(),
    )?;
    let text = text_of(alloc, told.as_slice(), &further)?;
    Ok(text)
}
