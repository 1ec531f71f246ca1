// The first phase: each selected version that doesn't stand is unpacked, in the order of the names.

ghost use Rattle.std.specs.Prelude.{◌≡◌, ◌<◌, IfOk, IsTrue, Option, get_or, length, map};
ghost use Rattle.std.specs.Option.{option_copied};
ghost use Rattle.rules.specs.Database.{HasDistinctNames};
ghost use Rattle.rules.specs.Name.{is_name};
ghost use Rattle.rules.specs.Run.{Run};
ghost use Rattle.rules.specs.Step.{IndexPackage as IndexPackageValue};
ghost use Rattle.rules.specs.Universe.{listed_for};
ghost use Rattle.plain.specs.Order.{after_all, to_unpack, unpack_of};
ghost use Rattle.fixed_order.specs.Names.{AreNamed};
ghost use Rattle.fixed_order.specs.Selection.{is_away, pkgs_of, stanza_of};

use crate::selection::add;
use index::IndexPackage;
use plancheck::{apply, stands_as};
use plancheck_state::Records;
use rules::{Name, Step, VersionText};
use std::alloc::{AllocError, Global};
use universe::{Pair, Universe};

// Whether the version of the pair doesn't stand.
fn is_away(start: &Records<'_, '_>, pair: &Pair<'_, '_>) -> bool
    ensures { result ≡ is_away start.now pair.now.pkg }
{
    !stands_as(start, pair.name(), &pair.version())
}

/// The pairs whose versions don't stand. Memory alone can fail. A look-up for each.
pub(crate) fn to_unpack<'u, 'p, 'a>(
    alloc: Global,
    start: &Records<'_, '_>,
    pairs: &[&'u Pair<'p, 'a>],
) -> Result<Vec<&'u Pair<'p, 'a>>, AllocError>
    ensures { IfOk result (λ away. pkgs_of away.items ≡ to_unpack start.now (pkgs_of pairs.now)) }
{
    let mut away = Vec::new(alloc);
    for pair in pairs {
        if is_away(start, pair) {
            add(&mut away, pair)?;
        }
    }
    Ok(away)
}

// The step that unpacks the pair.
fn unpack_of(alloc: Global, pair: &Pair<'_, '_>) -> Result<Step, AllocError>
    requires { IsTrue (is_name pair.now.pkg.name) }
    ensures { IfOk result (λ step. step ≡ unpack_of pair.now.pkg) }
{
    let name = Name::copied_from(alloc, pair.name())?;
    let version = VersionText::copied_from(alloc, pair.version().text())?;
    Ok(Step::Unpack(name, version))
}

/// The steps that unpack the pairs. Memory alone can fail.
pub(crate) fn unpacks_of(alloc: Global, pairs: &[&Pair<'_, '_>]) -> Result<Vec<Step>, AllocError>
    requires { AreNamed (pkgs_of pairs.now) }
    ensures { IfOk result (λ steps. steps.items ≡ map unpack_of (pkgs_of pairs.now)) }
{
    let mut steps = Vec::new(alloc);
    for pair in pairs {
        steps.push(unpack_of(alloc, pair)?)?;
    }
    Ok(steps)
}

// The stanza of the pair in the indices, if it is in one.
fn stanza_of<'a>(
    alloc: Global,
    universe: &Universe<'_, 'a>,
    pair: &Pair<'_, '_>,
) -> Result<Option<IndexPackage<'a>>, AllocError>
    ensures { IfOk result (λ listed. listed ≡ stanza_of universe.now pair.now.pkg) }
{
    match universe.listed_of(pair.name(), &pair.version()) {
        None => Ok(None),
        Some(entry) => {
            let listed = entry.package(alloc)?;
            Ok(Some(listed))
        }
    }
}

/// The stanzas of the pairs: records lend their packages, so they are read before the first step. Memory alone can fail.
/// Linear in their relation fields, and a binary search for each.
pub(crate) fn stanzas_of<'a>(
    alloc: Global,
    universe: &Universe<'_, 'a>,
    pairs: &[&Pair<'_, '_>],
) -> Result<Vec<Option<IndexPackage<'a>>>, AllocError>
    ensures { IfOk result
        (λ stanzas. stanzas.items ≡ map (stanza_of universe.now) (pkgs_of pairs.now)) }
{
    let mut stanzas = Vec::new(alloc);
    for pair in pairs {
        let listed = stanza_of(alloc, universe, pair)?;
        stanzas.push(listed)?;
    }
    Ok(stanzas)
}

// The stanza at this place, counted from 0.
fn stanza_at<'p, 'a>(
    stanzas: &'p [Option<IndexPackage<'a>>],
    place: usize,
) -> Option<&'p IndexPackage<'a>>
    requires { place < length stanzas.now }
    ensures { (none : Option IndexPackageValue) → option_copied result
        ≡ get_or stanzas.now place none }
{
    stanzas[place].as_ref()
}

/// Takes the steps, which are a run, one after another. It costs what `plancheck::apply` does for each. Memory alone can fail.
pub(crate) fn take_all<'p, 'a>(
    db: &mut Records<'p, 'a>,
    universe: &Universe<'_, 'a>,
    steps: &[Step],
    stanzas: &'p [Option<IndexPackage<'a>>],
) -> Result<(), AllocError>
    requires distinct { HasDistinctNames db.old }
    requires stanzas { stanzas.now ≡ map (listed_for universe.now) steps.now }
    requires run { Run universe.now db.old steps.now (after_all universe.now db.old steps.now) }
    ensures { IfOk result (λ _. db.new ≡ after_all universe.now db.old steps.now) }
{
    let mut place = 0;
    for step in steps {
        let listed = stanza_at(stanzas, place);
        place += 1;
        apply(db, universe, listed, step)?;
    }
    Ok(())
}
