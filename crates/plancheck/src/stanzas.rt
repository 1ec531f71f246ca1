// The stanzas that the steps of a plan unpack. Records lend their packages, so they are read before the first step.

ghost use Rattle.std.specs.Prelude.{◌≡◌, ◌<◌, IfOk, Option, get_or, length, map};
ghost use Rattle.std.specs.Option.{option_copied};
ghost use Rattle.rules.specs.Step.{IndexPackage as IndexPackageValue};
ghost use Rattle.rules.specs.Universe.{listed_for, listed_of};

use debversion::Version;
use index::IndexPackage;
use rules::{Name, Step, VersionText};
use std::alloc::{AllocError, Global};
use universe::Universe;

/// The version of the text.
pub fn version_of(text: &VersionText) -> Version<'_>
    ensures { result ≡ text.now }
{
    match Version::parse(text.as_bytes()) {
        Ok(version) => version,
        Err(_) => unreachable!(),
    }
}

// The stanza of this version of the name, if the pair is admitted and in an index.
fn listed_of<'a>(
    alloc: Global,
    universe: &Universe<'_, 'a>,
    name: &Name,
    version: &VersionText,
) -> Result<Option<IndexPackage<'a>>, AllocError>
    ensures { IfOk result (λ listed. listed ≡ listed_of universe.now name.now version.now) }
{
    match universe.listed_of(name.as_bytes(), &version_of(version)) {
        None => Ok(None),
        Some(entry) => {
            let listed = entry.package(alloc)?;
            Ok(Some(listed))
        }
    }
}

// The stanza that the step unpacks, if it unpacks one.
fn listed_for<'a>(
    alloc: Global,
    universe: &Universe<'_, 'a>,
    step: &Step,
) -> Result<Option<IndexPackage<'a>>, AllocError>
    ensures { IfOk result (λ listed. listed ≡ listed_for universe.now step.now) }
{
    match step {
        Step::Unpack(name, version) => listed_of(alloc, universe, name, version),
        Step::Deconfigure(_) | Step::Configure(_) | Step::Remove(_) | Step::Purge(_) => Ok(None),
    }
}

/// The stanza that each step unpacks, with its relations, or none. Linear in the relation fields of these stanzas, and a
/// binary search for each. Memory alone can fail.
pub fn stanzas_for<'a>(
    alloc: Global,
    universe: &Universe<'_, 'a>,
    steps: &[Step],
) -> Result<Vec<Option<IndexPackage<'a>>>, AllocError>
    ensures { IfOk result (λ stanzas. stanzas.items ≡ map (listed_for universe.now) steps.now) }
{
    let mut stanzas = Vec::new(alloc);
    for step in steps {
        let listed = listed_for(alloc, universe, step)?;
        stanzas.push(listed)?;
    }
    Ok(stanzas)
}

/// The stanza at this place, counted from 0.
pub fn stanza_at<'p, 'a>(
    stanzas: &'p [Option<IndexPackage<'a>>],
    place: usize,
) -> Option<&'p IndexPackage<'a>>
    requires { place < length stanzas.now }
    ensures { (none : Option IndexPackageValue) → option_copied result
        ≡ get_or stanzas.now place none }
{
    stanzas[place].as_ref()
}
