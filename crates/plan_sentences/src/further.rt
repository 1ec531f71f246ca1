// What else is told of names: the deconfigured ones, those older than their candidates, and those that were broken before.

ghost use Rattle.std.specs.Prelude.{◌≡◌, ◌++◌, OnOk};
ghost use Rattle.plan_sentences.specs.Told.{further_lines};

use crate::kind::Kind;
use crate::lines::push_line;
use crate::named::{pkg_of, record_of};
use crate::names::Key;
use crate::told::Told;
use debversion::Version;
use phrases::push_versioned;
use plancheck_state::{Records, StateRecord, are_met};
use rules::Step;
use std::alloc::{AllocError, Global};
use std::cmp::Ordering;
use std::collections::BTreeSet;
use std::marker::Model;
use universe::Universe;

/// The items of the further lines.
#[derive(Drop)]
pub(crate) struct Further {
    deconfigured: Vec<Vec<u8>>,
    older: Vec<Vec<u8>>,
    mended: Vec<Vec<u8>>,
    given_up: Vec<Vec<u8>>,
}

impl Model for Further {
    ghost use Rattle.std.specs.Prelude.{map};
    ghost use Rattle.plan_sentences.specs.Told.{Further as FurtherValue};

    ghost Value = { FurtherValue };

    ghost view = { λ f. record {
      deconfigured = map (λ item. item.items) f.deconfigured.items;
      older = map (λ item. item.items) f.older.items;
      mended = map (λ item. item.items) f.mended.items;
      given_up = map (λ item. item.items) f.given_up.items;
    } };
}

impl Further {
    /// Writes its lines.
    pub(crate) fn write(&self, text: &mut Vec<u8>) -> Result<(), AllocError>
        ensures { OnOk result (text.new.items ≡ text.old.items ++ further_lines self.now) }
    {
        push_line(text, b"Deconfigured", self.deconfigured.as_slice())?;
        push_line(text, b"Older than the candidate", self.older.as_slice())?;
        push_line(text, b"Broken before, mended", self.mended.as_slice())?;
        push_line(text, b"Broken before, removed", self.given_up.as_slice())
    }
}

// Whether the record is of a package that is there and not installed, or whose needs aren't met.
fn is_broken(start: &Records<'_, '_>, entry: &StateRecord<'_, '_>) -> bool {
    if !entry.state().is_present() {
        return false;
    }
    !entry.state().is_installed()
        || !entry.flag().is_sound()
        || !are_met(start, entry.pre_depends())
        || !are_met(start, entry.depends())
}

// Whether the name was broken at the start.
fn was_broken(start: &Records<'_, '_>, name: &[u8]) -> bool {
    match record_of(start, name) {
        None => false,
        Some(entry) => is_broken(start, entry),
    }
}

// The names that the steps deconfigure.
fn deconfigured_by(alloc: Global, steps: &[Step]) -> Result<BTreeSet<&[u8]>, AllocError> {
    let mut names = BTreeSet::new(alloc);
    for step in steps {
        if let Step::Deconfigure(name) = step {
            names.insert(name.as_bytes())?;
        }
    }
    Ok(names)
}

// A name with a version.
fn versioned_item(
    alloc: Global,
    name: &[u8],
    version: &Version<'_>,
) -> Result<Vec<u8>, AllocError> {
    let mut item = Vec::new(alloc);
    push_versioned(&mut item, name, version.text())?;
    Ok(item)
}

// Those of the names that are present at the end.
fn present_among(
    alloc: Global,
    end: &Records<'_, '_>,
    names: &BTreeSet<&[u8]>,
) -> Result<Vec<Vec<u8>>, AllocError> {
    let mut items = Vec::new(alloc);
    for name in names {
        if let Some(there) = pkg_of(end, name) {
            items.push(versioned_item(alloc, name, there.version())?)?;
        }
    }
    Ok(items)
}

// Whether the package came in this version by such a change.
fn is_coming(kind: Option<Kind>) -> bool {
    matches!(
        kind,
        Some(Kind::New) | Some(Kind::Upgraded) | Some(Kind::Downgraded)
    )
}

// The package that came in this version, with the version of its candidate, if that is greater.
fn older_item(
    alloc: Global,
    universe: &Universe<'_, '_>,
    name: &[u8],
    version: &Version<'_>,
) -> Result<Option<Vec<u8>>, AllocError> {
    match universe.candidate(name) {
        Some(candidate) if version.cmp(candidate) == Ordering::Less => {
            let mut item = versioned_item(alloc, name, version)?;
            item.extend_from_slice(b" (")?;
            item.extend_from_slice(candidate.text())?;
            item.push(b')')?;
            Ok(Some(item))
        }
        _ => Ok(None),
    }
}

// Those that came in a version below the candidate.
fn older_among(
    alloc: Global,
    universe: &Universe<'_, '_>,
    told: &[Told<'_, '_, '_>],
) -> Result<Vec<Vec<u8>>, AllocError> {
    let mut items = Vec::new(alloc);
    for one in told {
        if let (Some(version), true) = (one.new_version(), is_coming(one.kind())) {
            if let Some(item) = older_item(alloc, universe, one.name(), version)? {
                items.push(item)?;
            }
        }
    }
    Ok(items)
}

// Those of the names that were broken at the start.
fn broken_among<'a>(
    alloc: Global,
    start: &Records<'_, '_>,
    names: &[Key<'a>],
) -> Result<Vec<&'a [u8]>, AllocError> {
    let mut broken = Vec::new(alloc);
    for key in names {
        if was_broken(start, key.name()) {
            broken.push(key.name())?;
        }
    }
    Ok(broken)
}

// Those of the names that are present at the end, or those that aren't.
fn left_among(
    alloc: Global,
    end: &Records<'_, '_>,
    names: &[&[u8]],
    is_present: bool,
) -> Result<Vec<Vec<u8>>, AllocError> {
    let mut items = Vec::new(alloc);
    for name in names {
        if pkg_of(end, name).is_some() == is_present {
            items.push(name.to_vec(alloc)?)?;
        }
    }
    Ok(items)
}

/// The items of the further lines. Memory alone can fail.
pub(crate) fn further_of(
    alloc: Global,
    start: &Records<'_, '_>,
    end: &Records<'_, '_>,
    universe: &Universe<'_, '_>,
    steps: &[Step],
    names: &[Key<'_>],
    told: &[Told<'_, '_, '_>],
) -> Result<Further, AllocError> {
    let names_deconfigured = deconfigured_by(alloc, steps)?;
    let broken = broken_among(alloc, start, names)?;
    let deconfigured = present_among(alloc, end, &names_deconfigured)?;
    let older = older_among(alloc, universe, told)?;
    let mended = left_among(alloc, end, broken.as_slice(), true)?;
    let given_up = left_among(alloc, end, broken.as_slice(), false)?;
    Ok(Further {
        deconfigured,
        older,
        mended,
        given_up,
    })
}
