// A witness in words.

ghost use Rattle.std.specs.Prelude.{◌≡◌, IfOk, MatchOption, Some, codes, slice_get};
ghost use Rattle.rules.specs.Database.{HasDistinctNames, IsPresent, pkg_of as pkg_in};
ghost use Rattle.rules.specs.Step.{IndexPackage as Listed};
ghost use Rattle.plan_sentences.specs.No as Spec;

use crate::against::{against, against_by};
use crate::named::{push_bracketed, record_of, there_of};
use crate::words::{push_clause, push_pkg, push_record};
use index::IndexPackage;
use plancheck_state::{Records, StateRecord};
use relation::{Atom, Clause, Pkg};
use std::alloc::{AllocError, Global};
use witness::{ClauseField, Direction, Witness};

/// What is told of a clause that nothing installed meets.
pub(crate) const NOT_MET: &[u8] = b", and nothing that is installed meets this";

// The clauses of the field of the package.
fn clauses_of<'k, 'a>(pkg: &'k Pkg<'a>, field: ClauseField) -> &'k [Clause<'a>]
    ensures { result.now ≡ Spec.clauses_of field pkg.now }
{
    match field {
        ClauseField::PreDepends => pkg.pre_depends(),
        ClauseField::Depends => pkg.depends(),
    }
}

// What a package does by a clause of the field.
fn verb_of(field: ClauseField) -> &'static [u8]
    ensures { result.now ≡ Spec.verb_of field }
{
    match field {
        ClauseField::PreDepends => b" pre-depends on ",
        ClauseField::Depends => b" depends on ",
    }
}

// That the clause of the package isn't met, and these words behind it.
fn unmet_clause(
    alloc: Global,
    db: &Records<'_, '_>,
    pkg: &Pkg<'_>,
    field: ClauseField,
    behind: &[u8],
    atoms: &[Atom<'_>],
) -> Result<Vec<u8>, AllocError>
    ensures { HasDistinctNames db.now → IfOk result
        (λ text. Spec.IsUnmetTold db.now pkg.now field behind.now atoms.now text.items) }
{
    let there = there_of(alloc, db, atoms)?;
    let mut text = Vec::new(alloc);
    push_pkg(&mut text, pkg)?;
    text.extend_from_slice(verb_of(field))?;
    push_clause(&mut text, atoms)?;
    text.extend_from_slice(behind)?;
    push_bracketed(&mut text, there.as_slice())?;
    Ok(text)
}

/// That the clause of the package at the place of the field isn't met: `foo 2 depends on bar`, these words behind it, and in which state
/// the packages are that it names.
pub(crate) fn unmet(
    alloc: Global,
    db: &Records<'_, '_>,
    pkg: &Pkg<'_>,
    field: ClauseField,
    place: usize,
    behind: &[u8],
) -> Result<Vec<u8>, AllocError>
    ensures { HasDistinctNames db.now → IfOk result
        (λ text. Spec.IsUnmetAt db.now pkg.now field place behind.now text.items) }
{
    match clauses_of(pkg, field).get(place) {
        None => Ok(Vec::new(alloc)),
        Some(clause) => unmet_clause(alloc, db, pkg, field, behind, clause.as_slice()),
    }
}

// What is told of a conflict with the present package of the record.
fn conflict(
    alloc: Global,
    pkg: &Pkg<'_>,
    direction: Direction,
    other: &StateRecord<'_, '_>,
) -> Result<Vec<u8>, AllocError>
    ensures { IsPresent other.now → IfOk result
        (λ text. Spec.IsConflictTold direction pkg.now other.now text.items) }
{
    match (direction, other.present_pkg()) {
        (Direction::Own, _) => against(alloc, b" conflicts with ", pkg, pkg.conflicts(), other),
        (Direction::Other, Some(there)) => {
            against_by(alloc, b" conflicts with ", other, there.conflicts(), pkg)
        }
        (Direction::Other, None) => Ok(Vec::new(alloc)),
    }
}

// What is told of a conflict with the package of the name.
fn conflict_with(
    alloc: Global,
    db: &Records<'_, '_>,
    pkg: &Pkg<'_>,
    direction: Direction,
    name: &[u8],
) -> Result<Vec<u8>, AllocError>
    ensures { (other : _) → HasDistinctNames db.now → Spec.IsPresentIn db.now name.now other
        → IfOk result (λ text. Spec.IsConflictTold direction pkg.now other text.items) }
{
    match record_of(db, name) {
        None => Ok(Vec::new(alloc)),
        Some(other) => conflict(alloc, pkg, direction, other),
    }
}

// That the package breaks the one of the name.
fn breaks(
    alloc: Global,
    db: &Records<'_, '_>,
    pkg: &Pkg<'_>,
    name: &[u8],
) -> Result<Vec<u8>, AllocError>
    ensures { (other : _) → HasDistinctNames db.now → Spec.IsPresentIn db.now name.now other
        → IfOk result (λ text. Spec.IsAgainstTold
        (codes " breaks ") pkg.now pkg.now.relations.breaks other text.items) }
{
    match record_of(db, name) {
        None => Ok(Vec::new(alloc)),
        Some(other) => against(alloc, b" breaks ", pkg, pkg.breaks(), other),
    }
}

// The record of the name and its package, if it is present.
fn present_of<'v, 'p, 'a>(
    db: &'v Records<'p, 'a>,
    name: &[u8],
) -> Option<(&'v StateRecord<'p, 'a>, &'p Pkg<'a>)>
    ensures { (entry : _) → HasDistinctNames db.now → Spec.IsPresentIn db.now name.now entry
        → MatchOption result ⊥ (λ pair. (pair.0.now ≡ entry) × (pair.1.now ≡ pkg_in entry)) }
{
    let entry = record_of(db, name)?;
    let pkg = entry.present_pkg()?;
    Some((entry, pkg))
}

// That the package of the first name is broken by the one of the second.
fn broken_by(
    alloc: Global,
    db: &Records<'_, '_>,
    name: &[u8],
    breaker: &[u8],
) -> Result<Vec<u8>, AllocError>
    ensures { (entry other : _) → HasDistinctNames db.now → Spec.IsPresentIn db.now name.now entry
        → Spec.IsPresentIn db.now breaker.now other → IfOk result
        (λ text. Spec.IsAgainstByTold
        (codes " breaks ") other other.relations.breaks (pkg_in entry) text.items) }
{
    match (present_of(db, name), present_of(db, breaker)) {
        (Some((_, pkg)), Some((other, there))) => {
            against_by(alloc, b" breaks ", other, there.breaks(), pkg)
        }
        _ => Ok(Vec::new(alloc)),
    }
}

// That the clause at the place of the field of the package of the name isn't met.
fn lack(
    alloc: Global,
    db: &Records<'_, '_>,
    name: &[u8],
    field: ClauseField,
    place: usize,
) -> Result<Vec<u8>, AllocError>
    ensures { (entry : _) → HasDistinctNames db.now → Spec.IsPresentIn db.now name.now entry
        → IfOk result (λ text. Spec.IsUnmetAt db.now (pkg_in entry) field place
        (codes ", and nothing that is installed meets this") text.items) }
{
    match present_of(db, name) {
        None => Ok(Vec::new(alloc)),
        Some((_, pkg)) => unmet(alloc, db, pkg, field, place, NOT_MET),
    }
}

// That the package of the record needs what is to be removed, by this clause.
fn need_by(
    alloc: Global,
    entry: &StateRecord<'_, '_>,
    field: ClauseField,
    atoms: &[Atom<'_>],
) -> Result<Vec<u8>, AllocError>
    ensures { IfOk result (λ text. text.items ≡ Spec.need_words entry.now field atoms.now) }
{
    let mut text = Vec::new(alloc);
    push_record(&mut text, entry)?;
    text.extend_from_slice(b" and")?;
    text.extend_from_slice(verb_of(field))?;
    push_clause(&mut text, atoms)?;
    text.extend_from_slice(b", and nothing else that is unpacked or installed meets this")?;
    text.extend_from_slice(b". apt runs dpkg with --force-depends in such places")?;
    Ok(text)
}

// That the package of the name needs what is to be removed, by the clause at the place of the field.
fn need(
    alloc: Global,
    db: &Records<'_, '_>,
    name: &[u8],
    field: ClauseField,
    place: usize,
) -> Result<Vec<u8>, AllocError>
    ensures { (entry atoms : _) → HasDistinctNames db.now → Spec.IsPresentIn db.now name.now entry
        → slice_get (Spec.clauses_of field (pkg_in entry)) place ≡ Some atoms
        → IfOk result (λ text. text.items ≡ Spec.need_words entry field atoms) }
{
    let Some((entry, pkg)) = present_of(db, name) else {
        return Ok(Vec::new(alloc));
    };
    match clauses_of(pkg, field).get(place) {
        None => Ok(Vec::new(alloc)),
        Some(clause) => need_by(alloc, entry, field, clause.as_slice()),
    }
}

// The witness against the unpacking of the package in these records.
fn unpack_told(
    alloc: Global,
    db: &Records<'_, '_>,
    pkg: &Pkg<'_>,
    witness: &Witness,
) -> Result<Vec<u8>, AllocError>
    ensures { HasDistinctNames db.now → IfOk result
        (λ text. Spec.IsUnpackTold db.now pkg.now witness.now text.items) }
{
    match witness {
        Witness::Unsatisfied(place) => unmet(
            alloc,
            db,
            pkg,
            ClauseField::PreDepends,
            *place,
            b", and nothing that is installed or was configured before satisfies this",
        ),
        Witness::Conflicting(direction, name) => {
            conflict_with(alloc, db, pkg, *direction, name.as_bytes())
        }
        Witness::Broken(name) => breaks(alloc, db, pkg, name.as_bytes()),
        _ => Ok(Vec::new(alloc)),
    }
}

// The witness against the unpacking of the listed package, if there is one.
fn unpack_of(
    alloc: Global,
    db: &Records<'_, '_>,
    listed: &Option<IndexPackage<'_>>,
    witness: &Witness,
) -> Result<Vec<u8>, AllocError>
    ensures { (it : Listed) → HasDistinctNames db.now → listed.now ≡ Some it → IfOk result
        (λ text. Spec.IsUnpackTold db.now it.pkg witness.now text.items) }
{
    match listed {
        None => Ok(Vec::new(alloc)),
        Some(it) => unpack_told(alloc, db, it.pkg(), witness),
    }
}

/// The witness against a step in these records. Of a step that unpacks, `listed` is the package that it unpacks.
pub(crate) fn witness_told(
    alloc: Global,
    db: &Records<'_, '_>,
    listed: &Option<IndexPackage<'_>>,
    witness: &Witness,
) -> Result<Vec<u8>, AllocError>
    ensures { HasDistinctNames db.now → IfOk result
        (λ text. Spec.IsWitnessTold listed.now db.now witness.now text.items) }
{
    match witness {
        Witness::BrokenBy(name, breaker) => {
            broken_by(alloc, db, name.as_bytes(), breaker.as_bytes())
        }
        Witness::Unmet(name, field, place) => lack(alloc, db, name.as_bytes(), *field, *place),
        Witness::Needs(name, field, place) => need(alloc, db, name.as_bytes(), *field, *place),
        _ => unpack_of(alloc, db, listed, witness),
    }
}
