// Which of the names that wait to be configured may ask for one another in turn: of the others each asks for names before it, so
// that one of them passes alone in each group that passes (Policy 7.2).

ghost use Rattle.std.specs.Prelude.{◌≡◌, ◌↔◌, IfOk, IsTrue};
ghost use Rattle.std.specs.List.{All, filter};
ghost use Rattle.rules.specs.Database.{IsPresent, pkg_of};
ghost use Rattle.rules.specs.Package.{Matches};
ghost use Rattle.fixed_order.specs.Turn.{AsksBefore, AsksBeforeBy, ComesBefore, ComesBeforeBy, HasRings, is_ringed, rank_in};

use crate::askers::Askers;
use crate::ranks::Ranks;
use crate::rings::ranks_of;
use plancheck_state::{Holders, Records, StateRecord, is_met, is_same};
use relation::{Atom, Clause};
use rules::Name;
use std::alloc::{AllocError, Global};

// Whether the record isn't present, doesn't match the atom, or comes before the name.
fn comes_before(
    ranks: &Ranks<'_>,
    name: &[u8],
    atom: &Atom<'_>,
    entry: &StateRecord<'_, '_>,
) -> bool
    ensures { IsTrue result ↔ (IsPresent entry.now → Matches (pkg_of entry.now) atom.now
        → ComesBefore (rank_in ranks.now) entry.now.name name.now) }
{
    match entry.present_pkg() {
        None => true,
        Some(there) => !atom.matched_by(there) || ranks.comes_before(entry.name(), name),
    }
}

fn all_come_before(
    ranks: &Ranks<'_>,
    name: &[u8],
    atom: &Atom<'_>,
    mut holders: Holders<'_, '_, '_>,
) -> bool
    ensures { IsTrue result ↔ All (λ entry. IsPresent entry → Matches (pkg_of entry) atom.now
        → ComesBefore (rank_in ranks.now) entry.name name.now) holders.entry }
{
    holders.all(|entry| comes_before(ranks, name, atom, entry))
}

// Whether all that matches the atom comes before the name.
fn asks_atom_before(db: &Records<'_, '_>, ranks: &Ranks<'_>, name: &[u8], atom: &Atom<'_>) -> bool
    ensures { IsTrue result ↔ All (ComesBeforeBy (rank_in ranks.now) name.now atom.now) db.now }
{
    all_come_before(ranks, name, atom, db.holders(atom.name()))
}

fn asks_atoms_before(
    db: &Records<'_, '_>,
    ranks: &Ranks<'_>,
    name: &[u8],
    atoms: &[Atom<'_>],
) -> bool
    ensures { IsTrue result
        ↔ All (λ atom. All (ComesBeforeBy (rank_in ranks.now) name.now atom) db.now) atoms.now }
{
    atoms
        .iter()
        .all(|atom| asks_atom_before(db, ranks, name, atom))
}

// Whether an installed package meets the clause, or all that matches it comes before the name.
#[tactic(auto, unfolding(crate::specs::Turn::AsksOnlyBy))]
fn asks_clause_before(
    db: &Records<'_, '_>,
    ranks: &Ranks<'_>,
    name: &[u8],
    clause: &Clause<'_>,
) -> bool
    ensures { IsTrue result ↔ AsksBeforeBy (rank_in ranks.now) db.now name.now clause.now }
{
    is_met(db, clause) || asks_atoms_before(db, ranks, name, clause.as_slice())
}

fn asks_clauses_before(
    db: &Records<'_, '_>,
    ranks: &Ranks<'_>,
    name: &[u8],
    clauses: &[Clause<'_>],
) -> bool
    ensures { IsTrue result ↔ All (AsksBeforeBy (rank_in ranks.now) db.now name.now) clauses.now }
{
    clauses
        .iter()
        .all(|clause| asks_clause_before(db, ranks, name, clause))
}

// Whether the record is of another name, or asks for names before it.
fn is_other_or_asks_before(
    db: &Records<'_, '_>,
    ranks: &Ranks<'_>,
    name: &[u8],
    member: &StateRecord<'_, '_>,
) -> bool
    ensures { IsTrue result ↔ (member.now.name ≡ name.now
        → All (AsksBeforeBy (rank_in ranks.now) db.now name.now) member.now.relations.depends) }
{
    !is_same(member.name(), name) || asks_clauses_before(db, ranks, name, member.depends())
}

fn are_others_or_ask_before(
    db: &Records<'_, '_>,
    ranks: &Ranks<'_>,
    mut members: Holders<'_, '_, '_>,
    name: &[u8],
) -> bool
    ensures { IsTrue result ↔ All (λ member. member.name ≡ name.now
        → All (AsksBeforeBy
        (rank_in ranks.now) db.now name.now) member.relations.depends) members.entry }
{
    members.all(|member| is_other_or_asks_before(db, ranks, name, member))
}

// Whether the name asks for names before it.
fn asks_before(db: &Records<'_, '_>, ranks: &Ranks<'_>, name: &[u8]) -> bool
    ensures { IsTrue result ↔ AsksBefore (rank_in ranks.now) db.now name.now }
{
    are_others_or_ask_before(db, ranks, db.holders(name), name)
}

// Whether each of the names does.
fn ask_before(db: &Records<'_, '_>, ranks: &Ranks<'_>, names: &[Name]) -> bool
    ensures { IsTrue result ↔ All (AsksBefore (rank_in ranks.now) db.now) names.now }
{
    names
        .iter()
        .all(|name| asks_before(db, ranks, name.as_bytes()))
}

// The names that are in rings, copied.
fn ring_names(alloc: Global, ranks: &Ranks<'_>, names: &[Name]) -> Result<Vec<Name>, AllocError>
    ensures { IfOk result (λ rings. rings.items ≡ filter (is_ringed ranks.now) names.now) }
{
    let mut rings = Vec::new(alloc);
    for name in names {
        if ranks.is_ringed(name.as_bytes()) {
            rings.push(name.try_copy(alloc)?)?;
        }
    }
    Ok(rings)
}

/// The names, copied. Memory alone can fail.
pub(crate) fn copies(alloc: Global, names: &[Name]) -> Result<Vec<Name>, AllocError>
    ensures { IfOk result (λ copied. copied.items ≡ names.now) }
{
    let mut copied = Vec::new(alloc);
    for name in names {
        copied.push(name.try_copy(alloc)?)?;
    }
    Ok(copied)
}

/// Names that are in rings, and how many the largest of these has, or one.
#[derive(Drop)]
pub(crate) struct Rings {
    pub(crate) names: Vec<Name>,
    pub(crate) most: usize,
}

/// Those of the names that are in rings, where names may ask for one another in turn, in their order, or all names where that isn't
/// told apart. For each
/// atom of their Depends linear in the records that have or provide its name. Memory alone can fail.
pub(crate) fn rings_of(
    alloc: Global,
    db: &Records<'_, '_>,
    askers: &Askers<'_>,
    names: &[Name],
) -> Result<Rings, AllocError>
    ensures { IfOk result (λ rings. HasRings db.now names.now rings.names.items) }
{
    let ranks = ranks_of(alloc, askers, names)?;
    if ask_before(db, &ranks, names) {
        let members = ring_names(alloc, &ranks, names)?;
        let most = ranks.most();
        return Ok(Rings {
            names: members,
            most,
        });
    }
    let all = copies(alloc, names)?;
    Ok(Rings {
        names: all,
        most: names.len(),
    })
}
