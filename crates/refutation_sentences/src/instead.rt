// Other versions of the indices that would do for a dependency, where something speaks against the one pair that can satisfy it.

ghost use Rattle.std.specs.Prelude.{◌≡◌, IfOk, OnOk, List, Some, map};
ghost use Rattle.std.specs.List.{All, Contains};
ghost use Rattle.refutation.specs.Clause.{item_at};
ghost use Rattle.refutation.specs.declared.line.Line.{Line};
ghost use Rattle.refutation.specs.declared.line.Line.TheVariants as line;
ghost use Rattle.refutation.specs.declared.line.Premise.TheVariants as claim;
ghost use Rattle.refutation_sentences.specs.Sentences as Spec;

use crate::basis::Basis;
use crate::context::Context;
use crate::lists::selected_in;
use crate::needs::clause_at;
use crate::offers::Among;
use crate::unadmitted::reason_of;
use crate::wanted::Wanted;
use index::IndexEntry;
use indexmap::IndexSet;
use phrases::push_versioned;
use refutation::Premise;
use relation::{Atom, Clause};
use std::alloc::{AllocError, Global};

// Of how many dependencies it is told what would do for them too.
const TOLD: usize = 16;

// The pairs that a premise says can't be together, if it says that.
fn pairs_apart(premise: &Premise) -> Option<(u32, u32)> {
    match premise {
        Premise::Same(one, other) => Some((*one, *other)),
        Premise::Conflicts(one, other) => Some((*one, *other)),
        Premise::Breaks(one, other) => Some((*one, *other)),
        _ => None,
    }
}

// The pairs that a basis speaks against.
fn opposed_by(alloc: Global, bases: &[Basis<'_>]) -> Result<IndexSet<u32>, AllocError> {
    let mut opposed = IndexSet::new(alloc);
    for basis in bases {
        if let Some((one, other)) = pairs_apart(basis.premise) {
            opposed.insert(one)?;
            opposed.insert(other)?;
        }
    }
    Ok(opposed)
}

// Whether one pair alone can satisfy the clause of the basis, and it is among those that another basis speaks against.
fn is_opposed(
    alloc: Global,
    opposed: &IndexSet<u32>,
    basis: &Basis<'_>,
) -> Result<bool, AllocError> {
    let numbers = selected_in(alloc, basis.clause.as_slice())?;
    match numbers.as_slice() {
        [number] => Ok(opposed.contains(number)),
        _ => Ok(false),
    }
}

// The line that tells that the version of the stanza would do for what is wanted too, and why it isn't admitted.
fn line_on(
    context: &Context<'_, '_, '_, '_, '_>,
    wanted: &Wanted<'_>,
    stanza: &IndexEntry<'_>,
) -> Result<Vec<u8>, AllocError>
    ensures { IfOk result (λ line. Spec.IsAlternativeTold context.now.premises.now wanted.now
        stanza.now line.items) }
{
    let version = stanza.version();
    let why = reason_of(context, wanted.name(), &version)?;
    let mut text = Vec::new(context.alloc());
    push_versioned(&mut text, wanted.name(), version.text())?;
    text.extend_from_slice(b" would do for ")?;
    wanted.push_to(&mut text)?;
    text.extend_from_slice(b" too, and is not admitted: ")?;
    text.extend_from_slice(why.as_slice())?;
    text.extend_from_slice(b".\n")?;
    Ok(text)
}

// Puts a line behind the others for the alternative, if there is a version that would do for it and isn't admitted.
fn tell_atom(
    context: &Context<'_, '_, '_, '_, '_>,
    lines: &mut IndexSet<Vec<u8>>,
    atom: &Atom<'_>,
) -> Result<(), AllocError>
    ensures { OnOk result
        (Spec.StaysTruthful context.now.premises.now context.now.indices.now
        (λ told. Spec.HasAlternative context.now.premises.now told atom.now)
        (map (λ key. key.items) lines.old.keys) (map (λ key. key.items) lines.new.keys)) }
{
    let wanted = Wanted::by_atom(atom);
    if wanted.is_foreign() {
        return Ok(());
    }
    let highest = context.highest(&wanted, Among::LeftOut);
    if let Some(stanza) = highest {
        let line = line_on(context, &wanted, stanza)?;
        lines.insert(line)?;
    }
    Ok(())
}

// Puts a line behind the others for each of the alternatives that a version would do for which isn't admitted.
fn tell_atoms(
    context: &Context<'_, '_, '_, '_, '_>,
    lines: &mut IndexSet<Vec<u8>>,
    atoms: &[Atom<'_>],
) -> Result<(), AllocError>
    ensures { OnOk result
        (Spec.StaysTruthful context.now.premises.now context.now.indices.now
        (λ told. All (Spec.HasAlternative context.now.premises.now told) atoms.now)
        (map (λ key. key.items) lines.old.keys) (map (λ key. key.items) lines.new.keys)) }
{
    for atom in atoms {
        tell_atom(context, lines, atom)?;
    }
    Ok(())
}

// Puts the lines on the clause of this number, counted from 1, behind the others.
fn tell_clause(
    context: &Context<'_, '_, '_, '_, '_>,
    lines: &mut IndexSet<Vec<u8>>,
    clauses: &[Clause<'_>],
    clause: u32,
) -> Result<(), AllocError>
    ensures { OnOk result
        (Spec.StaysTruthful context.now.premises.now context.now.indices.now
        (λ told. (atoms : _) → item_at clauses.now clause ≡ Some atoms
        → All (Spec.HasAlternative context.now.premises.now told) atoms)
        (map (λ key. key.items) lines.old.keys) (map (λ key. key.items) lines.new.keys)) }
{
    match clause_at(clauses, clause) {
        None => Ok(()),
        Some(clause) => tell_atoms(context, lines, clause.as_slice()),
    }
}

// Puts the lines on the clause of this number of Pre-Depends of the pair behind the others.
fn tell_pre_depends(
    context: &Context<'_, '_, '_, '_, '_>,
    lines: &mut IndexSet<Vec<u8>>,
    number: u32,
    clause: u32,
) -> Result<(), AllocError>
    ensures { OnOk result
        (Spec.StaysTruthful context.now.premises.now context.now.indices.now
        (λ told. Contains told (line.Premise (claim.PreDepends number clause)))
        (map (λ key. key.items) lines.old.keys) (map (λ key. key.items) lines.new.keys)) }
{
    let read = context.premises.read_at(number)?;
    match read {
        None => Ok(()),
        Some(member) => tell_clause(context, lines, member.pkg().pre_depends(), clause),
    }
}

// Puts the lines on the clause of this number of Depends of the pair behind the others.
fn tell_depends(
    context: &Context<'_, '_, '_, '_, '_>,
    lines: &mut IndexSet<Vec<u8>>,
    number: u32,
    clause: u32,
) -> Result<(), AllocError>
    ensures { OnOk result
        (Spec.StaysTruthful context.now.premises.now context.now.indices.now
        (λ told. Contains told (line.Premise (claim.Depends number clause)))
        (map (λ key. key.items) lines.old.keys) (map (λ key. key.items) lines.new.keys)) }
{
    let read = context.premises.read_at(number)?;
    match read {
        None => Ok(()),
        Some(member) => tell_clause(context, lines, member.pkg().depends(), clause),
    }
}

// Puts the lines on the premise behind the others, if it is a dependency.
fn tell_premise(
    context: &Context<'_, '_, '_, '_, '_>,
    lines: &mut IndexSet<Vec<u8>>,
    premise: &Premise,
) -> Result<(), AllocError>
    ensures { OnOk result
        (Spec.StaysTruthful context.now.premises.now context.now.indices.now
        (λ told. Contains told (line.Premise premise.now))
        (map (λ key. key.items) lines.old.keys) (map (λ key. key.items) lines.new.keys)) }
{
    match premise {
        Premise::PreDepends(number, clause) => tell_pre_depends(context, lines, *number, *clause),
        Premise::Depends(number, clause) => tell_depends(context, lines, *number, *clause),
        _ => Ok(()),
    }
}

// Puts the lines on the premise behind the others, if it is told of so few before and another premise speaks against the one pair that
// can satisfy it; of how many it is told then.
fn tell_opposed(
    context: &Context<'_, '_, '_, '_, '_>,
    lines: &mut IndexSet<Vec<u8>>,
    opposed: &IndexSet<u32>,
    basis: &Basis<'_>,
    told: usize,
) -> Result<usize, AllocError>
    ensures { OnOk result
        (Spec.StaysTruthful context.now.premises.now context.now.indices.now
        (λ told. Contains told (line.Premise basis.now.premise.now))
        (map (λ key. key.items) lines.old.keys) (map (λ key. key.items) lines.new.keys)) }
{
    if told >= TOLD || !is_opposed(context.alloc(), opposed, basis)? {
        return Ok(told);
    }
    tell_premise(context, lines, basis.premise)?;
    Ok(told.saturating_add(1))
}

/// A line, once, for each alternative of a dependency that one pair alone can satisfy, where another premise speaks against that pair: the
/// highest version of an index that would do too and isn't admitted, and why it isn't; of so many dependencies at most. Memory alone can
/// fail. Linear in the premises, and in the stanzas for each alternative.
pub(crate) fn instead_of(
    context: &Context<'_, '_, '_, '_, '_>,
    bases: &[Basis<'_>],
) -> Result<IndexSet<Vec<u8>>, AllocError>
    ensures { IfOk result (λ lines. (told : List Line)
        → All (λ basis. Contains told (line.Premise basis.premise.now)) bases.now
        → Spec.AreTruthful context.now.premises.now context.now.indices.now told
        (map (λ key. key.items) lines.keys)) }
{
    let opposed = opposed_by(context.alloc(), bases)?;
    let mut lines = IndexSet::new(context.alloc());
    let mut told = 0usize;
    for basis in bases {
        told = tell_opposed(context, &mut lines, &opposed, basis, told)?;
    }
    Ok(lines)
}
