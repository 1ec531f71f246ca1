// What a clause of Pre-Depends or Depends says.

ghost use Rattle.std.specs.Prelude.{◌≡◌, ◌++◌, [], IfOk, OnOk, Some, codes, map};
ghost use Rattle.std.specs.List.{AllZip, flat_map};
ghost use Rattle.std.specs.Option.{option_copied};
ghost use Rattle.refutation.specs.Clause.{item_at};
ghost use Rattle.refutation_sentences.specs.Causes as Causes;
ghost use Rattle.refutation_sentences.specs.Sentences as Spec;
ghost use Rattle.refutation_sentences.specs.Words as Words;

use crate::causes::{cause_of, push_cause};
use crate::context::Context;
use crate::offers::is_none;
use crate::wanted::Wanted;
use phrases::push_clause;
use relation::{Atom, Clause};
use std::alloc::AllocError;

// Why no pair matches the atom.
fn atom_cause(context: &Context<'_, '_, '_, '_, '_>, atom: &Atom<'_>) -> Result<Vec<u8>, AllocError>
    ensures { IfOk result
        (λ why. Causes.IsCauseTold context.now.premises.now context.now.indices.now atom.now
        why.items) }
{
    let wanted = Wanted::by_atom(atom);
    let cause = cause_of(context, &wanted)?;
    let mut text = Vec::new(context.alloc());
    push_cause(context, &mut text, wanted.name(), &cause)?;
    Ok(text)
}

// Why no pair matches each of the alternatives, in their order.
fn each_cause(
    context: &Context<'_, '_, '_, '_, '_>,
    atoms: &[Atom<'_>],
) -> Result<Vec<Vec<u8>>, AllocError>
    ensures { IfOk result
        (λ causes. AllZip
        (Causes.IsCauseTold context.now.premises.now context.now.indices.now) atoms.now
        (map (λ why. why.items) causes.items)) }
{
    let mut causes = Vec::new(context.alloc());
    for atom in atoms {
        causes.push(atom_cause(context, atom)?)?;
    }
    Ok(causes)
}

// Writes a cause behind others.
fn push_other(text: &mut Vec<u8>, why: &[u8]) -> Result<(), AllocError>
    ensures { OnOk result (text.new.items ≡ text.old.items ++ (codes ", and " ++ why.now)) }
{
    text.extend_from_slice(b", and ")?;
    text.extend_from_slice(why)
}

// Writes the causes behind a first one.
fn push_others(text: &mut Vec<u8>, causes: &[Vec<u8>]) -> Result<(), AllocError>
    ensures { OnOk result (text.new.items
        ≡ text.old.items
        ++ flat_map (λ other. codes ", and " ++ other) (map (λ why. why.items) causes.now)) }
{
    for why in causes {
        push_other(text, why.as_slice())?;
    }
    Ok(())
}

// Writes the causes behind what is asked for.
fn push_causes(text: &mut Vec<u8>, causes: &[Vec<u8>]) -> Result<(), AllocError>
    ensures { OnOk result (text.new.items
        ≡ text.old.items ++ Causes.causes_words (map (λ why. why.items) causes.now)) }
{
    let Some((first, others)) = causes.split_first() else {
        return Ok(());
    };
    text.extend_from_slice(b", but ")?;
    text.extend_from_slice(first.as_slice())?;
    push_others(text, others)
}

// Why no pair matches any of the alternatives.
fn causes_of(
    context: &Context<'_, '_, '_, '_, '_>,
    atoms: &[Atom<'_>],
) -> Result<Vec<u8>, AllocError>
    ensures { IfOk result
        (λ text. Causes.AreCausesTold context.now.premises.now context.now.indices.now atoms.now
        text.items) }
{
    let causes = each_cause(context, atoms)?;
    let mut text = Vec::new(context.alloc());
    push_causes(&mut text, causes.as_slice())?;
    Ok(text)
}

// Why no pair matches any of the alternatives, where these pairs are none.
fn causes_where_none(
    context: &Context<'_, '_, '_, '_, '_>,
    atoms: &[Atom<'_>],
    numbers: &[u32],
) -> Result<Vec<u8>, AllocError>
    ensures { IfOk result (λ text. numbers.now ≡ []
        → Causes.AreCausesTold context.now.premises.now context.now.indices.now atoms.now
        text.items) }
{
    if is_none(numbers) {
        causes_of(context, atoms)
    } else {
        Ok(Vec::new(context.alloc()))
    }
}

// Writes that the pair needs one of the alternatives, which these pairs satisfy.
fn push_need(
    context: &Context<'_, '_, '_, '_, '_>,
    text: &mut Vec<u8>,
    number: u32,
    verb: &[u8],
    atoms: &[Atom<'_>],
    numbers: &[u32],
) -> Result<(), AllocError>
    ensures { OnOk result
        (Words.Grows (Spec.IsNeedTold context.now.premises.now context.now.indices.now number
        verb.now
        numbers.now atoms.now)
        text.old.items text.new.items) }
{
    let why = causes_where_none(context, atoms, numbers)?;
    context.push_number(text, number)?;
    text.extend_from_slice(verb)?;
    push_clause(text, atoms)?;
    context.push_satisfying(text, numbers, why.as_slice())?;
    Ok(())
}

/// The clause of this number, counted from 1.
pub(crate) fn clause_at<'x, 'a>(clauses: &'x [Clause<'a>], number: u32) -> Option<&'x Clause<'a>>
    ensures { option_copied result ≡ item_at clauses.now number }
{
    let place = number.checked_sub(1)?;
    clauses.get(place as usize)
}

// Writes that the pair needs the clause of this number, which these pairs satisfy.
fn push_need_at(
    context: &Context<'_, '_, '_, '_, '_>,
    text: &mut Vec<u8>,
    number: u32,
    verb: &[u8],
    clauses: &[Clause<'_>],
    clause: u32,
    numbers: &[u32],
) -> Result<(), AllocError>
    ensures { OnOk result (Words.Grows (λ said. (atoms : _) → item_at clauses.now clause ≡ Some
        atoms
        → Spec.IsNeedTold context.now.premises.now context.now.indices.now number verb.now
        numbers.now
        atoms said)
        text.old.items text.new.items) }
{
    match clause_at(clauses, clause) {
        None => Ok(()),
        Some(clause) => push_need(context, text, number, verb, clause.as_slice(), numbers),
    }
}

/// Writes what the clause of this number of Pre-Depends of the pair asks for, which these pairs satisfy.
pub(crate) fn push_pre_depends(
    context: &Context<'_, '_, '_, '_, '_>,
    text: &mut Vec<u8>,
    number: u32,
    clause: u32,
    numbers: &[u32],
) -> Result<(), AllocError>
    ensures { OnOk result
        (Words.Grows (Spec.IsNeedAt context.now.premises.now context.now.indices.now number
        (codes " pre-depends on ")
        (λ pkg. pkg.relations.pre_depends) clause numbers.now) text.old.items text.new.items) }
{
    let Some(read) = context.premises.read_at(number)? else {
        return Ok(());
    };
    push_need_at(
        context,
        text,
        number,
        b" pre-depends on ",
        read.pkg().pre_depends(),
        clause,
        numbers,
    )
}

/// Writes what the clause of this number of Depends of the pair asks for, which these pairs satisfy.
pub(crate) fn push_depends(
    context: &Context<'_, '_, '_, '_, '_>,
    text: &mut Vec<u8>,
    number: u32,
    clause: u32,
    numbers: &[u32],
) -> Result<(), AllocError>
    ensures { OnOk result
        (Words.Grows (Spec.IsNeedAt context.now.premises.now context.now.indices.now number
        (codes " depends on ")
        (λ pkg. pkg.relations.depends) clause numbers.now) text.old.items text.new.items) }
{
    let Some(read) = context.premises.read_at(number)? else {
        return Ok(());
    };
    push_need_at(
        context,
        text,
        number,
        b" depends on ",
        read.pkg().depends(),
        clause,
        numbers,
    )
}
