// The words of atoms, clauses and goals.
ghost use Rattle.std.specs.Prelude.{◌≡◌, ◌++◌, IfOk, OnOk, codes};
ghost use Rattle.std.specs.List.{flat_map};
ghost use Rattle.json_answers.specs.Words as Spec;

use debversion::Op;
use relation::{Atom, Clause};
use rules::{Goal, Restriction};
use std::alloc::{AllocError, Global};

// The operator as relation fields have it (Policy 7.1).
fn op_text(op: Op) -> &'static [u8]
    ensures { result.now ≡ Spec.op_text op }
{
    match op {
        Op::StrictlyEarlier => b"<<",
        Op::EarlierOrEqual => b"<=",
        Op::ExactlyEqual => b"=",
        Op::LaterOrEqual => b">=",
        Op::StrictlyLater => b">>",
    }
}

// Writes a restriction behind a name: ` (>= 2)`.
fn push_restriction(text: &mut Vec<u8>, op: Op, version: &[u8]) -> Result<(), AllocError>
    ensures { OnOk result (text.new.items
        ≡ text.old.items ++ Spec.restriction_text (record { op = op; version = version.now })) }
{
    text.extend_from_slice(b" (")?;
    text.extend_from_slice(op_text(op))?;
    text.extend_from_slice(b" ")?;
    text.extend_from_slice(version)?;
    text.extend_from_slice(b")")
}

// Writes an atom: `foo (>= 2)`.
fn push_atom(text: &mut Vec<u8>, atom: &Atom<'_>) -> Result<(), AllocError>
    ensures { OnOk result (text.new.items ≡ text.old.items ++ Spec.atom_text atom.now) }
{
    text.extend_from_slice(atom.name())?;
    match atom.restriction() {
        None => Ok(()),
        Some((op, version)) => push_restriction(text, op, version.text()),
    }
}

// Writes one more alternative: ` | bar`.
fn push_other(text: &mut Vec<u8>, atom: &Atom<'_>) -> Result<(), AllocError>
    ensures { OnOk result (text.new.items ≡ text.old.items ++ Spec.other_text atom.now) }
{
    text.extend_from_slice(b" | ")?;
    push_atom(text, atom)
}

// Writes the alternatives behind the first one.
fn push_others(text: &mut Vec<u8>, atoms: &[Atom<'_>]) -> Result<(), AllocError>
    ensures { OnOk result (text.new.items ≡ text.old.items ++ flat_map Spec.other_text atoms.now) }
{
    for atom in atoms {
        push_other(text, atom)?;
    }
    Ok(())
}

/// The text of an atom. Memory alone can fail.
pub(crate) fn atom_text(alloc: Global, atom: &Atom<'_>) -> Result<Vec<u8>, AllocError>
    ensures { IfOk result (λ text. text.items ≡ Spec.atom_text atom.now) }
{
    let mut text = Vec::new(alloc);
    push_atom(&mut text, atom)?;
    Ok(text)
}

// The text of the alternatives of a clause.
fn atoms_text(alloc: Global, atoms: &[Atom<'_>]) -> Result<Vec<u8>, AllocError>
    ensures { IfOk result (λ text. text.items ≡ Spec.clause_text atoms.now) }
{
    match atoms {
        [] => Ok(Vec::new(alloc)),
        [first, others @ ..] => {
            let mut text = atom_text(alloc, first)?;
            push_others(&mut text, others)?;
            Ok(text)
        }
    }
}

/// The text of a clause: `foo (>= 2) | bar`. Memory alone can fail.
pub(crate) fn clause_text(alloc: Global, clause: &Clause<'_>) -> Result<Vec<u8>, AllocError>
    ensures { IfOk result (λ text. text.items ≡ Spec.clause_text clause.now) }
{
    atoms_text(alloc, clause.as_slice())
}

/// The line of a goal, as a request has it. Memory alone can fail.
pub(crate) fn goal_text(alloc: Global, goal: &Goal) -> Result<Vec<u8>, AllocError>
    ensures { IfOk result (λ text. text.items ≡ Spec.goal_text goal.now) }
{
    match goal {
        Goal::Install(name, restriction) => install_text(alloc, name.as_bytes(), restriction),
        Goal::Remove(name) => named_text(alloc, b"remove ", name.as_bytes()),
        Goal::Purge(name) => named_text(alloc, b"purge ", name.as_bytes()),
        Goal::Upgrade(name) => named_text(alloc, b"upgrade ", name.as_bytes()),
        Goal::UpgradeAll => b"upgrade-all".to_vec(alloc),
        Goal::NoRemove => b"no-remove".to_vec(alloc),
    }
}

fn named_text(alloc: Global, word: &[u8], name: &[u8]) -> Result<Vec<u8>, AllocError>
    ensures { IfOk result (λ text. text.items ≡ word.now ++ name.now) }
{
    let mut text = word.to_vec(alloc)?;
    text.extend_from_slice(name)?;
    Ok(text)
}

// Writes the restriction, if there is one.
fn push_any(text: &mut Vec<u8>, restriction: &Option<Restriction>) -> Result<(), AllocError>
    ensures { OnOk result
        (text.new.items ≡ text.old.items ++ Spec.any_restriction_text restriction.now) }
{
    match restriction {
        None => Ok(()),
        Some(restriction) => {
            push_restriction(text, restriction.op, restriction.version.as_bytes())
        }
    }
}

fn install_text(
    alloc: Global,
    name: &[u8],
    restriction: &Option<Restriction>,
) -> Result<Vec<u8>, AllocError>
    ensures { IfOk result
        (λ text. text.items ≡ codes "install "
        ++ (name.now ++ Spec.any_restriction_text restriction.now)) }
{
    let mut text = named_text(alloc, b"install ", name)?;
    push_any(&mut text, restriction)?;
    Ok(text)
}
