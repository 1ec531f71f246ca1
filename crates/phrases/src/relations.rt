// Relations as their fields have them (Policy 7.1).
ghost use Rattle.std.specs.Prelude.{◌≡◌, ◌++◌, OnOk, codes};
ghost use Rattle.std.specs.Option.{option_map};
ghost use Rattle.rules.specs.declared.goal.Restriction.{Restriction};
ghost use Rattle.relation.specs.Value.{restriction_by_ref};
ghost use Rattle.phrases.specs.Phrases as Spec;

use debversion::{Op, Version};
use relation::Atom;
use std::alloc::AllocError;

// The operator.
fn op_words(op: Op) -> &'static [u8]
    ensures { result.now ≡ Spec.op_words op }
{
    match op {
        Op::StrictlyEarlier => b"<<",
        Op::EarlierOrEqual => b"<=",
        Op::ExactlyEqual => b"=",
        Op::LaterOrEqual => b">=",
        Op::StrictlyLater => b">>",
    }
}

/// Writes a restriction behind a name: ` (>= 2)`.
pub fn push_restriction(text: &mut Vec<u8>, op: Op, version: &[u8]) -> Result<(), AllocError>
    ensures { OnOk result
        (text.new.items ≡ text.old.items
        ++ Spec.restriction_words (record { op = op; version = version.now })) }
{
    text.extend_from_slice(b" (")?;
    text.extend_from_slice(op_words(op))?;
    text.push(b' ')?;
    text.extend_from_slice(version)?;
    text.push(b')')?;
    Ok(())
}

/// Writes a name, with its restriction if it has one: `foo (>= 2)`.
pub fn push_wanted(
    text: &mut Vec<u8>,
    name: &[u8],
    restriction: Option<(Op, &Version<'_>)>,
) -> Result<(), AllocError>
    ensures { OnOk result (text.new.items
        ≡ text.old.items
        ++ Spec.wanted_words name.now (option_map restriction_by_ref restriction.entry)) }
{
    text.extend_from_slice(name)?;
    match restriction {
        None => Ok(()),
        Some((op, version)) => push_restriction(text, op, version.text()),
    }
}

// Writes an atom behind others.
fn push_alternative(text: &mut Vec<u8>, atom: &Atom<'_>) -> Result<(), AllocError>
    ensures { OnOk result (text.new.items
        ≡ text.old.items ++ (codes " | " ++ Spec.wanted_words atom.now.name atom.now.restriction)) }
{
    text.extend_from_slice(b" | ")?;
    push_wanted(text, atom.name(), atom.restriction())
}

/// Writes the alternatives of a clause: `foo (>= 2) | bar`.
pub fn push_clause(text: &mut Vec<u8>, atoms: &[Atom<'_>]) -> Result<(), AllocError>
    ensures { OnOk result (text.new.items ≡ text.old.items ++ Spec.clause_words atoms.now) }
{
    let Some((first, others)) = atoms.split_first() else {
        return Ok(());
    };
    push_wanted(text, first.name(), first.restriction())?;
    for atom in others {
        push_alternative(text, atom)?;
    }
    Ok(())
}
