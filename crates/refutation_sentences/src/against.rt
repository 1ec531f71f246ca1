// What speaks against two pairs together.

ghost use Rattle.std.specs.Prelude.{◌≡◌, ◌++◌, IfOk, IfSome, OnOk, Some};
ghost use Rattle.std.specs.List.{Contains};
ghost use Rattle.rules.specs.Package.{Matches};
ghost use Rattle.refutation_sentences.specs.Sentences as Spec;
ghost use Rattle.refutation_sentences.specs.Words as Words;

use crate::context::Context;
use relation::{Atom, Pkg};
use std::alloc::{AllocError, Global};

/// A field by which a package is against others (Policy 7.3, 7.4).
#[derive(Clone, Copy)]
pub(crate) enum Field {
    /// Conflicts.
    Conflicts,
    /// Breaks.
    Breaks,
}

impl Field {
    // What a package does by it.
    fn verb(self) -> &'static [u8]
        ensures { result.now ≡ Spec.verb_of self }
    {
        match self {
            Field::Conflicts => b" conflicts with ",
            Field::Breaks => b" breaks ",
        }
    }

    // The atoms of the package's.
    fn atoms_of<'x, 'a>(self, pkg: &'x Pkg<'a>) -> &'x [Atom<'a>]
        ensures { result.now ≡ Spec.atoms_of self pkg.now }
    {
        match self {
            Field::Conflicts => pkg.conflicts(),
            Field::Breaks => pkg.breaks(),
        }
    }
}

// The first of the atoms that the package matches.
fn matched_in<'x, 'a>(atoms: &'x [Atom<'a>], pkg: &Pkg<'_>) -> Option<&'x Atom<'a>>
    ensures { IfSome result (λ atom. Contains atoms.now atom.now × Matches pkg.now atom.now) }
{
    for atom in atoms {
        if atom.matched_by(pkg) {
            return Some(atom);
        }
    }
    None
}

// What of the atoms the package provides, where the first one that it matches isn't of its own name: `, which provides bar`.
fn provided_words(alloc: Global, atoms: &[Atom<'_>], pkg: &Pkg<'_>) -> Result<Vec<u8>, AllocError>
    ensures { IfOk result (λ words. Spec.IsProvidedWord pkg.now atoms.now words.items) }
{
    let mut words = Vec::new(alloc);
    match matched_in(atoms, pkg) {
        Some(atom) if atom.name() != pkg.name() => {
            words.extend_from_slice(b", which provides ")?;
            words.extend_from_slice(atom.name())?;
            Ok(words)
        }
        _ => Ok(words),
    }
}

// The name by which the second pair matches what the first is against, by this field of it.
fn name_between(
    context: &Context<'_, '_, '_, '_, '_>,
    number: u32,
    other: u32,
    field: Field,
) -> Result<Vec<u8>, AllocError>
    ensures { IfOk result
        (λ words. (pkg against : _) → Words.package_at context.now.premises.now number ≡ Some pkg
        → Words.package_at context.now.premises.now other ≡ Some against
        → Spec.IsProvidedWord against (Spec.atoms_of field pkg) words.items) }
{
    let none = Vec::new(context.alloc());
    match (
        context.premises.read_at(number)?,
        context.premises.read_at(other)?,
    ) {
        (Some(one), Some(two)) => {
            provided_words(context.alloc(), field.atoms_of(one.pkg()), two.pkg())
        }
        _ => Ok(none),
    }
}

/// Writes that the first pair is against the second, by this field.
pub(crate) fn push_against(
    context: &Context<'_, '_, '_, '_, '_>,
    text: &mut Vec<u8>,
    number: u32,
    field: Field,
    other: u32,
) -> Result<(), AllocError>
    ensures { OnOk result
        (Words.Grows (Spec.IsAgainstTold context.now.premises.now field number other)
        text.old.items text.new.items) }
{
    let provided = name_between(context, number, other, field)?;
    context.push_number(text, number)?;
    text.extend_from_slice(field.verb())?;
    context.push_number(text, other)?;
    text.extend_from_slice(provided.as_slice())?;
    Ok(())
}

/// Writes that the pairs are of one name.
pub(crate) fn push_same(
    context: &Context<'_, '_, '_, '_, '_>,
    text: &mut Vec<u8>,
    number: u32,
    other: u32,
) -> Result<(), AllocError>
    ensures { OnOk result
        (text.new.items ≡ text.old.items ++ Spec.same_words context.now.premises.now number other) }
{
    context.push_number(text, number)?;
    text.extend_from_slice(b" and ")?;
    context.push_number(text, other)?;
    text.extend_from_slice(b" are two versions of one package")
}
