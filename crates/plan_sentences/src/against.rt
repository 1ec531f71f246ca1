// What speaks against two packages together, in words.

ghost use Rattle.std.specs.Prelude.{◌≡◌, ◌++◌, IfOk, IsTrue, OnOk, [], codes, if◌then◌else◌};
ghost use Rattle.std.specs.Option.{option_copied};
ghost use Rattle.rules.specs.Database.{IsPresent, pkg_of};
ghost use Rattle.plan_sentences.specs.No as Spec;

use crate::words::{push_atom, push_pkg, push_record};
use plancheck_state::StateRecord;
use relation::{Atom, Pkg};
use std::alloc::{AllocError, Global};

/// That the package conflicts with or breaks the present one, by an atom of these: `foo 2 conflicts with bar (<< 3), and
/// bar 1 is installed`.
pub(crate) fn against(
    alloc: Global,
    verb: &[u8],
    pkg: &Pkg<'_>,
    atoms: &[Atom<'_>],
    other: &StateRecord<'_, '_>,
) -> Result<Vec<u8>, AllocError>
    ensures { IsPresent other.now → IfOk result
        (λ text. Spec.IsAgainstTold verb.now pkg.now atoms.now other.now text.items) }
{
    let mut text = Vec::new(alloc);
    let Some(there) = other.present_pkg() else {
        return Ok(text);
    };
    let matched = matched_in(atoms, there);
    push_pkg(&mut text, pkg)?;
    text.extend_from_slice(verb)?;
    push_matched(&mut text, there, matched)?;
    text.extend_from_slice(b", and ")?;
    push_record(&mut text, other)?;
    text.extend_from_slice(if is_provided(there, matched) {
        b" and provides this"
    } else {
        b""
    })?;
    Ok(text)
}

/// That the present package of the record conflicts with or breaks the other one, by an atom of these: `bar 1 is installed and
/// conflicts with mta, which foo 2 provides`.
pub(crate) fn against_by(
    alloc: Global,
    verb: &[u8],
    other: &StateRecord<'_, '_>,
    atoms: &[Atom<'_>],
    pkg: &Pkg<'_>,
) -> Result<Vec<u8>, AllocError>
    ensures { IfOk result
        (λ text. Spec.IsAgainstByTold verb.now other.now atoms.now pkg.now text.items) }
{
    let mut text = Vec::new(alloc);
    let matched = matched_in(atoms, pkg);
    push_record(&mut text, other)?;
    text.extend_from_slice(b" and")?;
    text.extend_from_slice(verb)?;
    push_matched(&mut text, pkg, matched)?;
    text.extend_from_slice(b", which ")?;
    push_pkg(&mut text, pkg)?;
    text.extend_from_slice(if is_provided(pkg, matched) {
        b" provides"
    } else {
        b" matches"
    })?;
    Ok(text)
}

// The first of the atoms that the package matches.
fn matched_in<'k, 'a>(atoms: &'k [Atom<'a>], pkg: &Pkg<'_>) -> Option<&'k Atom<'a>>
    ensures { Spec.IsMatched atoms.now pkg.now (option_copied result) }
{
    atoms.iter().find(|atom| atom.matched_by(pkg))
}

// Writes the atom that the package matches, or its name.
fn push_matched(
    text: &mut Vec<u8>,
    pkg: &Pkg<'_>,
    matched: Option<&Atom<'_>>,
) -> Result<(), AllocError>
    ensures { OnOk result (text.new.items
        ≡ text.old.items ++ Spec.matched_words pkg.now (option_copied matched.entry)) }
{
    match matched {
        None => text.extend_from_slice(pkg.name()),
        Some(atom) => push_atom(text, atom),
    }
}

// Whether the atom that the package matches is of a name that it provides.
fn is_provided(pkg: &Pkg<'_>, matched: Option<&Atom<'_>>) -> bool
    ensures { result ≡ Spec.is_provided pkg.now (option_copied matched.entry) }
{
    match matched {
        None => false,
        Some(atom) => atom.name() != pkg.name(),
    }
}
