// The goal in a line, which is its action and the name or the atom that it is about.

ghost use Rattle.std.specs.Prelude.{◌≡◌, IfOk, IfSome, IsTrue};
ghost use Rattle.std.specs.List.{list_any};
ghost use Rattle.std.specs.Option.{option_copied, option_map};
ghost use Rattle.std.specs.Str.{bytes_eq};
ghost use Rattle.rules.specs.Name.{is_name};
ghost use Rattle.relation.specs.Value.{restriction_by_ref};
ghost use Rattle.relation_text.specs.Bytes.{is_comma};
ghost use Rattle.universe_request.specs.GoalText as Spec;
ghost use Rattle.universe_request.specs.GoalText.{goal_at, goal_by, goal_of, install_by, install_of, only_name};
ghost use Rattle.universe_request.specs.Request.{is_all_versions};

use crate::words::{after_white, split_word};
use relation::{Atom, Op, RelationError, Version, parse_atoms};
use rules::{Goal, Name, Restriction, VersionText, is_name};
use std::alloc::{AllocError, Global};

fn has_comma(text: &[u8]) -> bool
    ensures { result ≡ list_any is_comma text.now }
{
    text.iter().any(|byte| *byte == b',')
}

fn only_atom<'p, 'a>(atoms: &'p [Atom<'a>]) -> Option<&'p Atom<'a>>
    ensures { option_copied result ≡ Spec.only_atom atoms.now }
{
    match atoms {
        [] => None,
        [atom] => Some(atom),
        [_, _, ..] => None,
    }
}

// A restriction that owns its version.
fn owned_restriction(
    alloc: Global,
    restriction: Option<(Op, &Version<'_>)>,
) -> Result<Option<Restriction>, AllocError>
    ensures { IfOk result (λ owned. owned ≡ option_map restriction_by_ref restriction.entry) }
{
    match restriction {
        None => Ok(None),
        Some((op, version)) => Ok(Some(Restriction {
            op,
            version: VersionText::copied_from(alloc, version.text())?,
        })),
    }
}

// The installing that an atom asks for.
fn install_by(alloc: Global, atom: &Atom<'_>) -> Result<Option<Goal>, AllocError>
    ensures { IfOk result (λ goal. goal ≡ install_by atom.now) }
{
    if atom.is_foreign() || !is_name(atom.name()) {
        return Ok(None);
    }
    let restriction = owned_restriction(alloc, atom.restriction())?;
    Ok(Some(Goal::Install(Name::copied_from(alloc, atom.name())?, restriction)))
}

// The installing of the atom that is the text.
fn install_of(alloc: Global, text: &[u8], arch: &[u8]) -> Result<Option<Goal>, AllocError>
    ensures { IfOk result (λ goal. goal ≡ install_of arch.now text.now) }
{
    if has_comma(text) {
        return Ok(None);
    }
    match parse_atoms(alloc, text, arch) {
        Ok(atoms) => match only_atom(atoms.as_slice()) {
            None => Ok(None),
            Some(atom) => install_by(alloc, atom),
        },
        Err(RelationError::OutOfMemory) => Err(AllocError),
        Err(_) => Ok(None),
    }
}

fn name_in(word: &[u8]) -> Option<&[u8]>
    ensures name { option_copied result ≡ Spec.name_in word.now }
    ensures valid { IfSome result (λ name. IsTrue (is_name name.now)) }
{
    if is_name(word) { Some(word) } else { None }
}

// The name that is the text.
fn only_name(alloc: Global, text: &[u8]) -> Result<Option<Name>, AllocError>
    ensures { IfOk result (λ name. name ≡ only_name text.now) }
{
    let (word, rest) = split_word(text);
    if !rest.is_empty() {
        return Ok(None);
    }
    match name_in(word) {
        None => Ok(None),
        Some(name) => Ok(Some(Name::copied_from(alloc, name)?)),
    }
}

fn alone(goal: Goal, text: &[u8]) -> Option<Goal>
    ensures { result ≡ Spec.alone goal text.now }
{
    if text.is_empty() { Some(goal) } else { None }
}

fn same_text(text: &[u8], other: &[u8]) -> bool
    ensures { result ≡ bytes_eq text.now other.now }
{
    text == other
}

// The goal of an action that is about the text.
fn goal_by(
    alloc: Global,
    action: &[u8],
    text: &[u8],
    arch: &[u8],
) -> Result<Option<Goal>, AllocError>
    ensures { IfOk result (λ goal. goal ≡ goal_by arch.now action.now text.now) }
{
    if same_text(action, b"install") {
        install_of(alloc, text, arch)
    } else if same_text(action, b"remove") {
        Ok(only_name(alloc, text)?.map(|name| Goal::Remove(name)))
    } else if same_text(action, b"purge") {
        Ok(only_name(alloc, text)?.map(|name| Goal::Purge(name)))
    } else if same_text(action, b"upgrade") {
        Ok(only_name(alloc, text)?.map(|name| Goal::Upgrade(name)))
    } else if same_text(action, b"upgrade-all") {
        Ok(alone(Goal::UpgradeAll, text))
    } else if same_text(action, b"no-remove") {
        Ok(alone(Goal::NoRemove, text))
    } else {
        Ok(None)
    }
}

/// The goal in a line, if it has one, for the configured architecture `arch`. Linear in the line.
#[tactic(auto, unfolding(crate::specs::GoalText::goal_of))]
pub fn goal_of(alloc: Global, line: &[u8], arch: &[u8]) -> Result<Option<Goal>, AllocError>
    ensures { IfOk result (λ goal. goal ≡ goal_of arch.now line.now) }
{
    let (action, text) = split_word(after_white(line));
    goal_by(alloc, action, text, arch)
}

/// Whether the line asks for all versions. Linear in the line.
pub fn is_all_versions(line: &[u8]) -> bool
    ensures { result ≡ is_all_versions line.now }
{
    let (word, rest) = split_word(after_white(line));
    same_text(word, b"all-versions") && rest.is_empty()
}
