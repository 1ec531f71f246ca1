// Pieces of sentences.

ghost use Rattle.std.specs.Prelude.{◌≡◌, ◌++◌, OnOk, [], codes, if◌then◌else◌};
ghost use Rattle.rules.specs.State.{is_sound_flag};
ghost use Rattle.plan_sentences.specs.No as Spec;

use phrases::{push_versioned, push_wanted};
use plancheck_state::StateRecord;
use relation::{Atom, Pkg};
use rules::{Rule, State};
use std::alloc::AllocError;

/// Writes the pieces one behind another.
pub(crate) fn push(text: &mut Vec<u8>, pieces: &[&[u8]]) -> Result<(), AllocError> {
    for piece in pieces {
        text.extend_from_slice(piece)?;
    }
    Ok(())
}

/// Writes the name and the version of the package: `foo 1.0`.
pub(crate) fn push_pkg(text: &mut Vec<u8>, pkg: &Pkg<'_>) -> Result<(), AllocError>
    ensures { OnOk result (text.new.items ≡ text.old.items ++ Spec.package_words pkg.now) }
{
    push_versioned(text, pkg.name(), pkg.version().text())
}

// That the atom is of another architecture, where it is.
fn foreign_words(atom: &Atom<'_>) -> &'static [u8]
    ensures { result.now
        ≡ (if atom.now.foreign then codes " of another architecture" else []) }
{
    if atom.is_foreign() {
        b" of another architecture"
    } else {
        b""
    }
}

/// Writes the atom: `foo (>= 2)`.
pub(crate) fn push_atom(text: &mut Vec<u8>, atom: &Atom<'_>) -> Result<(), AllocError>
    ensures { OnOk result (text.new.items ≡ text.old.items ++ Spec.atom_words atom.now) }
{
    push_wanted(text, atom.name(), atom.restriction())?;
    text.extend_from_slice(foreign_words(atom))
}

// Writes an atom behind others.
fn push_alternative(text: &mut Vec<u8>, atom: &Atom<'_>) -> Result<(), AllocError>
    ensures { OnOk result
        (text.new.items ≡ text.old.items ++ (codes " | " ++ Spec.atom_words atom.now)) }
{
    text.extend_from_slice(b" | ")?;
    push_atom(text, atom)
}

/// Writes the alternatives of the clause: `foo (>= 2) | bar`.
pub(crate) fn push_clause(text: &mut Vec<u8>, atoms: &[Atom<'_>]) -> Result<(), AllocError>
    ensures { OnOk result (text.new.items ≡ text.old.items ++ Spec.alternatives_words atoms.now) }
{
    let Some((first, others)) = atoms.split_first() else {
        return Ok(());
    };
    push_atom(text, first)?;
    for atom in others {
        push_alternative(text, atom)?;
    }
    Ok(())
}

// How far a package is (dpkg(1)).
fn word_of(state: State) -> &'static [u8]
    ensures { result.now ≡ Spec.state_words state }
{
    match state {
        State::NotInstalled => b"not installed",
        State::ConfigFiles => b"removed but for its configuration files",
        State::HalfInstalled => b"half-installed",
        State::Unpacked => b"unpacked",
        State::HalfConfigured => b"half-configured",
        State::TriggersAwaited => b"waiting for triggers",
        State::TriggersPending => b"left with triggers to process",
        State::Installed => b"installed",
    }
}

// That what is there has to be installed again, where it has.
fn unsound_words(entry: &StateRecord<'_, '_>) -> &'static [u8]
    ensures { result.now
        ≡ (if is_sound_flag entry.now.flag then [] else codes " and to be installed again") }
{
    if entry.flag().is_sound() {
        b""
    } else {
        b" and to be installed again"
    }
}

// Writes the state of the record: `installed`.
fn push_state(text: &mut Vec<u8>, entry: &StateRecord<'_, '_>) -> Result<(), AllocError>
    ensures { OnOk result (text.new.items ≡ text.old.items ++ Spec.standing_words entry.now) }
{
    text.extend_from_slice(word_of(entry.state()))?;
    text.extend_from_slice(unsound_words(entry))
}

// Writes the name of the record and, of a present package, its version.
fn push_name(text: &mut Vec<u8>, entry: &StateRecord<'_, '_>) -> Result<(), AllocError>
    ensures { OnOk result (text.new.items ≡ text.old.items ++ Spec.named_words entry.now) }
{
    match entry.present_pkg() {
        None => text.extend_from_slice(entry.name()),
        Some(there) => push_pkg(text, there),
    }
}

/// Writes in which state the record is: `foo 1 is installed`.
pub(crate) fn push_record(text: &mut Vec<u8>, entry: &StateRecord<'_, '_>) -> Result<(), AllocError>
    ensures { OnOk result (text.new.items ≡ text.old.items ++ Spec.record_words entry.now) }
{
    push_name(text, entry)?;
    text.extend_from_slice(b" is ")?;
    push_state(text, entry)
}

/// The code and the name of the rule, as a verdict is printed.
pub(crate) fn code_of(rule: Rule) -> &'static [u8]
    ensures { result.now ≡ Spec.code_of rule }
{
    match rule {
        Rule::StartConflict => b"F0 StartConflict",
        Rule::PreDepends => b"F1 PreDepends",
        Rule::Conflict => b"F2 Conflict",
        Rule::Breaks => b"F3 Breaks",
        Rule::Depends => b"F4 Depends",
        Rule::Group => b"F5 Group",
        Rule::NeededBy => b"F6 NeededBy",
        Rule::Essential => b"F7 Essential",
        Rule::Held => b"F8 Held",
        Rule::WrongState => b"F9 WrongState",
        Rule::NotAdmitted => b"F10 NotAdmitted",
        Rule::End => b"F11",
    }
}
