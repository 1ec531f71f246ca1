//! Atoms and clauses as values. They borrow the text that they were read from.
ghost use Rattle.std.specs.Prelude.{◌≡◌, None};
ghost use Rattle.std.specs.Option.{option_map};
ghost use Rattle.rules.specs.VersionFault.{first_fault};
ghost use Rattle.relation_text.specs.Refusal.{bad_version_of};
ghost use Rattle.relation_text.specs.Spelling.{atom_of, inside_of, restriction_in};
ghost use Rattle.relation.specs.Value.{restriction_by, restriction_by_ref};

use debversion::{Op, Version};
use relation_text::{
    inside_of, is_foreign, split_name, split_operator, split_qualifier, version_front,
};
use std::marker::Model;

/// An atom of a relation field: a name, with a restriction or none. It is foreign where its qualifier names
/// another architecture than the configured one.
#[derive(Drop)]
pub struct Atom<'a> {
    name: &'a [u8],
    restriction: Option<(Op, Version<'a>)>,
    foreign: bool,
}

impl<'a> Model for Atom<'a> {
    ghost use Rattle.rules.specs.Package.{Atom as AtomValue};
    ghost use Rattle.std.specs.Option.{option_map};
    ghost use Rattle.relation.specs.Value.{restriction_by};

    ghost Value = { AtomValue };

    ghost view = { λ a. record { name = a.name.now; restriction = option_map restriction_by a.restriction; foreign = a.foreign } };
}

// The bytes as a version, which they are known to be.
fn version_of(bytes: &[u8]) -> Version<'_>
    requires { first_fault bytes.now ≡ None }
    ensures { result ≡ bytes.now }
{
    Version::parse(bytes).unwrap()
}

// The restriction in an atom's text, whose version is known to be one.
#[tactic(auto, unfolding(relation_text::specs::Refusal::bad_version_of))]
pub fn restriction_of(text: &[u8]) -> Option<(Op, Version<'_>)>
    requires { bad_version_of text.now ≡ None }
    ensures { option_map restriction_by result ≡ option_map restriction_in (inside_of text.now) }
{
    let inside = inside_of(text)?;
    let (op, rest) = split_operator(inside);
    Some((op, version_of(version_front(rest))))
}

impl<'a> Atom<'a> {
    // The atom of a text, whose version is known to be one.
    pub(crate) fn new(arch: &[u8], text: &'a [u8]) -> Atom<'a>
        requires { bad_version_of text.now ≡ None }
        ensures { result ≡ atom_of arch.now text.now }
    {
        let (name, rest) = split_name(text);
        let (qualifier, _) = split_qualifier(rest);
        Atom {
            name,
            restriction: restriction_of(text),
            foreign: is_foreign(arch, qualifier),
        }
    }

    /// The name.
    pub fn name(&self) -> &'a [u8]
        ensures { result.now ≡ self.now.name }
    {
        self.name
    }

    /// The operator and the version of the restriction, if there is one.
    pub fn restriction(&self) -> Option<(Op, &Version<'a>)>
        ensures { option_map restriction_by_ref result ≡ self.now.restriction }
    {
        match &self.restriction {
            None => None,
            Some((op, version)) => Some((*op, version)),
        }
    }

    /// Whether the qualifier names another architecture.
    pub fn is_foreign(&self) -> bool
        ensures { result ≡ self.now.foreign }
    {
        self.foreign
    }
}

/// A clause: its alternatives, of which one has to be met.
#[derive(Drop)]
pub struct Clause<'a> {
    atoms: Vec<Atom<'a>>,
}

impl<'a> Model for Clause<'a> {
    ghost use Rattle.std.specs.Prelude.{List};
    ghost use Rattle.rules.specs.Package.{Atom as AtomValue};

    ghost Value = { List AtomValue };

    ghost view = { λ c. c.atoms.items };
}

impl<'a> Clause<'a> {
    // The clause of these alternatives.
    pub(crate) fn new(atoms: Vec<Atom<'a>>) -> Clause<'a>
        ensures { result ≡ atoms.entry.items }
    {
        Clause { atoms }
    }

    /// The alternatives, in order.
    pub fn as_slice(&self) -> &[Atom<'a>]
        ensures { result.now ≡ self.now }
    {
        self.atoms.as_slice()
    }
}
