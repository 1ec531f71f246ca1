// What an atom or an install goal asks for.

ghost use Rattle.std.specs.Prelude.{◌≡◌, ◌↔◌, ◌++◌, false, IsTrue, OnOk};
ghost use Rattle.std.specs.Option.{option_map};
ghost use Rattle.index.specs.Providers.{plain_atom};
ghost use Rattle.phrases.specs.Phrases.{wanted_words};
ghost use Rattle.rules.specs.Package.{Meets, MeetsAsProvided};

use debversion::{Op, Version};
use phrases::push_restriction;
use relation::Atom;
use rules::{Restriction, VersionText};
use std::alloc::AllocError;
use std::marker::Model;

/// A name, maybe in a version that meets a restriction, and maybe of another architecture.
#[derive(Drop)]
pub(crate) struct Wanted<'q> {
    name: &'q [u8],
    restriction: Option<(Op, Version<'q>)>,
    is_foreign: bool,
}

impl<'q> Model for Wanted<'q> {
    ghost use Rattle.rules.specs.Package.{Atom as AtomValue};
    ghost use Rattle.std.specs.Option.{option_map};
    ghost use Rattle.relation.specs.Value.{restriction_by};

    ghost Value = { AtomValue };

    ghost view = { λ w. record { name = w.name.now; restriction = option_map restriction_by w.restriction; foreign = w.is_foreign } };
}

// The owned text as a version, which it is.
fn version_of(text: &VersionText) -> Version<'_>
    ensures { result ≡ text.now }
{
    Version::parse(text.as_bytes()).unwrap()
}

impl<'q> Wanted<'q> {
    /// What the atom asks for.
    pub(crate) fn by_atom(atom: &Atom<'q>) -> Wanted<'q>
        ensures { result ≡ atom.now }
    {
        let restriction = match atom.restriction() {
            None => None,
            Some((op, version)) => Some((op, version.again())),
        };
        Wanted {
            name: atom.name(),
            restriction,
            is_foreign: atom.is_foreign(),
        }
    }

    /// What an install goal asks for.
    pub(crate) fn by_goal(name: &'q [u8], restriction: &'q Option<Restriction>) -> Wanted<'q>
        ensures { result
            ≡ record { name = name.now; restriction = restriction.now; foreign = false } }
    {
        let restriction = match restriction {
            None => None,
            Some(restriction) => Some((restriction.op, version_of(&restriction.version))),
        };
        Wanted {
            name,
            restriction,
            is_foreign: false,
        }
    }

    /// The name, in any version.
    pub(crate) fn of_name(name: &'q [u8]) -> Wanted<'q>
        ensures { result ≡ plain_atom name.now }
    {
        Wanted {
            name,
            restriction: None,
            is_foreign: false,
        }
    }

    /// The name.
    pub(crate) fn name(&self) -> &'q [u8]
        ensures { result.now ≡ self.now.name }
    {
        self.name
    }

    /// Whether it is asked for of another architecture.
    pub(crate) fn is_foreign(&self) -> bool
        ensures { result ≡ self.now.foreign }
    {
        self.is_foreign
    }

    /// Whether the version meets the restriction, if there is one.
    pub(crate) fn is_met_by(&self, version: &Version<'_>) -> bool
        ensures { IsTrue result ↔ Meets version.now self.now.restriction }
    {
        match &self.restriction {
            None => true,
            Some((op, bound)) => version.satisfies(*op, bound),
        }
    }

    /// Whether the version in which a name is provided, if it has one, meets the restriction, if there is one (Policy 7.5).
    pub(crate) fn is_met_as_provided(&self, version: Option<&Version<'_>>) -> bool
        ensures { IsTrue result
            ↔ MeetsAsProvided
            (option_map (λ version. version.now) version.entry) self.now.restriction }
    {
        match (&self.restriction, version) {
            (None, _) => true,
            (Some(_), None) => false,
            (Some((op, bound)), Some(version)) => version.satisfies(*op, bound),
        }
    }

    /// Writes the name and the restriction: `foo (>= 2)`.
    pub(crate) fn push_to(&self, text: &mut Vec<u8>) -> Result<(), AllocError>
        ensures { OnOk result
            (text.new.items ≡ text.old.items ++ wanted_words self.now.name self.now.restriction) }
    {
        text.extend_from_slice(self.name)?;
        match &self.restriction {
            None => Ok(()),
            Some((op, version)) => push_restriction(text, *op, version.text()),
        }
    }
}
