//! Items of Provides as values. They borrow the text that they were read from.
ghost use Rattle.std.specs.Prelude.{◌≡◌, None};
ghost use Rattle.std.specs.Option.{option_copied, option_map};
ghost use Rattle.relation_text.specs.Refusal.{bad_version_of};
ghost use Rattle.relation_text.specs.Spelling.{inside_of, provided_of, version_in};

use crate::atom::restriction_of;
use debversion::Version;
use relation_text::{is_foreign, split_name, split_qualifier};
use std::marker::Model;

/// An item of Provides: a name, with a version or none.
#[derive(Drop)]
pub struct Provided<'a> {
    name: &'a [u8],
    version: Option<Version<'a>>,
    foreign: bool,
}

impl<'a> Model for Provided<'a> {
    ghost use Rattle.rules.specs.Package.{Provided as ProvidedValue};

    ghost Value = { ProvidedValue };

    ghost view = { λ p. record { name = p.name.now; version = p.version; foreign = p.foreign } };
}

// The version in a text's restriction, which is known to be one.
#[tactic(auto, unfolding(relation_text::specs::Refusal::bad_version_of))]
fn provided_version_of(text: &[u8]) -> Option<Version<'_>>
    requires { bad_version_of text.now ≡ None }
    ensures { result ≡ option_map version_in (inside_of text.now) }
{
    let (_, version) = restriction_of(text)?;
    Some(version)
}

impl<'a> Provided<'a> {
    // The item of a text, whose version is known to be one.
    pub(crate) fn new(arch: &[u8], text: &'a [u8]) -> Provided<'a>
        requires { bad_version_of text.now ≡ None }
        ensures { result ≡ provided_of arch.now text.now }
    {
        let (name, rest) = split_name(text);
        let (qualifier, _) = split_qualifier(rest);
        Provided {
            name,
            version: provided_version_of(text),
            foreign: is_foreign(arch, qualifier),
        }
    }

    /// The name that is provided.
    pub fn name(&self) -> &'a [u8]
        ensures { result.now ≡ self.now.name }
    {
        self.name
    }

    /// The version in which it is provided, if there is one.
    pub fn version(&self) -> Option<&Version<'a>>
        ensures { option_copied result ≡ self.now.version }
    {
        self.version.as_ref()
    }

    /// Whether the qualifier names another architecture: such an item provides nothing.
    pub fn is_foreign(&self) -> bool
        ensures { result ≡ self.now.foreign }
    {
        self.foreign
    }
}
