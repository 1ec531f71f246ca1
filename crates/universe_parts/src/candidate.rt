// The candidate of a name.

ghost use Rattle.std.specs.Prelude.{◌≡◌};

use debversion::Version;
use std::marker::Model;

/// The version of a name that is chosen where nothing else is asked for (apt_preferences(5)).
#[derive(Drop)]
pub struct Candidate<'a> {
    name: &'a [u8],
    version: Version<'a>,
}

impl<'a> Model for Candidate<'a> {
    ghost use Rattle.rules.specs.Universe.{Candidate as CandidateValue};

    ghost Value = { CandidateValue };

    ghost view = { λ c. record { name = c.name.now; version = c.version } };
}

impl<'a> Candidate<'a> {
    /// The candidate of the name.
    pub fn new(name: &'a [u8], version: Version<'a>) -> Candidate<'a>
        ensures { result ≡ record { name = name.now; version = version.entry } }
    {
        Candidate { name, version }
    }

    /// The name.
    pub fn name(&self) -> &'a [u8]
        ensures { result.now ≡ self.now.name }
    {
        self.name
    }

    /// The version.
    pub fn version(&self) -> &Version<'a>
        ensures { result.now ≡ self.now.version }
    {
        &self.version
    }
}
