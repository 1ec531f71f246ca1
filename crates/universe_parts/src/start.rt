// What the start says of a name.

ghost use Rattle.std.specs.Prelude.{◌≡◌};
ghost use Rattle.std.specs.Option.{option_copied};

use debversion::Version;
use std::marker::Model;

/// The facts of a record of the status database at the start (dpkg(1)), over its text.
#[derive(Drop)]
pub struct Start<'a> {
    name: &'a [u8],
    is_present: bool,
    standing: Option<Version<'a>>,
    is_held: bool,
    is_essential: bool,
}

impl<'a> Model for Start<'a> {
    ghost use Rattle.rules.specs.Universe.{Start as StartValue};

    ghost Value = { StartValue };

    ghost view = { λ s. record {
      name = s.name.now;
      is_present = s.is_present;
      standing = s.standing;
      is_held = s.is_held;
      is_essential = s.is_essential;
    } };
}

impl<'a> Start<'a> {
    /// The facts of a name: whether it is present, the version that stands, if one does, whether it is held, and
    /// whether it is essential.
    pub fn new(
        name: &'a [u8],
        is_present: bool,
        standing: Option<Version<'a>>,
        is_held: bool,
        is_essential: bool,
    ) -> Start<'a>
        ensures { result ≡ record {
          name = name.now;
          is_present = is_present;
          standing = standing.entry;
          is_held = is_held;
          is_essential = is_essential;
        } }
    {
        Start {
            name,
            is_present,
            standing,
            is_held,
            is_essential,
        }
    }

    /// The name.
    pub fn name(&self) -> &'a [u8]
        ensures { result.now ≡ self.now.name }
    {
        self.name
    }

    /// Whether files of the package are there.
    pub fn is_present(&self) -> bool
        ensures { result ≡ self.now.is_present }
    {
        self.is_present
    }

    /// The version that stands, if one does.
    pub fn standing(&self) -> Option<&Version<'a>>
        ensures { option_copied result ≡ self.now.standing }
    {
        self.standing.as_ref()
    }

    /// Whether the package is held.
    pub fn is_held(&self) -> bool
        ensures { result ≡ self.now.is_held }
    {
        self.is_held
    }

    /// Whether the record marks the package essential (Policy 3.8).
    pub fn is_essential(&self) -> bool
        ensures { result ≡ self.now.is_essential }
    {
        self.is_essential
    }
}
