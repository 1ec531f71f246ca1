//! The name of a package, as a refusal names it.
ghost use Rattle.std.specs.Prelude.{◌≡◌};

use std::fmt;
use std::marker::Model;

/// The name of a package (Policy 5.6.1). It borrows the text.
#[derive(Debug, Drop)]
pub struct PackageName<'a> {
    bytes: &'a [u8],
}

impl<'a> Model for PackageName<'a> {
    ghost use Rattle.std.specs.Prelude.{List, ℕ};

    ghost Value = { List ℕ };

    ghost view = { λ name. name.bytes.now };
}

impl<'a> PackageName<'a> {
    // The name of these bytes.
    pub(crate) fn new(bytes: &'a [u8]) -> PackageName<'a>
        ensures { result ≡ bytes.now }
    {
        PackageName { bytes }
    }

    /// Its bytes.
    pub fn as_bytes(&self) -> &'a [u8]
        ensures { result.now ≡ self.now }
    {
        self.bytes
    }
}

impl fmt::Display for PackageName<'_> {
    // A name has ASCII bytes alone, so that each is a character.
    fn fmt<W: fmt::Write>(&self, f: &mut fmt::Formatter<W>) -> fmt::Result {
        for byte in self.bytes {
            f.write_char(char::from(*byte))?;
        }
        Ok(())
    }
}
