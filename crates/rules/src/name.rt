// Owned names and groups of names, which a contract sees as their bytes.

ghost use Rattle.std.specs.Prelude.{◌≡◌, ℕ, ◌<◌, List, length, IfOk, IsTrue};
ghost use Rattle.std.specs.List.{list_all};
ghost use Rattle.rules.specs.Name.{is_name, is_name_byte, name_cmp, IsAscending};

use std::alloc::{AllocError, Global};
use std::cmp::Ordering;
use std::marker::Model;

/// Whether a name may have the byte behind its first.
pub fn is_name_byte(byte: u8) -> bool
    ensures { result ≡ is_name_byte byte }
{
    byte.is_ascii_alphanumeric() || matches!(byte, b'+' | b'-' | b'.')
}

fn has_name_bytes(text: &[u8]) -> bool
    ensures { result ≡ list_all is_name_byte text.now }
{
    text.iter().all(|byte| is_name_byte(*byte))
}

/// Whether the text is a package name (Policy 5.6.1). Linear in it.
pub fn is_name(text: &[u8]) -> bool
    ensures { result ≡ is_name text.now }
{
    match text {
        [first, rest @ ..] => first.is_ascii_alphanumeric() && has_name_bytes(rest),
        [] => false,
    }
}

/// The order of two names: by their bytes. Names are short, so a loop over their bytes takes a quarter of what the order of slices
/// takes, which looks at groups of bytes. Linear in what they share at their front.
pub fn name_cmp(name: &[u8], other: &[u8]) -> Ordering
    ensures { result ≡ name_cmp name.now other.now }
{
    for place in 0..name.len().min(other.len()) {
        match name[place].cmp(&other[place]) {
            Ordering::Equal => {}
            decided => return decided,
        }
    }
    name.len().cmp(&other.len())
}

/// The name of a package (Policy 5.6.1), which owns its bytes.
#[derive(Debug, Drop)]
pub struct Name {
    bytes: Vec<u8>,
}

impl Model for Name {
    ghost Value = { List ℕ };

    ghost view = { λ name. name.bytes.items };

    ghost invariant = { λ name. IsTrue (is_name name.bytes.items) };
}

impl Name {
    /// A copy of a name. Memory alone can fail.
    pub fn copied_from(alloc: Global, bytes: &[u8]) -> Result<Name, AllocError>
        requires { IsTrue (is_name bytes.now) }
        ensures { IfOk result (λ name. name ≡ bytes.now) }
    {
        Ok(Name {
            bytes: bytes.to_vec(alloc)?,
        })
    }

    /// The bytes of the name.
    pub fn as_bytes(&self) -> &[u8]
        ensures bytes { result.now ≡ self.now }
        ensures valid { IsTrue (is_name self.now) }
    {
        self.bytes.as_slice()
    }

    /// An equal name. Memory alone can fail.
    pub fn try_copy(&self, alloc: Global) -> Result<Name, AllocError>
        ensures { IfOk result (λ name. name ≡ self.now) }
    {
        Name::copied_from(alloc, self.as_bytes())
    }
}

/// The names of a group: at least one, ascending by bytes and distinct.
#[derive(Drop)]
pub struct Names {
    names: Vec<Name>,
}

impl Model for Names {
    ghost Value = { List (List ℕ) };

    ghost view = { λ group. group.names.items };

    ghost invariant = { λ group. IsAscending group.names.items × (0 < length group.names.items) };
}

impl Names {
    /// The group of these names.
    pub fn new(names: Vec<Name>) -> Names
        requires ascending { IsAscending names.items }
        requires some { 0 < length names.items }
        ensures { result ≡ names.items }
    {
        Names { names }
    }

    /// The names, ascending.
    pub fn as_slice(&self) -> &[Name]
        ensures names { result.now ≡ self.now }
        ensures ascending { IsAscending self.now }
        ensures some { 0 < length self.now }
    {
        self.names.as_slice()
    }

    /// An equal group. Memory alone can fail.
    pub fn try_copy(&self, alloc: Global) -> Result<Names, AllocError>
        ensures { IfOk result (λ names. names ≡ self.now) }
    {
        let mut names = Vec::new(alloc);
        for name in &self.names {
            names.push(name.try_copy(alloc)?)?;
        }
        Ok(Names { names })
    }
}
