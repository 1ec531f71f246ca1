// Names in their order.

ghost use Rattle.std.specs.Prelude.{◌≡◌, IfOk, IsTrue, refl};
ghost use Rattle.std.specs.Cmp.{eq_by_cmp_equiv, partial_equiv_from_equiv, po};
ghost use Rattle.std.specs.Cmp.Lexicographic.{nat_list_cmp_total};
ghost use Rattle.std.specs.List.{Contains};
ghost use Rattle.std.specs.Ordering.{as_partial_cmp, eq_by_cmp};
ghost use Rattle.rules.specs.Name.{is_name, name_cmp};
ghost use Rattle.rules.specs.Name.{IsAscending};
ghost use Rattle.fixed_order.specs.Names.{AreAllWith};
ghost use Rattle.fixed_order.specs.Walked.{IsFalling};

use rules::Name;
use std::alloc::{AllocError, Global};
use std::cmp::Ordering;
use std::marker::Model;

/// A lent package name, ordered by its bytes.
#[derive(Drop)]
pub(crate) struct Key<'n> {
    name: &'n [u8],
}

impl<'n> Model for Key<'n> {
    ghost use Rattle.std.specs.Prelude.{List, ℕ, IsTrue};
    ghost use Rattle.rules.specs.Name.{is_name};

    ghost Value = { List ℕ };

    ghost view = { λ key. key.name.now };

    ghost invariant = { λ key. IsTrue (is_name key.name.now) };
}

impl<'n> Key<'n> {
    /// The key of the name.
    pub(crate) fn new(name: &'n [u8]) -> Key<'n>
        requires { IsTrue (is_name name.now) }
        ensures { result ≡ name.now }
    {
        Key { name }
    }

    /// The name.
    pub(crate) fn name(&self) -> &'n [u8]
        ensures { result.now ≡ self.now }
    {
        self.name
    }

    /// The name, owned. Memory alone can fail.
    pub(crate) fn try_name(&self, alloc: Global) -> Result<Name, AllocError>
        ensures { IfOk result (λ name. name ≡ self.now) }
    {
        Name::copied_from(alloc, self.name)
    }
}

impl PartialEq for Key<'_> {
    ghost eq = { eq_by_cmp name_cmp };

    ghost laws = { partial_equiv_from_equiv (eq_by_cmp_equiv nat_list_cmp_total) };

    fn eq(&self, other: &Self) -> bool {
        self.cmp(other) == Ordering::Equal
    }
}

impl Eq for Key<'_> {
    ghost laws = { eq_by_cmp_equiv nat_list_cmp_total };
}

impl PartialOrd for Key<'_> {
    ghost partial_cmp = { as_partial_cmp name_cmp };

    ghost laws = { po nat_list_cmp_total (λ key other. refl) };

    fn partial_cmp(&self, other: &Self) -> Option<Ordering> {
        Some(self.cmp(other))
    }
}

impl Ord for Key<'_> {
    ghost cmp = { name_cmp };

    ghost total = { nat_list_cmp_total };

    ghost matches_partial_cmp = { λ key other. refl };

    ghost matches_eq = { λ key other. refl };

    fn cmp(&self, other: &Self) -> Ordering {
        self.name.cmp(other.name)
    }
}

/// The keys in their order, each once. About n log n comparisons.
pub(crate) fn in_order(keys: Vec<Key<'_>>) -> Result<Vec<Key<'_>>, AllocError>
    ensures { IfOk result (λ ordered. AreAllWith (Contains keys.entry.items) ordered.items) }
{
    let mut ordered = keys;
    ordered.sort()?;
    ordered.dedup();
    Ok(ordered)
}

// The keys of the names.
fn keys_of(alloc: Global, names: &[Name]) -> Result<Vec<Key<'_>>, AllocError>
    ensures { IfOk result (λ keys. keys.items ≡ names.now) }
{
    let mut keys = Vec::new(alloc);
    for name in names {
        keys.push(Key::new(name.as_bytes()))?;
    }
    Ok(keys)
}

// The keys from the greatest down.
fn falling(keys: Vec<Key<'_>>) -> Vec<Key<'_>>
    requires { IsAscending keys.items }
    ensures { IsFalling keys.entry.items result.items }
{
    let mut down = keys;
    down.reverse();
    down
}

/// The keys of the names from the greatest down, each once. About n log n comparisons. Memory alone can fail.
pub(crate) fn from_greatest(alloc: Global, names: &[Name]) -> Result<Vec<Key<'_>>, AllocError>
    ensures { IfOk result (λ down. IsFalling names.now down.items) }
{
    let keys = keys_of(alloc, names)?;
    let ordered = in_order(keys)?;
    Ok(falling(ordered))
}
