//! Names in their order.
ghost use Rattle.std.specs.Prelude.{◌≡◌, ℕ, ◌<◌, IfOk, length, refl};
ghost use Rattle.std.specs.Cmp.{eq_by_cmp_equiv, partial_equiv_from_equiv, po};
ghost use Rattle.std.specs.Ordering.{as_partial_cmp, eq_by_cmp};
ghost use Rattle.std.specs.List.Sorted.{IsStrictlySortedBy};
ghost use Rattle.rules.specs.Name.{IsAscending, name_cmp};
ghost use Rattle.std.specs.Cmp.Lexicographic.{nat_list_cmp_total};
ghost use Rattle.forward_steps.specs.Group.{IsInOrder};

use rules::{Name, Names};
use std::alloc::{AllocError, Global};
use std::cmp::Ordering;
use std::marker::Model;

// A name, ordered by its bytes.
#[derive(Drop)]
struct Key {
    name: Name,
}

impl Model for Key {
    ghost use Rattle.std.specs.Prelude.{List, ℕ};

    ghost Value = { List ℕ };

    ghost view = { λ key. key.name };
}

impl PartialEq for Key {
    ghost eq = { eq_by_cmp name_cmp };

    ghost laws = { partial_equiv_from_equiv (eq_by_cmp_equiv nat_list_cmp_total) };

    fn eq(&self, other: &Self) -> bool {
        self.cmp(other) == Ordering::Equal
    }
}

impl Eq for Key {
    ghost laws = { eq_by_cmp_equiv nat_list_cmp_total };
}

impl PartialOrd for Key {
    ghost partial_cmp = { as_partial_cmp name_cmp };

    ghost laws = { po nat_list_cmp_total (λ key other. refl) };

    fn partial_cmp(&self, other: &Self) -> Option<Ordering> {
        Some(self.cmp(other))
    }
}

impl Ord for Key {
    ghost cmp = { name_cmp };

    ghost total = { nat_list_cmp_total };

    ghost matches_partial_cmp = { λ key other. refl };

    ghost matches_eq = { λ key other. refl };

    fn cmp(&self, other: &Self) -> Ordering {
        self.name.as_bytes().cmp(other.name.as_bytes())
    }
}

// The names as keys.
fn keys_of(alloc: Global, names: &[Name]) -> Result<Vec<Key>, AllocError>
    ensures { IfOk result (λ keys. keys.items ≡ names.now) }
{
    let mut keys = Vec::new(alloc);
    for name in names {
        keys.push(Key {
            name: name.try_copy(alloc)?,
        })?;
    }
    Ok(keys)
}

// The keys in their order, each once.
fn keys_in_order(keys: Vec<Key>) -> Result<Vec<Key>, AllocError>
    ensures { IfOk result (λ ordered. IsInOrder keys.items ordered.items) }
{
    let mut ordered = keys;
    ordered.sort()?;
    ordered.dedup();
    Ok(ordered)
}

// The names of the keys.
fn names_of(alloc: Global, keys: &[Key]) -> Result<Vec<Name>, AllocError>
    ensures { IfOk result (λ names. names.items ≡ keys.now) }
{
    let mut names = Vec::new(alloc);
    for key in keys {
        names.push(key.name.try_copy(alloc)?)?;
    }
    Ok(names)
}

/// The names of a group in their order, each once. About n log n comparisons. Memory alone can fail.
pub fn in_order(alloc: Global, group: &[Name]) -> Result<Names, AllocError>
    requires { 0 < length group.now }
    ensures { IfOk result (λ names. IsInOrder group.now names) }
{
    let keys = keys_in_order(keys_of(alloc, group)?)?;
    let names = names_of(alloc, keys.as_slice())?;
    Ok(Names::new(names))
}
