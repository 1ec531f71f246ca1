// The names of records in the order of their bytes.

ghost use Rattle.std.specs.Prelude.{◌≡◌, ◌++◌, IfOk, OnOk, map, refl};
ghost use Rattle.std.specs.Cmp.{eq_by_cmp_equiv, partial_equiv_from_equiv, po};
ghost use Rattle.std.specs.Cmp.Lexicographic.{nat_list_cmp_total};
ghost use Rattle.std.specs.Ordering.{as_partial_cmp, eq_by_cmp};
ghost use Rattle.rules.specs.Name.{name_cmp};
ghost use Rattle.plan_sentences.specs.Changes.{AreInOrder, AreNames};

use plancheck_state::Records;
use std::alloc::{AllocError, Global};
use std::cmp::Ordering;
use std::marker::Model;

/// A lent name, ordered by its bytes.
#[derive(Drop)]
pub(crate) struct Key<'a> {
    name: &'a [u8],
}

impl<'a> Model for Key<'a> {
    ghost use Rattle.std.specs.Prelude.{List, ℕ};

    ghost Value = { List ℕ };

    ghost view = { λ key. key.name.now };
}

impl<'a> Key<'a> {
    // The key of the name.
    fn new(name: &'a [u8]) -> Key<'a>
        ensures { result ≡ name.now }
    {
        Key { name }
    }

    /// The name.
    pub(crate) fn name(&self) -> &'a [u8]
        ensures { result.now ≡ self.now }
    {
        self.name
    }
}

impl PartialEq for Key<'_> {
    ghost eq = { eq_by_cmp name_cmp };

    ghost laws = { partial_equiv_from_equiv (eq_by_cmp_equiv nat_list_cmp_total) };

    fn eq(&self, other: &Self) -> bool {
        self.cmp(other) == Ordering::Equal
    }
}

impl Eq for Key<'_> {
    ghost laws = { eq_by_cmp_equiv nat_list_cmp_total };
}

impl PartialOrd for Key<'_> {
    ghost partial_cmp = { as_partial_cmp name_cmp };

    ghost laws = { po nat_list_cmp_total (λ key other. refl) };

    fn partial_cmp(&self, other: &Self) -> Option<Ordering> {
        Some(self.cmp(other))
    }
}

impl Ord for Key<'_> {
    ghost cmp = { name_cmp };

    ghost total = { nat_list_cmp_total };

    ghost matches_partial_cmp = { λ key other. refl };

    ghost matches_eq = { λ key other. refl };

    fn cmp(&self, other: &Self) -> Ordering {
        self.name.cmp(other.name)
    }
}

// Puts the names of the records behind the others.
fn push_names<'a>(keys: &mut Vec<Key<'a>>, db: &Records<'_, 'a>) -> Result<(), AllocError>
    ensures { OnOk result
        (keys.new.items ≡ keys.old.items ++ map (λ entry. entry.name) db.now) }
{
    for entry in db.as_slice() {
        keys.push(Key::new(entry.name()))?;
    }
    Ok(())
}

// The keys in their order, each once. About n log n comparisons.
fn in_order(keys: Vec<Key<'_>>) -> Result<Vec<Key<'_>>, AllocError>
    ensures { IfOk result (λ ordered. AreInOrder keys.entry.items ordered.items) }
{
    let mut ordered = keys;
    ordered.sort()?;
    ordered.dedup();
    Ok(ordered)
}

/// The names that have a record at the start or at the end, in the order of their bytes. Memory alone can fail.
pub(crate) fn names_of<'a>(
    alloc: Global,
    start: &Records<'_, 'a>,
    end: &Records<'_, 'a>,
) -> Result<Vec<Key<'a>>, AllocError>
    ensures { IfOk result (λ names. AreNames start.now end.now names.items) }
{
    let mut keys = Vec::new(alloc);
    push_names(&mut keys, start)?;
    push_names(&mut keys, end)?;
    let ordered = in_order(keys)?;
    Ok(ordered)
}
