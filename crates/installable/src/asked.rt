//! Which packages are asked about.
ghost use Rattle.std.specs.Prelude.{◌≡◌, IfOk, bytes_eq, map, refl};
ghost use Rattle.std.specs.Cmp.{eq_by_cmp_equiv, partial_equiv_from_equiv, po};
ghost use Rattle.std.specs.List.{filter, list_any};
ghost use Rattle.std.specs.Ordering.{as_partial_cmp, eq_by_cmp};
ghost use Rattle.candidates.specs.Inputs.{indices_of};
ghost use Rattle.candidates.specs.Stanza.{IsOrdered, listed_cmp};
ghost use Rattle.candidates.specs.StanzaLaws.{listed_cmp_total};
ghost use Rattle.rules.specs.Available.{all_listed};
ghost use Rattle.installable.specs.Asked.{is_asked};

use debversion::Version;
use index::{Index, IndexEntry};
use rules::name_cmp;
use std::alloc::{AllocError, Global};
use std::cmp::Ordering;
use std::marker::Model;

/// A stanza of an index that is asked about. Stanzas are ordered by name and version (deb-version(7)), and two of one name and version
/// are equal.
#[derive(Drop)]
pub(crate) struct Stanza<'p, 'a> {
    entry: &'p IndexEntry<'a>,
}

impl<'p, 'a> Model for Stanza<'p, 'a> {
    ghost use Rattle.rules.specs.Step.{IndexPackage as IndexPackageValue};

    ghost Value = { IndexPackageValue };

    ghost view = { λ s. s.entry.now };
}

impl<'p, 'a> Stanza<'p, 'a> {
    /// The name of the package.
    pub(crate) fn name(&self) -> &'a [u8]
        ensures { result.now ≡ self.now.pkg.name }
    {
        self.entry.name()
    }

    /// The version of the package.
    pub(crate) fn version(&self) -> Version<'a>
        ensures { result ≡ self.now.pkg.version }
    {
        self.entry.version()
    }

    /// The same stanza.
    pub(crate) fn again(&self) -> Stanza<'p, 'a>
        ensures { result ≡ self.now }
    {
        Stanza { entry: self.entry }
    }
}

// Whether one of the names is this one.
fn has_name(names: &[&str], name: &[u8]) -> bool
    ensures { result ≡ list_any (λ one. bytes_eq one.now name.now) names.now }
{
    names.iter().any(|one| one.as_bytes() == name)
}

// Whether the package is asked about where these names are: it has one of them, or there are none.
fn is_asked(names: &[&str], entry: &IndexEntry<'_>) -> bool
    ensures { result ≡ is_asked (map (λ name. name.now) names.now) entry.now }
{
    if names.is_empty() {
        return true;
    }
    has_name(names, entry.name())
}

// The stanzas of the index that are asked about.
fn asked_of<'p, 'a>(
    alloc: Global,
    index: &'p Index<'a>,
    names: &[&str],
) -> Result<Vec<Stanza<'p, 'a>>, AllocError>
    ensures { IfOk result
        (λ asked. asked.items
        ≡ filter (is_asked (map (λ name. name.now) names.now)) index.now.index.listed) }
{
    let mut asked = Vec::new(alloc);
    for entry in index.packages() {
        if is_asked(names, entry) {
            asked.push(Stanza { entry })?;
        }
    }
    Ok(asked)
}

// The stanzas of the indices that are asked about, those of the earlier index first.
fn asked_of_all<'p, 'a>(
    alloc: Global,
    indices: &'p [Index<'a>],
    names: &[&str],
) -> Result<Vec<Stanza<'p, 'a>>, AllocError>
    ensures { IfOk result (λ asked. asked.items
        ≡ filter (is_asked (map (λ name. name.now) names.now))
        (all_listed (indices_of indices.now))) }
{
    let mut asked = Vec::new(alloc);
    for index in indices {
        let mut further = asked_of(alloc, index, names)?;
        asked.append(&mut further)?;
    }
    Ok(asked)
}

// The stanzas in their order, of those of one version the earliest alone.
fn in_order<'p, 'a>(stanzas: Vec<Stanza<'p, 'a>>) -> Result<Vec<Stanza<'p, 'a>>, AllocError>
    ensures { IfOk result (λ ordered. IsOrdered stanzas.entry.items ordered.items) }
{
    let mut ordered = stanzas;
    // The sort is stable, so of equal stanzas the earliest stays in front.
    ordered.sort()?;
    ordered.dedup();
    Ok(ordered)
}

/// The stanzas that are asked about where these names are, by name and version, of those of one version the earliest alone. One look at the
/// names for each stanza, and about n log n comparisons of the n that are asked about. Memory alone can fail.
pub(crate) fn stanzas_asked<'p, 'a>(
    alloc: Global,
    indices: &'p [Index<'a>],
    names: &[&str],
) -> Result<Vec<Stanza<'p, 'a>>, AllocError>
    ensures { IfOk result (λ ordered.
        IsOrdered (filter (is_asked (map (λ name. name.now) names.now))
        (all_listed (indices_of indices.now))) ordered.items) }
{
    let stanzas = asked_of_all(alloc, indices, names)?;
    let ordered = in_order(stanzas)?;
    Ok(ordered)
}

impl PartialEq for Stanza<'_, '_> {
    ghost eq = { eq_by_cmp listed_cmp };

    ghost laws = { partial_equiv_from_equiv (eq_by_cmp_equiv listed_cmp_total) };

    fn eq(&self, other: &Self) -> bool {
        self.cmp(other) == Ordering::Equal
    }
}

impl Eq for Stanza<'_, '_> {
    ghost laws = { eq_by_cmp_equiv listed_cmp_total };
}

impl PartialOrd for Stanza<'_, '_> {
    ghost partial_cmp = { as_partial_cmp listed_cmp };

    ghost laws = { po listed_cmp_total (λ stanza other. refl) };

    fn partial_cmp(&self, other: &Self) -> Option<Ordering> {
        Some(self.cmp(other))
    }
}

impl Ord for Stanza<'_, '_> {
    ghost cmp = { listed_cmp };

    ghost total = { listed_cmp_total };

    ghost matches_partial_cmp = { λ stanza other. refl };

    ghost matches_eq = { λ stanza other. refl };

    fn cmp(&self, other: &Self) -> Ordering {
        match name_cmp(self.name(), other.name()) {
            Ordering::Equal => self.version().cmp(&other.version()),
            decided => decided,
        }
    }
}
