// Who has or provides a name, among the pairs and in the indices.

ghost use Rattle.std.specs.Prelude.{
  ◌≡◌,
  ◌↔◌,
  ◌⊎◌,
  ◌+◌,
  ◌++◌,
  ◌∷◌,
  [],
  ℕ,
  IfOk,
  IsTrue,
  List,
  OnOk,
  Some,
  bytes_eq,
  slice_get,
};
ghost use Rattle.std.specs.List.{Any, Contains, list_any};
ghost use Rattle.std.specs.Option.{option_copied, option_map};
ghost use Rattle.input_notes.specs.Absent as Absent;
ghost use Rattle.input_notes.specs.Inputs.{stanzas_of};
ghost use Rattle.rules.specs.Package.{FitsByName, FitsByProvides, FitsProvided};
ghost use Rattle.rules.specs.Step.{IndexPackage};
ghost use Rattle.universe_parts.specs.Parts.{packages_of};
ghost use Rattle.refutation_sentences.specs.Offers as Spec;

use crate::context::Context;
use crate::wanted::Wanted;
use index::{Index, IndexEntry};
use relation::Provided;
use std::alloc::AllocError;
use universe::{CountingProvides, Pair};

/// What a package may have to do with a name.
#[derive(Clone, Copy)]
pub(crate) enum By {
    /// It has the name.
    Name,
    /// It provides the name, whatever the version.
    Provides,
}

/// Which packages of the indices count.
#[derive(Clone, Copy)]
pub(crate) enum Among {
    /// All that fit.
    All,
    /// Those that fit and aren't admitted.
    LeftOut,
}

// Whether the names are equal.
fn is_same(name: &[u8], other: &[u8]) -> bool
    ensures { IsTrue result ↔ (name.now ≡ other.now) }
{
    name == other
}

/// Whether there are no numbers.
pub(crate) fn is_none(numbers: &[u32]) -> bool
    ensures { IsTrue result ↔ (numbers.now ≡ []) }
{
    numbers.is_empty()
}

// Whether the item provides what is wanted.
#[tactic(auto, unfolding(rules::specs::Package::FitsProvided))]
fn is_fitting(item: &Provided<'_>, wanted: &Wanted<'_>) -> bool
    ensures { IsTrue result ↔ FitsProvided item.now wanted.now }
{
    !item.is_foreign()
        && is_same(item.name(), wanted.name())
        && wanted.is_met_as_provided(item.version())
}

// Whether an item provides what is wanted.
fn has_wanted(items: &[Provided<'_>], wanted: &Wanted<'_>) -> bool
    ensures { IsTrue result ↔ Any (λ item. FitsProvided item wanted.now) items.now }
{
    for item in items {
        if is_fitting(item, wanted) {
            return true;
        }
    }
    false
}

// Whether the package of the stanza fits by its own name and version.
#[tactic(auto, unfolding(rules::specs::Package::FitsByName))]
fn fits(stanza: &IndexEntry<'_>, wanted: &Wanted<'_>) -> bool
    ensures { IsTrue result ↔ FitsByName stanza.now.pkg wanted.now }
{
    is_same(stanza.name(), wanted.name()) && wanted.is_met_by(&stanza.version())
}

// The stanza, unless the version of the one before isn't lower.
fn higher_of<'k, 'i>(
    stanza: &'k IndexEntry<'i>,
    before: Option<&'k IndexEntry<'i>>,
) -> &'k IndexEntry<'i>
    ensures { result.now ≡ Spec.higher_of stanza.now (option_copied before.entry) }
{
    match before {
        None => stanza,
        Some(highest) => {
            if highest.version() < stanza.version() {
                stanza
            } else {
                highest
            }
        }
    }
}

// The stanza, unless the one before is of another name or not lower.
fn first_of<'k, 'i>(
    stanza: &'k IndexEntry<'i>,
    before: Option<&'k IndexEntry<'i>>,
) -> &'k IndexEntry<'i>
    ensures { (result.now ≡ stanza.now) ⊎ (option_copied before.entry ≡ Some result.now) }
{
    match before {
        None => stanza,
        Some(first) => {
            if is_same(first.name(), stanza.name()) && first.version() < stanza.version() {
                stanza
            } else {
                first
            }
        }
    }
}

// The number of the pair at this place, counted from 0. One that has no 32 bits is want of memory: no pair of premises has such a one.
fn number_of(place: usize) -> Result<u32, AllocError>
    ensures { IfOk result (λ number. number ≡ place + 1) }
{
    match u32::try_from(place) {
        Err(_) => Err(AllocError),
        Ok(place) => match place.checked_add(1) {
            None => Err(AllocError),
            Some(number) => Ok(number),
        },
    }
}

// Whether a stanza of the index is of the name.
fn has_name(index: &Index<'_>, name: &[u8]) -> bool
    ensures { result
        ≡ list_any (λ listed. bytes_eq listed.pkg.name name.now) index.now.index.listed }
{
    index.packages().iter().any(|stanza| stanza.name() == name)
}

/// Whether a stanza of the indices is of the name. Linear in the stanzas.
pub(crate) fn is_listed(indices: &[Index<'_>], name: &[u8]) -> bool
    ensures { result ≡ Absent.is_listed indices.now name.now }
{
    indices.iter().any(|index| has_name(index, name))
}

impl<'k, 'u, 'p, 'a, 'i> Context<'k, 'u, 'p, 'a, 'i> {
    // Whether the package of the pair provides what is wanted.
    #[tactic(auto, unfolding(rules::specs::Package::FitsByProvides))]
    fn is_provider(&self, pair: &Pair<'_, '_>, wanted: &Wanted<'_>) -> Result<bool, AllocError>
        ensures { IfOk result (λ provides. IsTrue provides
            ↔ FitsByProvides pair.now.pkg wanted.now) }
    {
        let provides = CountingProvides::of_pair(self.alloc(), pair)?;
        Ok(has_wanted(provides.items(), wanted))
    }

    // Whether the package of the pair has or provides the name.
    fn is_by(&self, pair: &Pair<'_, '_>, by: By, name: &[u8]) -> Result<bool, AllocError>
        ensures { IfOk result (λ is. IsTrue is ↔ Spec.IsBy by name.now pair.now.pkg) }
    {
        match by {
            By::Name => Ok(is_same(pair.name(), name)),
            By::Provides => self.is_provider(pair, &Wanted::of_name(name)),
        }
    }

    // The pair at this place, counted from 0.
    fn pair_in(&self, place: usize) -> Option<&'u Pair<'p, 'a>>
        ensures { option_map (λ pair. pair.now.pkg) result
            ≡ slice_get (packages_of self.now.premises.now.pairs) place }
    {
        self.universe().pairs().get(place)
    }

    // Puts the number of the pair at this place behind the others, if its package has or provides the name.
    fn push_place(
        &self,
        numbers: &mut Vec<u32>,
        place: usize,
        by: By,
        name: &[u8],
    ) -> Result<(), AllocError>
        ensures { OnOk result
            ((number : ℕ) → Contains numbers.new.items number
            ↔ (Contains numbers.old.items number
            ⊎ Spec.IsNumberAt (packages_of self.now.premises.now.pairs)
            (Spec.IsBy by name.now) place number)) }
    {
        match self.pair_in(place) {
            None => Ok(()),
            Some(pair) => {
                let named = self.is_by(pair, by, name)?;
                if !named {
                    return Ok(());
                }
                numbers.push(number_of(place)?)?;
                Ok(())
            }
        }
    }

    // Puts the numbers of the pairs at these places behind the others whose packages have or provide the name.
    fn push_places(
        &self,
        numbers: &mut Vec<u32>,
        places: &[usize],
        by: By,
        name: &[u8],
    ) -> Result<(), AllocError>
        ensures { OnOk result
            ((number : ℕ) → Contains numbers.new.items number
            ↔ (Contains numbers.old.items number
            ⊎ Any (λ place.
            Spec.IsNumberAt (packages_of self.now.premises.now.pairs)
            (Spec.IsBy by name.now) place number) places.now)) }
    {
        for place in places {
            self.push_place(numbers, *place, by, name)?;
        }
        Ok(())
    }

    /// The numbers of the pairs whose packages have the name, or provide it. Memory alone can fail. Linear in the pairs that have or
    /// provide it, and in what they provide.
    pub(crate) fn numbers_by(&self, by: By, name: &[u8]) -> Result<Vec<u32>, AllocError>
        ensures { IfOk result
            (λ numbers. Spec.AreNumbersOf self.now.premises.now (Spec.IsBy by name.now)
            numbers.items) }
    {
        let mut numbers = Vec::new(self.alloc());
        let places = self.universe().providers().of(self.alloc(), name)?;
        self.push_places(&mut numbers, places.as_slice(), by, name)?;
        Ok(numbers)
    }

    // Whether the package of the stanza isn't admitted.
    fn is_left_out(&self, stanza: &IndexEntry<'_>) -> bool
        ensures { IsTrue result ↔ Spec.IsLeftOut self.now.premises.now stanza.now.pkg }
    {
        match self.universe().number_of(stanza.name(), &stanza.version()) {
            None => true,
            Some(_) => false,
        }
    }

    // Whether the package of the stanza fits by its own name and version, and is one that counts.
    fn is_counted(&self, stanza: &IndexEntry<'_>, wanted: &Wanted<'_>, among: Among) -> bool
        ensures { IsTrue result
            ↔ Spec.IsCounted self.now.premises.now among wanted.now stanza.now.pkg }
    {
        match among {
            Among::All => fits(stanza, wanted),
            Among::LeftOut => fits(stanza, wanted) && self.is_left_out(stanza),
        }
    }

    // Whether the package of the stanza provides what is wanted, and isn't admitted.
    #[tactic(auto, unfolding(rules::specs::Package::FitsByProvides))]
    fn is_elsewhere(&self, stanza: &IndexEntry<'_>, wanted: &Wanted<'_>) -> Result<bool, AllocError>
        ensures { IfOk result
            (λ is. IsTrue is
            ↔ Spec.IsLeftOutProvider self.now.premises.now wanted.now stanza.now.pkg) }
    {
        let items = stanza.provides(self.alloc())?;
        Ok(has_wanted(items.as_slice(), wanted) && self.is_left_out(stanza))
    }

    // What is found among the earlier stanzas and this one, where that was first before.
    fn elsewhere_with(
        &self,
        stanza: &'k IndexEntry<'i>,
        wanted: &Wanted<'_>,
        before: Option<&'k IndexEntry<'i>>,
    ) -> Result<Option<&'k IndexEntry<'i>>, AllocError>
        ensures { IfOk result (λ first. (earlier : List IndexPackage)
            → Spec.IsFoundIn (Spec.IsLeftOutProvider self.now.premises.now wanted.now) earlier
            (option_copied before.entry)
            → Spec.IsFoundIn (Spec.IsLeftOutProvider self.now.premises.now wanted.now)
            (earlier ++ stanza.now ∷ []) (option_copied first)) }
    {
        let here = self.is_elsewhere(stanza, wanted)?;
        if here {
            Ok(Some(first_of(stanza, before)))
        } else {
            Ok(before)
        }
    }

    // What is found among the earlier stanzas and these, where that was first before.
    fn elsewhere_in(
        &self,
        stanzas: &'k [IndexEntry<'i>],
        wanted: &Wanted<'_>,
        before: Option<&'k IndexEntry<'i>>,
    ) -> Result<Option<&'k IndexEntry<'i>>, AllocError>
        ensures { IfOk result (λ first. (earlier : List IndexPackage)
            → Spec.IsFoundIn (Spec.IsLeftOutProvider self.now.premises.now wanted.now) earlier
            (option_copied before.entry)
            → Spec.IsFoundIn (Spec.IsLeftOutProvider self.now.premises.now wanted.now)
            (earlier ++ stanzas.now) (option_copied first)) }
    {
        let mut first = before;
        for stanza in stanzas {
            first = self.elsewhere_with(stanza, wanted, first)?;
        }
        Ok(first)
    }

    /// The first package in the indices that provides what is wanted, in its highest version that does and isn't admitted. Memory
    /// alone can fail. Linear in the stanzas and in what they provide.
    pub(crate) fn elsewhere(
        &self,
        wanted: &Wanted<'_>,
    ) -> Result<Option<&'k IndexEntry<'i>>, AllocError>
        ensures { IfOk result
            (λ first. Spec.IsFoundIn (Spec.IsLeftOutProvider self.now.premises.now wanted.now)
            (stanzas_of self.now.indices.now) (option_copied first)) }
    {
        let mut first = None;
        for index in self.indices {
            first = self.elsewhere_in(index.packages(), wanted, first)?;
        }
        Ok(first)
    }

    // The highest among the earlier stanzas and this one, where that was the highest before.
    fn highest_with(
        &self,
        stanza: &'k IndexEntry<'i>,
        wanted: &Wanted<'_>,
        among: Among,
        before: Option<&'k IndexEntry<'i>>,
    ) -> Option<&'k IndexEntry<'i>>
        ensures { (earlier : List IndexPackage)
            → Spec.IsHighestIn (Spec.IsCounted self.now.premises.now among wanted.now) earlier
            (option_copied before.entry)
            → Spec.IsHighestIn (Spec.IsCounted self.now.premises.now among wanted.now)
            (earlier ++ stanza.now ∷ []) (option_copied result) }
    {
        if self.is_counted(stanza, wanted, among) {
            Some(higher_of(stanza, before))
        } else {
            before
        }
    }

    // The highest among the earlier stanzas and these, where that was the highest before.
    fn highest_in(
        &self,
        stanzas: &'k [IndexEntry<'i>],
        wanted: &Wanted<'_>,
        among: Among,
        before: Option<&'k IndexEntry<'i>>,
    ) -> Option<&'k IndexEntry<'i>>
        ensures { (earlier : List IndexPackage)
            → Spec.IsHighestIn (Spec.IsCounted self.now.premises.now among wanted.now) earlier
            (option_copied before.entry)
            → Spec.IsHighestIn (Spec.IsCounted self.now.premises.now among wanted.now)
            (earlier ++ stanzas.now) (option_copied result) }
    {
        let mut highest = before;
        for stanza in stanzas {
            highest = self.highest_with(stanza, wanted, among, highest);
        }
        highest
    }

    /// The stanza of the highest version in the indices that is of the name, meets the restriction and counts. Linear in the stanzas.
    pub(crate) fn highest(&self, wanted: &Wanted<'_>, among: Among) -> Option<&'k IndexEntry<'i>>
        ensures { Spec.IsHighestIn (Spec.IsCounted self.now.premises.now among wanted.now)
            (stanzas_of self.now.indices.now) (option_copied result) }
    {
        let mut highest = None;
        for index in self.indices {
            highest = self.highest_in(index.packages(), wanted, among, highest);
        }
        highest
    }
}
