//! The stanzas that the steps of a plan unpack.
ghost use Rattle.std.specs.Prelude.{◌≡◌, IfOk};
ghost use Rattle.std.specs.List.Sorted.{IsPermutation};
ghost use Rattle.std.specs.Option.{option_copied};
ghost use Rattle.rules.specs.Universe.{listed_for};
ghost use Rattle.unpack_texts.specs.Wanted.{AreWanted};

use debversion::Version;
use index::IndexEntry;
use rules::Step;
use std::alloc::{AllocError, Global};
use std::marker::Model;
use universe::Universe;

/// A stanza of an index that a step unpacks, and the place of the step, counted from 0. The stanza is lent.
#[derive(Drop)]
pub struct Wanted<'p, 'a> {
    pub(crate) step: usize,
    pub(crate) entry: &'p IndexEntry<'a>,
}

impl<'p, 'a> Model for Wanted<'p, 'a> {
    ghost use Rattle.unpack_texts.specs.Wanted.{WantedStanza};

    ghost Value = { WantedStanza };

    ghost view = { λ w. record { step = w.step; listed = w.entry.now } };
}

impl<'p, 'a> Wanted<'p, 'a> {
    // The stanza that the step at this place unpacks.
    pub(crate) fn new(step: usize, entry: &'p IndexEntry<'a>) -> Wanted<'p, 'a>
        ensures { result ≡ record { step = step; listed = entry.now } }
    {
        Wanted { step, entry }
    }

    // The place of the step.
    pub(crate) fn step(&self) -> usize
        ensures { result ≡ self.now.step }
    {
        self.step
    }

    // The package of the stanza.
    pub(crate) fn entry(&self) -> &'p IndexEntry<'a>
        ensures { result.now ≡ self.now.listed }
    {
        self.entry
    }

    // The number of the index.
    pub(crate) fn index(&self) -> usize
        ensures { result ≡ self.now.listed.place.index }
    {
        self.entry.place().index
    }

    // The number of the stanza in its index.
    pub(crate) fn stanza(&self) -> usize
        ensures { result ≡ self.now.listed.place.stanza }
    {
        self.entry.place().stanza
    }
}

// The stanza that the step unpacks, if it unpacks one. A binary search.
fn listed_for<'p, 'a>(universe: &Universe<'p, 'a>, step: &Step) -> Option<&'p IndexEntry<'a>>
    ensures { option_copied result ≡ listed_for universe.now step.now }
{
    match step {
        Step::Unpack(name, version) => match Version::parse(version.as_bytes()) {
            Ok(version) => universe.listed_of(name.as_bytes(), &version),
            Err(_) => unreachable!(),
        },
        Step::Deconfigure(_) | Step::Configure(_) | Step::Remove(_) | Step::Purge(_) => None,
    }
}

/// The stanzas that the steps unpack, in the order of the steps. Memory alone can fail.
pub(crate) fn wanted_by<'p, 'a>(
    alloc: Global,
    universe: &Universe<'p, 'a>,
    steps: &[Step],
) -> Result<Vec<Wanted<'p, 'a>>, AllocError>
    ensures { IfOk result (λ wanted. AreWanted universe.now steps.now wanted.items) }
{
    let mut wanted = Vec::new(alloc);
    for i in 0..steps.len() {
        match listed_for(universe, &steps[i]) {
            Some(entry) => wanted.push(Wanted::new(i, entry))?,
            None => {}
        }
    }
    Ok(wanted)
}

/// The same stanzas, those of one index together and those of the earlier index first. Memory alone can fail.
pub(crate) fn by_index<'p, 'a>(
    wanted: Vec<Wanted<'p, 'a>>,
) -> Result<Vec<Wanted<'p, 'a>>, AllocError>
    ensures { IfOk result (λ ordered. IsPermutation wanted.entry.items ordered.items) }
{
    let mut ordered = wanted;
    ordered.sort_by_key(|one| one.index())?;
    Ok(ordered)
}
