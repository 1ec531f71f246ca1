//! What is admitted where no goal asks for a version, lent to the goals that ask for no other.
ghost use Rattle.std.specs.Prelude.{◌≡◌, ◌<◌, ◌≤◌, IfErr, IfOk, List, false, length, map, true};
ghost use Rattle.pins.specs.Prefs.{Preferences};
ghost use Rattle.rules.specs.Available.{Index as IndexValue};
ghost use Rattle.rules.specs.Database.{HasDistinctNames, Record as RecordValue};
ghost use Rattle.rules.specs.FileRecord.{records_of};
ghost use Rattle.universe_build.specs.Build.{indices_of};
ghost use Rattle.universe_build.specs.Error.{IsBuilt, IsUniverseFault, most_pairs};
ghost use Rattle.universe_build.specs.Listing.{IsListing, are_among, is_among};

use crate::asked::exact_of;
use crate::built::{facts_of, first_unknown, goals_of, share};
use crate::error::UniverseError;
use crate::walk::pairs_and_candidates;
use candidates::{NameTable, records_in};
use index::Index;
use pins::Prefs;
use rules::{Goal, GoalLine, PAIRS};
use status_text::StatusRecord;
use std::alloc::{AllocError, Global};
use std::marker::Model;
use std::rc::Rc;
use universe::{Admitted, Candidates, Pairs, Universe};

/// The names of the start and of the indices, and what is admitted of them where there is no goal. It is made once, and lent to
/// each request whose goals ask with `=` for versions alone that are admitted without them.
#[derive(Drop)]
pub struct Listing<'s, 'p, 'a> {
    names: NameTable<'s, 'p, 'a>,
    admitted: Rc<Admitted<'p, 'a>>,
    asks_all_versions: bool,
}

impl<'s, 'p, 'a> Model for Listing<'s, 'p, 'a> {
    ghost use Rattle.universe_build.specs.Listing.{Listing as ListingValue};

    ghost Value = { ListingValue };

    ghost view = { λ l. record { names = l.names; admitted = l.admitted.value; asks_all_versions = l.asks_all_versions } };
}

// Whether the version that the goal asks for with `=` is that of a pair, if it asks for one. A binary search.
fn is_among(pairs: &Pairs<'_, '_>, goal: &Goal) -> bool
    ensures { result ≡ is_among pairs.now goal.now }
{
    match exact_of(goal) {
        None => true,
        Some(exact) => exact.is_among(pairs),
    }
}

// Whether there are more pairs than are admitted.
fn is_too_large(admitted: &Admitted<'_, '_>) -> bool
    ensures beyond { result ≡ true → most_pairs < length admitted.now.pairs }
    ensures bounded { result ≡ false → length admitted.now.pairs ≤ most_pairs }
{
    admitted.pairs().as_slice().len() > PAIRS
}

impl<'s, 'p, 'a> Listing<'s, 'p, 'a> {
    // What is admitted, shared.
    fn share(&self) -> Result<Rc<Admitted<'p, 'a>>, AllocError>
        ensures { IfOk result (λ admitted. admitted.value ≡ self.now.admitted) }
    {
        self.admitted.clone()
    }

    /// What is admitted over the records of the start and the indices by these preferences, for all versions or not. Memory
    /// alone can fail. It costs what `build` does, and `Providers::of_pairs`.
    pub fn new(
        alloc: Global,
        start: &[&'s StatusRecord<'a>],
        indices: &'p [Index<'a>],
        prefs: &Prefs,
        asks_all_versions: bool,
    ) -> Result<Listing<'s, 'p, 'a>, AllocError>
        requires { HasDistinctNames (records_of (map (λ r. r.now) start.now)) }
        ensures listing { IfOk result
            (IsListing (records_of (map (λ r. r.now) start.now))
            (indices_of indices.now) prefs.now) }
        ensures all { IfOk result (λ listing. listing.asks_all_versions ≡ asks_all_versions) }
    {
        let recorded = records_in(alloc, start)?;
        let starts = facts_of(alloc, recorded.as_slice())?;
        let names = NameTable::new(alloc, recorded, indices)?;
        let (pairs, candidates) = pairs_and_candidates(
            alloc,
            &names,
            prefs,
            &[],
            asks_all_versions,
        )?;
        let admitted = share(
            alloc,
            Pairs::new(pairs),
            starts,
            Candidates::new(candidates),
        )?;
        Ok(Listing {
            names,
            admitted,
            asks_all_versions,
        })
    }

    /// Whether it is for all versions.
    pub fn asks_all_versions(&self) -> bool
        ensures { result ≡ self.now.asks_all_versions }
    {
        self.asks_all_versions
    }

    /// Whether the goals of the lines ask with `=` for versions alone that are admitted without them. A binary search for each.
    pub fn covers(&self, lines: &[GoalLine]) -> bool
        ensures { result ≡ are_among self.now.admitted.pairs lines.now }
    {
        let pairs = self.admitted.as_ref().pairs();
        lines.iter().all(|asked| is_among(pairs, &asked.goal))
    }

    /// The universe of goals that are covered, over the same start, indices and preferences, for all versions or not as the listing
    /// is. It is refused as `build` refuses it. Each goal costs a binary search among the stanzas and one among the records.
    pub fn universe(
        &self,
        alloc: Global,
        goals: Vec<GoalLine>,
    ) -> Result<Universe<'p, 'a>, UniverseError>
        requires { are_among self.now.admitted.pairs goals.items ≡ true }
        ensures ok { (start : List RecordValue) (indices : List IndexValue) (prefs : Preferences)
            → IsListing start indices prefs self.now
            → IfOk result (IsBuilt start indices prefs goals.items self.now.asks_all_versions) }
        ensures err { (start : List RecordValue) (indices : List IndexValue) (prefs : Preferences)
            → IsListing start indices prefs self.now
            → IfErr result
            (IsUniverseFault start indices prefs goals.items self.now.asks_all_versions) }
    {
        if let Some(line) = first_unknown(&self.names, goals.as_slice()) {
            return Err(UniverseError::UnknownName(line));
        }
        if is_too_large(self.admitted.as_ref()) {
            return Err(UniverseError::TooLarge);
        }
        let goals = goals_of(alloc, goals)?;
        Ok(Universe::new(self.share()?, goals))
    }
}
