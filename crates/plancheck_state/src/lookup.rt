//! The records of a database, found by the names that they have or provide.
ghost use Rattle.std.specs.Prelude.{◌≡◌, ◌++◌, ◌∷◌, [], None, true, false, not, IfOk, MatchOption, OnErr, OnOk};
ghost use Rattle.std.specs.List.{All, filter, list_any};
ghost use Rattle.rules.specs.Database.{HasDistinctNames, IsPresent};
ghost use Rattle.rules.specs.Step.{after_unpack, changed, configured, deconfigured, is_among, is_named, removed, unpacked_over, unpacked_with};
ghost use Rattle.plancheck_state.specs.Holders.{AreHolders, AreListed, IsPlaceOf, is_named_at, places_in};

use crate::holder::Holders;
use crate::package_record::StateRecord;
use crate::places::Places;
use crate::step::is_named;
use index::IndexPackage;
use rules::Name;
use std::alloc::{AllocError, Global};
use std::marker::Model;

/// The records of a database, and for each name the places of those that have or provide it.
#[derive(Drop)]
pub struct Records<'p, 'a> {
    records: Vec<StateRecord<'p, 'a>>,
    places: Places<'a>,
}

impl<'p, 'a> Model for Records<'p, 'a> {
    ghost use Rattle.std.specs.Prelude.{List};
    ghost use Rattle.rules.specs.Database.{Record};
    ghost use Rattle.plancheck_state.specs.Holders.{AreListed, places_in};

    ghost Value = { List Record };

    ghost view = { λ r. r.records.items };

    ghost invariant = { λ r. AreListed (places_in r.places) r.records.items };
}

// The places of these records.
fn places_of<'a>(alloc: Global, records: &[StateRecord<'_, 'a>]) -> Result<Places<'a>, AllocError>
    ensures { IfOk result (λ places. AreListed (places_in places) records.now) }
{
    let mut places = Places::new(alloc);
    for (place, entry) in records.iter().enumerate() {
        places.enter(entry.name(), entry.provides(), place)?;
    }
    Ok(places)
}

// Whether the record at the place is of the name.
fn is_named_at(records: &[StateRecord<'_, '_>], place: usize, name: &[u8]) -> bool
    ensures { result ≡ is_named_at name.now records.now place }
{
    match records.get(place) {
        Some(entry) => is_named(name, entry),
        None => false,
    }
}

// The first of the places at which a record of the name stands.
fn place_among(records: &[StateRecord<'_, '_>], places: &[usize], name: &[u8]) -> Option<usize>
    ensures { MatchOption result
        (All (λ place. is_named_at name.now records.now place ≡ false) places.now)
        (IsPlaceOf name.now records.now) }
{
    for place in places {
        if is_named_at(records, *place, name) {
            return Some(*place);
        }
    }
    None
}

impl<'p, 'a> Records<'p, 'a> {
    /// These records. Memory alone can fail. Linear in the records and what they provide, with a look-up for each.
    pub fn new(
        alloc: Global,
        records: Vec<StateRecord<'p, 'a>>,
    ) -> Result<Records<'p, 'a>, AllocError>
        ensures { IfOk result (λ made. made ≡ records.entry.items) }
    {
        let places = places_of(alloc, records.as_slice())?;
        Ok(Records { records, places })
    }

    /// The records, in their order.
    pub fn as_slice(&self) -> &[StateRecord<'p, 'a>]
        ensures { result.now ≡ self.now }
    {
        self.records.as_slice()
    }

    /// Each record that has the name or whose package provides it (Policy 7.5), and maybe others. Takes no memory.
    pub fn holders(&self, name: &[u8]) -> Holders<'_, 'p, 'a>
        ensures { AreHolders name.now self.now result }
    {
        Holders::new(self.records.as_slice(), self.places.of(name))
    }

    // The place of the record of the name, if there is one.
    fn place_of(&self, name: &[u8]) -> Option<usize>
        ensures { MatchOption result (list_any (is_named name.now) self.now ≡ false)
            (IsPlaceOf name.now self.now) }
    {
        place_among(self.records.as_slice(), self.places.of(name), name)
    }

    /// Configures the package of the name. Linear in the records that have or provide the name.
    fn configure_one(&mut self, name: &[u8])
        requires distinct { HasDistinctNames self.old }
        requires present { All
            (λ entry. is_named name.now entry ≡ true → IsPresent entry) self.old }
        ensures { self.new ≡ changed (is_named name.now) configured self.old }
    {
        match self.place_of(name) {
            Some(place) => self.records[place] = self.records[place].after_configure(),
            None => {}
        }
    }

    /// Configures the packages of these names. For each linear in the records that have or provide it.
    pub fn configure(&mut self, names: &[Name])
        requires distinct { HasDistinctNames self.old }
        requires present { All
            (λ entry. is_among names.now entry ≡ true → IsPresent entry) self.old }
        ensures { self.new ≡ changed (is_among names.now) configured self.old }
    {
        for name in names {
            self.configure_one(name.as_bytes());
        }
    }

    /// Deconfigures the package of the name. Linear in the records that have or provide the name.
    pub fn deconfigure(&mut self, name: &[u8])
        requires distinct { HasDistinctNames self.old }
        requires present { All
            (λ entry. is_named name.now entry ≡ true → IsPresent entry) self.old }
        ensures { self.new ≡ changed (is_named name.now) deconfigured self.old }
    {
        match self.place_of(name) {
            Some(place) => self.records[place] = self.records[place].after_deconfigure(),
            None => {}
        }
    }

    /// Removes the package of the name: its record says that configuration files alone are left. Linear in the records
    /// that have or provide the name.
    pub fn remove(&mut self, name: &[u8])
        requires distinct { HasDistinctNames self.old }
        requires present { All
            (λ entry. is_named name.now entry ≡ true → IsPresent entry) self.old }
        ensures { self.new ≡ changed (is_named name.now) removed self.old }
    {
        match self.place_of(name) {
            Some(place) => self.records[place] = self.records[place].after_remove(),
            None => {}
        }
    }

    // Unpacks the package over the record at the place.
    fn unpack_at(&mut self, place: usize, listed: &'p IndexPackage<'a>) -> Result<(), AllocError>
        requires place { IsPlaceOf listed.now.pkg.name self.old place }
        requires distinct { HasDistinctNames self.old }
        ensures ok { OnOk result
            (self.new ≡ changed (is_named listed.now.pkg.name)
            (unpacked_over listed.now) self.old) }
        ensures err { OnErr result (self.new ≡ self.old) }
    {
        let pkg = listed.pkg();
        self.places.enter(pkg.name(), pkg.provides(), place)?;
        self.records[place] = self.records[place].unpacked_over(listed);
        Ok(())
    }

    // Unpacks the package behind the other records.
    fn unpack_last(&mut self, listed: &'p IndexPackage<'a>) -> Result<(), AllocError>
        ensures ok { OnOk result (self.new ≡ self.old ++ unpacked_with listed.now None ∷ []) }
        ensures err { OnErr result (self.new ≡ self.old) }
    {
        let pkg = listed.pkg();
        self.places
            .enter(pkg.name(), pkg.provides(), self.records.len())?;
        self.records.push(StateRecord::unpacked_with(listed, None))?;
        Ok(())
    }

    /// Unpacks the package: its record takes the place of the one of its name, or comes last where there is none.
    /// Linear in what it provides and in the records that have or provide its name; for a name that this record is the
    /// first time listed for, in the records that are listed for that name. Memory alone can fail, and then nothing is
    /// changed.
    pub fn unpack(&mut self, listed: &'p IndexPackage<'a>) -> Result<(), AllocError>
        requires { HasDistinctNames self.old }
        ensures ok { OnOk result (self.new ≡ after_unpack listed.now self.old) }
        ensures err { OnErr result (self.new ≡ self.old) }
    {
        match self.place_of(listed.pkg().name()) {
            Some(place) => self.unpack_at(place, listed),
            None => self.unpack_last(listed),
        }
    }

    /// Purges the name: its record is gone. Linear in the records and in what they provide or provided.
    pub fn purge(&mut self, name: &[u8])
        requires { HasDistinctNames self.old }
        ensures { self.new ≡ filter (λ entry. not (is_named name.now entry)) self.old }
    {
        match self.place_of(name) {
            Some(place) => {
                self.records.remove(place);
                self.places.close_gap(place);
            }
            None => {}
        }
    }
}
