// What the database says of a name (dpkg(1)): whether it is held, and the version in which it stands.

ghost use Rattle.std.specs.Prelude.{◌≡◌, ◌↔◌, IsTrue};
ghost use Rattle.std.specs.List.{Any};
ghost use Rattle.rules.specs.Database.{HasRecord, IsHeld, Stands};
ghost use Rattle.rules.specs.Legal.{IsNotHeld};
ghost use Rattle.rules.specs.Universe.{StandsAs};
ghost use Rattle.rules.specs.Version.{SameVersion};

use debversion::Version;
use plancheck_state::{Holders, Records, StateRecord, is_same};

fn is_held_name(entry: &StateRecord<'_, '_>, name: &[u8]) -> bool
    ensures { IsTrue result ↔ ((entry.now.name ≡ name.now) × IsHeld entry.now) }
{
    is_same(entry.name(), name) && entry.want().is_hold()
}

fn some_is_held(mut holders: Holders<'_, '_, '_>, name: &[u8]) -> bool
    ensures { IsTrue result ↔ HasRecord IsHeld name.now holders.entry }
{
    holders.any(|entry| is_held_name(entry, name))
}

fn has_hold(db: &Records<'_, '_>, name: &[u8]) -> bool
    ensures { IsTrue result ↔ HasRecord IsHeld name.now db.now }
{
    some_is_held(db.holders(name), name)
}

/// Whether the name isn't held. Linear in the records that have or provide the name.
#[tactic(auto, unfolding(rules::specs::Legal::IsNotHeld))]
pub fn is_not_held(db: &Records<'_, '_>, name: &[u8]) -> bool
    ensures { IsTrue result ↔ IsNotHeld db.now name.now }
{
    !has_hold(db, name)
}

// Whether the package of the record has this version.
fn is_version(entry: &StateRecord<'_, '_>, version: &Version<'_>) -> bool
    ensures { IsTrue result ↔ (Stands entry.now × SameVersion entry.now.version version.now) }
{
    match entry.present_pkg() {
        Some(there) => entry.stands() && there.version() == version,
        None => false,
    }
}

fn is_named_version(entry: &StateRecord<'_, '_>, name: &[u8], version: &Version<'_>) -> bool
    ensures { IsTrue result
        ↔ ((entry.now.name ≡ name.now)
        × (Stands entry.now × SameVersion entry.now.version version.now)) }
{
    is_same(entry.name(), name) && is_version(entry, version)
}

fn some_stands_as(mut holders: Holders<'_, '_, '_>, name: &[u8], version: &Version<'_>) -> bool
    ensures { IsTrue result
        ↔ HasRecord (λ entry. Stands entry
        × SameVersion entry.version version.now) name.now holders.entry }
{
    holders.any(|entry| is_named_version(entry, name, version))
}

/// Whether the name stands in this version. Linear in the records that have or provide the name.
pub fn stands_as(db: &Records<'_, '_>, name: &[u8], version: &Version<'_>) -> bool
    ensures { IsTrue result ↔ StandsAs db.now name.now version.now }
{
    some_stands_as(db.holders(name), name, version)
}
