// What the database says of a name (dpkg(1)): whether it is installed, and whether configuration files alone are left.

ghost use Rattle.std.specs.Prelude.{◌≡◌, ◌↔◌, IsTrue};
ghost use Rattle.std.specs.List.{Any};
ghost use Rattle.rules.specs.Database.{HasRecord, IsInstalled, IsRemoved};

use plancheck_state::{Holders, Records, StateRecord, is_same};

fn is_installed_name(entry: &StateRecord<'_, '_>, name: &[u8]) -> bool
    ensures { IsTrue result ↔ ((entry.now.name ≡ name.now) × IsInstalled entry.now) }
{
    is_same(entry.name(), name) && entry.state().is_installed()
}

fn some_is_installed(mut holders: Holders<'_, '_, '_>, name: &[u8]) -> bool
    ensures { IsTrue result ↔ HasRecord IsInstalled name.now holders.entry }
{
    holders.any(|entry| is_installed_name(entry, name))
}

/// Whether the name is installed. Linear in the records that have or provide it.
pub(crate) fn is_installed(db: &Records<'_, '_>, name: &[u8]) -> bool
    ensures { IsTrue result ↔ HasRecord IsInstalled name.now db.now }
{
    some_is_installed(db.holders(name), name)
}

fn is_removed_name(entry: &StateRecord<'_, '_>, name: &[u8]) -> bool
    ensures { IsTrue result ↔ ((entry.now.name ≡ name.now) × IsRemoved entry.now) }
{
    is_same(entry.name(), name) && entry.state().is_removed()
}

fn some_is_removed(mut holders: Holders<'_, '_, '_>, name: &[u8]) -> bool
    ensures { IsTrue result ↔ HasRecord IsRemoved name.now holders.entry }
{
    holders.any(|entry| is_removed_name(entry, name))
}

/// Whether configuration files alone are left of the name. Linear in the records that have or provide it.
pub(crate) fn is_removed(db: &Records<'_, '_>, name: &[u8]) -> bool
    ensures { IsTrue result ↔ HasRecord IsRemoved name.now db.now }
{
    some_is_removed(db.holders(name), name)
}
