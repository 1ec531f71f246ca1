// The least name that is unfinished, discontent or lost, in one pass each.

ghost use Rattle.std.specs.Prelude.{◌≡◌, ◌↔◌, IsTrue};
ghost use Rattle.std.specs.Option.{option_copied};
ghost use Rattle.rules.specs.Database.{IsInstalled, IsUnfinished, installed_of, pkg_of};
ghost use Rattle.rules.specs.Sound.{HasItsRelations, KeepsEssential};
ghost use Rattle.plancheck_end.specs.Least.{IsLeastWithout, least_with, lesser};

use crate::content::is_content;
use plancheck_state::{Records, StateRecord, has_member};
use std::cmp::Ordering;
use universe::Start;

fn lesser<'n>(name: &'n [u8], least: &'n [u8]) -> &'n [u8]
    ensures { result.now ≡ lesser name.now least.now }
{
    match name.cmp(least) {
        Ordering::Less => name,
        _ => least,
    }
}

// The least name with that of one more item, which doesn't count where the item is fine.
fn least_with<'n>(least: Option<&'n [u8]>, is_fine: bool, name: &'n [u8]) -> Option<&'n [u8]>
    ensures { option_copied result ≡ least_with (option_copied least.entry) is_fine name.now }
{
    match least {
        _ if is_fine => least,
        None => Some(name),
        Some(least) => Some(lesser(name, least)),
    }
}

fn is_finished(entry: &StateRecord<'_, '_>) -> bool
    ensures { IsTrue result ↔ (¬ IsUnfinished entry.now) }
{
    !entry.is_unfinished()
}

/// The least name that is half-installed, unconfigured or to be installed again, if there is one.
/// Linear in the records.
pub fn least_unfinished<'a>(db: &Records<'_, 'a>) -> Option<&'a [u8]>
    ensures { IsLeastWithout (λ entry. ¬ IsUnfinished entry) (λ entry. entry.name) db.now
        (option_copied result) }
{
    let records = db.as_slice();
    let mut least = None;
    for entry in records {
        least = least_with(least, is_finished(entry), entry.name());
    }
    least
}

// Whether the record isn't installed or its package is content.
fn is_settled(db: &Records<'_, '_>, entry: &StateRecord<'_, '_>) -> bool
    ensures { IsTrue result
        ↔ (IsInstalled entry.now → HasItsRelations (installed_of db.now) (pkg_of entry.now)) }
{
    match entry.present_pkg() {
        Some(here) if entry.state().is_installed() => is_content(db, here),
        _ => true,
    }
}

/// The least name of an installed package that has an unmet clause, or that conflicts with or breaks another, if
/// there is one. For each atom of an installed package linear in the records that have or provide its name.
pub fn least_discontent<'a>(db: &Records<'_, 'a>) -> Option<&'a [u8]>
    ensures { IsLeastWithout
        (λ entry. IsInstalled entry → HasItsRelations (installed_of db.now) (pkg_of entry))
        (λ entry. entry.name) db.now (option_copied result) }
{
    let records = db.as_slice();
    let mut least = None;
    for entry in records {
        least = least_with(least, is_settled(db, entry), entry.name());
    }
    least
}

// Whether the name is installed, if it is essential and was present at the start.
#[tactic(auto, unfolding(rules::specs::Sound::KeepsEssential))]
fn keeps_essential(db: &Records<'_, '_>, start: &Start<'_>) -> bool
    ensures { IsTrue result ↔ KeepsEssential (installed_of db.now) start.now }
{
    !start.is_essential() || !start.is_present() || has_member(db, start.name())
}

/// The least essential name that was present at the start and isn't installed, if there is one. For each name of
/// the start linear in the records that have or provide it.
pub fn least_lost<'a>(db: &Records<'_, '_>, starts: &[Start<'a>]) -> Option<&'a [u8]>
    ensures { IsLeastWithout (KeepsEssential (installed_of db.now)) (λ start. start.name) starts.now
        (option_copied result) }
{
    let mut least = None;
    for start in starts {
        least = least_with(least, keeps_essential(db, start), start.name());
    }
    least
}
