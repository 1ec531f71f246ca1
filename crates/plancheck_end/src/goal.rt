// Which goals an end fulfils (after apt-get(8)).

ghost use Rattle.std.specs.Prelude.{◌≡◌, ◌↔◌, IsTrue, MatchOption};
ghost use Rattle.std.specs.List.{All, Any};
ghost use Rattle.std.specs.declared.cmp.Ordering.TheVariants.{Less};
ghost use Rattle.rules.specs.Database.{IsInstalled, installed_of, pkg_of};
ghost use Rattle.rules.specs.Package.{Meets};
ghost use Rattle.rules.specs.Sound.{HasMember, HasVersion, IsKept, IsUpgraded};
ghost use Rattle.rules.specs.State.{is_not_installed_state};
ghost use Rattle.rules.specs.Universe.{candidate_of};
ghost use Rattle.rules.specs.Version.{version_cmp};
ghost use Rattle.plancheck_end.specs.FirstGoal.{IsFirstUnfulfilled, IsFulfilled};

use debversion::Version;
use plancheck_state::{Holders, Records, StateRecord, has_member, has_version, is_same};
use rules::{Goal, Restriction, VersionText};
use universe::{Start, Universe};

// The owned text as a version, which it is.
fn version_of(text: &VersionText) -> Version<'_>
    ensures { result ≡ text.now }
{
    Version::parse(text.as_bytes()).unwrap()
}

// Whether the version meets the restriction, if there is one.
fn meets(version: &Version<'_>, restriction: &Option<Restriction>) -> bool
    ensures { IsTrue result ↔ Meets version.now restriction.now }
{
    match restriction {
        None => true,
        Some(restriction) => version.satisfies(restriction.op, &version_of(&restriction.version)),
    }
}

// Whether the record is installed, of the name, and of a version that meets the restriction.
fn is_asked_for(entry: &StateRecord<'_, '_>, name: &[u8], restriction: &Option<Restriction>) -> bool
    ensures { IsTrue result ↔ (IsInstalled entry.now
        × ((entry.now.name ≡ name.now) × Meets entry.now.version restriction.now)) }
{
    match entry.present_pkg() {
        Some(there) if entry.state().is_installed() => {
            is_same(entry.name(), name) && meets(there.version(), restriction)
        }
        _ => false,
    }
}

fn some_is_asked_for(
    mut holders: Holders<'_, '_, '_>,
    name: &[u8],
    restriction: &Option<Restriction>,
) -> bool
    ensures { IsTrue result ↔ Any (λ entry. IsInstalled entry
        × ((entry.name ≡ name.now) × Meets entry.version restriction.now)) holders.entry }
{
    holders.any(|entry| is_asked_for(entry, name, restriction))
}

// Whether the name is installed in a version that meets the restriction.
fn has_installed(db: &Records<'_, '_>, name: &[u8], restriction: &Option<Restriction>) -> bool
    ensures { IsTrue result
        ↔ Any (λ member. (member.name ≡ name.now) × Meets member.version restriction.now)
        (installed_of db.now) }
{
    some_is_asked_for(db.holders(name), name, restriction)
}

fn is_other_or_gone(entry: &StateRecord<'_, '_>, name: &[u8]) -> bool
    ensures { IsTrue result
        ↔ (entry.now.name ≡ name.now → IsTrue (is_not_installed_state entry.now.state)) }
{
    !is_same(entry.name(), name) || entry.state().is_not_installed()
}

fn are_others_or_gone(mut holders: Holders<'_, '_, '_>, name: &[u8]) -> bool
    ensures { IsTrue result
        ↔ All (λ entry. entry.name ≡ name.now
        → IsTrue (is_not_installed_state entry.state)) holders.entry }
{
    holders.all(|entry| is_other_or_gone(entry, name))
}

// Whether nothing of the name is left, configuration files included.
fn is_gone(db: &Records<'_, '_>, name: &[u8]) -> bool
    ensures { IsTrue result
        ↔ All (λ entry. entry.name ≡ name.now
        → IsTrue (is_not_installed_state entry.state)) db.now }
{
    are_others_or_gone(db.holders(name), name)
}

fn is_purged(db: &Records<'_, '_>, name: &[u8]) -> bool
    ensures { IsTrue result ↔ ((¬ HasMember name.now (installed_of db.now))
        × All (λ entry. entry.name ≡ name.now
        → IsTrue (is_not_installed_state entry.state)) db.now) }
{
    !has_member(db, name) && is_gone(db, name)
}

// Whether the candidate of the name is installed.
fn has_candidate(universe: &Universe<'_, '_>, db: &Records<'_, '_>, name: &[u8]) -> bool
    ensures { IsTrue result ↔ MatchOption (candidate_of universe.now name.now) ⊥
        (λ candidate. HasVersion name.now candidate (installed_of db.now)) }
{
    match universe.candidate(name) {
        None => false,
        Some(candidate) => has_version(db, name, candidate),
    }
}

fn is_behind(version: &Version<'_>, candidate: &Version<'_>) -> bool
    ensures { IsTrue result ↔ (version_cmp version.now candidate.now ≡ Less) }
{
    version.cmp(candidate).is_lt()
}

// Whether the name is upgraded, if it is unheld, stands and has a higher candidate.
#[tactic(auto, unfolding(rules::specs::Sound::IsUpgraded))]
fn is_upgraded(universe: &Universe<'_, '_>, db: &Records<'_, '_>, start: &Start<'_>) -> bool
    ensures { IsTrue result ↔ IsUpgraded universe.now (installed_of db.now) start.now }
{
    match (start.standing(), universe.candidate(start.name())) {
        (Some(standing), Some(candidate)) => {
            start.is_held()
                || !is_behind(standing, candidate)
                || has_version(db, start.name(), candidate)
        }
        _ => true,
    }
}

fn are_upgraded(universe: &Universe<'_, '_>, db: &Records<'_, '_>) -> bool
    ensures { IsTrue result
        ↔ All (IsUpgraded universe.now (installed_of db.now)) universe.now.starts }
{
    universe
        .starts()
        .iter()
        .all(|start| is_upgraded(universe, db, start))
}

// Whether the name, if it stands at the start, is installed.
#[tactic(auto, unfolding(rules::specs::Sound::IsKept))]
fn is_kept(db: &Records<'_, '_>, start: &Start<'_>) -> bool
    ensures { IsTrue result ↔ IsKept (installed_of db.now) start.now }
{
    match start.standing() {
        None => true,
        Some(_) => has_member(db, start.name()),
    }
}

fn are_kept(db: &Records<'_, '_>, starts: &[Start<'_>]) -> bool
    ensures { IsTrue result ↔ All (IsKept (installed_of db.now)) starts.now }
{
    starts.iter().all(|start| is_kept(db, start))
}

/// Whether the installed packages fulfil the goal, and nothing is left of a name that is to be purged. Linear in
/// the records that have or provide the name; for all upgrades and for no removals so for each name of the start,
/// and in its candidates.
pub fn is_fulfilled(universe: &Universe<'_, '_>, db: &Records<'_, '_>, goal: &Goal) -> bool
    ensures { IsTrue result ↔ IsFulfilled universe.now db.now goal.now }
{
    match goal {
        Goal::Install(name, restriction) => has_installed(db, name.as_bytes(), restriction),
        Goal::Remove(name) => !has_member(db, name.as_bytes()),
        Goal::Purge(name) => is_purged(db, name.as_bytes()),
        Goal::Upgrade(name) => has_candidate(universe, db, name.as_bytes()),
        Goal::UpgradeAll => are_upgraded(universe, db),
        Goal::NoRemove => are_kept(db, universe.starts()),
    }
}

/// The number, counted from 1, of the first goal that isn't fulfilled, if there is one.
pub fn first_unfulfilled(universe: &Universe<'_, '_>, db: &Records<'_, '_>) -> Option<usize>
    ensures { MatchOption result (All (IsFulfilled universe.now db.now) universe.now.goals)
        (λ number. IsFirstUnfulfilled universe.now db.now number) }
{
    let goals = universe.goals();
    for place in 0..goals.len() {
        if !is_fulfilled(universe, db, &goals[place]) {
            return Some(place + 1);
        }
    }
    None
}
