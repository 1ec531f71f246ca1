// The first clause of a list that isn't satisfied, isn't met or doesn't manage without a package.

ghost use Rattle.std.specs.Prelude.{◌≡◌, ◌≢◌, ◌↔◌, ◌++◌, true, IsTrue, MatchOption};
ghost use Rattle.std.specs.List.{All, Any, Contains};
ghost use Rattle.rules.specs.Configure.{is_present_among, members_of};
ghost use Rattle.rules.specs.Database.{installed_of, pkg_of};
ghost use Rattle.rules.specs.Package.{MatchesSome, MeetsClause};
ghost use Rattle.rules.specs.Sound.{MeetsClauses};
ghost use Rattle.rules.specs.Step.{is_among};
ghost use Rattle.rules.specs.Unpack.{HasPreDepends, IsSatisfied};
ghost use Rattle.witness.specs.Witness.{HasAt, ManagesWithout};

use plancheck::{is_met_without, is_satisfied};
use plancheck_state::{Records, StateRecord, is_met, matches_some};
use relation::{Clause, Pkg};
use rules::Name;

/// The place of the first clause of the package's Pre-Depends that packages of other names don't satisfy, if there is one.
#[tactic(auto, unfolding(rules::specs::Unpack::HasPreDepends))]
pub(crate) fn first_unsatisfied(db: &Records<'_, '_>, pkg: &Pkg<'_>) -> Option<usize>
    ensures { MatchOption result (HasPreDepends db.now pkg.now)
        (HasAt (λ clause. ¬ IsSatisfied db.now pkg.now.name clause) pkg.now.relations.pre_depends) }
{
    pkg.pre_depends()
        .iter()
        .position(|clause| !is_satisfied(db, pkg.name(), clause))
}

/// The place of the first clause that no installed package meets, if there is one.
#[tactic(auto, unfolding(rules::specs::Sound::MeetsClauses))]
pub fn first_unmet(db: &Records<'_, '_>, clauses: &[Clause<'_>]) -> Option<usize>
    ensures { MatchOption result (MeetsClauses (installed_of db.now) clauses.now)
        (HasAt (λ clause. ¬ MeetsClause (installed_of db.now) clause) clauses.now) }
{
    clauses.iter().position(|clause| !is_met(db, clause))
}

// Whether the record is of one of the names, as a test.
fn is_among(names: &[Name], entry: &StateRecord<'_, '_>) -> bool
    ensures { result ≡ is_among names.now entry.now }
{
    names.iter().any(|name| entry.name() == name.as_bytes())
}

/// Whether the record is of one of the names.
pub(crate) fn is_member(names: &[Name], entry: &StateRecord<'_, '_>) -> bool
    ensures { IsTrue result ↔ Contains names.now entry.now.name }
{
    is_among(names, entry)
}

// Whether the record is present, of one of the names, and matches the clause.
fn matches_among(names: &[Name], entry: &StateRecord<'_, '_>, clause: &Clause<'_>) -> bool
    ensures { IsTrue result
        ↔ ((is_present_among names.now entry.now ≡ true)
        × MatchesSome (pkg_of entry.now) clause.now) }
{
    match entry.present_pkg() {
        Some(there) => matches_some(there, clause.as_slice()) && is_among(names, entry),
        None => false,
    }
}

fn some_matches_among(db: &Records<'_, '_>, names: &[Name], clause: &Clause<'_>) -> bool
    ensures { IsTrue result ↔ Any (λ entry. (is_present_among names.now entry ≡ true)
        × MatchesSome (pkg_of entry) clause.now) db.now }
{
    db.as_slice()
        .iter()
        .any(|entry| matches_among(names, entry, clause))
}

// Whether an installed package or a member meets the clause.
fn is_met_with(db: &Records<'_, '_>, names: &[Name], clause: &Clause<'_>) -> bool
    ensures { IsTrue result
        ↔ MeetsClause (installed_of db.now ++ members_of names.now db.now) clause.now }
{
    is_met(db, clause) || some_matches_among(db, names, clause)
}

/// The place of the first clause that neither an installed package nor a present one of these names meets, if there is one.
#[tactic(auto, unfolding(rules::specs::Sound::MeetsClauses))]
pub(crate) fn first_unmet_with(
    db: &Records<'_, '_>,
    names: &[Name],
    clauses: &[Clause<'_>],
) -> Option<usize>
    ensures { MatchOption result
        (MeetsClauses (installed_of db.now ++ members_of names.now db.now) clauses.now)
        (HasAt (λ clause.
        ¬ MeetsClause
        (installed_of db.now ++ members_of names.now db.now) clause) clauses.now) }
{
    clauses
        .iter()
        .position(|clause| !is_met_with(db, names, clause))
}

#[tactic(auto, unfolding(crate::specs::Witness::ManagesWithout))]
fn manages_without(db: &Records<'_, '_>, name: &[u8], clause: &Clause<'_>) -> bool
    ensures { IsTrue result ↔ ManagesWithout db.now name.now clause.now }
{
    is_met_without(db, name, clause)
}

/// The place of the first clause that doesn't manage without the present package of the name, if there is one.
pub(crate) fn first_needing(
    db: &Records<'_, '_>,
    name: &[u8],
    clauses: &[Clause<'_>],
) -> Option<usize>
    ensures { MatchOption result (All (ManagesWithout db.now name.now) clauses.now)
        (HasAt (λ clause. ¬ ManagesWithout db.now name.now clause) clauses.now) }
{
    clauses
        .iter()
        .position(|clause| !manages_without(db, name, clause))
}
