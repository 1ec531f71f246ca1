// What the start and the request say of the pairs.

ghost use Rattle.std.specs.Prelude.{◌≡◌, ◌↔◌, IsTrue, MatchOption};
ghost use Rattle.std.specs.Option.{option_copied};
ghost use Rattle.rules.specs.Minimal.{IsWanted, Stood, WasPresent};
ghost use Rattle.rules.specs.Version.{SameVersion};
ghost use Rattle.universe_parts.specs.Parts.{HaveDistinctNames};
ghost use Rattle.search_settle.specs.Asked.{asked_in};

use crate::asked::Asked;
use debversion::Version;
use reach::Part;
use universe::{Pair, Start};

fn is_same(name: &[u8], other: &[u8]) -> bool
    ensures { IsTrue result ↔ (name.now ≡ other.now) }
{
    name == other
}

fn is_present_at(start: &Start<'_>, name: &[u8]) -> bool
    ensures { IsTrue result ↔ ((start.now.name ≡ name.now) × IsTrue start.now.is_present) }
{
    is_same(start.name(), name) && start.is_present()
}

// Whether the name was present at the start.
pub(crate) fn was_present(part: &Part<'_, '_, '_>, name: &[u8]) -> bool
    requires distinct { HaveDistinctNames part.now.starts }
    ensures { IsTrue result ↔ WasPresent part.now name.now }
{
    match part.start(name) {
        None => false,
        Some(start) => is_present_at(start, name),
    }
}

fn is_version(standing: Option<&Version<'_>>, version: &Version<'_>) -> bool
    ensures { IsTrue result
        ↔ MatchOption (option_copied standing.entry) ⊥ (SameVersion version.now) }
{
    match standing {
        None => false,
        Some(standing) => version == standing,
    }
}

fn is_standing_at(start: &Start<'_>, pair: &Pair<'_, '_>) -> bool
    ensures { IsTrue result
        ↔ ((start.now.name ≡ pair.now.pkg.name)
        × MatchOption start.now.standing ⊥ (SameVersion pair.now.pkg.version)) }
{
    is_same(start.name(), pair.name()) && is_version(start.standing(), &pair.version())
}

// Whether the pair is the version that stood.
pub(crate) fn stood(part: &Part<'_, '_, '_>, pair: &Pair<'_, '_>) -> bool
    requires distinct { HaveDistinctNames part.now.starts }
    ensures { IsTrue result ↔ Stood part.now pair.now.pkg }
{
    match part.start(pair.name()) {
        None => false,
        Some(start) => is_standing_at(start, pair),
    }
}

// Whether there is a reason for the pair without others.
#[tactic(auto, unfolding(rules::specs::Minimal::IsWanted))]
pub(crate) fn is_wanted(part: &Part<'_, '_, '_>, asked: &Asked<'_>, pair: &Pair<'_, '_>) -> bool
    requires distinct { HaveDistinctNames part.now.starts }
    requires asked { asked.now ≡ asked_in part.now.goals }
    ensures { IsTrue result ↔ IsWanted part.now pair.now.pkg }
{
    was_present(part, pair.name()) || asked.has(pair.name())
}
