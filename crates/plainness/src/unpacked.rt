// What is unpacked: the members whose version doesn't stand.

ghost use Rattle.std.specs.Prelude.{◌≡◌, ◌↔◌, IsTrue, map};
ghost use Rattle.std.specs.List.{All};
ghost use Rattle.rules.specs.Legal.{IsNotHeld};
ghost use Rattle.rules.specs.Universe.{StandsAs};
ghost use Rattle.plainness.specs.Parts.{UnpackedAreUnheld};

use plancheck::{is_not_held, stands_as};
use plancheck_state::Records;
use relation::Pkg;

// Whether the version of the member stands, or its name isn't held.
fn may_be_unpacked(start: &Records<'_, '_>, member: &Pkg<'_>) -> bool
    ensures { IsTrue result
        ↔ (¬ StandsAs start.now member.now.name member.now.version
        → IsNotHeld start.now member.now.name) }
{
    stands_as(start, member.name(), member.version()) || is_not_held(start, member.name())
}

// The same of each member.
fn all_may_be_unpacked(start: &Records<'_, '_>, members: &[&Pkg<'_>]) -> bool
    ensures { IsTrue result
        ↔ All (λ member. ¬ StandsAs start.now member.now.name member.now.version
        → IsNotHeld start.now member.now.name) members.now }
{
    members.iter().all(|member| may_be_unpacked(start, member))
}

/// Whether no package that is to be unpacked is held. For each member linear in the records that have or provide its name.
pub(crate) fn are_unpacks_plain(start: &Records<'_, '_>, members: &[&Pkg<'_>]) -> bool
    ensures { IsTrue result ↔ UnpackedAreUnheld start.now (map (λ member. member.now) members.now) }
{
    all_may_be_unpacked(start, members)
}
