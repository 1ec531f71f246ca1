// What packages match of one another's relations (Policy 7.1 to 7.5).

ghost use Rattle.std.specs.Prelude.{◌≡◌, ◌↔◌, IsTrue};
ghost use Rattle.rules.specs.Package.{BreaksOther, ConflictsWith, MatchesSome};

use relation::{Atom, Pkg};

/// Whether two names or texts are equal.
pub fn is_same(text: &[u8], other: &[u8]) -> bool
    ensures { IsTrue result ↔ (text.now ≡ other.now) }
{
    text == other
}

/// Whether the package matches an atom of the list. Linear in the atoms and in what the package provides.
#[tactic(auto, unfolding(rules::specs::Package::MatchesSome))]
pub fn matches_some(pkg: &Pkg<'_>, atoms: &[Atom<'_>]) -> bool
    ensures { IsTrue result ↔ MatchesSome pkg.now atoms.now }
{
    atoms.iter().any(|atom| atom.matched_by(pkg))
}

/// Whether the first package conflicts with the second.
#[tactic(auto, unfolding(rules::specs::Package::ConflictsWith))]
pub fn conflicts_with(pkg: &Pkg<'_>, other: &Pkg<'_>) -> bool
    ensures { IsTrue result ↔ ConflictsWith pkg.now other.now }
{
    matches_some(other, pkg.conflicts())
}

/// Whether the first package breaks the second.
#[tactic(auto, unfolding(rules::specs::Package::BreaksOther))]
pub fn breaks_other(pkg: &Pkg<'_>, other: &Pkg<'_>) -> bool
    ensures { IsTrue result ↔ BreaksOther pkg.now other.now }
{
    matches_some(other, pkg.breaks())
}
