// The laws of the version order (Policy 5.6.12, deb-version(7)), each of them the contract of a function that does
// nothing: they say of the definitions in `specs/Version.antt` what a reader expects of an order of versions.

ghost use Rattle.std.specs.Prelude.{List, ℕ};
ghost use Rattle.rules.specs.VersionLaws.{FirstDifferenceDecides, PiecesAreFronts, SameVersionIsEquivalence, SameVersionsCompareAlike, VersionOrderIsTotal};

/// The version order is total: of two versions one comes first, or they are one version (deb-version(7)).
pub fn version_order_is_total()
    ensures { VersionOrderIsTotal }
{}

/// To be the same version is an equivalence.
pub fn same_version_is_equivalence()
    ensures { SameVersionIsEquivalence }
{}

/// A version may be replaced by another text of the same version in every comparison.
pub fn same_versions_compare_alike()
    ensures { SameVersionsCompareAlike }
{}

/// Two parts of versions, each read as its pieces and empty pieces without end, compare as the first pieces that
/// differ: by the word, and then by the number (Policy 5.6.12).
pub fn first_difference_decides()
    ensures { (a b : List ℕ) → FirstDifferenceDecides a b }
{}

/// The pieces of a part are its longest front without digits with the longest front of digits that follows, and then
/// the pieces of what follows these (Policy 5.6.12).
pub fn pieces_are_fronts()
    ensures { (part : List ℕ) → PiecesAreFronts part }
{}
