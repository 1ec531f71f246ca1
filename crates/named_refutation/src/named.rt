// The lines of a refutation whose pairs are named. Goals, clauses of a field and lines are told by their numbers, counted
// from 1.

use rules::{Items, Name, Text, VersionText};

/// A pair: the version of this name that equals the version (Policy 5.6.12).
#[derive(Drop)]
pub struct NamedPair {
    /// Its name.
    pub name: Name,
    /// Its version, as it is written.
    pub version: VersionText,
}

/// Why a clause holds without others: what of the universe says it (`refutation::Premise`).
#[derive(Drop)]
pub enum NamedPremise {
    /// Two pairs of one name.
    Same(NamedPair, NamedPair),
    /// A pair and a clause of its Pre-Depends.
    PreDepends(NamedPair, u32),
    /// A pair and a clause of its Depends.
    Depends(NamedPair, u32),
    /// A pair and one that it conflicts with.
    Conflicts(NamedPair, NamedPair),
    /// A pair and one that it breaks.
    Breaks(NamedPair, NamedPair),
    /// An install or upgrade goal.
    Goal(u32),
    /// A remove, purge or upgrade-all goal and a pair that it speaks of.
    GoalOn(u32, NamedPair),
    /// The pair in whose version a held name stands.
    Hold(NamedPair),
    /// An essential name that was present at the start.
    Essential(Name),
    /// A name that stands at the start, where nothing is to be removed.
    Keep(Name),
}

/// What a clause says of the pair.
#[derive(Drop)]
pub enum NamedLiteral {
    /// The pair is selected.
    Selected(NamedPair),
    /// The pair isn't selected.
    Unselected(NamedPair),
}

/// A line of a refutation, which stands for one clause.
#[derive(Drop)]
pub enum NamedLine {
    /// A clause that the universe says.
    Premise(NamedPremise),
    /// The clause of these literals, which is to follow from the lines of these numbers.
    Derived(Items<NamedLiteral>, Items<u32>),
}

/// An index that a refutation was found over.
#[derive(Drop)]
pub struct IndexLine {
    /// The SHA-256 sum of its text, in hexadecimal digits.
    pub sum: Text,
    /// The path that it was read from.
    pub path: Text,
}

/// A refutation whose pairs are named, with the indices that it was found over.
#[derive(Drop)]
pub struct NamedRefutation {
    /// The indices in order.
    pub indices: Items<IndexLine>,
    /// The lines in order.
    pub lines: Items<NamedLine>,
}
