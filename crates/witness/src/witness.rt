// What stands against a step.

use rules::Text;

/// Which of two packages conflicts with the other.
#[derive(Clone, Copy)]
pub enum Direction {
    /// The package to be unpacked conflicts with the present one.
    Own,
    /// The present one conflicts with the package to be unpacked.
    Other,
}

/// A field of clauses (Policy 7.2).
#[derive(Clone, Copy)]
pub enum ClauseField {
    /// `Pre-Depends`
    PreDepends,
    /// `Depends`
    Depends,
}

/// What stands against a step that isn't allowed, by the rule that it fails. Places are counted from 0.
#[derive(Drop)]
pub enum Witness {
    /// F1 of an unpacking: the clause at this place of the package's Pre-Depends isn't satisfied.
    Unsatisfied(usize),
    /// F2 of an unpacking: the present package of this name conflicts, in this way.
    Conflicting(Direction, Text),
    /// F3 of an unpacking: the installed package of this name is broken.
    Broken(Text),
    /// F3 of a configuring: the member of the first name is broken by the present package of the second.
    BrokenBy(Text, Text),
    /// F1 and F4 of a configuring: of the member of this name the clause at the place of the field isn't met.
    Unmet(Text, ClauseField, usize),
    /// F6 of a removal: the installed package of this name needs it, by the clause at the place of the field.
    Needs(Text, ClauseField, usize),
}
