// What a request asks for.

use crate::name::Name;
use crate::op::Op;
use crate::version_text::VersionText;

/// A restriction to some versions (Policy 7.1).
#[derive(Drop)]
pub struct Restriction {
    /// How a version is compared with the one of the restriction.
    pub op: Op,
    /// The version that others are compared with.
    pub version: VersionText,
}

/// A goal of a request.
#[derive(Drop)]
pub enum Goal {
    /// A package of this very name, of a version that meets the restriction, is installed.
    Install(Name, Option<Restriction>),
    /// No package of the name is installed.
    Remove(Name),
    /// Nothing of the package is left.
    Purge(Name),
    /// The candidate of the name is installed.
    Upgrade(Name),
    /// Each package that stands, isn't held and has a higher candidate is upgraded to it.
    UpgradeAll,
    /// Each package that stands keeps being installed, in some version.
    NoRemove,
}

/// A goal with its line of the request, counted from 1.
#[derive(Drop)]
pub struct GoalLine {
    /// The line.
    pub line: usize,
    /// The goal.
    pub goal: Goal,
}
