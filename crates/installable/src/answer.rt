//! What is answered of packages.
use rules::{Items, Text};

/// The texts of a request that can't be met and of its refutation.
#[derive(Drop)]
pub struct Refuted {
    /// The request.
    pub request: Items<u8>,
    /// The refutation, which is accepted: its pairs are named.
    pub refutation: Items<u8>,
    /// The reasons, where they are wanted and memory wasn't refused for them: a sentence a line. Their words aren't promised.
    pub reasons: Option<Items<u8>>,
}

/// Whether a request can be met.
#[derive(Drop)]
pub enum Installability {
    /// It has an acceptable selection.
    Installable,
    /// It has none, by this refutation.
    Broken(Refuted),
    /// It is undecided: the search met more conflicts than this limit, which was handed in.
    Limit(u32),
    /// It is undecided: a refutation was found that isn't accepted, or can't be written.
    Unchecked,
}

/// What is answered of a package.
#[derive(Drop)]
pub struct PackageAnswer {
    /// The name of the package.
    pub name: Text,
    /// Its version, as the earliest stanza of the version has it.
    pub version: Text,
    /// Whether its request can be met.
    pub installability: Installability,
}

/// What is answered of packages.
#[derive(Drop)]
pub struct Surveyed {
    /// Whether the request of what stands beside each package, and of no package, can be met. Where it can't, a package can be
    /// installed only where its own line admits another version of a name that is asked for.
    pub base: Installability,
    /// The packages that are asked about, in the order of names and versions.
    pub packages: Items<PackageAnswer>,
}
