// Where a package of an index stands.

/// The place of a stanza in the indices. Both numbers are counted from 1, as those of messages are.
#[derive(Clone, Copy, Debug, PartialEq, Eq)]
pub struct IndexPlace {
    /// The number of the index, in the order of the sources text.
    pub index: usize,
    /// The number of the stanza in it, in the order of its text, those of other architectures counted too.
    pub stanza: usize,
}
