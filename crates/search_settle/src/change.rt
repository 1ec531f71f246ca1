// The changes by which a selection may come nearer to the start.

/// A change of a selection; pairs are told by their numbers.
#[derive(Clone, Copy)]
pub(crate) enum Change {
    /// One is left out.
    Leave(u32),
    /// One is left out, and the other taken in its place.
    Replace(u32, u32),
    /// One is taken.
    Add(u32),
}
