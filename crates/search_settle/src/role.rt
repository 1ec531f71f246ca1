// What clauses are for.

/// What a clause says, as far as it matters for a change.
#[derive(Clone, Copy)]
pub(crate) enum Role {
    /// That not both of two pairs of one name are selected.
    Same(u32, u32),
    /// What the pair of this number needs: a clause of its Pre-Depends or Depends.
    Need(u32),
    /// Something else.
    Other,
}
