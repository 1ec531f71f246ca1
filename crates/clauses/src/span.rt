// A part of a list of clauses.

/// The clauses from one place up to another, which doesn't count. Places count from 0.
#[derive(Clone, Copy, Drop)]
pub struct Span {
    /// The first place.
    pub from: usize,
    /// The place behind the last one.
    pub until: usize,
}

impl Span {
    /// No clauses.
    pub const EMPTY: Span = Span { from: 0, until: 0 };
}
