// What is decided of a request.

use refutation::Refutation;

/// What is decided: that a selection is acceptable, that none is, or neither.
#[derive(Drop)]
pub enum Decided {
    /// The selection of the pairs of these numbers is acceptable. They ascend.
    Selection(Vec<u32>),
    /// No selection is acceptable, and this shows it.
    Refuted(Refutation),
    /// It is undecided: the search met more conflicts than this limit, which was handed in.
    Limit(u32),
    /// It is undecided: a refutation was found that isn't accepted, or can't be written.
    Unchecked,
}
