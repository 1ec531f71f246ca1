// What is answered of a refutation.

/// Whether a refutation is accepted.
#[derive(Clone, Copy, Debug, Eq, PartialEq)]
pub enum Verdict {
    /// Every line is a premise or follows, and the last one's clause is empty.
    Yes,
    /// The number, counted from 1, of the first line that is no premise and doesn't follow, or the number of lines plus one
    /// where the last one's clause isn't empty.
    No(usize),
}
