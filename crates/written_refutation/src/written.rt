// Refutations as they are written.

use named_refutation::NamedRefutation;
use refutation::Refutation;

/// A refutation as it is written.
#[derive(Drop)]
pub enum WrittenRefutation {
    /// Its pairs have numbers: version 1 of the text.
    Numbered(Refutation),
    /// Its pairs are named: version 2 of the text.
    Named(NamedRefutation),
}
