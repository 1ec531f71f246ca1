// The operators of version restrictions.

ghost use Rattle.std.specs.Prelude.{◌≡◌};

use std::cmp::Ordering;

/// The operator of a version restriction (Policy 7.1).
#[derive(Clone, Copy, PartialEq, Eq)]
pub enum Op {
    /// `<<`
    StrictlyEarlier,
    /// `<=`
    EarlierOrEqual,
    /// `=`
    ExactlyEqual,
    /// `>=`
    LaterOrEqual,
    /// `>>`
    StrictlyLater,
}

impl Op {
    ghost use Rattle.rules.specs.Version.{is_met};

    /// Whether a version that compares so to the restriction's version meets it.
    pub fn is_met(self, ordering: Ordering) -> bool
        ensures { result ≡ is_met self ordering }
    {
        match self {
            Op::StrictlyEarlier => ordering.is_lt(),
            Op::EarlierOrEqual => ordering.is_le(),
            Op::ExactlyEqual => ordering.is_eq(),
            Op::LaterOrEqual => ordering.is_ge(),
            Op::StrictlyLater => ordering.is_gt(),
        }
    }
}
