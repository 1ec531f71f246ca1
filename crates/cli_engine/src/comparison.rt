//! Two versions compared by their texts (Policy 5.6.12, deb-version(7)).

ghost use Rattle.std.specs.Prelude.{◌≡◌, MatchResult, None, Some};
ghost use Rattle.rules.specs.Version.{version_cmp};
ghost use Rattle.cli_engine.specs.Comparison.{comparison_refusal, holds, version_refusal};

use debversion::Version;
use inputs::{Fault, Input, Refusal};
use std::cmp::Ordering;

/// How a version may stand to another, as `dpkg --compare-versions` has it.
#[derive(Clone, Copy, Debug, PartialEq, Eq)]
pub enum Comparison {
    /// It is earlier: `lt`.
    Earlier,
    /// It is earlier or the same: `le`.
    EarlierOrEqual,
    /// It is the same version: `eq`.
    Equal,
    /// It is another version: `ne`.
    NotEqual,
    /// It is later or the same: `ge`.
    LaterOrEqual,
    /// It is later: `gt`.
    Later,
}

impl Comparison {
    /// Whether two versions in this order stand so to each other.
    pub fn holds(self, ordering: Ordering) -> bool
        ensures { result ≡ holds self ordering }
    {
        match self {
            Comparison::Earlier => ordering.is_lt(),
            Comparison::EarlierOrEqual => ordering.is_le(),
            Comparison::Equal => ordering.is_eq(),
            Comparison::NotEqual => ordering.is_ne(),
            Comparison::LaterOrEqual => ordering.is_ge(),
            Comparison::Later => ordering.is_gt(),
        }
    }
}

// The version of this number.
fn version_of(number: usize, text: &[u8]) -> Result<Version<'_>, Refusal>
    ensures { MatchResult result
        (λ version. (version_refusal number text.now ≡ None) × (version ≡ text.now))
        (λ refused. version_refusal number text.now ≡ Some refused) }
{
    match Version::parse(text) {
        Ok(version) => Ok(version),
        Err(kind) => Err(Refusal {
            place: Input::Version(number),
            fault: Fault::Version(kind),
        }),
    }
}

/// Whether the version stands so to the other; a refusal is that of the first text that is no version. One pass over
/// both, and no memory is taken.
pub fn compare(version: &[u8], relation: Comparison, other: &[u8]) -> Result<bool, Refusal>
    ensures { MatchResult result
        (λ answer. (comparison_refusal version.now other.now ≡ None)
        × (answer ≡ holds relation (version_cmp version.now other.now)))
        (λ refused. comparison_refusal version.now other.now ≡ Some refused) }
{
    let version = version_of(1, version)?;
    let other = version_of(2, other)?;
    Ok(relation.holds(version.cmp(&other)))
}
