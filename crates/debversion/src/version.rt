// A version as a value: its text, and the parts that comparing reads.

ghost use Rattle.std.specs.Prelude.{◌≡◌, Some, None, MatchResult, refl};
ghost use Rattle.std.specs.Cmp.{eq_by_cmp_equiv, partial_equiv_from_equiv, po};
ghost use Rattle.std.specs.Ordering.{as_partial_cmp, eq_by_cmp, ordering_then};
ghost use Rattle.rules.specs.Version.{is_met, part_cmp, revision_of, upstream_of, version_cmp};
ghost use Rattle.rules.specs.VersionOrderLaws.{version_cmp_total};
ghost use Rattle.rules.specs.VersionFault.{first_fault};
ghost use Rattle.debversion.specs.HashInput.{version_input};
ghost use Rattle.debversion.specs.HashLaws.{version_input-alike};

use crate::compare::part_cmp;
use crate::feed::feed_part;
use crate::parse::{split_epoch, split_revision};
use rules::{BadVersion, Op};
use std::alloc::AllocError;
use std::cmp::Ordering;
use std::hash::{Hash, Hasher};
use std::marker::Model;

/// A version of a package, `[epoch:]upstream[-revision]` (Policy 5.6.12), over the caller's text.
#[derive(Drop)]
pub struct Version<'a> {
    text: &'a [u8],
    epoch: u32,
    upstream: &'a [u8],
    revision: &'a [u8],
}

impl<'a> Model for Version<'a> {
    ghost use Rattle.std.specs.Prelude.{ℕ, List};
    ghost use Rattle.debversion.specs.Parts.{IsRead};

    ghost Value = { List ℕ };

    ghost view = { λ v. v.text.now };

    ghost invariant = { λ v. IsRead v.text.now v.epoch v.upstream.now v.revision.now };
}

impl<'a> Version<'a> {
    /// Reads a version, or answers the first fault of the text (Policy 5.6.12). One pass over the text, and
    /// no memory is taken.
    #[tactic(auto, unfolding(rules::specs::VersionFault::first_fault))]
    pub fn parse(text: &'a [u8]) -> Result<Version<'a>, BadVersion>
        ensures { MatchResult result
            (λ version. (first_fault text.now ≡ None) × (version ≡ text.now))
            (λ fault. first_fault text.now ≡ Some fault) }
    {
        if text.is_empty() {
            return Err(BadVersion::Empty);
        }
        let (epoch, rest) = split_epoch(text)?;
        let (upstream, revision) = split_revision(rest)?;
        Ok(Version {
            text,
            epoch,
            upstream,
            revision,
        })
    }

    /// The text of the version, as it was written: it can be read again.
    pub fn text(&self) -> &'a [u8]
        ensures value { result.now ≡ self.now }
        ensures faultless { first_fault self.now ≡ None }
    {
        self.text
    }

    /// The same version once more.
    pub fn again(&self) -> Version<'a>
        ensures { result ≡ self.now }
    {
        Version {
            text: self.text,
            epoch: self.epoch,
            upstream: self.upstream,
            revision: self.revision,
        }
    }

    // The order by what follows the epoch: the upstream version, then the revision. A missing revision was read as
    // empty, which compares as `0` does.
    fn rest_cmp(&self, other: &Self) -> Ordering
        ensures { result ≡ ordering_then (part_cmp (upstream_of self.now) (upstream_of other.now))
            (part_cmp (revision_of self.now) (revision_of other.now)) }
    {
        match part_cmp(self.upstream, other.upstream) {
            Ordering::Equal => part_cmp(self.revision, other.revision),
            decided => decided,
        }
    }

    /// Whether the version meets a restriction with this operator and version (Policy 7.1).
    pub fn satisfies(&self, op: Op, version: &Version<'_>) -> bool
        ensures { result ≡ is_met op (version_cmp self.now version.now) }
    {
        op.is_met(self.cmp(version))
    }
}

impl<'a> Clone for Version<'a> {
    ghost use Rattle.std.specs.Prelude.{⊤};

    ghost is_clone = { λ version copy. copy ≡ version };

    ghost is_infallible = { λ _. ⊤ };

    fn clone(&self) -> Result<Version<'a>, AllocError> {
        Ok(self.again())
    }
}

impl PartialEq for Version<'_> {
    ghost eq = { eq_by_cmp version_cmp };

    ghost laws = { partial_equiv_from_equiv (eq_by_cmp_equiv version_cmp_total) };

    // Equal texts are most often met, and are equal versions.
    fn eq(&self, other: &Self) -> bool {
        if self.text == other.text {
            return true;
        }
        self.cmp(other) == Ordering::Equal
    }
}

impl Eq for Version<'_> {
    ghost laws = { eq_by_cmp_equiv version_cmp_total };
}

impl PartialOrd for Version<'_> {
    ghost partial_cmp = { as_partial_cmp version_cmp };

    ghost laws = { po version_cmp_total (λ v w. refl) };

    fn partial_cmp(&self, other: &Self) -> Option<Ordering> {
        Some(self.cmp(other))
    }
}

impl Ord for Version<'_> {
    ghost cmp = { version_cmp };

    ghost total = { version_cmp_total };

    ghost matches_partial_cmp = { λ v w. refl };

    ghost matches_eq = { λ v w. refl };

    #[tactic(auto, unfolding(rules::specs::Version::version_cmp))]
    fn cmp(&self, other: &Self) -> Ordering {
        match self.epoch.cmp(&other.epoch) {
            Ordering::Equal => self.rest_cmp(other),
            decided => decided,
        }
    }
}

impl Hash for Version<'_> {
    ghost hash_input = { version_input };

    ghost respects_eq = { version_input-alike.fed };

    #[tactic(auto, unfolding(crate::specs::HashInput::version_input))]
    fn hash<H: Hasher>(&self, state: &mut H) {
        self.epoch.hash(state);
        feed_part(self.upstream, state);
        feed_part(self.revision, state);
    }
}
