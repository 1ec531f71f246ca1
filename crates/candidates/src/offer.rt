// The versions of names with their priorities, and which one is to be chosen first (apt_preferences(5)).

ghost use Rattle.std.specs.Prelude.{◌≡◌, ℕ, IfOk, List, None, Some, if◌then◌else◌, refl};
ghost use Rattle.std.specs.Cmp.{eq_by_cmp_equiv, partial_equiv_from_equiv, po};
ghost use Rattle.std.specs.Option.{option_copied};
ghost use Rattle.std.specs.Ordering.{as_partial_cmp, eq_by_cmp};
ghost use Rattle.std.specs.List.Sorted.{IsStrictlySortedBy};
ghost use Rattle.rules.specs.Available.{Inputs};
ghost use Rattle.candidates.specs.Candidates.{IsCandidateOf};
ghost use Rattle.candidates.specs.Eligible.{AreByVersion, AreEligibleOf};
ghost use Rattle.candidates.specs.Recorded.{record_cmp};
ghost use Rattle.candidates.specs.Offer.{choice_cmp, eligible, is_eligible, is_eligible_beside, offer_cmp};
ghost use Rattle.candidates.specs.OfferLaws.{offer_cmp_total};

use crate::known::{is_below, record_of};
use crate::recorded::Recorded;
use debversion::Version;
use rules::name_cmp;
use std::alloc::{AllocError, Global};
use std::cmp::Ordering;
use std::marker::Model;

/// A version of a name, and its priority. Offers are ordered by the bytes of the name, the last name first; of one name the
/// greater priority is first, and of one priority the higher version (deb-version(7)).
#[derive(Drop)]
pub struct Offer<'a> {
    name: &'a [u8],
    version: Version<'a>,
    priority: i32,
}

impl<'a> Model for Offer<'a> {
    ghost use Rattle.candidates.specs.Offer.{Offer as OfferValue};

    ghost Value = { OfferValue };

    ghost view = { λ o. record { name = o.name.now; version = o.version; priority = o.priority } };
}

impl<'a> Offer<'a> {
    /// The version of the name with this priority.
    pub(crate) fn new(name: &'a [u8], version: Version<'a>, priority: i32) -> Offer<'a>
        ensures { result
            ≡ record { name = name.now; version = version.entry; priority = priority } }
    {
        Offer {
            name,
            version,
            priority,
        }
    }

    /// The name.
    pub fn name(&self) -> &'a [u8]
        ensures { result.now ≡ self.now.name }
    {
        self.name
    }

    /// The version.
    pub fn version(&self) -> &Version<'a>
        ensures { result.now ≡ self.now.version }
    {
        &self.version
    }

    /// The priority.
    pub fn priority(&self) -> i32
        ensures { result ≡ self.now.priority }
    {
        self.priority
    }

    /// The same offer once more.
    pub fn again(&self) -> Offer<'a>
        ensures { result ≡ self.now }
    {
        Offer {
            name: self.name,
            version: self.version.again(),
            priority: self.priority,
        }
    }

    // The order of offers of one name: the one to choose first is less.
    fn choice_cmp(&self, other: &Offer<'_>) -> Ordering
        ensures { result ≡ choice_cmp self.now other.now }
    {
        match other.priority.cmp(&self.priority) {
            Ordering::Equal => other.version.cmp(&self.version),
            decided => decided,
        }
    }
}

// Whether the offer may be chosen beside the record of its name.
fn is_eligible_beside(recorded: Option<&Recorded<'_, '_>>, offer: &Offer<'_>) -> bool
    ensures { result ≡ is_eligible_beside (option_copied recorded.entry) offer.now }
{
    offer.priority > 0 && !(offer.priority < 1000 && is_below(recorded, &offer.version))
}

/// The offer, if it may be chosen beside the record of its name.
pub fn eligible_beside<'a>(
    recorded: Option<&Recorded<'_, '_>>,
    offer: Offer<'a>,
) -> Option<Offer<'a>>
    ensures { result
        ≡ (if is_eligible_beside
        (option_copied recorded.entry) offer.entry then Some offer.entry else None) }
{
    if is_eligible_beside(recorded, &offer) {
        Some(offer)
    } else {
        None
    }
}

fn is_eligible(known: &[Recorded<'_, '_>], offer: &Offer<'_>) -> bool
    requires { IsStrictlySortedBy record_cmp known.now }
    ensures { result ≡ is_eligible known.now offer.now }
{
    is_eligible_beside(record_of(known, offer.name), offer)
}

/// The offers that may be chosen: those with a priority above 0 that are no downgrade with a priority below 1000.
/// Linear.
pub fn eligible<'a>(known: &[Recorded<'_, '_>], offers: Vec<Offer<'a>>) -> Vec<Offer<'a>>
    requires { IsStrictlySortedBy record_cmp known.now }
    ensures { result.items ≡ eligible known.now offers.entry.items }
{
    let mut kept = offers;
    kept.retain(|offer| is_eligible(known, offer));
    kept
}

/// The offers of one name in the order of their versions, of those of one version one. About n log n comparisons of n offers.
pub fn by_version<'a>(offers: Vec<Offer<'a>>) -> Result<Vec<Offer<'a>>, AllocError>
    ensures { IfOk result (λ ordered. AreByVersion offers.entry.items ordered.items) }
{
    let mut ordered = offers;
    ordered.sort_by_key(|offer| offer.version().again())?;
    // No two are of one version, so nothing is dropped: that each is before the next is seen from this call alone.
    ordered.dedup_by(|later, kept| later.version() == kept.version());
    Ok(ordered)
}

/// The candidate of the name whose versions that may be chosen these are, if it has one: the version of the greatest
/// priority, and of these the highest (apt_preferences(5)). Linear.
pub fn candidate_of<'k, 'a>(eligible: &'k [Offer<'a>]) -> Option<&'k Offer<'a>>
    ensures { (inputs : Inputs) (name : List ℕ) → AreEligibleOf inputs name eligible.now
        → IsCandidateOf inputs name (option_copied result) }
{
    eligible.iter().min()
}

impl PartialEq for Offer<'_> {
    ghost eq = { eq_by_cmp offer_cmp };

    ghost laws = { partial_equiv_from_equiv (eq_by_cmp_equiv offer_cmp_total) };

    fn eq(&self, other: &Self) -> bool {
        self.cmp(other) == Ordering::Equal
    }
}

impl Eq for Offer<'_> {
    ghost laws = { eq_by_cmp_equiv offer_cmp_total };
}

impl PartialOrd for Offer<'_> {
    ghost partial_cmp = { as_partial_cmp offer_cmp };

    ghost laws = { po offer_cmp_total (λ offer other. refl) };

    fn partial_cmp(&self, other: &Self) -> Option<Ordering> {
        Some(self.cmp(other))
    }
}

impl Ord for Offer<'_> {
    ghost cmp = { offer_cmp };

    ghost total = { offer_cmp_total };

    ghost matches_partial_cmp = { λ offer other. refl };

    ghost matches_eq = { λ offer other. refl };

    fn cmp(&self, other: &Self) -> Ordering {
        match name_cmp(other.name, self.name) {
            Ordering::Equal => self.choice_cmp(other),
            decided => decided,
        }
    }
}
