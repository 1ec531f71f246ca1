//! What a package of a list offers.
ghost use Rattle.std.specs.Prelude.{◌≡◌, is_none, refl};
ghost use Rattle.std.specs.Cmp.{eq_by_cmp_equiv, partial_equiv_from_equiv, po};
ghost use Rattle.std.specs.Option.{option_copied, option_cmp};
ghost use Rattle.std.specs.Ordering.{as_partial_cmp, eq_by_cmp, nat_cmp, ordering_then};
ghost use Rattle.rules.specs.Name.{name_cmp};
ghost use Rattle.rules.specs.Version.{version_cmp};
ghost use Rattle.providers.specs.Offers.{IsReadable, is_offer_of, offer_cmp, own_offer, provided_offer, version_in};
ghost use Rattle.providers.specs.OfferLaws.{offer_cmp_total};

use crate::prefix::{order_of, prefix_of};
use crate::ticks::Ticked;
use debversion::Version;
use relation::Provided;
use std::cmp::Ordering;
use std::marker::Model;

/// A name that a package offers, the version in which it does, if there is one, and the place of the package. Offers are
/// ordered by name, then by version, where none comes first, then by place. There are many, and few versions of them are ever
/// compared, so of a version the text alone is kept, which is empty where there is none.
#[derive(Drop)]
pub(crate) struct Offer<'a> {
    prefix: u64,
    name: &'a [u8],
    text: &'a [u8],
    place: usize,
}

impl<'a> Model for Offer<'a> {
    ghost use Rattle.providers.specs.Offers.{IsReadable, Offer as OfferValue, version_in};
    ghost use Rattle.providers.specs.Prefix.{IsPrefix};

    ghost Value = { OfferValue };

    ghost view = { λ o. record { name = o.name.now; version = version_in o.text.now; place = o.place } };

    ghost invariant = { λ o. IsPrefix o.prefix o.name.now × IsReadable (version_in o.text.now) };
}

// The text of a version, which is empty where there is none.
fn text_of<'a>(version: Option<&Version<'a>>) -> &'a [u8]
    ensures value { version_in result.now ≡ option_copied version.entry }
    ensures readable { IsReadable (version_in result.now) }
{
    match version {
        None => &[],
        Some(version) => version.text(),
    }
}

// The order of two versions, each of which may be missing.
fn version_cmp(version: Option<&Version<'_>>, other: Option<&Version<'_>>) -> Ordering
    ensures { result
        ≡ option_cmp version_cmp (option_copied version.entry) (option_copied other.entry) }
{
    match (version, other) {
        (None, None) => Ordering::Equal,
        (None, Some(_)) => Ordering::Less,
        (Some(_), None) => Ordering::Greater,
        (Some(version), Some(other)) => version.cmp(other),
    }
}

impl<'a> Offer<'a> {
    /// What the package at the place offers by its own name and version, which are these.
    pub(crate) fn own(name: &'a [u8], version: &Version<'a>, place: usize) -> Offer<'a>
        ensures { result ≡ own_offer place name.now version.now }
    {
        Offer {
            prefix: prefix_of(name),
            name,
            text: text_of(Some(version)),
            place,
        }
    }

    /// What the item of the package at the place offers.
    pub(crate) fn of_item(item: &Provided<'a>, place: usize) -> Offer<'a>
        ensures { result ≡ provided_offer place item.now }
    {
        let name = item.name();
        Offer {
            prefix: prefix_of(name),
            name,
            text: text_of(item.version()),
            place,
        }
    }

    /// The name.
    pub(crate) fn name(&self) -> &'a [u8]
        ensures { result.now ≡ self.now.name }
    {
        self.name
    }

    /// Whether it has no version.
    pub(crate) fn is_unversioned(&self) -> bool
        ensures { result ≡ is_none self.now.version }
    {
        self.text.is_empty()
    }

    // The version, if there is one, which is read from its text.
    fn read(&self) -> Option<Version<'a>>
        ensures { result ≡ self.now.version }
    {
        if self.is_unversioned() {
            return None;
        }
        match Version::parse(self.text) {
            Ok(version) => Some(version),
            Err(_) => unreachable!(),
        }
    }

    /// The version, if there is one, which is compared through a count alone.
    pub(crate) fn version(&self) -> Option<Ticked<'a>>
        ensures { result ≡ self.now.version }
    {
        self.read().map(Ticked::of)
    }

    /// The place of the package.
    pub(crate) fn place(&self) -> usize
        ensures { result ≡ self.now.place }
    {
        self.place
    }

    /// Whether it is of the name of another.
    pub(crate) fn is_named_as(&self, other: &Offer<'_>) -> bool
        ensures { result ≡ is_offer_of other.now.name self.now }
    {
        // The prefixes lie side by side in memory, and the names don't.
        if self.prefix != other.prefix {
            return false;
        }
        self.name == other.name
    }

    // The order of the names.
    fn name_cmp(&self, other: &Self) -> Ordering
        ensures { result ≡ name_cmp self.now.name other.now.name }
    {
        order_of(self.prefix, self.name, other.prefix, other.name)
    }

    // The order of two offers of one name and version.
    fn later_cmp(&self, other: &Self) -> Ordering
        ensures { result ≡ ordering_then (nat_cmp self.now.place other.now.place)
            (option_cmp name_cmp self.now.version other.now.version) }
    {
        match self.place().cmp(&other.place()) {
            Ordering::Equal => self.text.cmp(other.text),
            decided => decided,
        }
    }

    // The order of two offers of one name.
    fn rest_cmp(&self, other: &Self) -> Ordering
        ensures { result ≡ ordering_then (option_cmp version_cmp self.now.version other.now.version)
            (ordering_then (nat_cmp self.now.place other.now.place)
            (option_cmp name_cmp self.now.version other.now.version)) }
    {
        match version_cmp(self.read().as_ref(), other.read().as_ref()) {
            Ordering::Equal => self.later_cmp(other),
            decided => decided,
        }
    }
}

impl PartialEq for Offer<'_> {
    ghost eq = { eq_by_cmp offer_cmp };

    ghost laws = { partial_equiv_from_equiv (eq_by_cmp_equiv offer_cmp_total) };

    fn eq(&self, other: &Self) -> bool {
        self.cmp(other) == Ordering::Equal
    }
}

impl Eq for Offer<'_> {
    ghost laws = { eq_by_cmp_equiv offer_cmp_total };
}

impl PartialOrd for Offer<'_> {
    ghost partial_cmp = { as_partial_cmp offer_cmp };

    ghost laws = { po offer_cmp_total (λ offer other. refl) };

    fn partial_cmp(&self, other: &Self) -> Option<Ordering> {
        Some(self.cmp(other))
    }
}

impl Ord for Offer<'_> {
    ghost cmp = { offer_cmp };

    ghost total = { offer_cmp_total };

    ghost matches_partial_cmp = { λ offer other. refl };

    ghost matches_eq = { λ offer other. refl };

    fn cmp(&self, other: &Self) -> Ordering {
        match self.name_cmp(other) {
            Ordering::Equal => self.rest_cmp(other),
            decided => decided,
        }
    }
}
