//! The packages of a list so far, and what they offer.
ghost use Rattle.std.specs.Prelude.{◌≡◌, ◌++◌, ◌∷◌, [], OnOk, length};
ghost use Rattle.std.specs.List.{flat_map};
ghost use Rattle.providers.specs.Offers.{item_offers_at, offers_by, own_offers_at};

use crate::offer::Offer;
use crate::seen::SeenPkg;
use debversion::Version;
use relation::{Pkg, Provided};
use std::alloc::{AllocError, Global};
use std::marker::Model;
use std::snapshot::Snapshot;
use universe_parts::{CountingProvides, Pair};

/// Packages, which contracts alone see, and what they offer by their own names and by items of Provides, in their order. The
/// two stand apart, since packages come mostly in the order of their names.
#[derive(Drop)]
pub(crate) struct UnsortedOffers<'a> {
    pub(crate) packages: Vec<Snapshot<SeenPkg<'a>>>,
    pub(crate) own: Vec<Offer<'a>>,
    pub(crate) items: Vec<Offer<'a>>,
}

impl<'a> Model for UnsortedOffers<'a> {
    ghost use Rattle.std.specs.Prelude.{List, map};
    ghost use Rattle.rules.specs.Package.{Pkg as PkgValue};
    ghost use Rattle.providers.specs.Offers.{Offer as OfferValue};

    ghost Value = { List PkgValue × List OfferValue × List OfferValue };

    ghost view = { λ d. (map (λ seen. seen.value) d.packages.items, d.own.items, d.items.items) };
}

// Puts what the item offers behind the others, unless it is foreign.
fn push_item<'a>(
    offers: &mut Vec<Offer<'a>>,
    place: usize,
    item: &Provided<'a>,
) -> Result<(), AllocError>
    ensures { OnOk result (offers.new.items ≡ offers.old.items ++ offers_by place item.now) }
{
    if !item.is_foreign() {
        offers.push(Offer::of_item(item, place))?;
    }
    Ok(())
}

// Puts what the items offer behind the others.
fn push_items<'a>(
    offers: &mut Vec<Offer<'a>>,
    place: usize,
    items: &[Provided<'a>],
) -> Result<(), AllocError>
    ensures { OnOk result
        (offers.new.items ≡ offers.old.items ++ flat_map (offers_by place) items.now) }
{
    for item in items {
        push_item(offers, place, item)?;
    }
    Ok(())
}

impl<'a> UnsortedOffers<'a> {
    /// No packages.
    pub(crate) fn new(alloc: Global) -> UnsortedOffers<'a>
        ensures { result ≡ ([], [], []) }
    {
        UnsortedOffers {
            packages: Vec::new(alloc),
            own: Vec::new(alloc),
            items: Vec::new(alloc),
        }
    }

    // Puts a package that was seen behind the others. The name, the version and the items of Provides are the package's own.
    fn push_seen(
        &mut self,
        seen: &SeenPkg<'a>,
        name: &'a [u8],
        version: &Version<'a>,
        items: &[Provided<'a>],
    ) -> Result<(), AllocError>
        requires name { name.now ≡ seen.now.name }
        requires version { version.now ≡ seen.now.version }
        requires items { items.now ≡ seen.now.relations.provides }
        ensures packages { OnOk result (self.new.0 ≡ self.old.0 ++ seen.now ∷ []) }
        ensures own { OnOk result
            (self.new.1 ≡ self.old.1 ++ own_offers_at (length self.old.0) seen.now) }
        ensures items { OnOk result
            (self.new.2 ≡ self.old.2 ++ item_offers_at (length self.old.0) seen.now) }
    {
        let place = self.packages.len();
        self.own.push(Offer::own(name, version, place))?;
        push_items(&mut self.items, place, items)?;
        self.packages.push(Snapshot::of(seen))?;
        Ok(())
    }

    /// Puts a package behind the others. Memory alone can fail. Linear in its items of Provides.
    pub(crate) fn push(&mut self, pkg: &Pkg<'a>) -> Result<(), AllocError>
        ensures packages { OnOk result (self.new.0 ≡ self.old.0 ++ pkg.now ∷ []) }
        ensures own { OnOk result
            (self.new.1 ≡ self.old.1 ++ own_offers_at (length self.old.0) pkg.now) }
        ensures items { OnOk result
            (self.new.2 ≡ self.old.2 ++ item_offers_at (length self.old.0) pkg.now) }
    {
        self.push_seen(
            &SeenPkg::of_pkg(pkg),
            pkg.name(),
            pkg.version(),
            pkg.provides(),
        )
    }

    /// Puts the package of the pair behind the others. Of a stanza in an index, Provides alone is read. Memory alone can fail.
    /// Linear in that field.
    pub(crate) fn push_pair(&mut self, alloc: Global, pair: &Pair<'_, 'a>) -> Result<(), AllocError>
        ensures packages { OnOk result (self.new.0 ≡ self.old.0 ++ pair.now.pkg ∷ []) }
        ensures own { OnOk result
            (self.new.1 ≡ self.old.1 ++ own_offers_at (length self.old.0) pair.now.pkg) }
        ensures items { OnOk result
            (self.new.2 ≡ self.old.2 ++ item_offers_at (length self.old.0) pair.now.pkg) }
    {
        let provides = CountingProvides::of_pair(alloc, pair)?;
        self.push_seen(
            &SeenPkg::of_pair(pair),
            pair.name(),
            &pair.version(),
            provides.items(),
        )
    }
}
