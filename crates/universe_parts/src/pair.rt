// An admitted pair of a name and a version.

ghost use Rattle.std.specs.Prelude.{◌≡◌, IfOk, MatchOption, None, Some, refl};
ghost use Rattle.std.specs.Cmp.{eq_by_cmp_equiv, partial_equiv_from_equiv, po};
ghost use Rattle.std.specs.Option.{option_copied, option_map};
ghost use Rattle.std.specs.Ordering.{as_partial_cmp, eq_by_cmp};
ghost use Rattle.rules.specs.Universe.{pair_cmp};
ghost use Rattle.rules.specs.UniverseLaws.{pair_cmp_total};

use debversion::Version;
use index::IndexEntry;
use relation::Pkg;
use rules::name_cmp;
use std::alloc::{AllocError, Global};
use std::cmp::Ordering;
use std::marker::Model;

/// An admitted pair: the package that counts, and its stanza in the indices, if there is one. The stanza is lent, and its
/// relations are read when they are asked for. Pairs are ordered by the bytes of the name and then by the version
/// (deb-version(7)), and two of one name and version are equal.
#[derive(Drop)]
pub struct Pair<'p, 'a> {
    standing: Option<Box<Pkg<'a>>>,
    listed: Option<&'p IndexEntry<'a>>,
    // Advice alone, which a pair's model doesn't show.
    priority: Option<i32>,
}

impl<'p, 'a> Model for Pair<'p, 'a> {
    ghost use Rattle.std.specs.Prelude.{◌≡◌, ◌||◌, true, is_some};
    ghost use Rattle.std.specs.Option.{option_copied, option_map};
    ghost use Rattle.rules.specs.Universe.{Pair as PairValue};
    ghost use Rattle.universe_parts.specs.Pair.{counting_pkg};

    ghost Value = { PairValue };

    ghost view = { λ p. record { pkg = counting_pkg (option_map (λ pkg. pkg.value) p.standing) (option_copied p.listed); listed = option_copied p.listed } };

    ghost invariant = { λ p. (is_some p.standing || is_some p.listed) ≡ true };
}

impl<'p, 'a> Pair<'p, 'a> {
    /// The pair of a package that stands, with the stanza of its version in the indices, if there is one. Memory alone can
    /// fail.
    pub fn standing(
        alloc: Global,
        pkg: Pkg<'a>,
        listed: Option<&'p IndexEntry<'a>>,
    ) -> Result<Pair<'p, 'a>, AllocError>
        ensures { IfOk result
            (λ pair. pair ≡ record { pkg = pkg.entry; listed = option_copied listed.entry }) }
    {
        let standing = Some(Box::new(alloc, pkg)?);
        Ok(Pair {
            standing,
            listed,
            priority: None,
        })
    }

    /// The pair of a package that the indices alone have.
    pub fn listed_alone(listed: &'p IndexEntry<'a>) -> Pair<'p, 'a>
        ensures { result ≡ record { pkg = listed.now.pkg; listed = Some listed.now } }
    {
        Pair {
            standing: None,
            listed: Some(listed),
            priority: None,
        }
    }

    /// The same pair, whose version has this priority (apt_preferences(5)): advice for a search, of which nothing is proved.
    pub fn with_priority(self, priority: Option<i32>) -> Pair<'p, 'a>
        ensures { result ≡ self.entry }
    {
        Pair {
            standing: self.standing,
            listed: self.listed,
            priority,
        }
    }

    /// The priority of its version, where it was told.
    pub fn priority(&self) -> Option<i32> {
        self.priority
    }

    /// The name of the package that counts.
    pub fn name(&self) -> &'a [u8]
        ensures { result.now ≡ self.now.pkg.name }
    {
        match &self.standing {
            Some(pkg) => pkg.name(),
            None => match self.listed {
                Some(listed) => listed.name(),
                None => unreachable!(),
            },
        }
    }

    /// The version of the package that counts.
    pub fn version(&self) -> Version<'a>
        ensures { result ≡ self.now.pkg.version }
    {
        match &self.standing {
            Some(pkg) => pkg.version().again(),
            None => match self.listed {
                Some(listed) => listed.version(),
                None => unreachable!(),
            },
        }
    }

    /// The package that counts, where it is the one that stands: else it is that of the stanza.
    pub fn standing_pkg(&self) -> Option<&Pkg<'a>>
        ensures { MatchOption result
            (option_map (λ listed. listed.pkg) self.now.listed ≡ Some self.now.pkg)
            (λ pkg. pkg.now ≡ self.now.pkg) }
    {
        match &self.standing {
            Some(pkg) => Some(pkg),
            None => None,
        }
    }

    /// The stanza of the pair in the indices, if there is one.
    pub fn index_entry(&self) -> Option<&'p IndexEntry<'a>>
        ensures { option_copied result ≡ self.now.listed }
    {
        self.listed
    }
}

impl PartialEq for Pair<'_, '_> {
    ghost eq = { eq_by_cmp pair_cmp };

    ghost laws = { partial_equiv_from_equiv (eq_by_cmp_equiv pair_cmp_total) };

    fn eq(&self, other: &Self) -> bool {
        self.cmp(other) == Ordering::Equal
    }
}

impl Eq for Pair<'_, '_> {
    ghost laws = { eq_by_cmp_equiv pair_cmp_total };
}

impl PartialOrd for Pair<'_, '_> {
    ghost partial_cmp = { as_partial_cmp pair_cmp };

    ghost laws = { po pair_cmp_total (λ pair other. refl) };

    fn partial_cmp(&self, other: &Self) -> Option<Ordering> {
        Some(self.cmp(other))
    }
}

impl Ord for Pair<'_, '_> {
    ghost cmp = { pair_cmp };

    ghost total = { pair_cmp_total };

    ghost matches_partial_cmp = { λ pair other. refl };

    ghost matches_eq = { λ pair other. refl };

    fn cmp(&self, other: &Self) -> Ordering {
        match name_cmp(self.name(), other.name()) {
            Ordering::Equal => self.version().cmp(&other.version()),
            decided => decided,
        }
    }
}
