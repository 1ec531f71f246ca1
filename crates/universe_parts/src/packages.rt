//! The packages of the pairs, each read once.

ghost use Rattle.std.specs.Prelude.{◌≡◌, IfOk, map};
ghost use Rattle.universe_parts.specs.Parts.{packages_of};

use crate::pair::Pair;
use relation::Pkg;
use std::alloc::{AllocError, Global};
use std::marker::Model;

/// The package of a pair that counts: lent where it stands, and else read from its stanza in an index.
#[derive(Drop)]
pub struct CountingPkg<'u, 'a> {
    lent: Option<&'u Pkg<'a>>,
    read: Option<Pkg<'a>>,
}

impl<'u, 'a> Model for CountingPkg<'u, 'a> {
    ghost use Rattle.std.specs.Prelude.{◌≡◌, ◌||◌, true, is_some};
    ghost use Rattle.std.specs.Option.{option_copied};
    ghost use Rattle.rules.specs.Package.{Pkg as PkgValue};
    ghost use Rattle.universe_parts.specs.Pair.{lent_or_read};

    ghost Value = { PkgValue };

    ghost view = { λ p. lent_or_read (option_copied p.lent) p.read };

    ghost invariant = { λ p. (is_some p.lent || is_some p.read) ≡ true };
}

impl<'u, 'a> CountingPkg<'u, 'a> {
    /// The package of the pair. Memory alone can fail.
    pub fn of_pair(alloc: Global, pair: &'u Pair<'_, 'a>) -> Result<CountingPkg<'u, 'a>, AllocError>
        ensures { IfOk result (λ pkg. pkg ≡ pair.now.pkg) }
    {
        match pair.standing_pkg() {
            Some(pkg) => Ok(CountingPkg {
                lent: Some(pkg),
                read: None,
            }),
            None => match pair.index_entry() {
                Some(listed) => Ok(CountingPkg {
                    lent: None,
                    read: Some(listed.pkg(alloc)?),
                }),
                None => unreachable!(),
            },
        }
    }

    /// The package.
    pub fn pkg(&self) -> &Pkg<'a>
        ensures { result.now ≡ self.now }
    {
        match self.lent {
            Some(pkg) => pkg,
            None => match &self.read {
                Some(pkg) => pkg,
                None => unreachable!(),
            },
        }
    }
}

/// The packages of the pairs, in their order, each read once. Memory alone can fail.
pub fn packages_of<'u, 'a>(
    alloc: Global,
    pairs: &'u [Pair<'_, 'a>],
) -> Result<Vec<CountingPkg<'u, 'a>>, AllocError>
    ensures { IfOk result (λ packages. packages.items ≡ packages_of pairs.now) }
{
    let mut packages = Vec::new(alloc);
    for pair in pairs {
        packages.push(CountingPkg::of_pair(alloc, pair)?)?;
    }
    Ok(packages)
}

/// The packages, lent, in their order. Memory alone can fail.
pub fn lend_packages<'k, 'a>(
    alloc: Global,
    packages: &'k [CountingPkg<'_, 'a>],
) -> Result<Vec<&'k Pkg<'a>>, AllocError>
    ensures { IfOk result (λ lent. map (λ pkg. pkg.now) lent.items ≡ packages.now) }
{
    let mut lent = Vec::new(alloc);
    for pkg in packages {
        lent.push(pkg.pkg())?;
    }
    Ok(lent)
}
