//! Packages of which contracts alone know.
ghost use Rattle.std.specs.Prelude.{◌≡◌};

use index::IndexEntry;
use relation::Pkg;
use std::marker::Model;
use std::snapshot::Snapshot;
use universe_parts::Pair;

/// A package that a contract can name, though no value of it is here: it was seen where it was read, or in the entry of an
/// index that it can be read from.
#[derive(Drop)]
pub(crate) struct SeenPkg<'a> {
    read: Option<Snapshot<Pkg<'a>>>,
    listed: Option<Snapshot<IndexEntry<'a>>>,
}

impl<'a> Model for SeenPkg<'a> {
    ghost use Rattle.std.specs.Option.{option_map};
    ghost use Rattle.rules.specs.Package.{Pkg as PkgValue};
    ghost use Rattle.universe_parts.specs.Pair.{counting_pkg};

    ghost Value = { PkgValue };

    ghost view = { λ s. counting_pkg (option_map (λ seen. seen.value) s.read) (option_map (λ seen. seen.value) s.listed) };
}

impl<'a> SeenPkg<'a> {
    /// The package.
    pub(crate) fn of_pkg(pkg: &Pkg<'a>) -> SeenPkg<'a>
        ensures { result ≡ pkg.now }
    {
        SeenPkg {
            read: Some(Snapshot::of(pkg)),
            listed: None,
        }
    }

    // The package of the entry.
    fn of_entry(entry: &IndexEntry<'a>) -> SeenPkg<'a>
        ensures { result ≡ entry.now.pkg }
    {
        SeenPkg {
            read: None,
            listed: Some(Snapshot::of(entry)),
        }
    }

    /// The package of the pair.
    pub(crate) fn of_pair(pair: &Pair<'_, 'a>) -> SeenPkg<'a>
        ensures { result ≡ pair.now.pkg }
    {
        match pair.standing_pkg() {
            Some(pkg) => SeenPkg::of_pkg(pkg),
            None => match pair.index_entry() {
                Some(entry) => SeenPkg::of_entry(entry),
                None => unreachable!(),
            },
        }
    }
}
