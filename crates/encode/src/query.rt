// Which packages of one name a clause asks for.

ghost use Rattle.std.specs.Prelude.{◌≡◌, ◌↔◌, IsTrue};
ghost use Rattle.rules.specs.Package.{Matches, Meets, Pkg as PkgValue};
ghost use Rattle.rules.specs.Universe.{IsOf};
ghost use Rattle.index.specs.Providers.{plain_atom};
ghost use Rattle.encode.specs.Numbers.{IsAsked};

use debversion::Version;
use relation::Pkg;
use rules::{Restriction, VersionText};

/// Packages of one name that are asked for.
#[derive(Clone, Copy)]
pub(crate) enum Query<'q, 'a> {
    /// Those of the name.
    Named(&'q [u8]),
    /// Those of the name in a version that meets the restriction, if there is one.
    Meeting(&'q [u8], &'q Option<Restriction>),
    /// Those of the name in the version.
    InVersion(&'q [u8], &'q Version<'a>),
}

/// Whether the package has the name.
pub(crate) fn has_name(pkg: &Pkg<'_>, name: &[u8]) -> bool
    ensures { IsTrue result ↔ (pkg.now.name ≡ name.now) }
{
    pkg.name() == name
}

fn version_of(text: &VersionText) -> Version<'_>
    ensures { result ≡ text.now }
{
    Version::parse(text.as_bytes()).unwrap()
}

// Whether the version meets the restriction, if there is one.
fn is_meeting(version: &Version<'_>, restriction: &Option<Restriction>) -> bool
    ensures { IsTrue result ↔ Meets version.now restriction.now }
{
    match restriction {
        None => true,
        Some(asked) => version.satisfies(asked.op, &version_of(&asked.version)),
    }
}

impl<'q, 'a> Query<'q, 'a> {
    /// Whether the package is asked for.
    pub(crate) fn asks_for(self, pkg: &Pkg<'_>) -> bool
        ensures { IsTrue result ↔ IsAsked self.entry pkg.now }
    {
        match self {
            Query::Named(name) => has_name(pkg, name),
            Query::Meeting(name, restriction) => {
                has_name(pkg, name) && is_meeting(pkg.version(), restriction)
            }
            Query::InVersion(name, version) => has_name(pkg, name) && pkg.version() == version,
        }
    }

    /// The name that all packages have that are asked for.
    pub(crate) fn name(self) -> &'q [u8]
        ensures { (pkg : PkgValue) → IsAsked self.entry pkg → Matches pkg (plain_atom result.now) }
    {
        match self {
            Query::Named(name) => name,
            Query::Meeting(name, _) => name,
            Query::InVersion(name, _) => name,
        }
    }
}
