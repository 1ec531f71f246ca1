// Which packages a goal or a name seeks, by their names and versions alone.

ghost use Rattle.std.specs.Prelude.{◌≡◌, ◌↔◌, IsTrue};
ghost use Rattle.rules.specs.Package.{Matches, Meets, Pkg as PkgValue};
ghost use Rattle.rules.specs.Universe.{IsOf};
ghost use Rattle.index.specs.Providers.{plain_atom};
ghost use Rattle.refutecheck.specs.Sought.{IsSought};

use debversion::Version;
use rules::{Restriction, VersionText};
use universe::Pair;

/// The packages that are sought. All have one name.
#[derive(Clone, Copy)]
pub enum Sought<'q, 'a> {
    /// Those of this name.
    OfName(&'q [u8]),
    /// Those of this name in a version that meets the restriction, if there is one.
    Meeting(&'q [u8], &'q Option<Restriction>),
    /// Those of this name in this version.
    InVersion(&'q [u8], &'q Version<'a>),
}

/// Whether two names are equal.
pub fn is_same(name: &[u8], other: &[u8]) -> bool
    ensures { IsTrue result ↔ (name.now ≡ other.now) }
{
    name == other
}

// The owned text as a version, which it is.
fn version_of(text: &VersionText) -> Version<'_>
    ensures { result ≡ text.now }
{
    Version::parse(text.as_bytes()).unwrap()
}

// Whether the version meets the restriction, if there is one.
fn meets(version: &Version<'_>, restriction: &Option<Restriction>) -> bool
    ensures { IsTrue result ↔ Meets version.now restriction.now }
{
    match restriction {
        None => true,
        Some(restriction) => version.satisfies(restriction.op, &version_of(&restriction.version)),
    }
}

// Whether the package is of the name, in a version that meets the restriction, if there is one.
fn is_meeting(pair: &Pair<'_, '_>, name: &[u8], restriction: &Option<Restriction>) -> bool
    ensures { IsTrue result
        ↔ ((pair.now.pkg.name ≡ name.now) × Meets pair.now.pkg.version restriction.now) }
{
    is_same(pair.name(), name) && meets(&pair.version(), restriction)
}

// Whether the package is of the name and in the version.
fn is_of(pair: &Pair<'_, '_>, name: &[u8], version: &Version<'_>) -> bool
    ensures { IsTrue result ↔ IsOf name.now version.now pair.now.pkg }
{
    is_same(pair.name(), name) && pair.version() == *version
}

/// Whether the package of the pair is one that is sought.
pub fn is_sought(pair: &Pair<'_, '_>, sought: Sought<'_, '_>) -> bool
    ensures { IsTrue result ↔ IsSought sought.entry pair.now.pkg }
{
    match sought {
        Sought::OfName(name) => is_same(pair.name(), name),
        Sought::Meeting(name, restriction) => is_meeting(pair, name, restriction),
        Sought::InVersion(name, version) => is_of(pair, name, version),
    }
}

/// The name that all packages have that are sought.
pub fn name_of<'q>(sought: Sought<'q, '_>) -> &'q [u8]
    ensures { (pkg : PkgValue) → IsSought sought.entry pkg → Matches pkg (plain_atom result.now) }
{
    match sought {
        Sought::OfName(name) => name,
        Sought::Meeting(name, _) => name,
        Sought::InVersion(name, _) => name,
    }
}
