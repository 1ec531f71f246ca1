//! The fields that a reader of packages looks for, by their names.
ghost use Rattle.std.specs.Prelude.{◌≡◌, ◌↔◌, ◌∷◌, [], Some};
ghost use Rattle.stanza.specs.Field.{same_name};
ghost use Rattle.relation.specs.Kind.{IsOfKind, first_called, name_of};

/// A field of a stanza from which a package is read.
#[derive(Clone, Copy, Debug, PartialEq, Eq)]
pub enum Kind {
    /// `Package`
    Package,
    /// `Version`
    Version,
    /// `Pre-Depends`
    PreDepends,
    /// `Depends`
    Depends,
    /// `Conflicts`
    Conflicts,
    /// `Breaks`
    Breaks,
    /// `Provides`
    Provides,
    /// `Architecture`
    Architecture,
    /// `Essential`
    Essential,
    /// `Protected`
    Protected,
}

fn name_of(kind: Kind) -> &'static [u8]
    ensures { result.now ≡ name_of kind }
{
    match kind {
        Kind::Package => b"Package",
        Kind::Version => b"Version",
        Kind::PreDepends => b"Pre-Depends",
        Kind::Depends => b"Depends",
        Kind::Conflicts => b"Conflicts",
        Kind::Breaks => b"Breaks",
        Kind::Provides => b"Provides",
        Kind::Architecture => b"Architecture",
        Kind::Essential => b"Essential",
        Kind::Protected => b"Protected",
    }
}

fn is_called(kind: Kind, name: &[u8]) -> bool
    ensures { result ≡ same_name name.now (name_of kind) }
{
    name.eq_ignore_ascii_case(name_of(kind))
}

// The kind, where this is its name.
fn if_called(kind: Kind, name: &[u8]) -> Option<Kind>
    ensures { result ≡ first_called (kind ∷ []) name.now }
{
    if is_called(kind, name) {
        Some(kind)
    } else {
        None
    }
}

// The first of three kinds that has this name.
fn first_called(first: Kind, second: Kind, third: Kind, name: &[u8]) -> Option<Kind>
    ensures { result ≡ first_called (first ∷ second ∷ third ∷ []) name.now }
{
    if is_called(first, name) {
        Some(first)
    } else if is_called(second, name) {
        Some(second)
    } else {
        if_called(third, name)
    }
}

/// The kind of a field of this name, whatever the case of its letters: by the length of the name, and then by at most three
/// comparisons.
pub fn kind_of(name: &[u8]) -> Option<Kind>
    ensures { (kind : Kind) → (result ≡ Some kind) ↔ IsOfKind kind name.now }
{
    match name.len() {
        6 => if_called(Kind::Breaks, name),
        7 => first_called(Kind::Package, Kind::Version, Kind::Depends, name),
        8 => if_called(Kind::Provides, name),
        9 => first_called(Kind::Conflicts, Kind::Essential, Kind::Protected, name),
        11 => if_called(Kind::PreDepends, name),
        12 => if_called(Kind::Architecture, name),
        _ => None,
    }
}
