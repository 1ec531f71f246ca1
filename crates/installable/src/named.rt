//! Which of the names that are asked about no index has.
ghost use Rattle.std.specs.Prelude.{◌≡◌, ℕ, IfErr, None, OnOk, Some, bytes_eq, map, not};
ghost use Rattle.std.specs.List.{list_any, position};
ghost use Rattle.candidates.specs.Inputs.{indices_of};
ghost use Rattle.installable.specs.Asked.{first_missing, has_package, unknown_name};

use index::Index;
use inputs::{Fault, Input, Refusal};

// Whether a stanza of the index has the name.
fn index_has(index: &Index<'_>, name: &[u8]) -> bool
    ensures { result
        ≡ list_any (λ stanza. bytes_eq stanza.pkg.name name.now) index.now.index.listed }
{
    index.packages().iter().any(|entry| entry.name() == name)
}

// Whether one of the indices has a stanza of the name.
fn some_has(indices: &[Index<'_>], name: &[u8]) -> bool
    ensures { result
        ≡ list_any (λ read.
        list_any (λ stanza. bytes_eq stanza.pkg.name name.now) read.index.listed) indices.now }
{
    indices.iter().any(|index| index_has(index, name))
}

// Whether a stanza of the indices has the name.
fn has_package(indices: &[Index<'_>], name: &[u8]) -> bool
    ensures { result ≡ has_package (indices_of indices.now) name.now }
{
    some_has(indices, name)
}

// Where the first of the names stands that no stanza has, among these words.
fn place_of_missing(indices: &[Index<'_>], names: &[&str]) -> Option<usize>
    ensures { result
        ≡ position (λ name. not (has_package (indices_of indices.now) name.now)) names.now }
{
    names
        .iter()
        .position(|name| !has_package(indices, name.as_bytes()))
}

// Where the first of the names stands that no stanza has.
fn first_missing(indices: &[Index<'_>], names: &[&str]) -> Option<usize>
    ensures { result ≡ first_missing (indices_of indices.now) (map (λ name. name.now) names.now) }
{
    place_of_missing(indices, names)
}

/// Refuses the first of the names that no stanza of the indices has (E17), with its number among them. Each name costs a walk over the
/// stanzas.
pub(crate) fn check_names(indices: &[Index<'_>], names: &[&str]) -> Result<(), Refusal>
    ensures none { OnOk result
        (first_missing (indices_of indices.now) (map (λ name. name.now) names.now) ≡ None) }
    ensures missing { IfErr result (λ refused. (place : ℕ)
        × (first_missing (indices_of indices.now) (map (λ name. name.now) names.now) ≡ Some place)
        × (refused ≡ unknown_name place)) }
{
    match first_missing(indices, names) {
        None => Ok(()),
        Some(place) => Err(Refusal {
            place: Input::Request,
            fault: Fault::UnknownName(place + 1),
        }),
    }
}
