//! One item of an index's text: whether its stanza counts, and what it gives.
ghost use Rattle.std.specs.Prelude.{◌≡◌, Err, MatchResult, None, Ok, Some};
ghost use Rattle.index.specs.Index as Spec;
ghost use Rattle.index.specs.Walk.{index_fields_of};

use crate::error::IndexFault;
use crate::index_stanza::IndexStanza;
use crate::walk::IndexFields;
use relation::counts_for;
use rules::IndexPlace;
use stanza::{Stanza, StanzaError};

// The stanza, which counts, with the package of the fields that were found in it.
fn read_indexed<'a>(
    stanza: &Stanza<'a>,
    index_fields: &IndexFields<'a>,
    arch: &'a [u8],
    place: IndexPlace,
) -> Result<Option<IndexStanza<'a>>, IndexFault>
    requires { index_fields.now ≡ index_fields_of stanza.now }
    ensures { MatchResult result
        (λ indexed. Spec.read_indexed arch.now place stanza.now ≡ Ok indexed)
        (λ fault. Spec.read_indexed arch.now place stanza.now ≡ Err fault) }
{
    let read = IndexStanza::read(
        &index_fields.pkg,
        arch,
        index_fields.is_essential,
        index_fields.says_essential,
        place,
        stanza.again(),
    );
    match read {
        Ok(indexed) => Ok(Some(indexed)),
        Err(fault) => Err(IndexFault::Pkg(fault)),
    }
}

// What the stanza gives: nothing where its architecture doesn't count.
fn read_entry<'a>(
    stanza: &Stanza<'a>,
    arch: &'a [u8],
    place: IndexPlace,
) -> Result<Option<IndexStanza<'a>>, IndexFault>
    ensures { MatchResult result
        (λ indexed. Spec.read_entry arch.now place stanza.now ≡ Ok indexed)
        (λ fault. Spec.read_entry arch.now place stanza.now ≡ Err fault) }
{
    let index_fields = IndexFields::in_stanza(stanza);
    if let Err(fault) = index_fields.pkg.name() {
        return Err(IndexFault::Pkg(fault));
    }
    match index_fields.architecture {
        None => Err(IndexFault::MissingArchitecture(stanza.line())),
        Some(value) => {
            if counts_for(arch, value) {
                read_indexed(stanza, &index_fields, arch, place)
            } else {
                Ok(None)
            }
        }
    }
}

// What an item of the text gives, whose stanza is at the place.
pub fn read_item<'a>(
    item: &Result<Stanza<'a>, StanzaError>,
    arch: &'a [u8],
    place: IndexPlace,
) -> Result<Option<IndexStanza<'a>>, IndexFault>
    ensures { MatchResult result
        (λ indexed. Spec.read_item arch.now place item.now ≡ Ok indexed)
        (λ fault. Spec.read_item arch.now place item.now ≡ Err fault) }
{
    match item {
        Ok(stanza) => read_entry(stanza, arch, place),
        Err(fault) => Err(IndexFault::Stanza(*fault)),
    }
}
