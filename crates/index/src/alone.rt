//! A text that is one stanza of an index.
ghost use Rattle.std.specs.Prelude.{◌≡◌};
ghost use Rattle.index.specs.Alone.{alone};

use crate::index_stanza::IndexStanza;
use crate::item::read_item;
use rules::IndexPlace;
use stanza::Stanzas;

// The place of the first stanza of the first index.
const FIRST: IndexPlace = IndexPlace {
    index: 1,
    stanza: 1,
};

/// The stanza of a text that is one, with what is around it, if that can be read and counts for the configured
/// architecture `arch`: the text is read as the first index. It borrows both, and takes no memory. Linear in the text.
pub fn read_alone<'a>(text: &'a [u8], arch: &'a [u8]) -> Option<IndexStanza<'a>>
    ensures { result ≡ alone arch.now text.now }
{
    let mut stanzas = Stanzas::new(text);
    match (stanzas.next(), stanzas.next()) {
        (Some(item), None) => match read_item(&item, arch, FIRST) {
            Ok(indexed) => indexed,
            Err(_) => None,
        },
        _ => None,
    }
}
