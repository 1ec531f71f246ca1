//! A text that is one stanza of a status file.
ghost use Rattle.std.specs.Prelude.{◌≡◌};
ghost use Rattle.status_text.specs.Alone.{alone, alone_item};

use crate::entry::slot_alone;
use crate::record::StatusRecord;
use crate::slot::Slot;
use stanza::{Stanza, StanzaError, Stanzas};

// The slot of an item that is a stanza, where nothing of it is refused.
fn item_alone<'a>(
    item: &Result<Stanza<'a>, StanzaError>,
    arch: &'a [u8],
) -> Option<Slot<'a, StatusRecord<'a>>>
    ensures { result ≡ alone_item arch.now item.now }
{
    match item {
        Ok(stanza) => match slot_alone(stanza, arch) {
            Ok(slot) => Some(slot),
            Err(_) => None,
        },
        Err(_) => None,
    }
}

/// The slot of a text that is one stanza, if that isn't refused for the configured architecture `arch`. It borrows both, and
/// takes no memory. Linear in the text.
pub fn read_alone<'a>(text: &'a [u8], arch: &'a [u8]) -> Option<Slot<'a, StatusRecord<'a>>>
    ensures { result ≡ alone arch.now text.now }
{
    let mut stanzas = Stanzas::new(text);
    match (stanzas.next(), stanzas.next()) {
        (Some(item), None) => item_alone(&item, arch),
        _ => None,
    }
}
