//! The stanza of a pair, and its bytes.
ghost use Rattle.std.specs.Prelude.{◌≡◌, MatchOption, None, Some};
ghost use Rattle.std.specs.Option.{option_copied};
ghost use Rattle.rules.specs.Step.{IndexPackage};
ghost use Rattle.unpack_texts.specs.Stanzas.{IsOfIndex, is_there};

use index::IndexEntry;
use std::marker::Model;

/// What is there of a pair: its stanza in the indices as it was read at first, if there is one, which is lent, and the bytes of
/// that stanza once they were fetched.
#[derive(Drop)]
pub(crate) struct PairStanza<'p, 'a> {
    listed: Option<&'p IndexEntry<'a>>,
    bytes: Option<Vec<u8>>,
}

impl<'p, 'a> Model for PairStanza<'p, 'a> {
    ghost use Rattle.std.specs.Option.{option_copied, option_map};
    ghost use Rattle.unpack_texts.specs.Stanzas.{PairStanza as PairStanzaValue};

    ghost Value = { PairStanzaValue };

    ghost view = { λ s. record { listed = option_copied s.listed; bytes = option_map (λ bytes. bytes.items) s.bytes } };
}

impl<'p, 'a> PairStanza<'p, 'a> {
    /// The stanza of a pair, which wasn't fetched.
    pub(crate) fn without_bytes(listed: Option<&'p IndexEntry<'a>>) -> PairStanza<'p, 'a>
        ensures { result ≡ record { listed = option_copied listed.entry; bytes = None } }
    {
        PairStanza {
            listed,
            bytes: None,
        }
    }

    /// The stanza with its bytes.
    pub(crate) fn with_bytes(listed: &'p IndexEntry<'a>, bytes: Vec<u8>) -> PairStanza<'p, 'a>
        ensures { result ≡ record { listed = Some listed.now; bytes = Some bytes.items } }
    {
        PairStanza {
            listed: Some(listed),
            bytes: Some(bytes),
        }
    }

    /// The stanza, where it is of the index of this number.
    pub(crate) fn of_index(&self, number: usize) -> Option<&'p IndexEntry<'a>>
        ensures { MatchOption result
            ((listed : IndexPackage) → ¬ IsOfIndex number self.now listed)
            (λ entry. IsOfIndex number self.now entry.now) }
    {
        match self.listed {
            Some(entry) if entry.place().index == number => Some(entry),
            _ => None,
        }
    }

    /// The bytes of the stanza, if they were fetched.
    pub(crate) fn bytes(&self) -> Option<&[u8]>
        ensures { option_copied result ≡ self.now.bytes }
    {
        match &self.bytes {
            Some(bytes) => Some(bytes.as_slice()),
            None => None,
        }
    }

    /// Whether the indices have no stanza of the pair, or its bytes were fetched.
    pub(crate) fn is_there(&self) -> bool
        ensures { result ≡ is_there self.now }
    {
        self.listed.is_none() || self.bytes.is_some()
    }
}
