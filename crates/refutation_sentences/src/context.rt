// What sentences are told from.

ghost use Rattle.std.specs.Prelude.{◌≡◌, ◌++◌, OnOk};
ghost use Rattle.std.specs.Option.{option_copied};
ghost use Rattle.refutation_sentences.specs.Offers.{standing_of};
ghost use Rattle.refutation_sentences.specs.Reasons.{is_held};
ghost use Rattle.refutation_sentences.specs.Words as Words;

use debversion::Version;
use index::Index;
use phrases::push_versioned;
use pins::Prefs;
use refutecheck::Premises;
use std::alloc::{AllocError, Global};
use universe::{Pair, Universe};

/// The premises of a universe, its indices and preferences, and whether all versions were asked for.
#[derive(Drop)]
pub(crate) struct Context<'k, 'u, 'p, 'a, 'i> {
    pub(crate) premises: &'k Premises<'u, 'p, 'a>,
    pub(crate) indices: &'k [Index<'i>],
    pub(crate) prefs: &'k Prefs,
    pub(crate) all_versions: bool,
}

// Writes the name and the version of the pair.
fn push_pair(text: &mut Vec<u8>, pair: &Pair<'_, '_>) -> Result<(), AllocError>
    ensures { OnOk result (text.new.items ≡ text.old.items ++ Words.package_words pair.now.pkg) }
{
    let version = pair.version();
    push_versioned(text, pair.name(), version.text())
}

impl<'k, 'u, 'p, 'a, 'i> Context<'k, 'u, 'p, 'a, 'i> {
    /// The allocator that memory is taken from.
    pub(crate) fn alloc(&self) -> Global {
        self.premises.alloc()
    }

    /// The universe that is told of.
    pub(crate) fn universe(&self) -> &'u Universe<'p, 'a>
        ensures { result.now ≡ self.now.premises.now }
    {
        self.premises.universe()
    }

    /// Whether the start says that the name is held.
    pub(crate) fn is_held(&self, name: &[u8]) -> bool
        ensures { result ≡ is_held self.now.premises.now name.now }
    {
        match self.premises.start(name) {
            None => false,
            Some(start) => start.is_held(),
        }
    }

    /// The version of the name that stands at the start, if one does.
    pub(crate) fn standing(&self, name: &[u8]) -> Option<&'u Version<'a>>
        ensures { option_copied result ≡ standing_of self.now.premises.now name.now }
    {
        match self.premises.start(name) {
            None => None,
            Some(start) => start.standing(),
        }
    }

    /// Writes the name and the version of the pair of this number.
    pub(crate) fn push_number(&self, text: &mut Vec<u8>, number: u32) -> Result<(), AllocError>
        ensures { OnOk result
            (text.new.items ≡ text.old.items ++ Words.pair_words self.now.premises.now number) }
    {
        match self.premises.pair_at(number) {
            None => Ok(()),
            Some(pair) => push_pair(text, pair),
        }
    }
}
