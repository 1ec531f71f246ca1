//! An index whose texts are kept, and not the text that it was read from.
ghost use Rattle.std.specs.Prelude.{◌≡◌, ◌≢◌, ◌+◌, ◌-◌, ◌^◌, ℕ, List, Some, IfErr, IfOk, Ok, length, min, true};
ghost use Rattle.index.specs.Streamed.{IsStreamFault, read_stream};
ghost use Rattle.rules.specs.Names.{HasListedNames};
ghost use Rattle.index.specs.declared.stream_error.StreamError.TheVariants as error;

use crate::index_entry::IndexEntry;
use crate::row::{KeptTexts, Row, entries_of};
use crate::rows::KeptRows;
use crate::stream::read_rows;
use crate::stream_error::StreamError;
use stanza::Source;
use std::alloc::{AllocError, Global};
use std::marker::Model;

/// The packages of an index for an architecture: the texts that they are read from, one behind another, and a row for each.
/// And how many stanzas were skipped, since they are of another architecture.
#[derive(Drop)]
pub struct KeptIndex {
    texts: KeptTexts,
    rows: Vec<Row>,
    skipped: usize,
}

impl Model for KeptIndex {
    ghost use Rattle.index.specs.Index.{ReadStanzas};
    ghost use Rattle.index.specs.Row.{AreRows, packages_at};

    ghost Value = { ReadStanzas };

    ghost view = { λ k. record {
      listed = packages_at k.texts.arch.items k.texts.number k.texts.arena.items k.rows.items;
      skipped = k.skipped;
    } };

    ghost invariant = { λ k. AreRows k.texts.arena.items k.rows.items };
}

// The bytes, copied.
fn copy_of(alloc: Global, bytes: &[u8]) -> Result<Vec<u8>, AllocError>
    ensures { IfOk result (λ own. own.items ≡ bytes.now) }
{
    let mut own = Vec::new(alloc);
    own.extend_from_slice(bytes)?;
    Ok(own)
}

impl KeptIndex {
    /// The index that the text of the source is for the configured architecture `arch`. A stanza counts where its Architecture
    /// is `all` or `arch`, byte for byte; the others are skipped and counted. `number` is that of the index, counted from 1: a
    /// package is at the place of this index and of its stanza. `before` is the number of packages of the earlier indices:
    /// over all of them four million are read.
    /// The first refusal is answered, of the first stanza that has one: of its lines, then of Package, then of Architecture,
    /// and of a stanza that counts then of Version and of the relation fields, and last that it is a package too many. A text
    /// that is too long is refused where that shows, behind the refusals of the stanzas in front. It owns what it keeps. No
    /// more of the text is held at a time than a stanza and a block behind it. Linear in the text.
    pub fn read_from<S: Source>(
        alloc: Global,
        source: &mut S,
        arch: &[u8],
        number: usize,
        before: usize,
    ) -> Result<KeptIndex, StreamError>
        ensures ok { (text : List ℕ) → S.left source.old ≡ Some text
            → IfOk result (λ kept. read_stream arch.now number before text ≡ Ok kept) }
        ensures err { (text : List ℕ) → S.left source.old ≡ Some text
            → IfErr result (λ e. IsStreamFault e (read_stream arch.now number before text)) }
        ensures sure { S.is_sure source.old ≡ true → IfErr result (λ e. e ≢ error.Read) }
        ensures failed { IfErr result
            (λ e. e ≡ error.Read → S.faults source.new
            ≡ min (S.faults source.old + 1) (2 ^ 64 - 1)) }
    {
        let own = copy_of(alloc, arch)?;
        let KeptRows {
            arena,
            rows,
            skipped,
        } = read_rows(alloc, source, arch, number, before)?;
        let texts = KeptTexts {
            arch: own,
            number,
            arena,
        };
        Ok(KeptIndex {
            texts,
            rows,
            skipped,
        })
    }

    // The packages, in the order of the text.
    #[tactic(auto, using(crate::proofs::RowLemmas::packages_named))]
    pub(crate) fn entries(&self, alloc: Global) -> Result<Vec<IndexEntry<'_>>, AllocError>
        ensures items { IfOk result (λ entries. entries.items ≡ self.now.listed) }
        ensures named { HasListedNames self.now.listed }
    {
        entries_of(alloc, &self.texts, self.rows.as_slice())
    }

    /// How many packages there are.
    pub fn count(&self) -> usize
        ensures { result ≡ length self.now.listed }
    {
        self.rows.len()
    }

    /// How many stanzas are of another architecture.
    pub fn skipped_count(&self) -> usize
        ensures { result ≡ self.now.skipped }
    {
        self.skipped
    }
}
