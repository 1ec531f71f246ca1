//! An index that is read from a source, a stanza at a time.
ghost use Rattle.std.specs.Prelude.{◌≡◌, ◌≢◌, ◌+◌, ◌-◌, ◌^◌, ℕ, List, Some, IfErr, IfOk, Ok, min, true};
ghost use Rattle.index.specs.Index.{next_place};
ghost use Rattle.index.specs.Row.{AreRows, stanzas_at};
ghost use Rattle.index.specs.Streamed.{IsStreamFault, read_stream};
ghost use Rattle.index.specs.declared.stream_error.StreamError.TheVariants as error;

use crate::rows::KeptRows;
use crate::stream_error::StreamError;
use relation::Acceptor;
use rules::{IndexPlace, TEXT_BYTES};
use stanza::{Reader, Source};
use std::alloc::{AllocError, Global};

// The place of the stanza behind the one at this place. A number beyond 64 bits is answered as want of memory.
fn next(place: IndexPlace) -> Result<IndexPlace, AllocError>
    ensures { IfOk result (λ next. next ≡ next_place place) }
{
    match place.stanza.checked_add(1) {
        Some(stanza) => Ok(IndexPlace {
            index: place.index,
            stanza,
        }),
        None => Err(AllocError),
    }
}

/// The packages of the text that the source has, for this architecture, as the index of this number, behind so many packages
/// of earlier indices.
pub fn read_rows<S: Source>(
    alloc: Global,
    source: &mut S,
    arch: &[u8],
    number: usize,
    before: usize,
) -> Result<KeptRows, StreamError>
    ensures rows { IfOk result (λ kept. AreRows kept.arena.items kept.rows.items) }
    ensures ok { (text : List ℕ) → S.left source.old ≡ Some text
        → IfOk result
        (λ kept. read_stream arch.now number before text
        ≡ Ok (stanzas_at arch.now number kept)) }
    ensures err { (text : List ℕ) → S.left source.old ≡ Some text
        → IfErr result (λ e. IsStreamFault e (read_stream arch.now number before text)) }
    ensures sure { S.is_sure source.old ≡ true → IfErr result (λ e. e ≢ error.Read) }
    ensures failed { IfErr result
        (λ e. e ≡ error.Read → S.faults source.new ≡ min (S.faults source.old + 1) (2 ^ 64 - 1)) }
{
    let mut kept = KeptRows::new(alloc);
    let mut place = IndexPlace {
        index: number,
        stanza: 1,
    };
    let acceptor = Acceptor::new(alloc)?;
    let mut reader = Reader::new(alloc, TEXT_BYTES)?;
    loop {
        reader.advance(source)?;
        match reader.stanza() {
            Some(stanza) => kept.add(&stanza, arch, place, before, &acceptor)?,
            None => return Ok(kept),
        }
        place = next(place)?;
    }
}
