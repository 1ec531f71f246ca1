//! The rows of an index while its text is read.
ghost use Rattle.std.specs.Prelude.{◌≡◌, ◌+◌, [], ◌∷◌, ℕ, IfErr, List, OnOk, Result, length, nat_le};
ghost use Rattle.relation.specs.PkgValues.{spelled};
ghost use Rattle.rules.specs.declared.limits.TheConstants.{PACKAGES as MOST};
ghost use Rattle.index.specs.Error.{IsIndexFault};
ghost use Rattle.index.specs.Index as Spec;
ghost use Rattle.index.specs.Index.{ReadStanzas as Read};
ghost use Rattle.index.specs.Row.{AreRows, stanzas_at};
ghost use Rattle.index.specs.declared.error.IndexFault.{IndexFault as Fault};

use crate::error::{IndexError, IndexFault};
use crate::row::{Row, keep_row};
use crate::walk::IndexFields;
use relation::{Acceptor, PkgValues};
use rules::{IndexPlace, PACKAGES};
use stanza::ReadStanza;
use std::alloc::{AllocError, Global};

// Whether this many packages, of earlier indices and of this one, are as many as are read.
fn is_full(before: usize, count: usize) -> bool
    ensures { result ≡ nat_le MOST (before + count) }
{
    before.saturating_add(count) >= PACKAGES
}

/// The texts of the packages so far, a row for each, and how many stanzas were skipped.
#[derive(Drop)]
pub struct KeptRows {
    pub(crate) arena: Vec<u8>,
    pub(crate) rows: Vec<Row>,
    pub(crate) skipped: usize,
}

impl KeptRows {
    /// No packages.
    pub(crate) fn new(alloc: Global) -> KeptRows
        ensures arena { result.arena.items ≡ [] }
        ensures rows { result.rows.items ≡ [] }
        ensures skipped { result.skipped ≡ 0 }
    {
        KeptRows {
            arena: Vec::new(alloc),
            rows: Vec::new(alloc),
            skipped: 0,
        }
    }

    // Counts one more stanza that is skipped.
    fn skip(&mut self) -> Result<(), AllocError>
        ensures arena { self.new.arena ≡ self.old.arena }
        ensures rows { self.new.rows ≡ self.old.rows }
        ensures skipped { OnOk result (self.new.skipped ≡ self.old.skipped + 1) }
    {
        match self.skipped.checked_add(1) {
            Some(skipped) => {
                self.skipped = skipped;
                Ok(())
            }
            None => Err(AllocError),
        }
    }

    // Puts the package of these values, with these two marks, of the stanza of this number behind the others.
    fn push(
        &mut self,
        values: &PkgValues<'_>,
        is_essential: bool,
        says_essential: bool,
        stanza: usize,
    ) -> Result<(), AllocError>
        requires { AreRows self.old.arena.items self.old.rows.items }
        ensures rows { OnOk result (AreRows self.new.arena.items self.new.rows.items) }
        ensures one { OnOk result (length self.new.rows.items ≡ length self.old.rows.items + 1) }
        ensures more { (arch : List ℕ) (number : ℕ) → OnOk result (stanzas_at arch number self.new
            ≡ Spec.joined (stanzas_at arch number self.old) (record {
              listed = record {
                pkg = spelled arch values.now;
                is_essential = is_essential;
                says_essential = says_essential;
                place = record { index = number; stanza = stanza };
              } ∷ [];
              skipped = 0;
            })) }
    {
        let row = keep_row(
            &mut self.arena,
            values,
            is_essential,
            says_essential,
            stanza,
        )?;
        self.rows.push(row)?;
        Ok(())
    }

    /// Adds what the stanza at the place gives for the architecture, behind so many packages of earlier indices.
    pub(crate) fn add(
        &mut self,
        stanza: &ReadStanza<'_>,
        arch: &[u8],
        place: IndexPlace,
        before: usize,
        acceptor: &Acceptor,
    ) -> Result<(), IndexError>
        requires { AreRows self.old.arena.items self.old.rows.items }
        ensures rows { OnOk result (AreRows self.new.arena.items self.new.rows.items) }
        ensures ok { (later : ℕ → Result Read Fault) → OnOk result (
            Spec.with_stanzas (stanzas_at arch.now place.index self.old)
            (Spec.entry_then (before + length self.old.rows.items)
            (Spec.read_entry arch.now place stanza.now) later)
            ≡ Spec.with_stanzas (stanzas_at arch.now place.index self.new)
            (later (before + length self.new.rows.items))) }
        ensures err { (later : ℕ → Result Read Fault) → IfErr result (λ e. IsIndexFault e
            (Spec.entry_then (before + length self.old.rows.items)
            (Spec.read_entry arch.now place stanza.now) later)) }
    {
        let index_fields = IndexFields::in_read(stanza);
        match index_fields.values(arch, stanza.line(), acceptor)? {
            None => {
                self.skip()?;
                Ok(())
            }
            Some(values) => {
                if is_full(before, self.rows.len()) {
                    return Err(IndexFault::TooLarge.into());
                }
                self.push(
                    &values,
                    index_fields.is_essential,
                    index_fields.says_essential,
                    place.stanza,
                )?;
                Ok(())
            }
        }
    }
}
