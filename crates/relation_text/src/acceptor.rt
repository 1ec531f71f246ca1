//! The quick test of a value by tables, in front of the exact one.
ghost use Rattle.std.specs.Prelude.{◌≡◌, ◌<◌, IfOk, IsTrue, MatchResult, None, Some};
ghost use Rattle.relation_text.specs.Quick as Spec;
ghost use Rattle.relation_text.specs.Quick.{IsTable, quick_accepts, quick_after};
ghost use Rattle.relation_text.specs.Refusal.{fault_of};
ghost use Rattle.relation_text.specs.declared.quick.QuickState.TheVariants.{At};
ghost use Rattle.relation_text.specs.declared.shape.RelationForm.TheVariants as form_is;
ghost use Rattle.relation_text.specs.declared.shape.ShapePlace.TheVariants.{Between};

use crate::error::RelationFault;
use crate::quick::{number_of, place_of, quick_next, state_of};
use crate::refusal::{MOST_ATOMS, check};
use crate::shape::{RelationForm, is_end};
use std::alloc::{AllocError, Global};

// How many cells a table has: 17 rows, one a state, of 256.
const CELLS: usize = 4352;

/// The tables by which a value is tested with one look a byte. They accept nearly all values that aren't refused, and none
/// that is; what they don't accept is tested by `check`. They are made once for many values.
#[derive(Drop)]
pub struct Acceptor {
    clauses: Vec<u8>,
    atoms: Vec<u8>,
    provides: Vec<u8>,
    ghost of_clauses: { IsTable form_is.Clauses clauses.items },
    ghost of_atoms: { IsTable form_is.Atoms atoms.items },
    ghost of_provides: { IsTable form_is.Provides provides.items },
}

#[tactic(auto, unfolding(crate::specs::Quick::cell))]
fn cell(form: RelationForm, at: usize) -> u8
    requires { at < 4352 }
    ensures { result ≡ Spec.cell form at }
{
    number_of(quick_next(form, state_of((at / 256) as u8), (at % 256) as u8))
}

fn table(alloc: Global, form: RelationForm) -> Result<Vec<u8>, AllocError>
    ensures { IfOk result (λ table. IsTable form table.items) }
{
    let mut table = Vec::with_capacity(alloc, CELLS)?;
    for at in 0..CELLS {
        table.push(cell(form, at))?;
    }
    Ok(table)
}

impl Acceptor {
    /// The tables of the three forms. Memory alone can fail: 13 thousand bytes are taken.
    pub fn new(alloc: Global) -> Result<Acceptor, AllocError> {
        let clauses = table(alloc, RelationForm::Clauses)?;
        let atoms = table(alloc, RelationForm::Atoms)?;
        let provides = table(alloc, RelationForm::Provides)?;
        Ok(Acceptor {
            clauses,
            atoms,
            provides,
        })
    }

    fn table_of(&self, form: RelationForm) -> &[u8]
        ensures { IsTable form result.now }
    {
        match form {
            RelationForm::Clauses => self.clauses.as_slice(),
            RelationForm::Atoms => self.atoms.as_slice(),
            RelationForm::Provides => self.provides.as_slice(),
        }
    }

    // The number of the state behind the value.
    fn number_after(&self, form: RelationForm, value: &[u8]) -> u8
        ensures { result ≡ Spec.number_of (quick_after form (At Between) value.now) }
    {
        let table = self.table_of(form);
        let mut number = 0;
        for byte in value {
            number = table[number as usize * 256 + *byte as usize];
        }
        number
    }

    /// Whether the tables accept the value, which then isn't refused: where it has fewer than 65,535 bytes, and the quick
    /// reading of them comes to an end. One look a byte.
    pub fn accepts(&self, form: RelationForm, value: &[u8]) -> bool
        ensures exact { result ≡ quick_accepts form value.now }
        ensures sound { IsTrue result → fault_of form value.now ≡ None }
    {
        value.len() < MOST_ATOMS && is_end(place_of(state_of(self.number_after(form, value))))
    }

    /// Tests the value of a relation field, as `check` does, and takes no memory.
    pub fn check_by(&self, form: RelationForm, value: &[u8]) -> Result<(), RelationFault>
        ensures { MatchResult result (λ _. fault_of form value.now ≡ None)
            (λ fault. fault_of form value.now ≡ Some fault) }
    {
        if self.accepts(form, value) {
            Ok(())
        } else {
            check(form, value)
        }
    }
}
