// The premises of a universe with their clauses, and how one more is put behind them.

ghost use Rattle.std.specs.Prelude.{◌≡◌, ◌++◌, ◌∷◌, [], IfSome, OnOk, map};
ghost use Rattle.refutation.specs.Clause.{IsListOf};
ghost use Rattle.refutation.specs.Premise.{IsInPremise};
ghost use Rattle.encode.specs.Basis.{premise_of};
ghost use Rattle.encode.specs.Encoding.{signed_number};
ghost use Rattle.encode.specs.Growing.{Grows};

use crate::basis::Basis;
use crate::facts::Facts;
use clauses::Clauses;
use refutation::Literal;
use std::alloc::{AllocError, Global};
use std::marker::Model;

/// The premises of a universe, each with its clause over the numbers of the pairs: `n` says that the pair of the number n
/// is selected, `-n` that it isn't. What is at a place of the list of bases says the clause at that place.
#[derive(Drop)]
pub struct Encoding<'a> {
    bases: Vec<Basis<'a>>,
    clauses: Clauses,
}

impl<'a> Model for Encoding<'a> {
    ghost use Rattle.std.specs.Prelude.{map};
    ghost use Rattle.encode.specs.Basis.{premise_of};
    ghost use Rattle.encode.specs.Encoding.{Encoding as EncodingValue};

    ghost Value = { EncodingValue };

    ghost view = { λ e. record { premises = map premise_of e.bases.items; clauses = e.clauses } };
}

// The literal as clauses over numbers have it; none of a number that doesn't fit one.
fn signed_number(literal: Literal) -> Option<i32>
    ensures { IfSome result (λ number. number ≡ signed_number literal) }
{
    match literal {
        Literal::Selected(number) => i32::try_from(number).ok(),
        Literal::Unselected(number) => match i32::try_from(number) {
            Ok(number) => Some(-number),
            Err(_) => None,
        },
    }
}

impl<'a> Encoding<'a> {
    // No premises, over the numbers from 1 to this one.
    pub(crate) fn new(alloc: Global, numbers: u32) -> Encoding<'a>
        ensures premises { result.premises ≡ [] }
        ensures numbers { result.clauses.numbers ≡ numbers }
        ensures clauses { result.clauses.clauses ≡ [] }
        ensures opened { result.clauses.open_clause ≡ [] }
    {
        Encoding {
            bases: Vec::new(alloc),
            clauses: Clauses::new(alloc, numbers),
        }
    }

    /// What says each clause, in the order of the clauses.
    pub fn bases(&self) -> &[Basis<'a>]
        ensures { map premise_of result.now ≡ self.now.premises }
    {
        self.bases.as_slice()
    }

    /// The clauses in order.
    pub fn clauses(&self) -> &Clauses
        ensures { result.now ≡ self.now.clauses }
    {
        &self.clauses
    }

    // Puts a literal at the end of the clause that isn't ended.
    fn push_literal(&mut self, literal: Literal) -> Result<(), AllocError>
        ensures premises { OnOk result (self.new.premises ≡ self.old.premises) }
        ensures clauses { OnOk result (self.new.clauses.clauses ≡ self.old.clauses.clauses) }
        ensures numbers { OnOk result (self.new.clauses.numbers ≡ self.old.clauses.numbers) }
        ensures pushed { OnOk result
            (self.new.clauses.open_clause ≡ self.old.clauses.open_clause ++ signed_number literal
            ∷ []) }
    {
        match signed_number(literal) {
            Some(number) => self.clauses.push(number),
            None => Err(AllocError),
        }
    }

    // Puts literals at the end of the clause that isn't ended.
    fn push_literals(&mut self, literals: &[Literal]) -> Result<(), AllocError>
        ensures premises { OnOk result (self.new.premises ≡ self.old.premises) }
        ensures clauses { OnOk result (self.new.clauses.clauses ≡ self.old.clauses.clauses) }
        ensures numbers { OnOk result (self.new.clauses.numbers ≡ self.old.clauses.numbers) }
        ensures pushed { OnOk result
            (self.new.clauses.open_clause ≡ self.old.clauses.open_clause
            ++ map signed_number literals.now) }
    {
        for literal in literals {
            self.push_literal(*literal)?;
        }
        Ok(())
    }

    // Puts a premise behind the others, with the clause of these literals.
    fn push(&mut self, basis: Basis<'a>, literals: &[Literal]) -> Result<(), AllocError>
        ensures premises { OnOk result
            (self.new.premises ≡ self.old.premises ++ premise_of basis.entry ∷ []) }
        ensures clauses { OnOk result (self.new.clauses.clauses
            ≡ self.old.clauses.clauses
            ++ (self.old.clauses.open_clause ++ map signed_number literals.now) ∷ []) }
        ensures numbers { OnOk result (self.new.clauses.numbers ≡ self.old.clauses.numbers) }
        ensures opened { OnOk result (self.new.clauses.open_clause ≡ []) }
    {
        self.push_literals(literals)?;
        self.clauses.end_clause()?;
        self.bases.push(basis)?;
        Ok(())
    }

    /// Puts a premise with its clause behind the others. Memory alone can fail.
    pub(crate) fn add(
        &mut self,
        facts: &Facts<'_, '_, '_, 'a>,
        basis: Basis<'a>,
        literals: &[Literal],
    ) -> Result<(), AllocError>
        requires { IsListOf (IsInPremise facts.now (premise_of basis)) literals.now }
        ensures { OnOk result
            (Grows facts.now self.old self.new (λ reason. reason ≡ premise_of basis.entry)) }
    {
        let _facts = facts;
        self.push(basis, literals)?;
        Ok(())
    }

    /// Says that the clauses so far have no owner, and that those which follow have one.
    pub(crate) fn end_unowned(&mut self)
        ensures { self.new ≡ self.old }
    {
        self.clauses.end_unowned();
    }

    /// How many clauses there are.
    pub(crate) fn len(&self) -> usize {
        self.clauses.len()
    }

    /// Says that the clauses from a place on are what the next pair needs. Memory alone can fail.
    pub(crate) fn end_needs(&mut self, from: usize) -> Result<(), AllocError>
        ensures { self.new ≡ self.old }
    {
        self.clauses.end_depends(from)
    }

    fn push_wish(&mut self, number: u32) -> Result<(), AllocError>
        ensures { self.new ≡ self.old }
    {
        self.clauses.push_wish(number)
    }

    fn end_wish(&mut self) -> Result<(), AllocError>
        ensures { self.new ≡ self.old }
    {
        self.clauses.end_wish()
    }

    /// Says that one of these numbers is wished to be selected, the first one best. Memory alone can fail.
    pub(crate) fn add_wish(&mut self, numbers: &[u32]) -> Result<(), AllocError>
        ensures { self.new ≡ self.old }
    {
        for number in numbers {
            self.push_wish(*number)?;
        }
        self.end_wish()
    }
}
