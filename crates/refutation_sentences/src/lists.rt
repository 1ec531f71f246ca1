// Which pairs can satisfy what is asked for.

ghost use Rattle.std.specs.Prelude.{◌≡◌, ◌↔◌, ◌⊎◌, ◌++◌, ◌-◌, ℕ, IfOk, OnOk, length, map, take};
ghost use Rattle.std.specs.List.{Contains};
ghost use Rattle.refutation_sentences.specs.Words as Words;

use crate::context::Context;
use indexmap::IndexSet;
use phrases::{push_count, push_joined};
use refutation::Literal;
use std::alloc::{AllocError, Global};

/// How many pairs are told by their names.
const NAMED: usize = 5;

// Puts the number behind the others, unless it is one of them.
fn insert_number(numbers: &mut IndexSet<u32>, number: u32) -> Result<(), AllocError>
    ensures { OnOk result
        ((other : ℕ) → Contains numbers.new.keys other
        ↔ (Contains numbers.old.keys other ⊎ (other ≡ number))) }
{
    numbers.insert(number)?;
    Ok(())
}

// Puts the number of the pair behind the others of which the literal says that it is selected.
fn insert_selected(numbers: &mut IndexSet<u32>, literal: Literal) -> Result<(), AllocError>
    ensures { OnOk result ((other : ℕ) → Contains numbers.new.keys other
        ↔ (Contains numbers.old.keys other ⊎ (literal ≡ Literal.Selected other))) }
{
    match literal {
        Literal::Selected(number) => {
            insert_number(numbers, number)?;
            Ok(())
        }
        Literal::Unselected(_) => Ok(()),
    }
}

/// The pairs of which the clause says that one is selected, each once. Memory alone can fail.
pub(crate) fn selected_in(alloc: Global, clause: &[Literal]) -> Result<IndexSet<u32>, AllocError>
    ensures { IfOk result
        (λ numbers. (number : ℕ) → Contains numbers.keys number
        ↔ Contains clause.now (Literal.Selected number)) }
{
    let mut numbers = IndexSet::new(alloc);
    for literal in clause {
        insert_selected(&mut numbers, *literal)?;
    }
    Ok(numbers)
}

// The first of the numbers, whose pairs are told by their names.
fn first_in(numbers: &[u32]) -> &[u32]
    ensures { result.now ≡ take 5 numbers.now }
{
    match numbers.get(..NAMED) {
        None => numbers,
        Some(first) => first,
    }
}

// How many pairs aren't told by their names: `2 others`.
fn others_words(alloc: Global, count: usize) -> Result<Vec<u8>, AllocError>
    ensures { IfOk result (λ words. words.items ≡ Words.others_words count) }
{
    if count == 1 {
        return b"1 other".to_vec(alloc);
    }
    let mut words = Vec::new(alloc);
    push_count(&mut words, count)?;
    words.extend_from_slice(b" others")?;
    Ok(words)
}

impl Context<'_, '_, '_, '_, '_> {
    // The name and the version of the pair of this number.
    fn pair_words(&self, number: u32) -> Result<Vec<u8>, AllocError>
        ensures { IfOk result
            (λ words. words.items ≡ Words.pair_words self.now.premises.now number) }
    {
        let mut words = Vec::new(self.alloc());
        self.push_number(&mut words, number)?;
        Ok(words)
    }

    // The names and the versions of the pairs of these numbers.
    fn each_pair(&self, numbers: &[u32]) -> Result<Vec<Vec<u8>>, AllocError>
        ensures { IfOk result
            (λ items. map (λ item. item.items) items.items
            ≡ map (Words.pair_words self.now.premises.now) numbers.now) }
    {
        let mut items = Vec::new(self.alloc());
        for number in numbers {
            items.push(self.pair_words(*number)?)?;
        }
        Ok(items)
    }

    /// Writes the pairs of these numbers: `foo 1, foo 2 or foo 3`, at most five of them by their names.
    pub(crate) fn push_pairs(&self, text: &mut Vec<u8>, numbers: &[u32]) -> Result<(), AllocError>
        ensures { OnOk result
            (text.new.items ≡ text.old.items ++ Words.listed self.now.premises.now numbers.now) }
    {
        let mut items = self.each_pair(first_in(numbers))?;
        let others = numbers.len().saturating_sub(NAMED);
        if others > 0 {
            items.push(others_words(self.alloc(), others)?)?;
        }
        push_joined(text, b" or ", items.as_slice())
    }

    /// Writes which pairs can satisfy what stands before: ` (that is foo 1)` of one, `, which only foo 1 or foo 2 can satisfy`
    /// of several; and of none why none does.
    pub(crate) fn push_satisfying(
        &self,
        text: &mut Vec<u8>,
        numbers: &[u32],
        why: &[u8],
    ) -> Result<(), AllocError>
        ensures { OnOk result
            (text.new.items ≡ text.old.items
            ++ Words.satisfying self.now.premises.now numbers.now why.now) }
    {
        match numbers {
            [] => text.extend_from_slice(why),
            [number] => {
                text.extend_from_slice(b" (that is ")?;
                self.push_number(text, *number)?;
                text.push(b')')?;
                Ok(())
            }
            _ => {
                text.extend_from_slice(b", which only ")?;
                self.push_pairs(text, numbers)?;
                text.extend_from_slice(b" can satisfy")?;
                Ok(())
            }
        }
    }
}
