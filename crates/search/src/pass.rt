// The pass over all clauses that decides an answer: whether a set makes each true.

ghost use Rattle.std.specs.Prelude.{◌≡◌, ◌↔◌, ◌+◌, ◌++◌, ◌∷◌, ◌<◌, ◌≤◌, ◌^◌, [], false, IfOk, IsTrue, OnOk, length};
ghost use Rattle.search.specs.Set.{AreMadeTrue, IsMadeTrue, holds, is_true_in, numbers_from};

use clauses::Clauses;
use search_state::literal::number_of;
use search_state::table::at;
use std::alloc::{AllocError, Global};

// Whether a literal is true of the set.
fn is_true(set: &Vec<bool>, literal: i32) -> bool
    ensures { result ≡ is_true_in set.now.items literal }
{
    let holds = at(set, number_of(literal), false);
    if literal < 0 { !holds } else { holds }
}

fn is_made_true(set: &Vec<bool>, clause: &[i32]) -> bool
    ensures { IsTrue result ↔ IsMadeTrue set.now.items clause.now }
{
    clause.iter().any(|literal| is_true(set, *literal))
}

/// Whether the set makes every clause true. Linear in the literals.
pub(crate) fn makes_all_true(set: &Vec<bool>, given: &Clauses) -> bool
    ensures { IsTrue result ↔ AreMadeTrue set.now.items given.now.clauses }
{
    for place in 0..given.len() {
        if !is_made_true(set, given.clause(place)) {
            return false;
        }
    }
    true
}

/// Whether the set has a place for each of the numbers, and doesn't hold 0.
pub(crate) fn fits(set: &Vec<bool>, given: &Clauses) -> bool
    ensures fits { IsTrue result
        ↔ ((length set.now.items ≡ given.now.numbers + 1) × (holds set.now.items 0 ≡ false)) }
    ensures few { IsTrue result → length set.now.items ≤ 2 ^ 32 }
{
    set.as_slice().len() == given.numbers() as usize + 1 && !at(set, 0, false)
}

/// The numbers in the set, ascending.
pub(crate) fn members(alloc: Global, set: &Vec<bool>) -> Result<Vec<u32>, AllocError>
    requires { length set.now.items ≤ 2 ^ 32 }
    ensures { IfOk result (λ numbers. numbers.items ≡ numbers_from 0 set.now.items) }
{
    let mut numbers = Vec::new(alloc);
    for (number, selected) in set.iter().enumerate() {
        if *selected {
            push_number(&mut numbers, number)?;
        }
    }
    Ok(numbers)
}

// Adds a number, which takes memory.
fn push_number(numbers: &mut Vec<u32>, number: usize) -> Result<(), AllocError>
    requires { number < 2 ^ 32 }
    ensures { OnOk result (numbers.new.items ≡ numbers.old.items ++ number ∷ []) }
{
    numbers.push(number as u32)?;
    Ok(())
}
