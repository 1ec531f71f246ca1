// Whether literals are distinct.

ghost use Rattle.std.specs.Prelude.{◌≡◌, IfOk};
ghost use Rattle.refutation_text.specs.Derived.{are_distinct, literal_key};

use indexmap::IndexSet;
use refutation::Literal;
use std::alloc::{AllocError, Global};

// A number for each literal, and no two have the same.
fn literal_key(literal: Literal) -> u64
    ensures { result ≡ literal_key literal }
{
    match literal {
        Literal::Selected(pair) => u64::from(pair) * 2,
        Literal::Unselected(pair) => u64::from(pair) * 2 + 1,
    }
}

/// Whether no literal stands there twice. Linear in the literals, by hashing.
pub fn are_distinct(alloc: Global, literals: &[Literal]) -> Result<bool, AllocError>
    ensures { IfOk result (λ distinct. distinct ≡ are_distinct literals.now) }
{
    let mut keys = IndexSet::new(alloc);
    for literal in literals {
        if !keys.insert(literal_key(*literal))? {
            return Ok(false);
        }
    }
    Ok(true)
}
