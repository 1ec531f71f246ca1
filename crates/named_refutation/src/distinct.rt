// Whether literals are distinct.

ghost use Rattle.std.specs.Prelude.{◌≡◌, ◌∷◌, ◌++◌, [], true, IfOk, not};
ghost use Rattle.std.specs.List.{list_any};
ghost use Rattle.named_refutation.specs.Derived.{are_distinct, is_same};
ghost use Rattle.named_refutation.specs.declared.named.NamedLiteral.TheVariants.{Selected, Unselected};

use crate::named::{NamedLiteral, NamedPair};
use indexmap::IndexSet;
use std::alloc::{AllocError, Global};
use std::marker::Model;

// The literals so far, found by hashing.
#[derive(Drop)]
struct Seen<'l> {
    keys: IndexSet<(bool, &'l [u8], &'l [u8])>,
}

impl<'l> Model for Seen<'l> {
    ghost use Rattle.std.specs.Prelude.{List, map};
    ghost use Rattle.named_refutation.specs.Seen.{literal_by};
    ghost use Rattle.named_refutation.specs.declared.named.NamedLiteral.{NamedLiteral};

    ghost Value = { List NamedLiteral };

    ghost view = { λ seen. map literal_by seen.keys.keys };
}

impl<'l> Seen<'l> {
    // None.
    fn new(alloc: Global) -> Seen<'l>
        ensures { result ≡ [] }
    {
        Seen {
            keys: IndexSet::new(alloc),
        }
    }

    // Adds the literal that the pair is selected, and answers whether it is new.
    fn add_selected(&mut self, pair: &'l NamedPair) -> Result<bool, AllocError>
        ensures fresh { IfOk result
            (λ is_new. is_new ≡ not (list_any (is_same (Selected pair.now)) self.old)) }
        ensures kept { IfOk result
            (λ is_new. is_new ≡ true → self.new ≡ self.old ++ Selected pair.now ∷ []) }
    {
        Ok(
            self.keys
                .insert((true, pair.name.as_bytes(), pair.version.as_bytes()))?,
        )
    }

    // Adds the literal that the pair isn't selected, and answers whether it is new.
    fn add_unselected(&mut self, pair: &'l NamedPair) -> Result<bool, AllocError>
        ensures fresh { IfOk result
            (λ is_new. is_new ≡ not (list_any (is_same (Unselected pair.now)) self.old)) }
        ensures kept { IfOk result
            (λ is_new. is_new ≡ true → self.new ≡ self.old ++ Unselected pair.now ∷ []) }
    {
        Ok(
            self.keys
                .insert((false, pair.name.as_bytes(), pair.version.as_bytes()))?,
        )
    }

    // Adds the literal, and answers whether it is new.
    fn add(&mut self, literal: &'l NamedLiteral) -> Result<bool, AllocError>
        ensures fresh { IfOk result
            (λ is_new. is_new ≡ not (list_any (is_same literal.now) self.old)) }
        ensures kept { IfOk result
            (λ is_new. is_new ≡ true → self.new ≡ self.old ++ literal.now ∷ []) }
    {
        match literal {
            NamedLiteral::Selected(pair) => self.add_selected(pair),
            NamedLiteral::Unselected(pair) => self.add_unselected(pair),
        }
    }
}

/// Whether no literal stands there twice. Linear in the literals, by hashing.
pub(crate) fn are_distinct(alloc: Global, literals: &[NamedLiteral]) -> Result<bool, AllocError>
    ensures { IfOk result (λ distinct. distinct ≡ are_distinct literals.now) }
{
    let mut seen = Seen::new(alloc);
    for literal in literals {
        if !seen.add(literal)? {
            return Ok(false);
        }
    }
    Ok(true)
}
