// The literals that are false.

ghost use Rattle.std.specs.Prelude.{◌≡◌, ◌↔◌, ◌⊎◌, ℕ, IfOk, IsTrue, OnOk};
ghost use Rattle.std.specs.List.{Contains};
ghost use Rattle.refutation.specs.declared.literal.Literal.{Literal};
ghost use Rattle.refutecheck.specs.Falses.{IsFalse};

use refutation::Literal;
use std::alloc::{AllocError, Global};
use std::collections::HashSet;

/// The literals that are false: the numbers of pairs, by what the literal says of them.
#[derive(Drop)]
pub struct Falses {
    selected: HashSet<u32>,
    unselected: HashSet<u32>,
}

impl Falses {
    // None.
    fn new(alloc: Global) -> Falses
        ensures { (literal : Literal) → ¬ IsFalse result literal }
    {
        Falses {
            selected: HashSet::new(alloc),
            unselected: HashSet::new(alloc),
        }
    }

    /// Whether the literal is false.
    pub fn has(&self, literal: Literal) -> bool
        ensures { IsTrue result ↔ IsFalse self.now literal }
    {
        match literal {
            Literal::Selected(number) => self.selected.contains(&number),
            Literal::Unselected(number) => self.unselected.contains(&number),
        }
    }

    /// Makes the literal false. Memory alone can fail.
    pub fn insert(&mut self, literal: Literal) -> Result<(), AllocError>
        ensures { OnOk result
            ((other : Literal) → IsFalse self.new other
            ↔ (IsFalse self.old other ⊎ (other ≡ literal))) }
    {
        match literal {
            Literal::Selected(number) => self.selected.insert(number)?,
            Literal::Unselected(number) => self.unselected.insert(number)?,
        };
        Ok(())
    }

    /// The literals of the list. Memory alone can fail. Linear in them.
    pub fn of(alloc: Global, literals: &[Literal]) -> Result<Falses, AllocError>
        ensures { IfOk result
            (λ falses. (literal : Literal) → IsFalse falses literal
            ↔ Contains literals.now literal) }
    {
        let mut falses = Falses::new(alloc);
        for literal in literals {
            falses.insert(*literal)?;
        }
        Ok(falses)
    }
}
