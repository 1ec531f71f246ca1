//! The facts of the start, found by their names.

ghost use Rattle.std.specs.Prelude.{◌≡◌, IfOk, map};
ghost use Rattle.std.specs.List.{find};
ghost use Rattle.std.specs.Option.{option_copied};
ghost use Rattle.rules.specs.Universe.{is_start_of};
ghost use Rattle.universe_parts.specs.Parts.{HaveDistinctNames};

use crate::start::Start;
use indexmap::IndexSet;
use std::alloc::{AllocError, Global};
use std::marker::Model;

/// The facts of the start, in the order of the status file, no two of which are about one name, with a table of the
/// names.
#[derive(Drop)]
pub struct Starts<'a> {
    starts: Vec<Start<'a>>,
    names: IndexSet<&'a [u8]>,
}

impl<'a> Model for Starts<'a> {
    ghost use Rattle.std.specs.Prelude.{◌≡◌, List, map};
    ghost use Rattle.rules.specs.Universe.{Start as StartValue};

    ghost Value = { List StartValue };

    ghost view = { λ s. s.starts.items };

    ghost invariant = { λ s. map (λ name. name.now) s.names.keys ≡ map (λ start. start.name) s.starts.items };
}

// The names of the facts, in their order.
fn names_of<'a>(alloc: Global, starts: &[Start<'a>]) -> Result<IndexSet<&'a [u8]>, AllocError>
    requires { HaveDistinctNames starts.now }
    ensures { IfOk result
        (λ names. map (λ name. name.now) names.keys ≡ map (λ start. start.name) starts.now) }
{
    let mut names = IndexSet::new(alloc);
    for start in starts {
        names.insert(start.name())?;
    }
    Ok(names)
}

impl<'a> Starts<'a> {
    /// The facts of this list. Memory alone can fail. Linear in the names.
    pub fn new(alloc: Global, starts: Vec<Start<'a>>) -> Result<Starts<'a>, AllocError>
        requires { HaveDistinctNames starts.items }
        ensures { IfOk result (λ facts. facts ≡ starts.entry.items) }
    {
        let names = names_of(alloc, starts.as_slice())?;
        Ok(Starts { starts, names })
    }

    /// The facts in their order.
    pub fn as_slice(&self) -> &[Start<'a>]
        ensures { result.now ≡ self.now }
    {
        self.starts.as_slice()
    }

    /// The facts about the name, if there are any. Linear in the name alone.
    pub fn of(&self, name: &[u8]) -> Option<&Start<'a>>
        ensures { option_copied result ≡ find (is_start_of name.now) self.now }
    {
        match self.names.get_index_of(name) {
            Some(place) => self.starts.get(place),
            None => None,
        }
    }
}
