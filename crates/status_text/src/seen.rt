//! The names of the records read so far.
ghost use Rattle.std.specs.Prelude.{◌≡◌, ◌∷◌, ◌++◌, [], IfErr, IfOk, OnOk, not, true, false};
ghost use Rattle.status_text.specs.Record.{is_seen};

use indexmap::IndexSet;
use std::alloc::{AllocFailed, Global};
use std::marker::Model;

/// Names, in the order in which they came.
#[derive(Drop)]
pub struct SeenNames<'a> {
    names: IndexSet<&'a [u8]>,
}

impl<'a> Model for SeenNames<'a> {
    ghost use Rattle.std.specs.Prelude.{List, ℕ, map};

    ghost Value = { List (List ℕ) };

    ghost view = { λ seen. map (λ name. name.now) seen.names.keys };
}

impl<'a> SeenNames<'a> {
    /// No names.
    pub fn new(alloc: Global) -> SeenNames<'a>
        ensures { result ≡ [] }
    {
        SeenNames {
            names: IndexSet::new(alloc),
        }
    }

    /// Adds the name, unless it is there already. Answers whether it is new. Memory alone can fail.
    pub fn insert(&mut self, name: &'a [u8]) -> Result<bool, AllocFailed<&'a [u8]>>
        ensures added { IfOk result (λ added. added ≡ not (is_seen self.old name.now)) }
        ensures names { IfOk result (λ added. added ≡ true → self.new ≡ self.old ++ name.now ∷ []) }
        ensures absent { IfErr result (λ _. is_seen self.old name.now ≡ false) }
    {
        self.names.insert(name)
    }
}
