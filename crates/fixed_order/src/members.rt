// The names of the selected packages.

ghost use Rattle.std.specs.Prelude.{◌≡◌, ◌↔◌, ℕ, List, [], IfOk, IsTrue, OnOk};
ghost use Rattle.std.specs.List.{Contains};
ghost use Rattle.index.specs.Names.{with_name};
ghost use Rattle.rules.specs.Sound.{HasMember};
ghost use Rattle.fixed_order.specs.Selection.{pkgs_of};

use indexmap::IndexSet;
use std::alloc::{AllocError, Global};
use std::marker::Model;
use universe::Pair;

/// Names, each once, with a table of them.
#[derive(Drop)]
pub(crate) struct Members<'a> {
    names: IndexSet<&'a [u8]>,
}

impl<'a> Model for Members<'a> {
    ghost use Rattle.std.specs.Prelude.{List, ℕ, map};

    ghost Value = { List (List ℕ) };

    ghost view = { λ members. map (λ name. name.now) members.names.keys };
}

impl<'a> Members<'a> {
    // No names.
    fn new(alloc: Global) -> Members<'a>
        ensures { result ≡ [] }
    {
        Members {
            names: IndexSet::new(alloc),
        }
    }

    // Adds the name, unless it is there.
    fn insert(&mut self, name: &'a [u8]) -> Result<(), AllocError>
        ensures { OnOk result (self.new ≡ with_name self.old name.now) }
    {
        self.names.insert(name)?;
        Ok(())
    }

    /// The names of the pairs. Memory alone can fail. Linear in them.
    pub(crate) fn of_pairs(
        alloc: Global,
        pairs: &[&Pair<'_, 'a>],
    ) -> Result<Members<'a>, AllocError>
        ensures { IfOk result
            (λ members. (name : List ℕ) → Contains members name
            ↔ HasMember name (pkgs_of pairs.now)) }
    {
        let mut members = Members::new(alloc);
        for pair in pairs {
            members.insert(pair.name())?;
        }
        Ok(members)
    }

    /// Whether the name is one of them. Linear in the name alone.
    pub(crate) fn has(&self, name: &[u8]) -> bool
        ensures { IsTrue result ↔ Contains self.now name.now }
    {
        self.names.contains(name)
    }
}
