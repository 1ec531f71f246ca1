// The names of a group that are left, with a table of them, and names as a package is looked for among them.

ghost use Rattle.std.specs.Prelude.{◌≡◌, ◌≢◌, ◌↔◌, ◌<◌, ◌≤◌, [], length, IfOk, IsTrue, OnOk};
ghost use Rattle.std.specs.List.{Contains};
ghost use Rattle.index.specs.Names.{with_name};
ghost use Rattle.rules.specs.Step.{is_among};
ghost use Rattle.plancheck_group.specs.Part.{HaveSameNames, IsPartWith};

use indexmap::IndexSet;
use plancheck_state::StateRecord;
use rules::Name;
use std::alloc::{AllocError, Global};
use std::marker::Model;

/// Names of a group, each once.
#[derive(Drop)]
pub struct NameSet<'n> {
    names: IndexSet<&'n [u8]>,
}

impl<'n> Model for NameSet<'n> {
    ghost use Rattle.std.specs.Prelude.{List, ℕ, map};

    ghost Value = { List (List ℕ) };

    ghost view = { λ part. map (λ name. name.now) part.names.keys };
}

impl<'n> NameSet<'n> {
    /// No names.
    pub fn new(alloc: Global) -> NameSet<'n>
        ensures { result ≡ [] }
    {
        NameSet {
            names: IndexSet::new(alloc),
        }
    }

    /// Adds the name, unless it is there. Memory alone can fail.
    pub fn insert(&mut self, name: &'n [u8]) -> Result<(), AllocError>
        ensures { OnOk result (self.new ≡ with_name self.old name.now) }
    {
        self.names.insert(name)?;
        Ok(())
    }

    /// These names. Memory alone can fail. Linear in them.
    pub fn of(alloc: Global, names: &'n [Name]) -> Result<NameSet<'n>, AllocError>
        ensures { IfOk result (λ part. HaveSameNames part names.now) }
    {
        let mut part = NameSet::new(alloc);
        for name in names {
            part.insert(name.as_bytes())?;
        }
        Ok(part)
    }

    /// Whether the name is one of them. Linear in the name alone.
    pub fn has(&self, name: &[u8]) -> bool
        ensures { IsTrue result ↔ Contains self.now name.now }
    {
        self.names.contains(name)
    }

    /// Leaves the name out. Linear in the name alone.
    pub fn leave_out(&mut self, name: &[u8])
        ensures without { IsPartWith (λ other. other ≢ name.now) self.old self.new }
        ensures fewer { Contains self.old name.now → length self.new < length self.old }
        ensures no_more { length self.new ≤ length self.old }
    {
        let _was_there = self.names.swap_remove(name);
    }

    /// Whether there are none.
    pub fn is_empty(&self) -> bool
        ensures { IsTrue result ↔ (self.now ≡ []) }
    {
        self.names.is_empty()
    }
}

/// Whether the record is of one of the names.
pub fn is_among(names: &[Name], entry: &StateRecord<'_, '_>) -> bool
    ensures { result ≡ is_among names.now entry.now }
{
    names.iter().any(|name| entry.name() == name.as_bytes())
}

/// Names among which a package is looked for: a list as it is given, or what is left of a group.
#[derive(Drop)]
pub struct Among<'g, 'n> {
    listed: &'g [Name],
    left: Option<&'g NameSet<'n>>,
}

impl<'g, 'n> Model for Among<'g, 'n> {
    ghost use Rattle.std.specs.Prelude.{List, ℕ};
    ghost use Rattle.std.specs.Option.{option_map_or};

    ghost Value = { List (List ℕ) };

    ghost view = { λ among. option_map_or (λ part. part.now) among.left among.listed.now };
}

impl<'g, 'n> Among<'g, 'n> {
    /// The names of a list.
    pub fn of_list(names: &'g [Name]) -> Among<'g, 'n>
        ensures { result ≡ names.now }
    {
        Among {
            listed: names,
            left: None,
        }
    }

    /// The names that are left.
    pub fn of_set(part: &'g NameSet<'n>) -> Among<'g, 'n>
        ensures { result ≡ part.now }
    {
        Among {
            listed: &[],
            left: Some(part),
        }
    }

    /// Whether the record is of one of the names. Linear in the names of a list; in the name alone among what is left.
    pub fn has_record(&self, entry: &StateRecord<'_, '_>) -> bool
        ensures { result ≡ is_among self.now entry.now }
    {
        match self.left {
            None => is_among(self.listed, entry),
            Some(part) => part.has(entry.name()),
        }
    }
}
