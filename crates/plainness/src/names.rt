// Sets of names.

ghost use Rattle.std.specs.Prelude.{◌≡◌, ◌↔◌, ℕ, List, [], Contains, IfOk, IsTrue, OnOk, fold, map};
ghost use Rattle.index.specs.Names.{with_name};
ghost use Rattle.rules.specs.Sound.{HasMember};
ghost use Rattle.rules.specs.declared.goal.Goal.TheVariants as goal;
ghost use Rattle.plainness.specs.Names.{with_purge};

use indexmap::IndexSet;
use relation::Pkg;
use rules::Goal;
use std::alloc::{AllocError, Global};
use std::marker::Model;

/// Names, each once, with a table of them.
#[derive(Drop)]
pub(crate) struct Names<'k> {
    names: IndexSet<&'k [u8]>,
}

impl<'k> Model for Names<'k> {
    ghost use Rattle.std.specs.Prelude.{List, ℕ, map};

    ghost Value = { List (List ℕ) };

    ghost view = { λ names. map (λ name. name.now) names.names.keys };
}

impl<'k> Names<'k> {
    // No names.
    fn new(alloc: Global) -> Names<'k>
        ensures { result ≡ [] }
    {
        Names {
            names: IndexSet::new(alloc),
        }
    }

    // Adds the name, unless it is there.
    fn insert(&mut self, name: &'k [u8]) -> Result<(), AllocError>
        ensures { OnOk result (self.new ≡ with_name self.old name.now) }
    {
        self.names.insert(name)?;
        Ok(())
    }

    // Adds the name that the goal is to purge, if it is to purge one.
    fn add(&mut self, asked: &'k Goal) -> Result<(), AllocError>
        ensures { OnOk result (self.new ≡ with_purge self.old asked.now) }
    {
        match asked {
            Goal::Install(_, _) => Ok(()),
            Goal::Remove(_) => Ok(()),
            Goal::Purge(name) => self.insert(name.as_bytes()),
            Goal::Upgrade(_) => Ok(()),
            Goal::UpgradeAll => Ok(()),
            Goal::NoRemove => Ok(()),
        }
    }

    // The names of the packages.
    fn put_members(alloc: Global, members: &[&Pkg<'k>]) -> Result<Names<'k>, AllocError>
        ensures { IfOk result
            (λ names. names ≡ fold with_name [] (map (λ member. member.now.name) members.now)) }
    {
        let mut names = Names::new(alloc);
        for member in members {
            names.insert(member.name())?;
        }
        Ok(names)
    }

    // The names that the goals are to purge.
    fn put_purges(alloc: Global, goals: &'k [Goal]) -> Result<Names<'k>, AllocError>
        ensures { IfOk result (λ names. names ≡ fold with_purge [] goals.now) }
    {
        let mut names = Names::new(alloc);
        for asked in goals {
            names.add(asked)?;
        }
        Ok(names)
    }

    /// The names of the packages. Memory alone can fail. Linear in them.
    pub(crate) fn of_members(alloc: Global, members: &[&Pkg<'k>]) -> Result<Names<'k>, AllocError>
        ensures { IfOk result
            (λ names. (name : List ℕ) → Contains names name
            ↔ HasMember name (map (λ member. member.now) members.now)) }
    {
        let names = Names::put_members(alloc, members)?;
        Ok(names)
    }

    /// The names that the goals are to purge. Memory alone can fail. Linear in them.
    pub(crate) fn of_purges(alloc: Global, goals: &'k [Goal]) -> Result<Names<'k>, AllocError>
        ensures { IfOk result
            (λ names. (name : List ℕ) → Contains names name
            ↔ Contains goals.now (goal.Purge name)) }
    {
        let names = Names::put_purges(alloc, goals)?;
        Ok(names)
    }

    /// Whether the name is one of them. Linear in the name alone.
    pub(crate) fn has(&self, name: &[u8]) -> bool
        ensures { IsTrue result ↔ Contains self.now name.now }
    {
        self.names.contains(name)
    }
}
