// The names that are asked for.

ghost use Rattle.std.specs.Prelude.{◌≡◌, ◌↔◌, [], IfOk, IsTrue, List, OnOk};
ghost use Rattle.std.specs.List.{Any};
ghost use Rattle.index.specs.Names.{with_name};
ghost use Rattle.rules.specs.Minimal.{AsksFor};
ghost use Rattle.rules.specs.declared.goal.Goal.{Goal};
ghost use Rattle.search_settle.specs.Asked.{asked_in, with_asked};

use indexmap::IndexSet;
use rules::Goal;
use std::alloc::{AllocError, Global};
use std::marker::Model;

/// Names, each once, with a table of them.
#[derive(Drop)]
pub(crate) struct Asked<'u> {
    names: IndexSet<&'u [u8]>,
}

impl<'u> Model for Asked<'u> {
    ghost use Rattle.std.specs.Prelude.{List, ℕ, map};

    ghost Value = { List (List ℕ) };

    ghost view = { λ asked. map (λ name. name.now) asked.names.keys };
}

impl<'u> Asked<'u> {
    // No names.
    fn new(alloc: Global) -> Asked<'u>
        ensures { result ≡ [] }
    {
        Asked {
            names: IndexSet::new(alloc),
        }
    }

    // Adds the name, unless it is there.
    fn insert(&mut self, name: &'u [u8]) -> Result<(), AllocError>
        ensures { OnOk result (self.new ≡ with_name self.old name.now) }
    {
        self.names.insert(name)?;
        Ok(())
    }

    // Adds the name that the goal asks for, if it asks for one.
    fn add(&mut self, goal: &'u Goal) -> Result<(), AllocError>
        ensures { OnOk result (self.new ≡ with_asked self.old goal.now) }
    {
        match goal {
            Goal::Install(asked, _) => self.insert(asked.as_bytes()),
            Goal::Upgrade(asked) => self.insert(asked.as_bytes()),
            Goal::Remove(_) => Ok(()),
            Goal::Purge(_) => Ok(()),
            Goal::UpgradeAll => Ok(()),
            Goal::NoRemove => Ok(()),
        }
    }

    /// The names that the install and upgrade goals name. Memory alone can fail. Linear in the goals.
    pub(crate) fn by(alloc: Global, goals: &'u [Goal]) -> Result<Asked<'u>, AllocError>
        ensures { IfOk result (λ asked. asked ≡ asked_in goals.now) }
    {
        let mut asked = Asked::new(alloc);
        for goal in goals {
            asked.add(goal)?;
        }
        Ok(asked)
    }

    /// Whether the name is one of them. Linear in the name alone.
    pub(crate) fn has(&self, name: &[u8]) -> bool
        ensures { (goals : List Goal) → self.now ≡ asked_in goals → IsTrue result
            ↔ Any (AsksFor name.now) goals }
    {
        self.names.contains(name)
    }
}
