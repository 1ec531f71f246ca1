// The steps of a plan and the rules that they are judged by.

ghost use Rattle.std.specs.Prelude.{◌≡◌, IfOk};

use crate::name::{Name, Names};
use crate::text::Text;
use crate::version_text::VersionText;
use std::alloc::{AllocError, Global};

/// A step of a plan: one action of dpkg on a package, or the configuring of a group at once.
#[derive(Drop)]
pub enum Step {
    /// Unpack this version of the package.
    Unpack(Name, VersionText),
    /// Take back the configuring of an installed package.
    Deconfigure(Name),
    /// Configure these packages together.
    Configure(Names),
    /// Remove the package but for its configuration files.
    Remove(Name),
    /// Delete the configuration files of a removed package.
    Purge(Name),
}

impl Step {
    /// An equal step. Memory alone can fail.
    pub fn try_copy(&self, alloc: Global) -> Result<Step, AllocError>
        ensures { IfOk result (λ step. step ≡ self.now) }
    {
        match self {
            Step::Unpack(name, version) => {
                Ok(Step::Unpack(name.try_copy(alloc)?, version.try_copy(alloc)?))
            }
            Step::Deconfigure(name) => Ok(Step::Deconfigure(name.try_copy(alloc)?)),
            Step::Configure(names) => Ok(Step::Configure(names.try_copy(alloc)?)),
            Step::Remove(name) => Ok(Step::Remove(name.try_copy(alloc)?)),
            Step::Purge(name) => Ok(Step::Purge(name.try_copy(alloc)?)),
        }
    }
}

/// A rule that a plan is judged by. The printed code of each is behind it.
#[derive(Clone, Copy, Eq, PartialEq)]
pub enum Rule {
    /// F0: no two packages conflict at the start.
    StartConflict,
    /// F1: the Pre-Depends are satisfied.
    PreDepends,
    /// F2: no present package conflicts.
    Conflict,
    /// F3: no package is broken.
    Breaks,
    /// F4: the Depends are satisfied.
    Depends,
    /// F5: no part of the group could be configured by itself.
    Group,
    /// F6: no installed package needs the one to be removed.
    NeededBy,
    /// F7: no essential package is removed.
    Essential,
    /// F8: no held package is touched.
    Held,
    /// F9: the package is in a state from which the action starts.
    WrongState,
    /// F10: the version is admitted and in an index.
    NotAdmitted,
    /// F11: the end is good.
    End,
}

/// Why the end of a plan isn't good (F11): the first of these, and of names the first by bytes.
#[derive(Drop)]
pub enum Reason {
    /// The package is half-installed, unpacked, half-configured, in a trigger state or to be installed again.
    Unfinished(Text),
    /// The installed package has a clause that isn't met, or conflicts with or breaks another.
    Relation(Text),
    /// The essential package was present at the start and isn't installed.
    Essential(Text),
    /// The goal of this number, counted from 1, isn't fulfilled.
    Goal(usize),
}

/// What is answered of a plan.
#[derive(Drop)]
pub enum Verdict {
    /// Every step is legal when its turn comes, and the end is good.
    Yes,
    /// Two packages conflict at the start (F0).
    Start,
    /// The step of this number, counted from 1, is the first that isn't allowed; the rule is the first that it
    /// fails.
    Step(usize, Rule),
    /// The steps are allowed, and this is the first reason against the end (F11).
    End(Reason),
}
