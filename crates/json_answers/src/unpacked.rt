// The names of the packages that steps unpack.
ghost use Rattle.std.specs.Prelude.{◌≡◌, [], IfOk, List, OnOk};
ghost use Rattle.std.specs.List.{list_any};
ghost use Rattle.index.specs.Names.{with_name};
ghost use Rattle.json_answers.specs.Unpacked.{unpacked_in, unpacks, with_unpacked};
ghost use Rattle.rules.specs.declared.step.Step.{Step as StepOf};

use indexmap::IndexSet;
use rules::Step;
use std::alloc::{AllocError, Global};
use std::marker::Model;

/// Names, each once, with a table of them.
#[derive(Drop)]
pub(crate) struct UnpackedNames<'s> {
    names: IndexSet<&'s [u8]>,
}

impl<'s> Model for UnpackedNames<'s> {
    ghost use Rattle.std.specs.Prelude.{List, ℕ, map};

    ghost Value = { List (List ℕ) };

    ghost view = { λ unpacked. map (λ name. name.now) unpacked.names.keys };
}

impl<'s> UnpackedNames<'s> {
    // No names.
    fn new(alloc: Global) -> UnpackedNames<'s>
        ensures { result ≡ [] }
    {
        UnpackedNames {
            names: IndexSet::new(alloc),
        }
    }

    // Adds the name, unless it is there.
    fn insert(&mut self, name: &'s [u8]) -> Result<(), AllocError>
        ensures { OnOk result (self.new ≡ with_name self.old name.now) }
    {
        self.names.insert(name)?;
        Ok(())
    }

    // Adds the name of what the step unpacks, if it unpacks something.
    fn add(&mut self, step: &'s Step) -> Result<(), AllocError>
        ensures { OnOk result (self.new ≡ with_unpacked self.old step.now) }
    {
        match step {
            Step::Unpack(name, _) => self.insert(name.as_bytes()),
            Step::Deconfigure(_) => Ok(()),
            Step::Configure(_) => Ok(()),
            Step::Remove(_) => Ok(()),
            Step::Purge(_) => Ok(()),
        }
    }

    /// The names of the packages that the steps unpack. Memory alone can fail. Linear in the steps.
    pub(crate) fn by(alloc: Global, steps: &'s [Step]) -> Result<UnpackedNames<'s>, AllocError>
        ensures { IfOk result (λ names. names ≡ unpacked_in steps.now) }
    {
        let mut names = UnpackedNames::new(alloc);
        for step in steps {
            names.add(step)?;
        }
        Ok(names)
    }

    /// Whether the name is one of them. Linear in the name alone.
    pub(crate) fn has(&self, name: &[u8]) -> bool
        ensures { (steps : List StepOf) → self.now ≡ unpacked_in steps
            → result ≡ list_any (unpacks name.now) steps }
    {
        self.names.contains(name)
    }
}
