// Which records the steps so far have changed, in their order. So what was found before is tried again only against these.

use forward_steps::PartialPlan;
use indexmap::IndexSet;
use plancheck_state::Records;
use rules::{Name, Step};
use std::alloc::{AllocError, Global};

/// The places of the records that were changed, a place for each change. Records keep their places, since nothing is purged
/// while these are kept.
#[derive(Drop)]
pub(crate) struct Changes<'a> {
    names: IndexSet<&'a [u8]>,
    steps: usize,
    places: Vec<usize>,
}

impl<'a> Changes<'a> {
    /// No changes yet.
    pub(crate) fn new(alloc: Global) -> Changes<'a> {
        Changes {
            names: IndexSet::new(alloc),
            steps: 0,
            places: Vec::new(alloc),
        }
    }

    // Takes in the names of the records that have come since.
    fn extend(&mut self, db: &Records<'_, 'a>) -> Result<(), AllocError> {
        let records = db.as_slice();
        for place in self.names.len()..records.len() {
            if let Some(entry) = records.get(place) {
                self.names.insert(entry.name())?;
            }
        }
        Ok(())
    }

    // Takes in a change of the name.
    fn add(&mut self, name: &Name) -> Result<(), AllocError> {
        if let Some(place) = self.place_of(name.as_bytes()) {
            self.places.push(place)?;
        }
        Ok(())
    }

    // Takes in what the step has changed.
    fn add_step(&mut self, step: &Step) -> Result<(), AllocError> {
        match step {
            Step::Unpack(name, _)
            | Step::Deconfigure(name)
            | Step::Remove(name)
            | Step::Purge(name) => self.add(name)?,
            Step::Configure(names) => {
                for name in names.as_slice() {
                    self.add(name)?;
                }
            }
        }
        Ok(())
    }

    /// Takes in what the steps since the last call have changed. Linear in their names. Memory alone can fail.
    pub(crate) fn note(&mut self, plan: &PartialPlan<'_, 'a>) -> Result<(), AllocError> {
        self.extend(&plan.db)?;
        for number in self.steps..plan.steps.len() {
            if let Some(step) = plan.steps.get(number) {
                self.add_step(step)?;
            }
        }
        self.steps = plan.steps.len();
        Ok(())
    }

    /// The place of the record of the name, if there was one at the last call of `note`.
    pub(crate) fn place_of(&self, name: &[u8]) -> Option<usize> {
        self.names.get_index_of(name)
    }

    /// How many changes there are.
    pub(crate) fn count(&self) -> usize {
        self.places.len()
    }

    /// The changes behind the first so many.
    pub(crate) fn since(&self, count: usize) -> &[usize] {
        self.places.as_slice().get(count..).unwrap_or_default()
    }
}
