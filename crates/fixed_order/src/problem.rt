// What stays the same while steps are found.

use crate::members::Members;
use plancheck_state::Records;
use std::alloc::Global;
use universe::Universe;

/// The change for which steps are found, with a table of the selected names.
#[derive(Drop)]
pub(crate) struct Problem<'g, 'q, 'p, 'a> {
    pub(crate) alloc: Global,
    pub(crate) start: &'g Records<'p, 'a>,
    pub(crate) universe: &'g Universe<'q, 'a>,
    pub(crate) selection: &'g [u32],
    pub(crate) members: &'g Members<'a>,
}
