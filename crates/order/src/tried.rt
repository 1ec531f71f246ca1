// What is remembered of what was tried.

use crate::hindrance::Hindrances;
use crate::needed::Needs;
use std::alloc::Global;

/// What is remembered of the members, by their ranks, of what waits, by the places of the records, and of what is to go.
#[derive(Drop)]
pub(crate) struct Tried<'a> {
    pub(crate) members: Hindrances<'a>,
    pub(crate) waiting: Hindrances<'a>,
    pub(crate) leaving: Needs<'a>,
}

impl<'a> Tried<'a> {
    /// Nothing was tried.
    pub(crate) fn new(alloc: Global) -> Tried<'a> {
        Tried {
            members: Hindrances::new(alloc),
            waiting: Hindrances::new(alloc),
            leaving: Needs::new(alloc),
        }
    }
}
