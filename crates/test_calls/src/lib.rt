//! Callers that know the contracts of what they call and nothing else, with what they promise; and tests in which what is proved of
//! all files, sources, writers, questions and hosts is called with one of a caller's own, which meets the contracts of its trait.
//! Tests that need no proof stand in the folder `tests` at the top of the repository. Begin with `callers.rt`.
#![tactic(auto)]

mod callers;
#[cfg(test)]
mod collecting;
#[cfg(test)]
mod files;
#[cfg(test)]
mod hosts;
#[cfg(test)]
mod journals;
#[cfg(test)]
mod readers;
#[cfg(test)]
mod requests;
#[cfg(test)]
mod writers;

pub use callers::{unwritten, written};
