//! Pieces of sentences: names with versions, relations as their fields have them (Policy 7.1), and lists of items, byte for byte. What
//! is told of refutations, plans and inputs is put together from them. Begin with `specs/Phrases.antt`.
#![tactic(auto)]

mod lists;
mod relations;
mod words;

pub use lists::push_joined;
pub use relations::{push_clause, push_restriction, push_wanted};
pub use words::{push_count, push_priority, push_versioned};
