// Of a selection that is acceptable it makes one that is acceptable and locally minimal: it drops what nothing asks for,
// puts back the versions that stood, and adds versions of names that would have none. It stands on the clauses of the
// universe as `encode` gives them, and on nothing that judges. The main call is `settle`; its laws are public functions
// with empty bodies.
#![tactic(auto)]

mod asked;
mod change;
mod facts;
mod given;
mod known;
mod laws;
mod moves;
mod numbers;
mod occurrences;
mod pairs;
mod place;
mod queue;
mod reached;
mod role;
mod roles;
mod selection;
mod set;
mod settled;
mod wishes;

pub use laws::{
    acceptable_where_clauses_are_true, closed_parts_are_true, settled_is_minimal,
    standing_of_inputs_are_present, standing_records_are_present,
};
pub use selection::settle;
