// Parts of a universe: some of its pairs, with the same goals, facts of the start and candidates. What is found over
// a part holds over the whole: definitions and laws. It stands on `rules` and `refutation`, and decides nothing: its
// laws are public functions with empty bodies. Begin with `specs/Part.antt`.
#![tactic(auto)]

mod laws;

pub use laws::{
    acceptable_part_is_acceptable, choice_of_part, clauses_of_part, list_is_lifted,
    part_has_needed_pairs, part_is_acceptable, part_is_minimal, part_selects_the_same,
    premises_of_part,
};
