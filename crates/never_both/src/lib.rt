// That the judges of plans and of refutations never both say yes, where no stanza of an index has the name and the version
// of a package that stands but other relations: definitions and laws, which are public functions with empty bodies. It
// stands on `rules`, `refutation`, `plain`, `inputs` and `cli_engine`, and decides nothing. Begin with `specs/Both.antt`.
#![tactic(auto)]

mod laws;

pub use laws::{a_good_plan_is_not_refuted, never_both_yes};
