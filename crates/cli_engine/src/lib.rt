//! The questions over texts: a plan that is judged, a refutation that is judged, a request that is solved, and the candidates of names.
//! What the texts are read as, and how a question is asked of them, is `inputs`; it stands on the judges `plancheck` and
//! `refutecheck`, and for `Solve` alone on `solver`. The main types are `CheckPlan`, `CheckRefutation`, `Solve` and `FindCandidates`, which
//! `inputs::ask` asks of a shelf.
#![tactic(auto)]

mod candidate;
mod check;
mod check_refutation;
mod comparison;
mod given;
mod judged;
mod laws;
mod lines;
mod notes;
mod offered;
mod plan;
mod reasons;
mod requested;
mod solve;
mod versions;

pub use candidate::FindCandidates;
pub use check::{CheckPlan, JudgedPlan, judge};
pub use check_refutation::{CheckRefutation, JudgedRefutation};
pub use comparison::{Comparison, compare};
pub use given::{GivenPlan, GivenRefutation};
pub use inputs::{Fault, Input, Inputs, Refusal, Settings, Shelf};
pub use laws::{
    a_good_plan_is_answered_with_yes, a_meaning_is_answered, a_meaning_is_solvable,
    a_plan_has_one_answer, a_refutation_has_one_answer,
    an_accepted_refutation_is_answered_with_yes, yes_keeps_its_promise, yes_refutes,
};
pub use lines::answer_of_solved;
pub use notes::Notes;
pub use offered::CandidateAnswer;
pub use plan::read_steps;
pub use refutecheck::Verdict as RefutationVerdict;
pub use requested::{idle_text, tell_idle_inputs, tell_refused};
pub use rules::{Reason, Rule, Verdict};
pub use solve::{Answered, Solve, solve_over};
pub use solver::{Solved, Undecided};
