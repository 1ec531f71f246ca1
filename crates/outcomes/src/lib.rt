//! What is printed of each answer, and with which status the program ends. It stands on the crates of the answers (`cli_engine`,
//! `installable`, `apply`) and on `json_answers` for answers as JSON. The main type is `Outcome`, the main call `print`; begin with
//! `specs/Outcome.antt`.
#![tactic(auto)]

mod answer;
mod ended;
mod exit;
mod outcome;
mod printing;
mod survey;
mod survey_documents;

pub use answer::{
    applied_line, candidate_line, candidate_lines, comparison_line, refutation_line, solved_text,
    verdict_line,
};
pub use ended::exit_of_ended;
pub use exit::{
    Exit, exit_of_begin_error, exit_of_candidates, exit_of_comparison, exit_of_refusal,
    exit_of_refutation, exit_of_run_error, exit_of_solved, exit_of_verdict,
};
pub use outcome::{
    Outcome, outcome_in, outcome_of_answered, outcome_of_candidates, outcome_of_comparison,
    outcome_of_one_file, outcome_of_plan, outcome_of_refusal, outcome_of_refutation,
    outcome_of_solved, outcome_of_steps, outcome_of_stopped, outcome_of_unbegun,
    outcome_of_unwritten, outcome_of_unwritten_request, outcome_of_usage, outcome_of_verdict,
};
pub use printing::{print, print_ended, refuse_for_memory};
pub use survey::{
    exit_of_survey, outcome_of_survey, outcome_of_surveyed, outcome_of_unwritten_folder,
    survey_text,
};
pub use survey_documents::members_of_survey;
