// That the status file which the steps of a good plan leave is the end that the plan was judged by: definitions and laws,
// which are public functions with empty bodies.
#![tactic(auto)]

mod laws;

pub use laws::{
    a_good_plan_is_always_taken, a_good_plan_is_never_refused, a_good_plan_is_not_stopped,
    a_newline_at_the_end_changes_nothing, a_run_can_be_taken, a_step_keeps_what_is_sound,
    a_step_leaves_the_records_of_the_rules, an_allowed_step_can_be_taken, steps_keep_what_is_sound,
    steps_lead_to_one_end, storing_keeps_records, the_output_is_the_judged_end,
    the_start_is_what_was_read, the_status_text_is_the_judged_end, what_is_fetched_is_handed_in,
    what_is_read_is_sound, what_is_sound_reads_back, what_was_read_reads_again,
};
