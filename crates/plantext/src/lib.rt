// The text of a plan, a line for each step, in two versions; in the second the last line has the number of the steps. It
// stands on `rules`, which has the steps, and on `debversion`, which reads the versions in them. The main calls are
// `read_plan`, which reads both, `write_plan` and `write_plan_2`.
#![tactic(auto)]

mod cut;
mod error;
mod group;
mod laws;
mod plan;
mod step_line;
mod word;
mod write;

pub use cut::{NEWLINE, SPACE, cut_part, split_part};
pub use error::{PlanError, PlanFault};
pub use laws::{a_plan_is_the_text_of_its_steps, a_step_is_its_line};
pub use plan::{read_plan, read_step};
pub use word::{only_name, only_word};
pub use write::{write_plan, write_plan_2, write_step};
