// What is answered of a selection.

use rules::Step;

/// Steps for a selection.
#[derive(Drop)]
pub enum Ordered {
    /// A plan: each step is allowed when its turn comes, and at the end just the selection is installed.
    Plan(Vec<Step>),
    /// Two packages conflict at the start, so that no plan begins.
    Start,
    /// The steps are allowed one after another, and then none that leads to the selection is.
    Stuck(Vec<Step>),
}
