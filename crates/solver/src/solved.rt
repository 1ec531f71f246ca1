// The answer to a request.

use refutation::Refutation;
use rules::Step;

/// The answer: a plan that was judged, a refutation that was accepted, or that the request is undecided.
#[derive(Drop)]
pub enum Solved {
    /// These steps are a plan.
    Plan(Vec<Step>),
    /// No selection is acceptable, and this shows it.
    Refuted(Refutation),
    /// Nothing was found that was accepted.
    Undecided(Undecided),
}

/// Why a request is undecided.
#[derive(Drop)]
pub enum Undecided {
    /// The search met more conflicts than this limit, which was handed in.
    Limit(u32),
    /// Two packages that are present at the start conflict.
    Start,
    /// A selection was found, and behind these steps none that leads to it is allowed.
    Stuck(Vec<Step>),
    /// A refutation was found that isn't accepted.
    Unchecked,
}
