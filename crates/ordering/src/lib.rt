// An acceptable selection put in order: a plain change in its fixed order, and another step by step. It stands on
// `plainness`, `fixed_order` and `order`. The main call is `order_selection`.
#![tactic(auto)]

mod selection;

pub use selection::order_selection;
