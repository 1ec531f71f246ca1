// The steps of a plain change in its fixed order: unpacks by name, then removals, each with the deconfigures that it needs,
// then configures of least groups, then purges by name. It stands on `plain`, which says what the order is, and on the
// judge's calls, by which it asks whether a step is allowed. The main call is `fixed_order`.
#![tactic(auto)]

mod askers;
mod configure;
mod fixed;
mod key;
mod marks;
mod members;
mod needs;
mod problem;
mod purge;
mod ranks;
mod removal;
mod rings;
mod selection;
mod state;
mod turn;
mod unpack;
mod waiting;

pub use fixed::fixed_order;
