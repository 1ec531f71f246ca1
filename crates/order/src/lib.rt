// The order of steps for a selection of packages: unpack, configure, deconfigure, remove and purge one after another until
// the selection is installed, or until nothing leads on. It stands on the judge of plans: each step is asked of
// `plancheck::legal` before it is taken, so that what is answered holds whatever is tried. The main call is `order`.
#![tactic(auto)]

mod changes;
mod clear;
mod components;
mod enabling;
mod end;
mod hindrance;
mod install;
mod needed;
mod one_each;
mod ordered;
mod ordering;
mod ring;
mod strategy;
mod tidy;
mod tried;

pub use one_each::is_one_each;
pub use ordered::Ordered;
pub use ordering::order;
