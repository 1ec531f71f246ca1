// The steps that lead to a selection of packages: unpack, configure, remove and purge one after another, each asked of the judge
// (`plancheck::legal`) before it is taken. It has the call by which each step is taken, the members of the selection, and the
// groups of waiting names. The main calls are `empty_plan`, `take` and `finish`.
#![tactic(auto)]

mod forward;
mod group;
mod member;
mod name_order;
mod pending;
mod plan;
mod rank;

pub use forward::{finish, remove_first, unpack};
pub use group::group_of;
pub use member::{Member, MemberTable};
pub use name_order::in_order;
pub use pending::{is_waiting, leaving, waiting};
pub use plan::{PartialPlan, Problem, empty_plan, take};
