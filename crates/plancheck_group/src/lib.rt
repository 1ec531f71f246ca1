//! What a group of packages needs to be configured together, and whether a part of it could be configured by
//! itself (Policy 7.2 and 7.3). It stands on `rules`, which says what a group needs, and on the values of
//! `relation` and `plancheck_state`. A part of the judge: it uses nothing of what finds plans. The calls are
//! `is_indivisible` and `greatest_part`.
#![tactic(auto)]

mod configure;
mod group;
mod lacking;
mod needs;
mod part;
mod ready;

pub use configure::{
    are_configurable, are_depends_installed, are_pre_depends_installed, are_unbroken,
};
pub use group::{greatest_part, is_indivisible};
