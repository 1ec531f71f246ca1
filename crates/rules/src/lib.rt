// What every crate of debplan speaks of: the definitions that contracts cite, the laws that follow from
// them, and the small types that code and definitions share. It stands on nothing of debplan's.
// Begin with `specs/Version.antt`, and read on as docs/SPECIFICATION.md lists.
#![tactic(auto)]

mod bad_version;
mod goal;
mod index_place;
mod laws;
mod limits;
mod name;
mod op;
mod release;
mod status;
mod step;
mod text;
mod version_order;
mod version_text;

pub use bad_version::BadVersion;
pub use goal::{Goal, GoalLine, Restriction};
pub use index_place::IndexPlace;
pub use laws::{
    allowed_acts_on_present, allowed_or_failing, allowed_where_none_fails, distinct_names_kept,
    good_plan_has_yes, good_plan_keeps_promise, good_where_nothing_is_against, has_greatest_part,
    indivisible_by_others, one_end, one_first_failing, one_universe, one_verdict, quiet_after_run,
    quiet_kept, run_goes_on, run_or_stops, union_passes, universe_is_built, written_as_left,
};
pub use limits::{GOALS, INDICES, PACKAGES, PAIRS, STEPS, TEXT_BYTES};
pub use name::{Name, Names, is_name, is_name_byte, name_cmp};
pub use op::Op;
pub use release::{Pin, PinnedNames, Preference, Release, ReleaseItem, ReleaseKey};
pub use status::{Flag, State, Want};
pub use step::{Reason, Rule, Step, Verdict};
pub use text::{Items, Text};
pub use version_order::{
    first_difference_decides, pieces_are_fronts, same_version_is_equivalence,
    same_versions_compare_alike, version_order_is_total,
};
pub use version_text::VersionText;
