// When a change from a start to a selection is plain, and the fixed order in which it is then made: definitions and
// laws. It stands on `rules`, and decides nothing: its laws are public functions with empty bodies. The main one says
// that steps in the fixed order are a run to a good end. Begin with `specs/Change.antt`.
#![tactic(auto)]

mod laws;

pub use laws::{
    configure_leaves, configures_end, configures_grow, configures_keep, deconfigure_leaves,
    last_removal_is_allowed, least_group_is_there, members_are_by_name, no_group_is_left,
    nothing_clashes, one_fixed_order, plain_change_has_order, plain_change_is_ordered,
    purges_end_well, removal_leaves, removals_are_allowed, removals_end, removals_go_on,
    removals_grow, start_is_quiet, unconfigured_pass, universe_is_counted, unpacks_are_allowed,
    walk_begins, walk_ends, walk_keeps, walk_leaves_out,
};
