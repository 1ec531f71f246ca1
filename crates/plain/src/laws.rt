// Laws that follow from the definitions: each function has an empty body, and its contract is the law.

ghost use Rattle.plain.specs.Laws.{UniverseIsCounted, StartIsQuiet, NothingClashes, PlainChangeIsOrdered, PlainChangeHasOrder, OneFixedOrder};
ghost use Rattle.plain.specs.PhaseLaws.{MembersAreByName, UnpacksAreAllowed, LastRemovalIsAllowed, RemovalsGoOn, RemovalsAreAllowed, RemovalLeaves, DeconfigureLeaves, UnconfiguredPass, ConfiguresKeep, ConfigureLeaves, PurgesEndWell, RemovalsGrow, RemovalsEnd, ConfiguresGrow, ConfiguresEnd};
ghost use Rattle.plain.specs.WalkLaws.{LeastGroupIsThere, WalkBegins, WalkLeavesOut, WalkKeeps, WalkEnds, NoGroupIsLeft};

/// The universe of inputs is counted by their start.
pub fn universe_is_counted()
    ensures { UniverseIsCounted }
{}

/// The start of a plain change is quiet.
pub fn start_is_quiet()
    ensures { StartIsQuiet }
{}

/// Where each present package was present at the start of a plain change or is selected, no conflict and no break
/// stands in the way of a step.
pub fn nothing_clashes()
    ensures { NothingClashes }
{}

/// The members to be unpacked, in the order of their pairs, are just those, by name.
pub fn members_are_by_name()
    ensures { MembersAreByName }
{}

/// In a plain change the unpacks by name are allowed, each behind those before it; behind them each member stands,
/// and each installed package that isn't to be removed is a member that stays.
pub fn unpacks_are_allowed()
    ensures { UnpacksAreAllowed }
{}

/// A name to be removed may go where no other one that is to be removed is installed.
pub fn last_removal_is_allowed()
    ensures { LastRemovalIsAllowed }
{}

/// While a name is to be removed, one may go or one is installed, which may then be deconfigured.
pub fn removals_go_on()
    ensures { RemovalsGoOn }
{}

/// The next of the removals is allowed, keeps the change underway, and leaves fewer steps.
pub fn removals_are_allowed()
    ensures { RemovalsAreAllowed }
{}

/// Removals so far, with the next one, are removals so far.
pub fn removals_grow()
    ensures { RemovalsGrow }
{}

/// Removals so far are the removals where nothing more is to be removed.
pub fn removals_end()
    ensures { RemovalsEnd }
{}

/// Behind a removal the other names are still to be removed.
pub fn removal_leaves()
    ensures { RemovalLeaves }
{}

/// Behind a deconfigure all names are still to be removed, and all but one are still installed that were.
pub fn deconfigure_leaves()
    ensures { DeconfigureLeaves }
{}

/// Where nothing is to be removed, all that isn't configured passes as a group, but for the rule of its parts.
pub fn unconfigured_pass()
    ensures { UnconfiguredPass }
{}

/// Where some group passes but for the rule of its parts, there is a least group that may be configured.
pub fn least_group_is_there()
    ensures { LeastGroupIsThere }
{}

/// The walk to the least group begins with the greatest part of what isn't configured, if it is something.
pub fn walk_begins()
    ensures { WalkBegins }
{}

/// Where the greatest part of what isn't configured is nothing, no group may be configured.
pub fn no_group_is_left()
    ensures { NoGroupIsLeft }
{}

/// Where some of the others pass without the next name, the walk goes on with the greatest part of those.
pub fn walk_leaves_out()
    ensures { WalkLeavesOut }
{}

/// Where none of the others pass without the next name, it is kept.
pub fn walk_keeps()
    ensures { WalkKeeps }
{}

/// Where all names are kept, they are the least group.
pub fn walk_ends()
    ensures { WalkEnds }
{}

/// A configure that is allowed keeps the change underway, with nothing to be removed.
pub fn configures_keep()
    ensures { ConfiguresKeep }
{}

/// Behind a configure that is allowed the other names aren't configured yet, and those are fewer.
pub fn configure_leaves()
    ensures { ConfigureLeaves }
{}

/// Configures so far, with the next one, are configures so far.
pub fn configures_grow()
    ensures { ConfiguresGrow }
{}

/// Configures so far are the configures where no group may be configured.
pub fn configures_end()
    ensures { ConfiguresEnd }
{}

/// Where nothing is to be removed and no group may be configured, the purges by name are allowed, and behind them the
/// end is good and just the selected packages are installed.
pub fn purges_end_well()
    ensures { PurgesEndWell }
{}

/// A plain change to an acceptable selection is ordered: steps in the fixed order are a run from the start, which is
/// quiet, to a good end at which just the selected packages are installed.
pub fn plain_change_is_ordered()
    ensures { PlainChangeIsOrdered }
{}

/// A plain change to an acceptable selection has steps in the fixed order.
pub fn plain_change_has_order()
    ensures { PlainChangeHasOrder }
{}

/// Steps in the fixed order are the only ones.
pub fn one_fixed_order()
    ensures { OneFixedOrder }
{}
