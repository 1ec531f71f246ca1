// Which goal of a request gives a premise.

use refutation::{Line, Premise, Refutation};
use refutecheck::Premises;
use request_lines::Wish;
use rules::{Goal, Name, Restriction};
use universe::Pair;

fn is_same_name(name: &Name, other: &Name) -> bool {
    name.as_bytes() == other.as_bytes()
}

fn is_same_restriction(one: &Option<Restriction>, other: &Option<Restriction>) -> bool {
    match (one, other) {
        (None, None) => true,
        (Some(one), Some(other)) => {
            one.op == other.op && one.version.as_bytes() == other.version.as_bytes()
        }
        _ => false,
    }
}

/// Whether two goals are the same, but for those that are about no name.
pub(crate) fn is_same_goal(one: &Goal, other: &Goal) -> bool {
    match (one, other) {
        (Goal::Install(name, restriction), Goal::Install(same, bound)) => {
            is_same_name(name, same) && is_same_restriction(restriction, bound)
        }
        (Goal::Remove(name), Goal::Remove(same)) => is_same_name(name, same),
        (Goal::Purge(name), Goal::Purge(same)) => is_same_name(name, same),
        (Goal::Upgrade(name), Goal::Upgrade(same)) => is_same_name(name, same),
        _ => false,
    }
}

// Whether the goal is to upgrade the name of the pair.
fn upgrades(goal: &Goal, pair: Option<&Pair<'_, '_>>) -> bool {
    match (goal, pair) {
        (Goal::Upgrade(name), Some(pair)) => name.as_bytes() == pair.name(),
        _ => false,
    }
}

// Whether the goal of the request that is about the pair is this one, or `upgrade-all`, of which this one is a part.
fn is_part_of(
    premises: &Premises<'_, '_, '_>,
    asked: Option<&Goal>,
    pair: u32,
    goal: &Goal,
) -> bool {
    match asked {
        None => false,
        Some(Goal::UpgradeAll) => upgrades(goal, premises.pair_at(pair)),
        Some(asked) => is_same_goal(asked, goal),
    }
}

// Whether the line is a premise that the goal gives.
fn is_given_by(premises: &Premises<'_, '_, '_>, line: &Line, goal: &Goal) -> bool {
    match line {
        Line::Premise(Premise::Goal(number)) => match premises.goal_at(*number) {
            None => false,
            Some(asked) => is_same_goal(asked, goal),
        },
        Line::Premise(Premise::GoalOn(number, pair)) => {
            is_part_of(premises, premises.goal_at(*number), *pair, goal)
        }
        _ => false,
    }
}

/// Whether the refutation names the goal of the wish.
pub(crate) fn is_named(
    premises: &Premises<'_, '_, '_>,
    refutation: &Refutation,
    wish: &Wish,
) -> bool {
    match wish.goal() {
        None => false,
        Some(goal) => refutation
            .as_slice()
            .iter()
            .any(|line| is_given_by(premises, line, goal)),
    }
}
