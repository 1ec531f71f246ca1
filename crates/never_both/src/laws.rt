// Laws that follow from the definitions: each function has an empty body, and its contract is the law.

ghost use Rattle.never_both.specs.Both.{GoodPlanIsNotRefuted, NeverBothYes};

/// Where no stanza of a pair has other relations than the pair's package, no refutation is accepted of a universe that has a
/// good plan.
pub fn a_good_plan_is_not_refuted()
    ensures { GoodPlanIsNotRefuted }
{}

/// Where no stanza of an index has the name and the version of a package that stands but other relations, not both a plan and a
/// refutation are answered with yes.
pub fn never_both_yes()
    ensures { NeverBothYes }
{}
