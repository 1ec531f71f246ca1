// Laws that follow from the definitions: each function has an empty body, and its contract is the law.

ghost use Rattle.rules.specs.FileRecord.{WrittenAsLeft};
ghost use Rattle.rules.specs.GroupLaws.{UnionPasses, HasGreatestPart, IndivisibleByOthers};
ghost use Rattle.rules.specs.LegalLaws.{AllowedActsOnPresent, OneFirstFailing, AllowedOrFailing, AllowedWhereNoneFails};
ghost use Rattle.rules.specs.PlanLaws.{GoodPlanKeepsPromise};
ghost use Rattle.rules.specs.UniverseLaws.{OneUniverse, OneVerdict};
ghost use Rattle.rules.specs.Verdict.{GoodPlanHasYes, GoodWhereNothingIsAgainst, UniverseIsBuilt};
ghost use Rattle.rules.specs.RunLaws.{RunGoesOn, OneEnd, RunOrStops, DistinctNamesKept, QuietKept, QuietAfterRun};

/// A step has one first failing rule at most.
pub fn one_first_failing()
    ensures { OneFirstFailing }
{}

/// Each step is allowed or has a first failing rule.
pub fn allowed_or_failing()
    ensures { AllowedOrFailing }
{}

/// A step is allowed exactly where no rule of its table is the first to fail.
pub fn allowed_where_none_fails()
    ensures { AllowedWhereNoneFails }
{}

/// A run of two lists of steps in a row is a run of the first, and from its end one of the second.
pub fn run_goes_on()
    ensures { RunGoesOn }
{}

/// A run has one end.
pub fn one_end()
    ensures { OneEnd }
{}

/// Each list of steps is a run to some end or stops at a step.
pub fn run_or_stops()
    ensures { RunOrStops }
{}

/// Two groups that pass the tests of a configuring pass them together.
pub fn union_passes()
    ensures { UnionPasses }
{}

/// Each group has a greatest part that passes.
pub fn has_greatest_part()
    ensures { HasGreatestPart }
{}

/// No proper part of a group passes by itself exactly where, for each member, the greatest passing part of
/// the others is empty.
pub fn indivisible_by_others()
    ensures { IndivisibleByOthers }
{}

/// The records of what an action writes are what it leaves.
pub fn written_as_left()
    ensures { WrittenAsLeft }
{}

/// Every action keeps the names of the database distinct.
pub fn distinct_names_kept()
    ensures { DistinctNamesKept }
{}

/// Every allowed action keeps a quiet database quiet.
pub fn quiet_kept()
    ensures { QuietKept }
{}

/// After every beginning of a run from a quiet start the database is quiet.
pub fn quiet_after_run()
    ensures { QuietAfterRun }
{}

/// A good plan keeps its promise: each step is allowed when its turn comes, the database is quiet after each
/// beginning of the steps, and at the end every goal is met, what is to be purged is gone, every hold and every essential name is kept, and
/// every Pre-Depends, Depends, Conflicts and Breaks of an installed package is satisfied.
pub fn good_plan_keeps_promise()
    ensures { GoodPlanKeepsPromise }
{}

/// The universe of the inputs is built on their start.
pub fn universe_is_built()
    ensures { UniverseIsBuilt }
{}

/// The end of a run is good exactly where nothing is against it: that what is installed is admitted and that
/// holds are kept follows from the steps being allowed.
pub fn good_where_nothing_is_against()
    ensures { GoodWhereNothingIsAgainst }
{}

/// The same inputs have one universe.
pub fn one_universe()
    ensures { OneUniverse }
{}

/// A plan has one verdict.
pub fn one_verdict()
    ensures { OneVerdict }
{}

/// A plan that is good has no other verdict than yes.
pub fn good_plan_has_yes()
    ensures { GoodPlanHasYes }
{}

/// What an allowed step configures, deconfigures or removes is present.
pub fn allowed_acts_on_present()
    ensures { AllowedActsOnPresent }
{}
