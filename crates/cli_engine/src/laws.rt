//! What follows from what texts denote: each function's contract is the law.

ghost use Rattle.cli_engine.specs.Meaning.{GoodPlanIsAnswered, HasOneAnswer, YesKeepsPromise};
ghost use Rattle.cli_engine.specs.Refuted.{AcceptedRefutationIsAnswered, RefutationHasOneAnswer, YesRefutes};
ghost use Rattle.cli_engine.specs.Solution.{MeaningIsAnswered, MeaningIsSolvable};

/// What texts denote can be solved: the universe is built on the start and counted by it, its pairs ascend, those that must be
/// selected are there, and names are package names.
pub fn a_meaning_is_solvable()
    ensures { MeaningIsSolvable }
{}

/// A plan has one answer over texts.
pub fn a_plan_has_one_answer()
    ensures { HasOneAnswer }
{}

/// If the plan checker says yes, every action is legal by Policy chapter 7 when its turn comes, no two conflicting packages
/// are unpacked together after any beginning of the steps, and at the end the request, all holds and every Depends, Breaks
/// and Conflicts of installed packages are satisfied.
pub fn yes_keeps_its_promise()
    ensures { YesKeepsPromise }
{}

/// The plan checker says yes to every plan of which this is true, unless memory is wanting.
pub fn a_good_plan_is_answered_with_yes()
    ensures { GoodPlanIsAnswered }
{}

/// A refutation has one answer over texts.
pub fn a_refutation_has_one_answer()
    ensures { RefutationHasOneAnswer }
{}

/// If the refutation checker says yes, no selection of the admitted versions satisfies the request.
pub fn yes_refutes()
    ensures { YesRefutes }
{}

/// The refutation checker says yes to every refutation that is accepted, unless memory is wanting.
pub fn an_accepted_refutation_is_answered_with_yes()
    ensures { AcceptedRefutationIsAnswered }
{}

/// A request of texts that have a meaning is answered, unless memory is wanting.
pub fn a_meaning_is_answered()
    ensures { MeaningIsAnswered }
{}
