// The laws of what is read as a plan or as a step.

ghost use Rattle.std.specs.Prelude.{◌≡◌, ℕ, List, Ok};
ghost use Rattle.rules.specs.declared.step.Step.{Step};
ghost use Rattle.plantext.specs.Plan.{IsPlanText, read_plan, read_step};
ghost use Rattle.plantext.specs.StepLine.{step_line};

/// A text that is read as a plan is the version 1 text or the version 2 text of the steps that it is read as: no two texts
/// of one version are read as the same plan.
pub fn a_plan_is_the_text_of_its_steps()
    ensures { (text : List ℕ) (steps : List Step) → read_plan text ≡ Ok steps
        → IsPlanText steps text }
{}

/// A text that is read as a step is the step's line: no two texts are read as the same step.
pub fn a_step_is_its_line()
    ensures { (text : List ℕ) (step : Step) → read_step text ≡ Ok step → text ≡ step_line step }
{}
