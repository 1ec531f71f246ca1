//! The plan, read into its steps.
ghost use Rattle.std.specs.Prelude.{◌≡◌, ◌≢◌, IfErr, IfOk, List, Ok, Some};
ghost use Rattle.inputs.specs.Meaning.{Denotes};
ghost use Rattle.inputs.specs.ReadBy.{IsReadBy};
ghost use Rattle.inputs.specs.Reading.{IsFaultOf};
ghost use Rattle.inputs.specs.Texts.{Shelved, Texts};
ghost use Rattle.inputs.specs.declared.refusal.Fault.TheVariants as fault;
ghost use Rattle.rules.specs.Database.{Record};
ghost use Rattle.rules.specs.Universe.{Universe as UniverseOf};
ghost use Rattle.cli_engine.specs.Answer.{IsFirstRefusal, plan_of};

use inputs::{Fault, Input, Refusal, Shelf, WholeText, read_part, refused_at};
use plantext::{PlanError, read_plan};
use rules::Step;
use std::alloc::Global;

// The steps of the plan with this text.
fn steps_in(alloc: Global, text: &[u8]) -> Result<Vec<Step>, Fault>
    ensures ok { IfOk result (λ steps. plan_of (Some text.now) ≡ Ok steps.items) }
    ensures err { IfErr result (λ f. IsFaultOf (plan_of (Some text.now)) f) }
    ensures known { IfErr result (λ f. f ≢ fault.Read) }
{
    match read_plan(alloc, text) {
        Ok(steps) => Ok(steps),
        Err(PlanError::Refused(refused)) => Err(Fault::Plan(refused)),
        Err(PlanError::OutOfMemory) => Err(Fault::OutOfMemory),
    }
}

/// The steps of the plan with this text.
pub(crate) fn steps_of(alloc: Global, text: &[u8]) -> Result<Vec<Step>, Refusal>
    ensures ok { IfOk result (λ steps. plan_of (Some text.now) ≡ Ok steps.items) }
    ensures refused { (texts : Texts) (u : UniverseOf) (start : List Record) → Denotes texts u start
        → IfErr result (λ refused. IsFirstRefusal texts (Some text.now) refused) }
    ensures known { IfErr result (λ refused. refused.fault ≢ fault.Read) }
{
    match steps_in(alloc, text) {
        Ok(steps) => Ok(steps),
        Err(fault) => Err(refused_at(Input::Plan, fault)),
    }
}

/// The steps of the plan.
pub fn read_steps<S: Shelf>(alloc: Global, shelf: &mut S) -> Result<Vec<Step>, Refusal>
    ensures ok { (at : Shelved) → S.known_texts shelf.old ≡ Some at
        → IfOk result (λ steps. plan_of at.judged ≡ Ok steps.items) }
    ensures refused { (at : Shelved) (texts : Texts) (u : UniverseOf) (start : List Record)
        → S.known_texts shelf.old ≡ Some at
        → Denotes texts u start → IfErr result (λ refused. IsFirstRefusal texts at.judged refused) }
    ensures read { IsReadBy S.Shelf shelf.old result shelf.new }
{
    let text = read_part(alloc, shelf, WholeText::Judged, Input::Plan)?;
    match steps_in(alloc, text.as_slice()) {
        Ok(steps) => Ok(steps),
        Err(fault) => Err(refused_at(Input::Plan, fault)),
    }
}
