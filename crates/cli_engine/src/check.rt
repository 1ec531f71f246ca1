//! A plan judged by texts, read in the order status, sources, indices, preferences, request and plan.
ghost use Rattle.std.specs.Prelude.{◌≡◌, IfOk, false, refl};
ghost use mathlib.Core.Logic.{inl};
ghost use Rattle.inputs.specs.ReadAs.{start_of};
ghost use Rattle.plan_sentences.specs.No.{TellsVerdict};
ghost use Rattle.rules.specs.Verdict.{IsBuiltOn, IsVerdict};
ghost use Rattle.status_text.specs.Slot.{slot_records};
ghost use Rattle.cli_engine.specs.Meaning.{IsSaid};
ghost use Rattle.cli_engine.specs.Reasons.{IsToldWhere};

use crate::judged::reasons_of_plan;
use crate::notes::Notes;
use crate::plan::read_steps;
use crate::requested::{read_asked, tell_idle_inputs};
use inputs::{Before, Question, Refusal, Requested, Shelf};
use plancheck::check_plan;
use plancheck_state::{parse_packages, view};
use rules::{Items, Step, Verdict};
use status_text::StatusFile;
use std::alloc::{AllocError, Global};
use universe::Universe;

/// What is answered of a plan.
#[derive(Drop)]
pub struct JudgedPlan {
    /// The verdict.
    pub verdict: Verdict,
    /// The steps that the plan is read as.
    pub steps: Vec<Step>,
    /// What is told of the verdict, each sentence a line of its own, where that is wanted and memory wasn't refused for it.
    pub reasons: Option<Items<u8>>,
}

/// Judges the plan: the verdict of what the texts denote, or the first refusal in the order status, sources, indices, preferences,
/// request, plan. The priorities cost what `candidates::Offered::find` says; judging costs what `plancheck::check_plan` says. Sentences
/// on inputs are told, where they are wanted.
#[derive(Clone, Copy)]
pub struct CheckPlan {
    /// Whether it is told what stands against the plan, or what it changes.
    pub tells_reasons: bool,
}

/// Judges the steps from this status file on.
pub fn judge<'a>(
    alloc: Global,
    status_file: &StatusFile<'a>,
    universe: &Universe<'_, 'a>,
    steps: &[Step],
) -> Result<Verdict, AllocError>
    requires { IsBuiltOn (slot_records status_file.now.slots) universe.now }
    ensures { IfOk result
        (λ verdict. IsVerdict universe.now (slot_records status_file.now.slots) steps.now verdict) }
{
    let records = status_file.records(alloc)?;
    let packages = parse_packages(alloc, records.as_slice())?;
    let start = view(alloc, records.as_slice(), packages.as_slice())?;
    let answer = check_plan(alloc, &start, universe, steps)?;
    Ok(answer)
}

/// What is answered of the plan with these steps over the universe of a request. Which of the inputs change no answer is told in the
/// notes, where that is wanted. Memory alone can fail.
pub(crate) fn judged_plan<'a>(
    alloc: Global,
    before: &Before<'_, '_, '_, '_, '_, '_, '_, 'a>,
    universe: &Universe<'_, 'a>,
    steps: Vec<Step>,
    tells_reasons: bool,
    notes: &mut Notes,
) -> Result<JudgedPlan, AllocError>
    requires { IsBuiltOn (start_of before.now) universe.now }
    ensures steps { IfOk result (λ judged. judged.steps.items ≡ steps.items) }
    ensures exact { IfOk result
        (λ judged. IsVerdict universe.now (start_of before.now) steps.items judged.verdict) }
    ensures reasons { IfOk result (λ judged. IsToldWhere tells_reasons
        (TellsVerdict universe.now (start_of before.now) steps.items judged.verdict)
        judged.reasons) }
    ensures unasked { notes.old.wanted ≡ false → notes.new ≡ notes.old }
{
    let verdict = judge(alloc, before.status_file, universe, steps.as_slice())?;
    let reasons = reasons_of_plan(
        alloc,
        before.status_file,
        universe,
        steps.as_slice(),
        &verdict,
        tells_reasons,
    );
    tell_idle_inputs(alloc, before, notes);
    Ok(JudgedPlan {
        verdict,
        steps,
        reasons,
    })
}

impl Question for CheckPlan {
    type Answer = JudgedPlan;

    type Beside = Notes;

    ghost says = { λ it texts judged _ result _. IsSaid texts judged it.tells_reasons result };

    ghost keeps = { λ _ _ old _ new. old.wanted ≡ false → new ≡ old };

    fn answer<S: Shelf>(
        &self,
        alloc: Global,
        shelf: &mut S,
        before: &Before<'_, '_, '_, '_, '_, '_, '_, '_>,
        notes: &mut Notes,
    ) -> Result<JudgedPlan, Refusal> {
        let Requested { universe, .. } = read_asked(alloc, shelf, before, notes)?;
        let steps = read_steps(alloc, shelf)?;
        let judged = judged_plan(alloc, before, &universe, steps, self.tells_reasons, notes)?;
        Ok(judged)
    }

    ghost refuses = { λ _ _ _ _ _ is. inl (inl is) };

    ghost stays = { λ _ _ _ _ _. refl };
}
