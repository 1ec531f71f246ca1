//! A plan that is judged by texts, and made ready to be carried out where it is good.
ghost use Rattle.std.specs.Prelude.{◌≡◌, ◌↔◌, IsTrue};
ghost use Rattle.rules.specs.declared.step.Verdict.TheVariants.{Yes};
ghost use Rattle.apply_engine.specs.Prepared.{IsForArch, IsSaidOfPrepared};
ghost use mathlib.Core.Logic.{inl};

use crate::good_plan::GoodPlan;
use crate::judging::{Judgement, judge_plan};
use crate::readying::made_ready;
use inputs::{Before, Question, Refusal, Shelf};
use rules::Verdict;
use std::alloc::Global;

/// What is answered of a plan that is to be carried out.
#[derive(Drop)]
pub enum Prepared {
    /// It isn't good.
    Judged(Verdict),
    /// It is good, and this is what a journal takes of it.
    Ready(GoodPlan),
}

// Whether the plan is good.
fn is_yes(verdict: &Verdict) -> bool
    ensures { IsTrue result ↔ verdict.now ≡ Yes }
{
    match verdict {
        Verdict::Yes => true,
        _ => false,
    }
}

/// Judges the plan of a shelf, as `cli_engine::CheckPlan` does, and makes it ready to be carried out where it is good: the texts of the
/// stanzas that it unpacks are fetched in a second opening of their indices. Judging costs what `CheckPlan` says, fetching what
/// `fetch_texts` says.
#[derive(Clone, Copy)]
pub struct Prepare {}

impl Question for Prepare {
    type Answer = Prepared;

    type Beside = ();

    ghost says = { λ _ texts plan _ result _. IsSaidOfPrepared texts plan result };

    ghost keeps = { λ _ settings _ result _. IsForArch settings.arch.now result };

    fn answer<S: Shelf>(
        &self,
        alloc: Global,
        shelf: &mut S,
        before: &Before<'_, '_, '_, '_, '_, '_, '_, '_>,
        _beside: &mut (),
    ) -> Result<Prepared, Refusal> {
        let Judgement {
            universe,
            steps,
            verdict,
        } = judge_plan(alloc, shelf, before)?;
        if !is_yes(&verdict) {
            return Ok(Prepared::Judged(verdict));
        }
        let plan = made_ready(alloc, shelf, before, &universe, steps)?;
        Ok(Prepared::Ready(plan))
    }

    ghost refuses = { λ _ texts plan beside refused is. inl (inl (inl is)) };

    ghost stays = { λ _ settings beside refused. tt };
}
