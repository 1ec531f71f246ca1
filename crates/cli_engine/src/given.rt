//! A plan and a refutation that are given, each judged over the universe of a request.
ghost use Rattle.std.specs.Prelude.{◌≡◌, Some, false, refl, true};
ghost use mathlib.Core.Logic.{inl};
ghost use Rattle.cli_engine.specs.Meaning.{IsSaid};
ghost use Rattle.cli_engine.specs.Refuted.{IsSaidOf};

use crate::check::{JudgedPlan, judged_plan};
use crate::check_refutation::{JudgedRefutation, judged_refutation, written_of};
use crate::laws::yes_refutes;
use crate::notes::Notes;
use crate::plan::steps_of;
use inputs::{Before, OverRequest, Refusal, Requested};
use std::alloc::Global;

/// Judges the plan with this text, as `CheckPlan` judges that of a shelf. Its reasons are told.
#[derive(Clone, Copy)]
pub struct GivenPlan<'t> {
    /// The text of the plan.
    pub plan: &'t [u8],
}

/// Judges the refutation with this text, as `CheckRefutation` judges that of a shelf. Its reasons are told, and a document of the answer
/// has its lines.
#[derive(Clone, Copy)]
pub struct GivenRefutation<'t> {
    /// The text of the refutation.
    pub refutation: &'t [u8],
}

impl<'t> OverRequest for GivenPlan<'t> {
    type Answer = JudgedPlan;

    type Beside = Notes;

    ghost says = { λ it texts _ result _. IsSaid texts (Some it.plan.now) true result };

    ghost keeps = { λ _ old _ new. old.wanted ≡ false → new ≡ old };

    fn answer<'a>(
        &self,
        alloc: Global,
        before: &Before<'_, '_, '_, '_, '_, '_, '_, 'a>,
        requested: &Requested<'_, 'a>,
        notes: &mut Notes,
    ) -> Result<JudgedPlan, Refusal> {
        let steps = steps_of(alloc, self.plan)?;
        let judged = judged_plan(alloc, before, &requested.universe, steps, true, notes)?;
        Ok(judged)
    }

    ghost refuses = { λ _ _ _ _ is. inl is };

    ghost stays = { λ _ _ _ _. refl };
}

impl<'t> OverRequest for GivenRefutation<'t> {
    type Answer = JudgedRefutation;

    type Beside = Notes;

    ghost says = { λ it texts _ result _. IsSaidOf texts (Some it.refutation.now) true true result };

    ghost keeps = { λ _ old _ new. old.wanted ≡ false → new ≡ old };

    fn answer<'a>(
        &self,
        alloc: Global,
        before: &Before<'_, '_, '_, '_, '_, '_, '_, 'a>,
        requested: &Requested<'_, 'a>,
        notes: &mut Notes,
    ) -> Result<JudgedRefutation, Refusal> {
        yes_refutes();
        let written = written_of(alloc, self.refutation)?;
        let judged = judged_refutation(alloc, before, requested, written, true, true, notes)?;
        Ok(judged)
    }

    ghost refuses = { λ _ _ _ _ is. inl is };

    ghost stays = { λ _ _ _ _. refl };
}
