// One request of those that are asked one after the other.

ghost use Rattle.std.specs.Prelude.{ℕ, IfOk, List};
ghost use Rattle.inputs.specs.ReadAs.{IsOver};
ghost use Rattle.keep_back.specs.Round.{IsRequestedBy, IsSolvedRequest};

use cli_engine::solve_over;
use inputs::{Before, Requested};
use solver::Solved;
use std::alloc::{AllocError, Global};

/// What a request asks for, and what is answered to it.
#[derive(Drop)]
pub(crate) struct SolvedRequest<'i, 'a> {
    /// The universe, and whether the request asks for all versions.
    pub(crate) requested: Requested<'i, 'a>,
    /// What is answered.
    pub(crate) solved: Solved,
}

/// Solves what is asked for. Costs what `solver::solve` costs. Memory alone can fail.
pub(crate) fn solved_in<'i, 'a>(
    alloc: Global,
    before: &Before<'_, '_, '_, '_, '_, '_, 'i, 'a>,
    requested: Requested<'i, 'a>,
    limit: u32,
) -> Result<SolvedRequest<'i, 'a>, AllocError>
    requires { IsOver before.now requested.universe }
    ensures over { IfOk result (λ solved. IsOver before.now solved.requested.universe) }
    ensures solved { (request : List ℕ) → IsRequestedBy before.now request requested.entry
        → IfOk result (IsSolvedRequest before.now limit request) }
{
    let solved = solve_over(alloc, before, &requested.universe, limit)?;
    Ok(SolvedRequest { requested, solved })
}
