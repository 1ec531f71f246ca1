// A refutation that the search found, judged.

ghost use Rattle.std.specs.Prelude.{◌<◌, ◌^◌, IfOk, length};
ghost use Rattle.solver.specs.Solved.{IsJudged};
ghost use Rattle.universe_parts.specs.Parts.{HaveDistinctNames};

use crate::convert::refutation_of;
use encode::Encoding;
use reach::Reached;
use refutation::{Refutation, one_answer};
use refutation_text::is_writable;
use refutecheck::{Verdict, check_refutation};
use search::Derivation;
use std::alloc::{AllocError, Global};
use universe::Universe;

/// The refutation that was found over what is reached, as one of the universe, if it is accepted and can be written. Costs what
/// `check_refutation` costs. Memory alone can fail.
pub(crate) fn accepted_refutation(
    alloc: Global,
    universe: &Universe<'_, '_>,
    reached: &Reached<'_, '_, '_>,
    encoding: &Encoding<'_>,
    derivation: &Derivation,
) -> Result<Option<Refutation>, AllocError>
    requires few { length universe.now.pairs < 2 ^ 32 }
    requires distinct { HaveDistinctNames universe.now.starts }
    ensures { IfOk result (IsJudged universe.now) }
{
    one_answer();
    let refutation = refutation_of(alloc, reached, encoding, derivation)?;
    let writable = is_writable(alloc, &refutation)?;
    if !writable {
        return Ok(None);
    }
    match check_refutation(alloc, universe, &refutation)? {
        Verdict::Yes => Ok(Some(refutation)),
        Verdict::No(_) => Ok(None),
    }
}
