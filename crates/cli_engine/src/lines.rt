//! What stands beside an answer to a request: the text of a refutation with its pairs named, its lines as a document has them, and what is
//! told of the answer.
ghost use Rattle.std.specs.Prelude.{◌≡◌, IfOk};
ghost use Rattle.candidates.specs.Inputs.{indices_of};
ghost use Rattle.inputs.specs.ReadAs.{IsOver, start_of};
ghost use Rattle.cli_engine.specs.Reasons.{IsToldWhere, TellsSolved};
ghost use Rattle.cli_engine.specs.Right.{IsRight};
ghost use Rattle.cli_engine.specs.Solution.{HasLines, HasSolvedLines, naming_for};

use crate::reasons::reasons_of_solved;
use crate::solve::Answered;
use inputs::{Before, Requested};
use json_answers::{Members, put_lines};
use refutation::Refutation;
use rules::Items;
use solver::Solved;
use std::alloc::{AllocError, Global};
use universe::Universe;
use written_refutation::write_naming;

/// What a document has of the lines of a refutation, where there is to be one. Costs what `json_answers::put_lines` costs. Memory alone
/// can fail.
pub(crate) fn members_of(
    alloc: Global,
    universe: &Universe<'_, '_>,
    refutation: &Refutation,
    has_document: bool,
) -> Result<Option<Members>, AllocError>
    ensures { IfOk result (HasLines universe.now has_document refutation.now) }
{
    if !has_document {
        return Ok(None);
    }
    let mut members = Members::new(alloc);
    put_lines(alloc, &mut members, universe, refutation)?;
    Ok(Some(members))
}

// The text of a refutation with its pairs named, where that is asked for and the answer is one. Memory alone can fail.
fn naming_of(
    alloc: Global,
    universe: &Universe<'_, '_>,
    solved: &Solved,
    names_pairs: bool,
) -> Result<Option<Items<u8>>, AllocError>
    ensures { IfOk result
        (λ naming. naming ≡ naming_for names_pairs universe.now.pairs solved.now) }
{
    if !names_pairs {
        return Ok(None);
    }
    match solved {
        Solved::Refuted(refutation) => {
            let text = write_naming(alloc, universe, refutation)?;
            Ok(Some(Items::new(text)))
        }
        Solved::Plan(_) => Ok(None),
        Solved::Undecided(_) => Ok(None),
    }
}

// What a document has of the lines where the answer is a refutation.
fn solved_members(
    alloc: Global,
    universe: &Universe<'_, '_>,
    solved: &Solved,
    has_document: bool,
) -> Result<Option<Members>, AllocError>
    ensures { IfOk result (HasSolvedLines universe.now has_document solved.now) }
{
    match solved {
        Solved::Refuted(refutation) => members_of(alloc, universe, refutation, has_document),
        Solved::Plan(_) => Ok(None),
        Solved::Undecided(_) => Ok(None),
    }
}

/// What is answered where the request is solved so, with the text of a refutation whose pairs are named, where that is asked for, what is
/// told of the answer, where that is wanted and memory isn't refused for it, and what a document has of the lines of a refutation, where there is to be one. Memory alone
/// can fail.
pub fn answer_of_solved<'a>(
    alloc: Global,
    before: &Before<'_, '_, '_, '_, '_, '_, '_, 'a>,
    requested: &Requested<'_, 'a>,
    solved: Solved,
    names_pairs: bool,
    tells_reasons: bool,
    has_document: bool,
) -> Result<Answered, AllocError>
    requires over { IsOver before.now requested.now.universe }
    requires right { IsRight requested.now.universe (start_of before.now) solved }
    ensures solved { IfOk result (λ answered. answered.solved ≡ solved) }
    ensures asks { IfOk result
        (λ answered. answered.asks_all_versions ≡ requested.now.asks_all_versions) }
    ensures naming { IfOk result
        (λ answered. answered.naming ≡ naming_for names_pairs requested.now.universe.pairs solved) }
    ensures reasons { IfOk result
        (λ answered. IsToldWhere tells_reasons
        (TellsSolved requested.now.universe
        (indices_of before.now.indices.now) (start_of before.now)
        answered.asks_all_versions answered.solved) answered.reasons) }
    ensures lines { IfOk result (λ answered.
        HasSolvedLines requested.now.universe has_document answered.solved answered.members) }
{
    let universe = &requested.universe;
    let naming = naming_of(alloc, universe, &solved, names_pairs)?;
    let reasons = reasons_of_solved(alloc, before, requested, &solved, tells_reasons);
    let members = solved_members(alloc, universe, &solved, has_document)?;
    Ok(Answered {
        solved,
        asks_all_versions: requested.asks_all_versions,
        naming,
        reasons,
        members,
    })
}
