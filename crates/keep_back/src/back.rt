// What was left out of a request is put back, where it can be had beside what is left: each goal alone, one after the other, until
// none can.

ghost use Rattle.std.specs.Prelude.{◌≡◌, ◌≢◌, ◌<◌, ◌^◌, IfErr, IfOk, false, length};
ghost use Rattle.inputs.specs.ReadAs.{AreReadAs, IsListed};
ghost use Rattle.inputs.specs.ReadBy.{IsUntouched};
ghost use Rattle.inputs.specs.Texts.{Texts};
ghost use Rattle.inputs.specs.declared.refusal.Fault.TheVariants as fault;
ghost use Rattle.keep_back.specs.Back.{AreAlone, IsPass, IsTried};
ghost use Rattle.keep_back.specs.Further.{IsFurther, IsFurtherRefusal, request_of};
ghost use Rattle.keep_back.specs.Reason.{has_no_plan};
ghost use Rattle.keep_back.specs.Round.{IsSolvedRequest};
ghost use Rattle.universe_parts.specs.Parts.{HaveDistinctNames};
ghost use Rattle.request_lines.specs.Spelled.{stays_at};

use crate::kept::{show_left, solved_of};
use crate::left::Left;
use crate::note::{push_reasons, push_refuted, push_undecided, push_wish};
use crate::round::SolvedRequest;
use inputs::{Before, Refusal, Shelf};
use refutation::Refutation;
use refutation_sentences::{core, sentences};
use refutecheck::Premises;
use request_lines::Wish;
use solver::Solved;
use std::alloc::{AllocError, Global};
use universe_build::Listing;

// Writes a sentence for each premise of a core of the refutation. Memory alone can fail.
fn tell_reasons(
    alloc: Global,
    before: &Before<'_, '_, '_, '_, '_, '_, '_, '_>,
    solved: &SolvedRequest<'_, '_>,
    refutation: &Refutation,
    notes: &mut Vec<u8>,
) -> Result<(), AllocError>
    requires few { length solved.now.requested.universe.pairs < 2 ^ 32 }
    requires distinct { HaveDistinctNames solved.now.requested.universe.starts }
{
    let premises = Premises::new(alloc, &solved.requested.universe);
    let core = core(&premises, refutation)?;
    let told = sentences(
        &premises,
        before.indices,
        before.prefs,
        &core,
        solved.requested.asks_all_versions,
    )?;
    push_reasons(notes, told.as_slice())
}

// Tells why the wish is left out of the request that this refutation refutes, or that it is refuted, where memory is refused for the reasons.
// Memory alone can fail.
fn tell_refuted(
    alloc: Global,
    before: &Before<'_, '_, '_, '_, '_, '_, '_, '_>,
    solved: &SolvedRequest<'_, '_>,
    refutation: &Refutation,
    wish: &Wish,
    notes: &mut Vec<u8>,
) -> Result<(), AllocError>
    requires few { length solved.now.requested.universe.pairs < 2 ^ 32 }
    requires distinct { HaveDistinctNames solved.now.requested.universe.starts }
{
    push_wish(notes, wish)?;
    let told = notes.len();
    match tell_reasons(alloc, before, solved, refutation, notes) {
        Ok(()) => Ok(()),
        Err(AllocError) => {
            notes.truncate(told);
            push_refuted(notes)
        }
    }
}

// Tells why the wish is left out of the request with this answer: whether the answer is no plan.
fn tell_out(
    alloc: Global,
    before: &Before<'_, '_, '_, '_, '_, '_, '_, '_>,
    solved: &SolvedRequest<'_, '_>,
    wish: &Wish,
    notes: &mut Vec<u8>,
) -> Result<bool, AllocError>
    requires few { length solved.now.requested.universe.pairs < 2 ^ 32 }
    requires distinct { HaveDistinctNames solved.now.requested.universe.starts }
    ensures { IfOk result (λ is_out. is_out ≡ has_no_plan solved.now.solved) }
{
    match &solved.solved {
        Solved::Plan(_) => Ok(false),
        Solved::Refuted(refutation) => {
            tell_refuted(alloc, before, solved, refutation, wish, notes)?;
            Ok(true)
        }
        Solved::Undecided(_) => {
            push_wish(notes, wish)?;
            push_undecided(notes)?;
            Ok(true)
        }
    }
}

// Puts the wish at the place back, where there is a plan with it, which is answered; else it stays left out, and it is told why.
fn try_at<'i, 'a>(
    alloc: Global,
    before: &Before<'_, '_, '_, '_, '_, '_, 'i, 'a>,
    listing: &Listing<'_, 'i, 'a>,
    left: &mut Left,
    place: usize,
    limit: u32,
    notes: &mut Vec<u8>,
) -> Result<Option<SolvedRequest<'i, 'a>>, Refusal>
    requires listed { IsListed before.now listing.now }
    requires long { length left.old.stays.items ≡ length left.old.wishes.items }
    requires within { place < length left.old.wishes.items }
    requires out { stays_at left.old.stays.items place ≡ false }
    ensures tried { IfOk result (IsTried before.now limit place left.old left.new) }
    ensures refused { (texts : Texts) → AreReadAs texts before.now
        → IfErr result (IsFurtherRefusal before.now texts left.old) }
    ensures known { IfErr result (λ refused. refused.fault ≢ fault.Read) }
{
    left.mark(place, true);
    let solved = solved_of(alloc, before, listing, left, limit)?;
    if tell_out(alloc, before, &solved, &left.wishes[place], notes)? {
        left.mark(place, false);
        return Ok(None);
    }
    Ok(Some(solved))
}

// Tries each line that is left out, one after the other: whether one was put back. The answer is that to what is left.
fn pass<'i, 'a, S: Shelf>(
    alloc: Global,
    shelf: &mut S,
    before: &Before<'_, '_, '_, '_, '_, '_, 'i, 'a>,
    listing: &Listing<'_, 'i, 'a>,
    left: &mut Left,
    answer: &mut SolvedRequest<'i, 'a>,
    limit: u32,
    notes: &mut Vec<u8>,
) -> Result<bool, Refusal>
    requires listed { IsListed before.now listing.now }
    requires long { length left.old.stays.items ≡ length left.old.wishes.items }
    requires solved { IsSolvedRequest before.now limit (request_of left.old) answer.old }
    ensures left { IfOk result
        (IsPass before.now limit (length left.old.wishes.items) left.old left.new) }
    ensures solved { IfOk result
        (λ _. IsSolvedRequest before.now limit (request_of left.new) answer.new) }
    ensures refused { (texts : Texts) → AreReadAs texts before.now
        → IfErr result (IsFurtherRefusal before.now texts left.old) }
    ensures known { IfErr result (λ refused. refused.fault ≢ fault.Read) }
    ensures untouched { IsUntouched S.Shelf shelf.old shelf.new }
{
    let mut is_more = false;
    for place in 0..left.wishes.len() {
        if !left.stays_at(place) {
            show_left(shelf, left);
            if let Some(solved) = try_at(alloc, before, listing, left, place, limit, notes)? {
                *answer = solved;
                is_more = true;
            }
        }
    }
    Ok(is_more)
}

/// Puts back what can be had alone beside what is left, one after the other, until nothing can. The answer is that to what is left, and
/// the notes tell why the others are left out. Each turn costs what solving costs for each line that is left out, and there is one more
/// than puts something back. The shelf is shown how far it is.
pub(crate) fn put_back<'i, 'a, S: Shelf>(
    alloc: Global,
    shelf: &mut S,
    before: &Before<'_, '_, '_, '_, '_, '_, 'i, 'a>,
    listing: &Listing<'_, 'i, 'a>,
    left: &mut Left,
    answer: &mut SolvedRequest<'i, 'a>,
    limit: u32,
) -> Result<Vec<u8>, Refusal>
    requires listed { IsListed before.now listing.now }
    requires long { length left.old.stays.items ≡ length left.old.wishes.items }
    requires solved { IsSolvedRequest before.now limit (request_of left.old) answer.old }
    ensures left { IfOk result (λ _. IsFurther before.now left.old left.new) }
    ensures alone { IfOk result
        (λ _. AreAlone before.now limit left.new.wishes.items left.new.stays.items) }
    ensures solved { IfOk result
        (λ _. IsSolvedRequest before.now limit (request_of left.new) answer.new) }
    ensures refused { (texts : Texts) → AreReadAs texts before.now
        → IfErr result (IsFurtherRefusal before.now texts left.old) }
    ensures known { IfErr result (λ refused. refused.fault ≢ fault.Read) }
    ensures untouched { IsUntouched S.Shelf shelf.old shelf.new }
{
    'turns: loop {
        let mut notes = Vec::new(alloc);
        if !pass(
            alloc, shelf, before, listing, left, answer, limit, &mut notes,
        )? {
            return Ok(notes);
        }
    }
}
