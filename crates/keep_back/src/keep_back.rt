// A request that is answered as far as it can be.

ghost use Rattle.std.specs.Prelude.{◌≡◌, ◌≢◌, IfErr, IfOk, None, Some, false};
ghost use Rattle.std.proofs.Common.{rules};
ghost use mathlib.Core.Logic.{inl};
ghost use Rattle.candidates.specs.Inputs.{indices_of};
ghost use Rattle.cli_engine.specs.Reasons.{IsToldWhere, TellsSolved};
ghost use Rattle.cli_engine.specs.Right.{IsRight};
ghost use Rattle.cli_engine.specs.Solution.{HasSolvedLines};
ghost use Rattle.inputs.specs.Meaning.{DenotesAsked};
ghost use Rattle.inputs.specs.ReadAs.{AreReadAs, IsOver, asking, start_of};
ghost use Rattle.inputs.specs.ReadBy.{IsUntouched};
ghost use Rattle.inputs.specs.Refused.{IsRefusal};
ghost use Rattle.inputs.specs.Texts.{Texts};
ghost use Rattle.inputs.specs.declared.refusal.Fault.TheVariants as fault;
ghost use Rattle.keep_back.specs.KeptBack.{IsSaidOfKept};

use crate::kept::{Kept, kept_of};
use crate::round::SolvedRequest;
use cli_engine::{Answered, Notes, answer_of_solved, tell_idle_inputs, tell_refused};
use inputs::{
    Before, Input, Progress, Question, Refusal, Requested, Shelf, WholeText, read_part,
    requested_in,
};
use rules::Items;
use std::alloc::{AllocError, Global};

/// As much of the request as can be: the answer to the request that is left, its text, and what was left out of the request. Where the
/// request is refuted and a core of the refutation names a goal of it, `upgrade-all` is taken as one goal `upgrade NAME` for each name of
/// which it asks for another version, and of the goals that ask for an installation or an upgrade some are left out, until what is left
/// isn't refuted or the core names none: all that nothing admitted fulfils, or one that the core names, first about a held name, then
/// the one that the candidates of the fewest others need, then the one beside whose candidate most packages that stand can't stay so,
/// and of two such the later one. Then each of them that has a plan beside what is left is put back, one after the other, until none
/// has. All other lines are conditions and stay. It is refused as `cli_engine::Solve` is, and what is left of it for its size (E10), where
/// the goals in the place of `upgrade-all` are too many. Reading costs what `inputs::ask` says; each time that goals are left out, and each
/// goal that stays left out, costs what solving costs there, a core and its sentences. The shelf is shown how many goals are left out,
/// before each search but the first.
#[derive(Clone, Copy)]
pub struct KeepBack {
    /// How many conflicts each search has at most.
    pub limit: u32,
    /// Whether it is told of the answer to what is left.
    pub tells_reasons: bool,
    /// Whether the answer has the lines of a refutation for a document.
    pub has_document: bool,
}

/// What is answered to as much of a request as can be.
#[derive(Drop)]
pub struct KeptBack {
    /// What is answered to the request that is left.
    pub answered: Answered,
    /// The text of the request that is left.
    pub request: Items<u8>,
    /// Of each line of the request, with `upgrade-all` spelled out, whether it stays; nothing where the request is answered as it stands.
    pub stays: Option<Items<bool>>,
    /// Sentences on what was left out, each a line of its own. Their words aren't promised.
    pub notes: Items<u8>,
}

// What the request with this text asks for. Of a refused one it is told what `tell_refused` tells.
fn requested_telling<'i, 'a>(
    alloc: Global,
    before: &Before<'_, '_, '_, '_, '_, '_, 'i, 'a>,
    text: &[u8],
    notes: &mut Notes,
) -> Result<Requested<'i, 'a>, Refusal>
    ensures asked { (texts : Texts) → AreReadAs texts before.now → IfOk result (λ requested.
        DenotesAsked (asking text.now texts) requested.universe
        (start_of before.now) requested.asks_all_versions) }
    ensures over { IfOk result (λ requested. IsOver before.now requested.universe) }
    ensures refused { (texts : Texts) → AreReadAs texts before.now
        → IfErr result (IsRefusal (asking text.now texts)) }
    ensures known { IfErr result (λ refused. refused.fault ≢ fault.Read) }
    ensures unasked { notes.old.wanted ≡ false → notes.new ≡ notes.old }
{
    let answer = requested_in(alloc, before, None, text);
    tell_refused(alloc, before, text, &answer, notes);
    answer
}

// The answer to what is left, with what is told of it, where that is wanted, and what a document has of it, where there is to be one.
fn kept_back_of<'a>(
    alloc: Global,
    before: &Before<'_, '_, '_, '_, '_, '_, '_, 'a>,
    kept: Kept<'_, 'a>,
    tells_reasons: bool,
    has_document: bool,
) -> Result<KeptBack, AllocError>
    requires over { IsOver before.now kept.solved.requested.universe }
    requires right { IsRight kept.solved.requested.universe
        (start_of before.now) kept.solved.solved }
    ensures solved { IfOk result
        (λ kept_back. kept_back.answered.solved ≡ kept.entry.solved.solved) }
    ensures asks { IfOk result
        (λ kept_back. kept_back.answered.asks_all_versions
        ≡ kept.entry.solved.requested.asks_all_versions) }
    ensures naming { IfOk result (λ kept_back. kept_back.answered.naming ≡ None) }
    ensures reasons { IfOk result (λ kept_back. IsToldWhere tells_reasons
        (TellsSolved kept.entry.solved.requested.universe
        (indices_of before.now.indices.now) (start_of before.now)
        kept_back.answered.asks_all_versions kept_back.answered.solved)
        kept_back.answered.reasons) }
    ensures lines { IfOk result (λ kept_back.
        HasSolvedLines kept.entry.solved.requested.universe has_document
        kept_back.answered.solved kept_back.answered.members) }
    ensures request { IfOk result (λ kept_back. kept_back.request ≡ kept.entry.request.items) }
    ensures stays { IfOk result (λ kept_back. kept_back.stays ≡ kept.entry.stays) }
{
    let Kept {
        solved,
        request,
        stays,
        reasons,
    } = kept;
    let SolvedRequest { requested, solved } = solved;
    let answered = answer_of_solved(
        alloc,
        before,
        &requested,
        solved,
        false,
        tells_reasons,
        has_document,
    )?;
    Ok(KeptBack {
        answered,
        request: Items::new(request),
        stays,
        notes: Items::new(reasons),
    })
}

/// Answers as much of the request with this text as can be, over what is read before it, as `KeepBack` answers that of a shelf, and tells
/// of inputs. The shelf is shown how far it is.
pub fn keep<S: Shelf>(
    alloc: Global,
    shelf: &mut S,
    before: &Before<'_, '_, '_, '_, '_, '_, '_, '_>,
    text: Vec<u8>,
    limit: u32,
    tells_reasons: bool,
    has_document: bool,
    notes: &mut Notes,
) -> Result<KeptBack, Refusal>
    ensures said { (texts : Texts) → AreReadAs texts before.now → texts.request ≡ Some text.items
        → IsSaidOfKept texts limit tells_reasons has_document result }
    ensures known { IfErr result (λ refused. refused.fault ≢ fault.Read) }
    ensures unasked { notes.old.wanted ≡ false → notes.new ≡ notes.old }
    ensures untouched { IsUntouched S.Shelf shelf.old shelf.new }
{
    let requested = requested_telling(alloc, before, text.as_slice(), notes)?;
    let kept = kept_of(alloc, shelf, before, requested, text, limit)?;
    let kept_back = kept_back_of(alloc, before, kept, tells_reasons, has_document)?;
    tell_idle_inputs(alloc, before, notes);
    Ok(kept_back)
}

impl Question for KeepBack {
    type Answer = KeptBack;

    type Beside = Notes;

    // what is left is answered, and is as much as can be; the refusal is that of the request as it stands, or of what is left of it
    ghost says = { λ question texts _ old result new.
        IsSaidOfKept texts question.limit question.tells_reasons question.has_document result };

    ghost keeps = { λ _ _ old _ new. old.wanted ≡ false → new ≡ old };

    fn answer<S: Shelf>(
        &self,
        alloc: Global,
        shelf: &mut S,
        before: &Before<'_, '_, '_, '_, '_, '_, '_, '_>,
        notes: &mut Notes,
    ) -> Result<KeptBack, Refusal> {
        let text = read_part(alloc, shelf, WholeText::Request, Input::Request)?;
        let kept_back = keep(
            alloc,
            shelf,
            before,
            text,
            self.limit,
            self.tells_reasons,
            self.has_document,
            notes,
        );
        shelf.show(Progress::Over);
        kept_back
    }

    ghost refuses = { λ question texts judged beside refused is. inl (inl is) };

    ghost stays = { Prim.search rules };
}
