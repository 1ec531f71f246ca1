//! A refutation judged by texts, read in the order status, sources, indices, preferences, request and refutation.
ghost use Rattle.std.specs.Prelude.{◌≡◌, ◌≢◌, IfErr, IfOk, List, Ok, Some, false, refl};
ghost use mathlib.Core.Logic.{inl};
ghost use Rattle.candidates.specs.Inputs.{indices_of};
ghost use Rattle.inputs.specs.Meaning.{Denotes};
ghost use Rattle.inputs.specs.ReadAs.{IsOver};
ghost use Rattle.inputs.specs.ReadBy.{IsReadBy};
ghost use Rattle.inputs.specs.Reading.{IsFaultOf};
ghost use Rattle.inputs.specs.Texts.{Shelved, Texts};
ghost use Rattle.inputs.specs.declared.refusal.Fault.TheVariants as fault;
ghost use Rattle.rules.specs.Database.{Record};
ghost use Rattle.rules.specs.Universe.{Universe as UniverseOf};
ghost use Rattle.written_refutation.specs.Judged.{IsWrittenVerdict, lines_of};
ghost use Rattle.cli_engine.specs.Reasons.{IsToldWhere, TellsRefutation};
ghost use Rattle.cli_engine.specs.Refuted.{IsFirstRefutationRefusal, IsSaidOf, refutation_of};
ghost use Rattle.cli_engine.specs.Solution.{HasLines};

use crate::laws::yes_refutes;
use crate::lines::members_of;
use crate::notes::Notes;
use crate::reasons::reasons_of_refutation;
use crate::requested::{read_asked, tell_idle_inputs};
use inputs::{
    Before, Fault, Input, Question, Refusal, Requested, Shelf, WholeText, read_part, refused_at,
};
use json_answers::Members;
use refutation_text::RefutationError;
use refutecheck::Verdict;
use rules::Items;
use std::alloc::{AllocError, Global};
use written_refutation::{JudgedLines, WrittenRefutation, check_written, read_written};

/// What is answered of a refutation.
#[derive(Drop)]
pub struct JudgedRefutation {
    /// The verdict.
    pub verdict: Verdict,
    /// What is told of the verdict, each sentence a line of its own, where that is wanted and memory wasn't refused for it.
    pub reasons: Option<Items<u8>>,
    /// What a document has of the lines of the refutation, where there is to be one.
    pub members: Option<Members>,
}

/// Judges the refutation, whose pairs have numbers or are named: yes exactly where it is accepted over the universe that the texts denote,
/// and then no set of admitted pairs is acceptable; else the number of its first line that is bad or names a pair which isn't admitted; or
/// the first refusal in the order status, sources, indices, preferences, request, refutation. Judging costs what
/// `written_refutation::check_written` says. Sentences on inputs are told, where they are wanted.
#[derive(Clone, Copy)]
pub struct CheckRefutation {
    /// Whether the reasons are told, or what is wrong with the refutation.
    pub tells_reasons: bool,
    /// Whether there is to be a document of the answer, which has the lines of the refutation.
    pub has_document: bool,
}

// The refutation with this text.
fn refutation_in(alloc: Global, text: &[u8]) -> Result<WrittenRefutation, Fault>
    ensures ok { IfOk result (λ written. refutation_of (Some text.now) ≡ Ok written) }
    ensures err { IfErr result (λ f. IsFaultOf (refutation_of (Some text.now)) f) }
    ensures known { IfErr result (λ f. f ≢ fault.Read) }
{
    match read_written(alloc, text) {
        Ok(written) => Ok(written),
        Err(RefutationError::Refused(refused)) => Err(Fault::Refutation(refused)),
        Err(RefutationError::OutOfMemory) => Err(Fault::OutOfMemory),
    }
}

/// The refutation with this text.
pub(crate) fn written_of(alloc: Global, text: &[u8]) -> Result<WrittenRefutation, Refusal>
    ensures ok { IfOk result (λ written. refutation_of (Some text.now) ≡ Ok written) }
    ensures refused { (texts : Texts) (u : UniverseOf) (start : List Record) → Denotes texts u start
        → IfErr result (λ refused. IsFirstRefutationRefusal texts (Some text.now) refused) }
    ensures known { IfErr result (λ refused. refused.fault ≢ fault.Read) }
{
    match refutation_in(alloc, text) {
        Ok(written) => Ok(written),
        Err(fault) => Err(refused_at(Input::Refutation, fault)),
    }
}

// The refutation of the shelf.
fn read_judged<S: Shelf>(alloc: Global, shelf: &mut S) -> Result<WrittenRefutation, Refusal>
    ensures ok { (at : Shelved) → S.known_texts shelf.old ≡ Some at
        → IfOk result (λ written. refutation_of at.judged ≡ Ok written) }
    ensures refused { (at : Shelved) (texts : Texts) (u : UniverseOf) (start : List Record)
        → S.known_texts shelf.old ≡ Some at
        → Denotes texts u start
        → IfErr result (λ refused. IsFirstRefutationRefusal texts at.judged refused) }
    ensures read { IsReadBy S.Shelf shelf.old result shelf.new }
{
    let text = read_part(alloc, shelf, WholeText::Judged, Input::Refutation)?;
    match refutation_in(alloc, text.as_slice()) {
        Ok(written) => Ok(written),
        Err(fault) => Err(refused_at(Input::Refutation, fault)),
    }
}

/// What is answered of the refutation over the universe of a request. Which of the inputs change no answer is told in the notes, where
/// that is wanted. Memory alone can fail.
pub(crate) fn judged_refutation(
    alloc: Global,
    before: &Before<'_, '_, '_, '_, '_, '_, '_, '_>,
    requested: &Requested<'_, '_>,
    written: WrittenRefutation,
    tells_reasons: bool,
    has_document: bool,
    notes: &mut Notes,
) -> Result<JudgedRefutation, AllocError>
    requires { IsOver before.now requested.now.universe }
    ensures exact { IfOk result
        (λ judged. IsWrittenVerdict requested.now.universe written judged.verdict) }
    ensures reasons { IfOk result (λ judged. IsToldWhere tells_reasons
        (TellsRefutation requested.now.universe (indices_of before.now.indices.now)
        (lines_of requested.now.universe.pairs written)
        requested.now.asks_all_versions judged.verdict) judged.reasons) }
    ensures lines { IfOk result (λ judged. HasLines requested.now.universe has_document
        (lines_of requested.now.universe.pairs written).lines judged.members) }
    ensures unasked { notes.old.wanted ≡ false → notes.new ≡ notes.old }
{
    let universe = &requested.universe;
    let JudgedLines { verdict, numbered } = check_written(alloc, universe, written)?;
    let members = members_of(alloc, universe, &numbered.lines, has_document)?;
    let reasons = reasons_of_refutation(
        alloc,
        before,
        requested,
        &numbered,
        verdict,
        tells_reasons,
    );
    tell_idle_inputs(alloc, before, notes);
    Ok(JudgedRefutation {
        verdict,
        reasons,
        members,
    })
}

impl Question for CheckRefutation {
    type Answer = JudgedRefutation;

    type Beside = Notes;

    ghost says = { λ it texts judged _ result _. IsSaidOf texts judged it.tells_reasons it.has_document result };

    ghost keeps = { λ _ _ old _ new. old.wanted ≡ false → new ≡ old };

    fn answer<S: Shelf>(
        &self,
        alloc: Global,
        shelf: &mut S,
        before: &Before<'_, '_, '_, '_, '_, '_, '_, '_>,
        notes: &mut Notes,
    ) -> Result<JudgedRefutation, Refusal> {
        yes_refutes();
        let requested = read_asked(alloc, shelf, before, notes)?;
        let written = read_judged(alloc, shelf)?;
        let judged = judged_refutation(
            alloc,
            before,
            &requested,
            written,
            self.tells_reasons,
            self.has_document,
            notes,
        )?;
        Ok(judged)
    }

    ghost refuses = { λ _ _ _ _ _ is. inl (inl is) };

    ghost stays = { λ _ _ _ _ _. refl };
}
