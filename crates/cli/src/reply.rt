//! The reply to a question of many: a line of JSON.
ghost use Rattle.std.specs.Prelude.{◌≡◌, ℕ, IfOk, List, None, codes, map, string_bytes, true};
ghost use Rattle.std.specs.Option.{option_copied};
ghost use Rattle.refusal_lines.specs.Lines as RefusalLines;
ghost use Rattle.cli.specs.Again.{no_archives};
ghost use Rattle.cli.specs.Batch.{IsRefusedIn, IsRefusedReply, IsReplyOf, IsReplyTo, IsReplyToLine, IsReplyWhere};
ghost use Rattle.cli.specs.Members.{AreOfAnswered, AreOfCandidates, AreOfKept, AreOfPlan, AreOfRefutation};
ghost use Rattle.cli_engine.specs.Answer.{IsSaidOfNames};
ghost use Rattle.cli_engine.specs.Meaning.{IsSaid};
ghost use Rattle.cli_engine.specs.Refuted.{IsSaidOf};
ghost use Rattle.cli_engine.specs.Solution.{IsSaidOfRequest};
ghost use Rattle.json_answers.specs.Document.{IsLineOf, object_with};
ghost use Rattle.inputs.specs.Inputs.{shelved};
ghost use Rattle.inputs.specs.ReadAs.{AreReadAs, IsListed, asking};
ghost use Rattle.inputs.specs.Texts.{Texts};
ghost use Rattle.keep_back.specs.KeptBack.{IsSaidOfKept};
ghost use Rattle.outcomes.specs.Answer as Lines;
ghost use Rattle.questions.specs.Asked.{asks_by};
ghost use Rattle.serde_json.specs.Data.{null, put};
ghost use Rattle.serde_json.specs.View.{members_view, view};

use crate::asking::unless_refused;
use crate::candidate_members::members_of_names;
use crate::left_members::put_left;
use crate::members::{members_of_answered, members_of_plan, members_of_refutation};
use crate::reply_of_packages::reply_to_installable;
use crate::told::{tell_undecided, tell_unfinished};
use cli_engine::{
    Answered, CandidateAnswer, FindCandidates, GivenPlan, GivenRefutation, JudgedPlan,
    JudgedRefutation, Notes, Refusal, Settings, Solve,
};
use command_line::Format;
use inputs::{Before, Inputs, MemoryShelf, OverRequest, requested_in};
use json_answers::{Members, document, refused_document};
use keep_back::{KeptBack, keep};
use outcomes::{candidate_lines, refutation_line, solved_text, verdict_line};
use questions::{Ask, Mistake, Posed, question_of};
use refusal_lines::refusal_words;
use serde_json::Value;
use std::alloc::{AllocError, Global};
use universe_build::Listing;

/// No texts: of a reply nothing is read a second time.
pub(crate) fn no_texts<'t>() -> MemoryShelf<'t, 't>
    ensures { (number : ℕ) (file : List ℕ)
        → (shelved result.inputs (option_copied result.judged)).index number file ≡ None }
{
    let inputs = Inputs {
        status: &[],
        sources: &[],
        indices: &[],
        preferences: None,
        request: &[],
    };
    MemoryShelf::new(inputs, None)
}

// Notes that are wanted, since a document has them behind what is told of the answer; what is told of inputs that change no answer is known
// before.
fn wanted_notes(alloc: Global, idle: &[u8]) -> Notes {
    let mut notes = Notes::new(alloc);
    notes.wanted = true;
    notes.idle = match idle.to_vec(alloc) {
        Ok(idle) => Some(idle),
        Err(AllocError) => None,
    };
    notes
}

// The answer over the request with this text.
fn answer_over<'i, 'a, Q: OverRequest>(
    alloc: Global,
    question: &Q,
    before: &Before<'_, '_, '_, '_, '_, '_, 'i, 'a>,
    listing: &Listing<'_, 'i, 'a>,
    request: &[u8],
    beside: &mut Q::Beside,
) -> Result<Q::Answer, Refusal>
    requires { IsListed before.now listing.now }
    ensures { (texts : Texts) → AreReadAs texts before.now
        → Q.says question.now (asking request.now texts) beside.old result beside.new }
{
    let requested = requested_in(alloc, before, Some(listing), request)?;
    question.answer(alloc, before, &requested, beside)
}

/// The reply with this text and these members. Memory alone can fail.
pub(crate) fn reply_of(
    alloc: Global,
    id: Value,
    text: &[u8],
    members: Members,
) -> Result<Vec<u8>, AllocError>
    ensures { IfOk result (λ reply. IsLineOf
        (object_with text.now
        (put (codes "id") (view id) (members_view members.map.entries))) reply.items) }
{
    let mut all = members;
    all.put(alloc, "id", id)?;
    document(alloc, all, text)
}

// The reply that refuses in these words.
fn refused_reply(alloc: Global, id: Value, words: &[u8]) -> Result<Vec<u8>, AllocError>
    ensures words { IfOk result (λ reply. IsRefusedIn (view id) words.now reply.items) }
    ensures some { IfOk result (λ reply. IsRefusedReply (view id) reply.items) }
{
    let mut members = Members::new(alloc);
    members.put(alloc, "id", id)?;
    refused_document(alloc, members, words)
}

/// The reply of a refusal. Memory alone can fail.
pub(crate) fn reply_of_refusal(
    alloc: Global,
    id: Value,
    refusal: &Refusal,
) -> Result<Vec<u8>, AllocError>
    ensures { IfOk result
        (λ reply. IsRefusedIn (view id) (RefusalLines.refusal_words refusal.now) reply.items) }
{
    let words = refusal_words(alloc, refusal)?;
    refused_reply(alloc, id, words.as_slice())
}

// The reply to a line that is no question.
fn reply_of_mistake(alloc: Global, number: usize, mistake: &Mistake) -> Result<Vec<u8>, AllocError>
    ensures { IfOk result (λ reply. IsRefusedReply null reply.items) }
{
    let words = mistake.to_string(alloc)?;
    let words = format!(in alloc; "line {number}: {words}")?;
    refused_reply(alloc, Value::Null, words.as_bytes())
}

// The reply of what is answered to a request.
fn reply_of_answered(
    alloc: Global,
    settings: &Settings<'_>,
    id: Value,
    answered: Answered,
    hints: &[u8],
) -> Result<Vec<u8>, AllocError>
    ensures { IfOk result (λ reply.
        IsReplyOf (view id) (Lines.solved_text answered) (AreOfAnswered no_archives answered)
        reply.items) }
{
    let text = solved_text(alloc, &answered)?;
    let mut shelf = no_texts();
    let members = members_of_answered(alloc, &mut shelf, settings, Format::Json, answered, hints)?;
    reply_of(alloc, id, text.as_slice(), members)
}

// The reply of what is answered to as much of a request as can be.
fn reply_of_kept(
    alloc: Global,
    settings: &Settings<'_>,
    id: Value,
    kept: KeptBack,
    hints: &[u8],
) -> Result<Vec<u8>, AllocError>
    ensures { IfOk result (λ reply.
        IsReplyOf (view id) (Lines.solved_text kept.answered) (AreOfKept no_archives kept)
        reply.items) }
{
    let text = solved_text(alloc, &kept.answered)?;
    let KeptBack {
        answered,
        request,
        notes,
        ..
    } = kept;
    let mut shelf = no_texts();
    let mut members = members_of_answered(
        alloc,
        &mut shelf,
        settings,
        Format::Json,
        answered,
        hints,
    )?;
    put_left(
        alloc,
        Format::Json,
        request.as_slice(),
        notes.as_slice(),
        &mut members,
    )?;
    reply_of(alloc, id, text.as_slice(), members)
}

// The reply of the verdict on a plan.
fn reply_of_judged(
    alloc: Global,
    settings: &Settings<'_>,
    id: Value,
    judged: &JudgedPlan,
    hints: &[u8],
) -> Result<Vec<u8>, AllocError>
    ensures { IfOk result (λ reply.
        IsReplyOf (view id) (Lines.verdict_line judged.now.verdict)
        (AreOfPlan no_archives judged.now) reply.items) }
{
    let text = verdict_line(alloc, &judged.verdict)?;
    let mut shelf = no_texts();
    let members = members_of_plan(alloc, &mut shelf, settings, Format::Json, judged, hints)?;
    reply_of(alloc, id, text.as_slice(), members)
}

// The reply of the verdict on a refutation.
fn reply_of_lines(
    alloc: Global,
    id: Value,
    judged: JudgedRefutation,
    hints: &[u8],
) -> Result<Vec<u8>, AllocError>
    ensures { IfOk result (λ reply.
        IsReplyOf (view id) (Lines.refutation_line judged.verdict)
        (AreOfRefutation judged) reply.items) }
{
    let text = refutation_line(alloc, &judged.verdict)?;
    let members = members_of_refutation(alloc, Format::Json, judged, hints)?;
    reply_of(alloc, id, text.as_slice(), members)
}

// The reply to a request that is to be solved.
fn reply_to_solve<'i, 'a>(
    alloc: Global,
    before: &Before<'_, '_, '_, '_, '_, '_, 'i, 'a>,
    listing: &Listing<'_, 'i, 'a>,
    idle: &[u8],
    id: Value,
    request: &[u8],
    limit: u32,
    names_pairs: bool,
) -> Result<Vec<u8>, AllocError>
    requires { IsListed before.now listing.now }
    ensures { (texts : Texts) → AreReadAs texts before.now
        → IfOk result (λ reply. IsReplyWhere (view id)
        (IsSaidOfRequest (asking request.now texts) limit names_pairs true true)
        Lines.solved_text (AreOfAnswered no_archives) reply.items) }
{
    let question = Solve {
        limit,
        names_pairs,
        tells_reasons: true,
        has_document: true,
    };
    let mut notes = wanted_notes(alloc, idle);
    match answer_over(alloc, &question, before, listing, request, &mut notes) {
        Ok(answered) => {
            unless_refused(tell_undecided(&answered.solved, &mut notes), &mut notes);
            reply_of_answered(alloc, before.settings, id, answered, notes.text.as_slice())
        }
        Err(refusal) => reply_of_refusal(alloc, id, &refusal),
    }
}

// The reply to a request of which as much as can be is to be solved.
fn reply_to_keep_back(
    alloc: Global,
    before: &Before<'_, '_, '_, '_, '_, '_, '_, '_>,
    idle: &[u8],
    id: Value,
    request: Vec<u8>,
    limit: u32,
) -> Result<Vec<u8>, AllocError>
    ensures { (texts : Texts) → AreReadAs texts before.now
        → IfOk result (λ reply. IsReplyWhere (view id)
        (IsSaidOfKept (asking request.items texts) limit true true)
        (λ kept. Lines.solved_text kept.answered) (AreOfKept no_archives) reply.items) }
{
    let mut notes = wanted_notes(alloc, idle);
    let mut shelf = no_texts();
    match keep(
        alloc, &mut shelf, before, request, limit, true, true, &mut notes,
    ) {
        Ok(kept) => {
            unless_refused(
                tell_undecided(&kept.answered.solved, &mut notes),
                &mut notes,
            );
            reply_of_kept(alloc, before.settings, id, kept, notes.text.as_slice())
        }
        Err(refusal) => reply_of_refusal(alloc, id, &refusal),
    }
}

// The reply to a plan that is to be judged.
fn reply_to_plan<'i, 'a>(
    alloc: Global,
    before: &Before<'_, '_, '_, '_, '_, '_, 'i, 'a>,
    listing: &Listing<'_, 'i, 'a>,
    idle: &[u8],
    id: Value,
    request: &[u8],
    plan: &[u8],
) -> Result<Vec<u8>, AllocError>
    requires { IsListed before.now listing.now }
    ensures { (texts : Texts) → AreReadAs texts before.now
        → IfOk result (λ reply. IsReplyWhere (view id)
        (IsSaid (asking request.now texts) (Some plan.now) true)
        (λ judged. Lines.verdict_line judged.verdict) (AreOfPlan no_archives) reply.items) }
{
    let question = GivenPlan { plan };
    let mut notes = wanted_notes(alloc, idle);
    match answer_over(alloc, &question, before, listing, request, &mut notes) {
        Ok(judged) => {
            unless_refused(tell_unfinished(&judged, &mut notes), &mut notes);
            reply_of_judged(alloc, before.settings, id, &judged, notes.text.as_slice())
        }
        Err(refusal) => reply_of_refusal(alloc, id, &refusal),
    }
}

// The reply to a refutation that is to be judged.
fn reply_to_refutation<'i, 'a>(
    alloc: Global,
    before: &Before<'_, '_, '_, '_, '_, '_, 'i, 'a>,
    listing: &Listing<'_, 'i, 'a>,
    idle: &[u8],
    id: Value,
    request: &[u8],
    refutation: &[u8],
) -> Result<Vec<u8>, AllocError>
    requires { IsListed before.now listing.now }
    ensures { (texts : Texts) → AreReadAs texts before.now
        → IfOk result (λ reply. IsReplyWhere (view id)
        (IsSaidOf (asking request.now texts) (Some refutation.now) true true)
        (λ judged. Lines.refutation_line judged.verdict)
        AreOfRefutation reply.items) }
{
    let question = GivenRefutation { refutation };
    let mut notes = wanted_notes(alloc, idle);
    match answer_over(alloc, &question, before, listing, request, &mut notes) {
        Ok(judged) => reply_of_lines(alloc, id, judged, notes.text.as_slice()),
        Err(refusal) => reply_of_refusal(alloc, id, &refusal),
    }
}

// The reply of the candidates of names.
fn reply_of_names(
    alloc: Global,
    id: Value,
    names: &[&str],
    candidates: &[Option<CandidateAnswer>],
    sentences: &[u8],
) -> Result<Vec<u8>, AllocError>
    ensures { IfOk result
        (λ reply. IsReplyOf (view id)
        (Lines.candidate_lines (map (λ name. name.now) names.now) candidates.now)
        (AreOfCandidates (map (λ name. name.now) names.now) candidates.now) reply.items) }
{
    let text = candidate_lines(alloc, names, candidates)?;
    let members = members_of_names(alloc, Format::Json, names, candidates, sentences)?;
    reply_of(alloc, id, text.as_slice(), members)
}

// The reply to names whose candidates are to be found.
fn reply_to_names(
    alloc: Global,
    before: &Before<'_, '_, '_, '_, '_, '_, '_, '_>,
    idle: &[u8],
    id: Value,
    names: &[&str],
) -> Result<Vec<u8>, AllocError>
    ensures { (texts : Texts) → AreReadAs texts before.now
        → IfOk result (λ reply. IsReplyWhere (view id)
        (IsSaidOfNames texts (map (λ name. name.now) names.now))
        (Lines.candidate_lines (map (λ name. name.now) names.now))
        (AreOfCandidates (map (λ name. name.now) names.now)) reply.items) }
{
    let question = FindCandidates {
        names,
        tells_versions: false,
    };
    let mut notes = wanted_notes(alloc, idle);
    let candidates = question.over(alloc, before, &mut notes)?;
    reply_of_names(
        alloc,
        id,
        names,
        candidates.as_slice(),
        notes.text.as_slice(),
    )
}

/// The names as they are read of a command line. Memory alone can fail.
pub(crate) fn words_of<'n>(alloc: Global, names: &'n [String]) -> Result<Vec<&'n str>, AllocError>
    ensures { IfOk result
        (λ words. map (λ word. word.now) words.items ≡ map string_bytes names.entry.now) }
{
    let mut words = Vec::with_capacity(alloc, names.len())?;
    for name in names {
        words.push(name.as_str())?;
    }
    Ok(words)
}

// The reply to names in texts, whose candidates are to be found.
fn reply_to_strings(
    alloc: Global,
    before: &Before<'_, '_, '_, '_, '_, '_, '_, '_>,
    idle: &[u8],
    id: Value,
    names: &[String],
) -> Result<Vec<u8>, AllocError>
    ensures { (texts : Texts) → AreReadAs texts before.now
        → IfOk result (λ reply. IsReplyWhere (view id)
        (IsSaidOfNames texts (map string_bytes names.now))
        (Lines.candidate_lines (map string_bytes names.now))
        (AreOfCandidates (map string_bytes names.now)) reply.items) }
{
    let words = words_of(alloc, names)?;
    reply_to_names(alloc, before, idle, id, words.as_slice())
}

// The reply to what is asked.
fn reply_to_ask<'i, 'a>(
    alloc: Global,
    before: &Before<'_, '_, '_, '_, '_, '_, 'i, 'a>,
    listing: &Listing<'_, 'i, 'a>,
    limit: u32,
    idle: &[u8],
    id: Value,
    ask: Ask,
) -> Result<Vec<u8>, AllocError>
    requires { IsListed before.now listing.now }
    ensures { (texts : Texts) → AreReadAs texts before.now
        → IfOk result (λ reply. IsReplyTo texts limit (view id) (asks_by ask) reply.items) }
{
    match ask {
        Ask::Solve {
            request,
            limit: own,
            names_pairs,
        } => reply_to_solve(
            alloc,
            before,
            listing,
            idle,
            id,
            request.as_slice(),
            own.unwrap_or(limit),
            names_pairs,
        ),
        Ask::KeepBack {
            request,
            limit: own,
        } => reply_to_keep_back(alloc, before, idle, id, request, own.unwrap_or(limit)),
        Ask::CheckPlan { request, plan } => reply_to_plan(
            alloc,
            before,
            listing,
            idle,
            id,
            request.as_slice(),
            plan.as_slice(),
        ),
        Ask::CheckRefutation {
            request,
            refutation,
        } => reply_to_refutation(
            alloc,
            before,
            listing,
            idle,
            id,
            request.as_slice(),
            refutation.as_slice(),
        ),
        Ask::Candidate { names } => reply_to_strings(alloc, before, idle, id, names.as_slice()),
        Ask::Installable {
            names,
            all_versions,
            without_essential,
            limit: own,
        } => reply_to_installable(
            alloc,
            before,
            id,
            names.as_slice(),
            all_versions,
            without_essential,
            own,
            limit,
        ),
    }
}

/// The reply to the line of this number. Memory alone can fail. It costs what the command costs behind its reading; a request that asks
/// for all versions, one with `=`, and as much of a request as can be are listed anew.
pub(crate) fn reply_to<'i, 'a>(
    alloc: Global,
    before: &Before<'_, '_, '_, '_, '_, '_, 'i, 'a>,
    listing: &Listing<'_, 'i, 'a>,
    limit: u32,
    idle: &[u8],
    number: usize,
    line: &[u8],
) -> Result<Vec<u8>, AllocError>
    requires { IsListed before.now listing.now }
    ensures { (texts : Texts) → AreReadAs texts before.now
        → IfOk result (λ reply. IsReplyToLine texts limit line.now reply.items) }
{
    match question_of(alloc, line)? {
        Ok(Posed { id, ask }) => reply_to_ask(alloc, before, listing, limit, idle, id, ask),
        Err(mistake) => reply_of_mistake(alloc, number, &mistake),
    }
}
