//! Many requests, asked over one reading.
ghost use Rattle.std.specs.Prelude.{◌≡◌, ◌≢◌, Err, IfErr, IfOk, List, Result, map, ℕ};
ghost use Rattle.candidates.specs.Inputs.{indices_of};
ghost use Rattle.inputs.specs.Before.{HasIndices};
ghost use Rattle.inputs.specs.Each.{AreSaid, AreSaidOver, Comes, still};
ghost use Rattle.inputs.specs.Meaning.{DenotesAsked};
ghost use Rattle.inputs.specs.ReadAs.{AreReadAs, IsListed, IsOver, asking, start_of};
ghost use Rattle.inputs.specs.Refused.{IsRefusal};
ghost use Rattle.inputs.specs.Texts.{Found, Texts};
ghost use Rattle.inputs.specs.declared.refusal.Fault.TheVariants as fault;
ghost use Rattle.inputs.specs.declared.refusal.Refusal.{Refusal};

use crate::before::Before;
use crate::question::Question;
use crate::refusal::Refusal;
use crate::request::{Requested, listed_in, requested_in};
use crate::shelf::Shelf;
use rules::Items;
use std::alloc::{AllocError, Global};
use universe_build::Listing;

/// What is asked of a request over what is read before it. It reads no more.
pub trait OverRequest {
    /// What is answered.
    type Answer: Drop;

    /// What is changed beside the answer.
    type Beside;

    // What is said by the texts: the answer or the refusal, and what is beside it before and after.
    ghost says: { Self → Texts → Self.Beside → Result Self.Answer Refusal → Self.Beside → Type 0 };

    // What is so of what is beside the answer, by whatever texts.
    ghost keeps: { Self → Self.Beside → Result Self.Answer Refusal → Self.Beside → Type 0 };

    /// Answers it from the universe of a request.
    fn answer<'a>(
        &self,
        alloc: Global,
        before: &Before<'_, '_, '_, '_, '_, '_, '_, 'a>,
        requested: &Requested<'_, 'a>,
        beside: &mut Self::Beside,
    ) -> Result<Self::Answer, Refusal>
        requires over { IsOver before.now requested.now.universe }
        ensures said { (texts : Texts)
            → DenotesAsked texts requested.now.universe
            (start_of before.now) requested.now.asks_all_versions
            → HasIndices texts (indices_of before.now.indices.now)
            → says self.now texts beside.old result beside.new }
        ensures kept { keeps self.now beside.old result beside.new }
        ensures known { IfErr result (λ refused. refused.fault ≢ fault.Read) };

    // The first refusal of the texts is said, and then nothing else is done.
    ghost refuses: { (question : Self) (texts : Texts) (beside : Self.Beside) (refused : Refusal) → IsRefusal texts refused
        → says question texts beside (Err refused) beside };

    // Where nothing is done, what has to be kept is.
    ghost stays: { (question : Self) (beside : Self.Beside) (refused : Refusal) → keeps question beside (Err refused) beside };
}

/// The question over each of these requests, one after the other. What is read before them is listed once.
#[derive(Drop)]
pub struct Each<'r, Q> {
    /// The texts of the requests.
    pub requests: &'r [&'r [u8]],
    /// Whether the requests ask for all versions: one that doesn't do as is said here is listed by itself.
    pub asks_all_versions: bool,
    /// What is asked of each.
    pub question: Q,
}

// The answer over the request with this text.
fn one<'i, 'a, Q: OverRequest>(
    alloc: Global,
    question: &Q,
    before: &Before<'_, '_, '_, '_, '_, '_, 'i, 'a>,
    listing: &Listing<'_, 'i, 'a>,
    request: &[u8],
    beside: &mut Q::Beside,
) -> Result<Q::Answer, Refusal>
    requires { IsListed before.now listing.now }
    ensures said { (texts : Texts) → AreReadAs texts before.now
        → Q.says question.now (asking request.now texts) beside.old result beside.new }
    ensures kept { Q.keeps question.now beside.old result beside.new }
    ensures known { IfErr result (λ refused. refused.fault ≢ fault.Read) }
{
    let requested = requested_in(alloc, before, Some(listing), request)?;
    question.answer(alloc, before, &requested, beside)
}

// The answers over the requests, one after the other.
fn all<'i, 'a, Q: OverRequest>(
    alloc: Global,
    question: &Q,
    before: &Before<'_, '_, '_, '_, '_, '_, 'i, 'a>,
    listing: &Listing<'_, 'i, 'a>,
    requests: &[&[u8]],
    beside: &mut Q::Beside,
) -> Result<Vec<Result<Q::Answer, Refusal>>, AllocError>
    requires { IsListed before.now listing.now }
    ensures said { (texts : Texts) → AreReadAs texts before.now → IfOk result (λ results.
        AreSaid (λ request. Q.says question.now (asking request texts))
        (map (λ r. r.now) requests.now) beside.old results.items beside.new) }
    ensures kept { Comes (Q.keeps question.now) beside.old beside.new }
{
    let mut results = Vec::new(alloc);
    for request in requests {
        let result = one(alloc, question, before, listing, request, beside);
        results.push(result)?;
    }
    Ok(results)
}

impl<'r, Q: OverRequest> Question for Each<'r, Q> {
    type Answer = Items<Result<Q::Answer, Refusal>>;

    type Beside = Q::Beside;

    ghost says = { λ it texts _ old result new.
        AreSaidOver (Q.says it.question) (map (λ r. r.now) it.requests.now) texts old result new };

    ghost keeps = { λ it _ old result new. Comes (Q.keeps it.question) old new };

    fn answer<S: Shelf>(
        &self,
        alloc: Global,
        _shelf: &mut S,
        before: &Before<'_, '_, '_, '_, '_, '_, '_, '_>,
        beside: &mut Q::Beside,
    ) -> Result<Items<Result<Q::Answer, Refusal>>, Refusal> {
        let listing = listed_in(alloc, before, self.asks_all_versions)?;
        let results = all(
            alloc,
            &self.question,
            before,
            &listing,
            self.requests,
            beside,
        )?;
        Ok(Items::new(results))
    }

    ghost refuses = { λ it texts judged beside refused is. is };

    ghost stays = { λ it settings beside refused. still };
}
