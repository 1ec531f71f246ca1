//! The candidates of names by texts (apt_preferences(5)).
ghost use Rattle.std.specs.Prelude.{◌≡◌, IfOk, false, map, refl};
ghost use Rattle.candidates.specs.Candidates.{IsCandidateOf};
ghost use Rattle.candidates.specs.Inputs.{indices_of, inputs_of};
ghost use Rattle.inputs.specs.ReadAs.{AreReadAs, start_of};
ghost use Rattle.inputs.specs.Texts.{Texts};
ghost use Rattle.rules.specs.Available.{Request};
ghost use Rattle.cli_engine.specs.Answer.{AreCandidateAnswers, AreCandidatesOf, IsSaidOfNames};

use crate::notes::Notes;
use crate::offered::CandidateAnswer;
use crate::requested::tell_idle_inputs;
use crate::versions::tell_candidates;
use candidates::candidate;
use inputs::{Before, Question, Refusal, Shelf};
use rules::Items;
use std::alloc::{AllocError, Global};

/// Finds the candidate of each of the names, in their order, with its priority, or that it has none: the version that is to be chosen
/// before anything is asked for (apt_preferences(5)). The request isn't read: the first refusal is one in the order status, sources,
/// indices, preferences. Each name costs what `candidates::candidate` costs. Sentences on the answer are told, where they are wanted.
#[derive(Clone, Copy)]
pub struct FindCandidates<'n> {
    /// The names.
    pub names: &'n [&'n str],
    /// Whether the versions of each name are told too, where sentences are wanted.
    pub tells_versions: bool,
}

// The candidate of the name over what is read before a request.
fn candidate_over(
    alloc: Global,
    before: &Before<'_, '_, '_, '_, '_, '_, '_, '_>,
    name: &[u8],
) -> Result<Option<CandidateAnswer>, AllocError>
    ensures { (request : Request) → IfOk result (λ candidate. IsCandidateOf
        (inputs_of (start_of before.now)
        (indices_of before.now.indices.now) before.now.prefs.now request) name.now candidate) }
{
    let records = before.status_file.records(alloc)?;
    match candidate(
        alloc,
        records.as_slice(),
        before.indices,
        before.prefs,
        name,
    )? {
        None => Ok(None),
        Some(offer) => Ok(Some(CandidateAnswer::copied_from(alloc, &offer)?)),
    }
}

// The candidate of each name over what is read before a request.
fn candidates_over(
    alloc: Global,
    before: &Before<'_, '_, '_, '_, '_, '_, '_, '_>,
    names: &[&str],
) -> Result<Vec<Option<CandidateAnswer>>, AllocError>
    ensures { IfOk result
        (λ candidates.
        AreCandidatesOf (start_of before.now)
        (indices_of before.now.indices.now) before.now.prefs.now
        (map (λ name. name.now) names.now) candidates.items) }
{
    let mut candidates = Vec::new(alloc);
    for name in names {
        let candidate = candidate_over(alloc, before, name.as_bytes())?;
        candidates.push(candidate)?;
    }
    Ok(candidates)
}

impl<'n> FindCandidates<'n> {
    /// Answers it over what the texts before a request are read as. Sentences on the answer are told, where they are wanted. Memory alone
    /// can fail.
    pub fn over(
        &self,
        alloc: Global,
        before: &Before<'_, '_, '_, '_, '_, '_, '_, '_>,
        notes: &mut Notes,
    ) -> Result<Items<Option<CandidateAnswer>>, AllocError>
        ensures said { (texts : Texts) → AreReadAs texts before.now
            → IfOk result (AreCandidateAnswers texts (map (λ name. name.now) self.now.names.now)) }
        ensures unasked { notes.old.wanted ≡ false → notes.new ≡ notes.old }
    {
        let candidates = candidates_over(alloc, before, self.names)?;
        tell_candidates(
            alloc,
            before,
            self.names,
            candidates.as_slice(),
            self.tells_versions,
            notes,
        );
        tell_idle_inputs(alloc, before, notes);
        Ok(Items::new(candidates))
    }
}

impl<'n> Question for FindCandidates<'n> {
    type Answer = Items<Option<CandidateAnswer>>;

    type Beside = Notes;

    ghost says = { λ it texts _ _ result _. IsSaidOfNames texts (map (λ name. name.now) it.names.now) result };

    ghost keeps = { λ _ _ old _ new. old.wanted ≡ false → new ≡ old };

    fn answer<S: Shelf>(
        &self,
        alloc: Global,
        _shelf: &mut S,
        before: &Before<'_, '_, '_, '_, '_, '_, '_, '_>,
        notes: &mut Notes,
    ) -> Result<Items<Option<CandidateAnswer>>, Refusal> {
        let candidates = self.over(alloc, before, notes)?;
        Ok(candidates)
    }

    ghost refuses = { λ _ _ _ _ _ is. is };

    ghost stays = { λ _ _ _ _ _. refl };
}
