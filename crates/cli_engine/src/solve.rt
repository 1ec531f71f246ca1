//! A request solved by texts, read in the order status, sources, indices, preferences and request.
ghost use Rattle.std.specs.Prelude.{◌≡◌, IfOk, false, refl};
ghost use mathlib.Core.Logic.{inl};
ghost use Rattle.inputs.specs.ReadAs.{IsOver, start_of};
ghost use Rattle.solver.specs.Solved.{IsSolved};
ghost use Rattle.cli_engine.specs.Solution.{IsSaidOfRequest};

use crate::lines::answer_of_solved;
use crate::notes::Notes;
use crate::requested::{read_asked, tell_idle_inputs};
use inputs::{Before, OverRequest, Question, Refusal, Requested, Shelf};
use json_answers::Members;
use plancheck_state::{parse_packages, view};
use rules::Items;
use solver::{Solved, solve};
use std::alloc::{AllocError, Global};
use universe::Universe;

/// What is answered to a request.
#[derive(Drop)]
pub struct Answered {
    /// A plan, a refutation, or why it is undecided.
    pub solved: Solved,
    /// Whether the request asks for all versions.
    pub asks_all_versions: bool,
    /// The text of a refutation with its pairs named, where that is asked for.
    pub naming: Option<Items<u8>>,
    /// What is told of the answer, each sentence a line of its own, where that is wanted and memory wasn't refused for it.
    pub reasons: Option<Items<u8>>,
    /// What a document has of the lines of a refutation, where there is to be one.
    pub members: Option<Members>,
}

/// Solves the request: a plan that is good over what the texts denote; a refutation that is accepted over it, so that no set of admitted
/// pairs is acceptable; or why it is undecided; with whether the request asks for all versions; or the first refusal in the order
/// status, sources, indices, preferences, request. Solving costs what `solver::solve` says. Sentences on inputs are told, where they are
/// wanted.
#[derive(Clone, Copy)]
pub struct Solve {
    /// How many conflicts the search may have.
    pub limit: u32,
    /// Whether a refutation is written with its pairs named too.
    pub names_pairs: bool,
    /// Whether the reasons of a refutation are told, and what a plan changes.
    pub tells_reasons: bool,
    /// Whether there is to be a document of the answer, which has the lines of a refutation.
    pub has_document: bool,
}

/// Solves the request of the universe over what is read before it. Costs what `solver::solve` costs. Memory alone can fail.
pub fn solve_over<'a>(
    alloc: Global,
    before: &Before<'_, '_, '_, '_, '_, '_, '_, 'a>,
    universe: &Universe<'_, 'a>,
    limit: u32,
) -> Result<Solved, AllocError>
    requires { IsOver before.now universe.now }
    ensures { IfOk result (λ solved. IsSolved universe.now (start_of before.now) limit solved) }
{
    let records = before.status_file.records(alloc)?;
    let packages = parse_packages(alloc, records.as_slice())?;
    let start = view(alloc, records.as_slice(), packages.as_slice())?;
    let solved = solve(alloc, &start, universe, limit)?;
    Ok(solved)
}

impl OverRequest for Solve {
    type Answer = Answered;

    type Beside = Notes;

    ghost says = { λ it texts _ result _.
        IsSaidOfRequest texts it.limit it.names_pairs it.tells_reasons it.has_document result };

    ghost keeps = { λ _ old _ new. old.wanted ≡ false → new ≡ old };

    fn answer<'a>(
        &self,
        alloc: Global,
        before: &Before<'_, '_, '_, '_, '_, '_, '_, 'a>,
        requested: &Requested<'_, 'a>,
        notes: &mut Notes,
    ) -> Result<Answered, Refusal> {
        let solved = solve_over(alloc, before, &requested.universe, self.limit)?;
        let answer = answer_of_solved(
            alloc,
            before,
            requested,
            solved,
            self.names_pairs,
            self.tells_reasons,
            self.has_document,
        )?;
        tell_idle_inputs(alloc, before, notes);
        Ok(answer)
    }

    ghost refuses = { λ _ _ _ _ is. is };

    ghost stays = { λ _ _ _ _. refl };
}

impl Question for Solve {
    type Answer = Answered;

    type Beside = Notes;

    ghost says = { λ it texts _ _ result _.
        IsSaidOfRequest texts it.limit it.names_pairs it.tells_reasons it.has_document result };

    ghost keeps = { λ _ _ old _ new. old.wanted ≡ false → new ≡ old };

    fn answer<S: Shelf>(
        &self,
        alloc: Global,
        shelf: &mut S,
        before: &Before<'_, '_, '_, '_, '_, '_, '_, '_>,
        notes: &mut Notes,
    ) -> Result<Answered, Refusal> {
        let requested = read_asked(alloc, shelf, before, notes)?;
        OverRequest::answer(self, alloc, before, &requested, notes)
    }

    ghost refuses = { λ _ _ _ _ _ is. inl is };

    ghost stays = { λ _ _ _ _ _. refl };
}
