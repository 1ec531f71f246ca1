// What may be chosen, apart from what is asked for.

ghost use Rattle.std.specs.Prelude.{◌≡◌, IfOk};
ghost use Rattle.universe_parts.specs.Parts.{packages_of};

use providers::Providers;
use std::alloc::{AllocError, Global};
use std::marker::Model;
use universe_parts::{Candidates, Pairs, Starts};

/// The admitted pairs, numbered from 1, the facts of the start and the candidates, with who has or provides each name among the
/// packages of the pairs. It has no goal: universes of many goals share it.
#[derive(Drop)]
pub struct Admitted<'p, 'a> {
    pairs: Pairs<'p, 'a>,
    starts: Starts<'a>,
    candidates: Candidates<'a>,
    providers: Providers<'a>,
}

impl<'p, 'a> Model for Admitted<'p, 'a> {
    ghost use Rattle.std.specs.Prelude.{◌≡◌};
    ghost use Rattle.universe.specs.Admitted.{Admitted as AdmittedValue};
    ghost use Rattle.universe_parts.specs.Parts.{packages_of};

    ghost Value = { AdmittedValue };

    ghost view = { λ a. record { pairs = a.pairs; starts = a.starts; candidates = a.candidates } };

    ghost invariant = { λ a. a.providers ≡ packages_of a.pairs };
}

impl<'p, 'a> Admitted<'p, 'a> {
    /// These pairs, facts of the start and candidates. Memory alone can fail. It costs what `Providers::of_pairs` does.
    pub fn new(
        alloc: Global,
        pairs: Pairs<'p, 'a>,
        starts: Starts<'a>,
        candidates: Candidates<'a>,
    ) -> Result<Admitted<'p, 'a>, AllocError>
        ensures { IfOk result (λ admitted.
            admitted ≡ record {
              pairs = pairs.entry;
              starts = starts.entry;
              candidates =
                  candidates.entry;
            }) }
    {
        let providers = Providers::of_pairs(alloc, &pairs)?;
        Ok(Admitted {
            pairs,
            starts,
            candidates,
            providers,
        })
    }

    /// The admitted pairs in order, by name and then by version.
    pub fn pairs(&self) -> &Pairs<'p, 'a>
        ensures { result.now ≡ self.now.pairs }
    {
        &self.pairs
    }

    /// The facts of the start, in the order of the status file.
    pub fn starts(&self) -> &Starts<'a>
        ensures { result.now ≡ self.now.starts }
    {
        &self.starts
    }

    /// The candidates in the order of their names.
    pub fn candidates(&self) -> &Candidates<'a>
        ensures { result.now ≡ self.now.candidates }
    {
        &self.candidates
    }

    /// Who has or provides each name among the packages of the pairs.
    pub fn providers(&self) -> &Providers<'a>
        ensures { result.now ≡ packages_of self.now.pairs }
    {
        &self.providers
    }
}
