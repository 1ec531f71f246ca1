//! The question which packages of the indices can be installed.
ghost use Rattle.std.specs.Prelude.{◌≡◌, ◌≢◌, IfErr, IfOk};
ghost use Rattle.std.specs.List.{AllZip};
ghost use mathlib.Core.Logic.{inl};
ghost use Rattle.candidates.specs.Inputs.{indices_of};
ghost use Rattle.inputs.specs.ReadAs.{AreReadAs, IsListed};
ghost use Rattle.inputs.specs.ReadBy.{IsReadBy};
ghost use Rattle.inputs.specs.Texts.{Texts};
ghost use Rattle.inputs.specs.declared.refusal.Fault.TheVariants as fault;
ghost use Rattle.installable.specs.Answers.{IsPackageAnswer, IsRefusedAmong, IsSaidOfPackages, beside_in, names_beside};

use crate::answer::{Installability, PackageAnswer, Surveyed};
use crate::asked::{Stanza, stanzas_asked};
use crate::essential::essential_names;
use crate::named::check_names;
use crate::over::{answer_to, installability_of};
use crate::request_text::lines_beside;
use crate::shard::{Shard, part_of};
use index::Index;
use inputs::{Before, Progress, Question, Refusal, Shelf, listed_in};
use rules::{Items, Text};
use std::alloc::{AllocError, Global};
use universe_build::Listing;

/// Asks of each package of the indices whether it can be installed, in the order of names and versions, of those of one version the
/// earliest stanza alone: whether the request `install NAME (= VERSION)`, beside an installation of every name that a stanza marks as
/// essential, has an acceptable selection. A package that hasn't is answered with a refutation. The same is asked of what stands beside each
/// package by itself. The request of the texts isn't read: the first refusal is one in the order status, sources, indices, preferences,
/// then E17 of a name that no stanza has, with its number among the names, and then that of the request by itself or for a package. That
/// packages conflict at the start changes no answer. What is admitted is listed once; each package costs what `inputs::requested_in` and
/// `solver::decide` cost, and of one that is refuted the reasons, where they are wanted, what `refutation_sentences::core` and `refutation_sentences::sentences` do.
/// The shelf is shown how far the answer is, behind each package.
#[derive(Clone, Copy)]
pub struct Installable<'n> {
    /// The names of the packages, of which all versions are asked about; where there are none, all packages are.
    pub names: &'n [&'n str],
    /// Whether each request asks for all versions.
    pub asks_all_versions: bool,
    /// Whether nothing is asked for beside the package.
    pub without_essential: bool,
    /// Which of them in their order are asked about.
    pub shard: Shard,
    /// How many conflicts each search may have.
    pub limit: u32,
    /// Whether the reasons are wanted of what is refuted.
    pub explains: bool,
}

// The names that are asked for beside each package.
fn names_beside(
    alloc: Global,
    indices: &[Index<'_>],
    without_essential: bool,
) -> Result<Vec<Text>, AllocError>
    ensures { IfOk result
        (λ names. names.items ≡ names_beside without_essential (indices_of indices.now)) }
{
    if without_essential {
        return Ok(Vec::new(alloc));
    }
    let names = essential_names(alloc, indices)?;
    Ok(names)
}

// How many of the answers are a no, behind one more.
fn with_refuted(before: usize, answer: &PackageAnswer) -> usize {
    match answer.installability {
        Installability::Broken(_) => before.saturating_add(1),
        _ => before,
    }
}

// The answers to these packages, one after the other. The shelf is shown how far they are.
fn answers_to<'i, 'a, S: Shelf>(
    alloc: Global,
    shelf: &mut S,
    before: &Before<'_, '_, '_, '_, '_, '_, 'i, 'a>,
    listing: &Listing<'_, 'i, 'a>,
    asked: &[Stanza<'_, '_>],
    beside: &[u8],
    question: &Installable<'_>,
) -> Result<Vec<PackageAnswer>, Refusal>
    requires { IsListed before.now listing.now }
    ensures said { (texts : Texts) → AreReadAs texts before.now → IfOk result (λ answers.
        AllZip (IsPackageAnswer texts question.now.limit beside.now) asked.now answers.items) }
    ensures refused { (texts : Texts) → AreReadAs texts before.now
        → IfErr result (IsRefusedAmong texts beside.now asked.now) }
    ensures known { IfErr result (λ refused. refused.fault ≢ fault.Read) }
    ensures read { IsReadBy S.Shelf shelf.old result shelf.new }
{
    let mut answers = Vec::new(alloc);
    let mut refuted = 0;
    for stanza in asked {
        let answer = answer_to(alloc, before, listing, stanza, beside, question)?;
        refuted = with_refuted(refuted, &answer);
        answers.push(answer)?;
        shelf.show(Progress::Packages {
            answered: answers.len(),
            all: asked.len(),
            refuted,
        });
    }
    Ok(answers)
}

impl<'n> Installable<'n> {
    // The lines beside that of each package.
    fn beside(&self, alloc: Global, indices: &[Index<'_>]) -> Result<Vec<u8>, AllocError>
        ensures { IfOk result (λ text. text.items ≡ beside_in self.now (indices_of indices.now)) }
    {
        let names = names_beside(alloc, indices, self.without_essential)?;
        let text = lines_beside(alloc, names.as_slice(), self.asks_all_versions)?;
        Ok(text)
    }

    /// Answers it over what the texts before a request are read as. Nothing is read from the shelf: it is shown how far the answer is.
    pub fn over<S: Shelf>(
        &self,
        alloc: Global,
        shelf: &mut S,
        before: &Before<'_, '_, '_, '_, '_, '_, '_, '_>,
    ) -> Result<Surveyed, Refusal>
        ensures said { (texts : Texts) → AreReadAs texts before.now
            → IsSaidOfPackages texts self.now result }
        ensures read { IsReadBy S.Shelf shelf.old result shelf.new }
    {
        check_names(before.indices, self.names)?;
        let beside = self.beside(alloc, before.indices)?;
        let ordered = stanzas_asked(alloc, before.indices, self.names)?;
        let asked = part_of(alloc, ordered.as_slice(), self.shard)?;
        let listing = listed_in(alloc, before, self.asks_all_versions)?;
        let base = installability_of(alloc, before, &listing, beside.as_slice(), self)?;
        let answers = answers_to(
            alloc,
            shelf,
            before,
            &listing,
            asked.as_slice(),
            beside.as_slice(),
            self,
        )?;
        Ok(Surveyed {
            base,
            packages: Items::new(answers),
        })
    }
}

impl<'n> Question for Installable<'n> {
    type Answer = Surveyed;

    type Beside = ();

    ghost says = { λ question texts _ _ result _. IsSaidOfPackages texts question result };

    ghost keeps = { λ _ _ _ _ _. Unit {0} };

    fn answer<S: Shelf>(
        &self,
        alloc: Global,
        shelf: &mut S,
        before: &Before<'_, '_, '_, '_, '_, '_, '_, '_>,
        _beside: &mut (),
    ) -> Result<Surveyed, Refusal> {
        self.over(alloc, shelf, before)
    }

    ghost refuses = { λ _ _ _ _ _ is. inl is };

    ghost stays = { λ _ _ _ _. tt };
}
