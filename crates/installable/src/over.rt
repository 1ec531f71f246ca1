//! Whether a request can be met, and that of one package, by what is read before it.
ghost use Rattle.std.specs.Prelude.{◌≡◌, ◌≢◌, ◌<◌, ◌^◌, IfErr, IfOk, length, ℕ};
ghost use Rattle.inputs.specs.ReadAs.{AreReadAs, IsListed, IsOver, asking};
ghost use Rattle.inputs.specs.Refused.{IsRefusal};
ghost use Rattle.inputs.specs.Texts.{Texts};
ghost use Rattle.inputs.specs.declared.refusal.Fault.TheVariants as fault;
ghost use Rattle.solver.specs.Decided.{IsDecided};
ghost use Rattle.universe_parts.specs.Parts.{HaveDistinctNames};
ghost use Rattle.written_refutation.specs.Written.{naming_text};
ghost use Rattle.installable.specs.Answers.{HasRequest, IsAnsweredBy, IsInstallability, IsPackageAnswer};
ghost use Rattle.installable.specs.RequestText.{request_of};

use crate::answer::{Installability, PackageAnswer, Refuted};
use crate::asked::Stanza;
use crate::question::Installable;
use crate::request_text::request_of;
use inputs::{Before, Refusal, Requested, requested_in};
use refutation::Refutation;
use refutation_sentences::{core, sentences};
use refutecheck::Premises;
use rules::{Items, Text};
use solver::{Decided, decide};
use std::alloc::{AllocError, Global};
use universe_build::Listing;
use written_refutation::write_naming;

// A sentence for each premise of a core of the refutation of a request. Memory alone can fail.
fn sentences_on(
    alloc: Global,
    before: &Before<'_, '_, '_, '_, '_, '_, '_, '_>,
    requested: &Requested<'_, '_>,
    refutation: &Refutation,
) -> Result<Vec<u8>, AllocError>
    requires few { length requested.now.universe.pairs < 2 ^ 32 }
    requires distinct { HaveDistinctNames requested.now.universe.starts }
{
    let premises = Premises::new(alloc, &requested.universe);
    let shorter = core(&premises, refutation)?;
    sentences(
        &premises,
        before.indices,
        before.prefs,
        &shorter,
        requested.asks_all_versions,
    )
}

// The reasons of the refutation of a request, where they are wanted and memory isn't refused for them.
fn reasons_of(
    alloc: Global,
    before: &Before<'_, '_, '_, '_, '_, '_, '_, '_>,
    requested: &Requested<'_, '_>,
    refutation: &Refutation,
    explains: bool,
) -> Option<Items<u8>>
    requires few { length requested.now.universe.pairs < 2 ^ 32 }
    requires distinct { HaveDistinctNames requested.now.universe.starts }
{
    if !explains {
        return None;
    }
    match sentences_on(alloc, before, requested, refutation) {
        Ok(text) => Some(Items::new(text)),
        Err(AllocError) => None,
    }
}

// The texts of the request and of the refutation that was found of it, and the reasons, where they are wanted and memory isn't refused for
// them. Memory alone can fail.
fn refuted_by(
    alloc: Global,
    before: &Before<'_, '_, '_, '_, '_, '_, '_, '_>,
    requested: &Requested<'_, '_>,
    request: &[u8],
    refutation: &Refutation,
    explains: bool,
) -> Result<Refuted, AllocError>
    requires few { length requested.now.universe.pairs < 2 ^ 32 }
    requires distinct { HaveDistinctNames requested.now.universe.starts }
    ensures request { IfOk result (λ refuted. refuted.request ≡ request.now) }
    ensures text { IfOk result
        (λ refuted. refuted.refutation ≡ naming_text requested.now.universe.pairs refutation.now) }
{
    let text = write_naming(alloc, &requested.universe, refutation)?;
    let reasons = reasons_of(alloc, before, requested, refutation, explains);
    Ok(Refuted {
        request: Items::new(request.to_vec(alloc)?),
        refutation: Items::new(text),
        reasons,
    })
}

// What is answered to the request where it is decided so and this is its text. Memory alone can fail.
fn installability_by(
    alloc: Global,
    before: &Before<'_, '_, '_, '_, '_, '_, '_, '_>,
    requested: &Requested<'_, '_>,
    request: &[u8],
    decided: Decided,
    explains: bool,
) -> Result<Installability, AllocError>
    requires few { length requested.now.universe.pairs < 2 ^ 32 }
    requires distinct { HaveDistinctNames requested.now.universe.starts }
    ensures said { (limit : ℕ) → IsDecided requested.now.universe limit decided
        → IfOk result (IsInstallability requested.now.universe limit) }
    ensures kept { IfOk result (HasRequest request.now) }
{
    match decided {
        Decided::Selection(_) => Ok(Installability::Installable),
        Decided::Refuted(refutation) => {
            let refuted = refuted_by(alloc, before, requested, request, &refutation, explains)?;
            Ok(Installability::Broken(refuted))
        }
        Decided::Limit(limit) => Ok(Installability::Limit(limit)),
        Decided::Unchecked => Ok(Installability::Unchecked),
    }
}

// Whether the request, which is asked for over what is read before it, can be met, where this is its text.
fn installability_over(
    alloc: Global,
    before: &Before<'_, '_, '_, '_, '_, '_, '_, '_>,
    requested: &Requested<'_, '_>,
    request: &[u8],
    question: &Installable<'_>,
) -> Result<Installability, AllocError>
    requires { IsOver before.now requested.now.universe }
    ensures said { IfOk result (IsInstallability requested.now.universe question.now.limit) }
    ensures kept { IfOk result (HasRequest request.now) }
{
    let decided = decide(alloc, &requested.universe, question.limit)?;
    installability_by(
        alloc,
        before,
        requested,
        request,
        decided,
        question.explains,
    )
}

/// Whether the request with this text can be met, over what is read before it. It costs what `inputs::requested_in` and `solver::decide`
/// cost, and where reasons are wanted what `refutation_sentences::core` and `refutation_sentences::sentences` do.
pub(crate) fn installability_of<'i, 'a>(
    alloc: Global,
    before: &Before<'_, '_, '_, '_, '_, '_, 'i, 'a>,
    listing: &Listing<'_, 'i, 'a>,
    request: &[u8],
    question: &Installable<'_>,
) -> Result<Installability, Refusal>
    requires { IsListed before.now listing.now }
    ensures said { (texts : Texts) → AreReadAs texts before.now
        → IfOk result (IsAnsweredBy texts request.now question.now.limit) }
    ensures refused { (texts : Texts) → AreReadAs texts before.now
        → IfErr result (IsRefusal (asking request.now texts)) }
    ensures known { IfErr result (λ refused. refused.fault ≢ fault.Read) }
{
    let requested = requested_in(alloc, before, Some(listing), request)?;
    let installability = installability_over(alloc, before, &requested, request, question)?;
    Ok(installability)
}

// What is answered of the package where this is so.
fn answer_of(
    alloc: Global,
    stanza: &Stanza<'_, '_>,
    installability: Installability,
) -> Result<PackageAnswer, AllocError>
    ensures name { IfOk result (λ answer. answer.name ≡ stanza.now.pkg.name) }
    ensures version { IfOk result (λ answer. answer.version ≡ stanza.now.pkg.version) }
    ensures same { IfOk result (λ answer. answer.installability ≡ installability) }
{
    Ok(PackageAnswer {
        name: Text::copied_from(alloc, stanza.name())?,
        version: Text::copied_from(alloc, stanza.version().text())?,
        installability,
    })
}

/// Whether the package can be installed, by its request over what is read before, beside these lines. It costs what `installability_of`
/// does.
pub(crate) fn answer_to<'i, 'a>(
    alloc: Global,
    before: &Before<'_, '_, '_, '_, '_, '_, 'i, 'a>,
    listing: &Listing<'_, 'i, 'a>,
    stanza: &Stanza<'_, '_>,
    beside: &[u8],
    question: &Installable<'_>,
) -> Result<PackageAnswer, Refusal>
    requires { IsListed before.now listing.now }
    ensures said { (texts : Texts) → AreReadAs texts before.now
        → IfOk result (IsPackageAnswer texts question.now.limit beside.now stanza.now) }
    ensures refused { (texts : Texts) → AreReadAs texts before.now
        → IfErr result (IsRefusal (asking (request_of beside.now stanza.now) texts)) }
    ensures known { IfErr result (λ refused. refused.fault ≢ fault.Read) }
{
    let text = request_of(alloc, stanza, beside)?;
    let installability = installability_of(alloc, before, listing, text.as_slice(), question)?;
    let answer = answer_of(alloc, stanza, installability)?;
    Ok(answer)
}
