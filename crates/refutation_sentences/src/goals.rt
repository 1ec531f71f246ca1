// What goals say.

ghost use Rattle.std.specs.Prelude.{◌≡◌, ◌++◌, [], IfOk, None, OnOk, Some, codes};
ghost use Rattle.input_notes.specs.Inputs.{stanzas_of};
ghost use Rattle.phrases.specs.Phrases.{versioned};
ghost use Rattle.refutation.specs.Clause.{item_at};
ghost use Rattle.rules.specs.Universe.{candidate_of};
ghost use Rattle.rules.specs.declared.goal.Goal.TheVariants as goal;
ghost use Rattle.refutation_sentences.specs.Causes as Causes;
ghost use Rattle.refutation_sentences.specs.GoalCauses as Goals;
ghost use Rattle.refutation_sentences.specs.Offers.{AreNumbersOf, IsBy, IsLeftOutProvider, IsOneOf};
ghost use Rattle.refutation_sentences.specs.Sentences as Spec;
ghost use Rattle.refutation_sentences.specs.Words as Words;
ghost use Rattle.refutation_sentences.specs.declared.offers.By.TheVariants as by;

use crate::causes::{Cause, cause_of, push_cause, push_unfit};
use crate::context::Context;
use crate::offers::{is_listed, is_none};
use crate::unadmitted::{push_held, push_highest};
use crate::wanted::Wanted;
use debversion::Version;
use index::IndexEntry;
use phrases::push_versioned;
use rules::{Goal, Name, Restriction};
use std::alloc::AllocError;

// Whether the name is present at the start.
fn is_present(context: &Context<'_, '_, '_, '_, '_>, name: &[u8]) -> bool
    ensures { result ≡ Goals.is_present context.now.premises.now name.now }
{
    match context.premises.start(name) {
        Some(start) => start.is_present(),
        None => false,
    }
}

// Writes that no index has the name, of which something is there at the start.
fn push_unlisted(text: &mut Vec<u8>, name: &[u8]) -> Result<(), AllocError>
    ensures { OnOk result (text.new.items ≡ text.old.items ++ Goals.unlisted_words name.now) }
{
    text.extend_from_slice(b"no index has ")?;
    text.extend_from_slice(name)?;
    text.extend_from_slice(b", and what is there of it has to be installed again")?;
    Ok(())
}

// Writes that the name is no package, and by what it is provided.
fn push_virtual(text: &mut Vec<u8>, name: &[u8], providers: &[u8]) -> Result<(), AllocError>
    ensures { OnOk result
        (text.new.items ≡ text.old.items ++ Goals.virtual_words name.now providers.now) }
{
    text.extend_from_slice(name)?;
    text.extend_from_slice(b" is no package; it is provided by ")?;
    text.extend_from_slice(providers)?;
    Ok(())
}

// Writes that the name alone is provided, by these, or what there is of it in the indices or at the start.
fn push_provided(
    context: &Context<'_, '_, '_, '_, '_>,
    text: &mut Vec<u8>,
    wanted: &Wanted<'_>,
    providers: &[u8],
) -> Result<(), AllocError>
    requires unnamed { Causes.IsUnnamed context.now.premises.now context.now.indices.now
        wanted.now }
    requires providers { Goals.AreProvidersTold context.now.premises.now context.now.indices.now
        wanted.now
        providers.now }
    ensures { OnOk result
        (Words.Grows
        (Goals.IsGoalCauseTold context.now.premises.now context.now.indices.now wanted.now)
        text.old.items text.new.items) }
{
    let name = wanted.name();
    if is_listed(context.indices, name) {
        return push_unfit(text, name);
    }
    if is_present(context, name) {
        push_unlisted(text, name)
    } else {
        push_virtual(text, name, providers)
    }
}

// The words on the pairs of these numbers.
fn pairs_words(
    context: &Context<'_, '_, '_, '_, '_>,
    numbers: &[u32],
) -> Result<Vec<u8>, AllocError>
    ensures { IfOk result
        (λ words. words.items ≡ Words.listed context.now.premises.now numbers.now) }
{
    let mut text = Vec::new(context.alloc());
    context.push_pairs(&mut text, numbers)?;
    Ok(text)
}

// The words on the package of the stanza.
fn stanza_words(
    context: &Context<'_, '_, '_, '_, '_>,
    stanza: &IndexEntry<'_>,
) -> Result<Vec<u8>, AllocError>
    ensures { IfOk result (λ words. words.items ≡ Words.package_words stanza.now.pkg) }
{
    let version = stanza.version();
    let mut text = Vec::new(context.alloc());
    push_versioned(&mut text, stanza.name(), version.text())?;
    Ok(text)
}

// Writes why no pair is what an install goal asks for, of which pairs provide the name.
fn push_pairs_cause(
    context: &Context<'_, '_, '_, '_, '_>,
    text: &mut Vec<u8>,
    wanted: &Wanted<'_>,
    numbers: &[u32],
) -> Result<(), AllocError>
    requires unnamed { Causes.IsUnnamed context.now.premises.now context.now.indices.now
        wanted.now }
    requires numbers { AreNumbersOf context.now.premises.now (IsBy by.Provides wanted.now.name)
        numbers.now }
    ensures { OnOk result
        (Words.Grows
        (Goals.IsGoalCauseTold context.now.premises.now context.now.indices.now wanted.now)
        text.old.items text.new.items) }
{
    let providers = pairs_words(context, numbers)?;
    push_provided(context, text, wanted, providers.as_slice())
}

// Writes why no pair is what an install goal asks for, of which the package of the stanza provides the name.
fn push_stanza_cause(
    context: &Context<'_, '_, '_, '_, '_>,
    text: &mut Vec<u8>,
    wanted: &Wanted<'_>,
    stanza: &IndexEntry<'_>,
) -> Result<(), AllocError>
    requires unnamed { Causes.IsUnnamed context.now.premises.now context.now.indices.now
        wanted.now }
    requires stanza { IsOneOf (IsLeftOutProvider context.now.premises.now wanted.now)
        (stanzas_of context.now.indices.now) stanza.now }
    ensures { OnOk result
        (Words.Grows
        (Goals.IsGoalCauseTold context.now.premises.now context.now.indices.now wanted.now)
        text.old.items text.new.items) }
{
    let providers = stanza_words(context, stanza)?;
    push_provided(context, text, wanted, providers.as_slice())
}

// Writes why no pair is what an install goal asks for, where this is the cause. A goal asks for a package of the name itself.
fn push_goal_cause(
    context: &Context<'_, '_, '_, '_, '_>,
    text: &mut Vec<u8>,
    wanted: &Wanted<'_>,
    cause: &Cause<'_, '_>,
) -> Result<(), AllocError>
    requires { Causes.IsCause context.now.premises.now context.now.indices.now wanted.now
        cause.now }
    ensures { OnOk result
        (Words.Grows
        (Goals.IsGoalCauseTold context.now.premises.now context.now.indices.now wanted.now)
        text.old.items text.new.items) }
{
    match cause {
        Cause::Provided(numbers) => push_pairs_cause(context, text, wanted, numbers.as_slice()),
        Cause::Elsewhere(stanza) => push_stanza_cause(context, text, wanted, *stanza),
        _ => {
            push_cause(context, text, wanted.name(), cause)?;
            Ok(())
        }
    }
}

// Why no pair satisfies an install goal.
fn goal_cause(
    context: &Context<'_, '_, '_, '_, '_>,
    wanted: &Wanted<'_>,
) -> Result<Vec<u8>, AllocError>
    ensures { IfOk result
        (λ text. Goals.IsInstallCauseTold context.now.premises.now context.now.indices.now
        wanted.now text.items) }
{
    let cause = cause_of(context, wanted)?;
    let mut text = Vec::new(context.alloc());
    text.extend_from_slice(b", but ")?;
    push_goal_cause(context, &mut text, wanted, &cause)?;
    Ok(text)
}

// Why no pair satisfies an install goal, where these pairs are none.
fn cause_where_none(
    context: &Context<'_, '_, '_, '_, '_>,
    wanted: &Wanted<'_>,
    numbers: &[u32],
) -> Result<Vec<u8>, AllocError>
    ensures { IfOk result (λ text. numbers.now ≡ []
        → Goals.IsInstallCauseTold context.now.premises.now context.now.indices.now wanted.now
        text.items) }
{
    if is_none(numbers) {
        goal_cause(context, wanted)
    } else {
        Ok(Vec::new(context.alloc()))
    }
}

// Writes what an install goal asks for.
fn push_install(
    context: &Context<'_, '_, '_, '_, '_>,
    text: &mut Vec<u8>,
    name: &Name,
    restriction: &Option<Restriction>,
    numbers: &[u32],
) -> Result<(), AllocError>
    ensures { OnOk result
        (Words.Grows (Spec.IsGoalTold context.now.premises.now context.now.indices.now numbers.now
        (goal.Install name.now restriction.now))
        text.old.items text.new.items) }
{
    let wanted = Wanted::by_goal(name.as_bytes(), restriction);
    let why = cause_where_none(context, &wanted, numbers)?;
    text.extend_from_slice(b"You ask for ")?;
    wanted.push_to(text)?;
    context.push_satisfying(text, numbers, why.as_slice())?;
    Ok(())
}

// Writes that the name has no candidate, and its highest version.
fn push_uncandidated(
    context: &Context<'_, '_, '_, '_, '_>,
    text: &mut Vec<u8>,
    name: &[u8],
) -> Result<(), AllocError>
    requires { candidate_of context.now.premises.now name.now ≡ None }
    ensures { OnOk result
        (Words.Grows
        (Goals.IsUncandidatedTold context.now.premises.now context.now.indices.now name.now)
        text.old.items text.new.items) }
{
    text.extend_from_slice(name)?;
    text.extend_from_slice(b" has no candidate: ")?;
    push_highest(context, text, name)?;
    Ok(())
}

// Writes the candidate of the name, which no pair is.
fn push_candidate(
    text: &mut Vec<u8>,
    name: &[u8],
    candidate: &Version<'_>,
) -> Result<(), AllocError>
    ensures { OnOk result
        (text.new.items ≡ text.old.items
        ++ (versioned name.now candidate.now ++ codes " is its candidate and is not admitted")) }
{
    push_versioned(text, name, candidate.text())?;
    text.extend_from_slice(b" is its candidate and is not admitted")?;
    Ok(())
}

// Writes why no pair is the candidate of the name.
fn push_upgrade_cause(
    context: &Context<'_, '_, '_, '_, '_>,
    text: &mut Vec<u8>,
    name: &[u8],
) -> Result<(), AllocError>
    ensures { OnOk result
        (Words.Grows
        (Goals.IsUpgradeCause context.now.premises.now context.now.indices.now name.now)
        text.old.items text.new.items) }
{
    if context.is_held(name) {
        return push_held(text, name, context.standing(name));
    }
    // A candidate of the inputs is admitted, so that the first is never told of these.
    let candidate = context.premises.candidate(name);
    match candidate {
        Some(candidate) => push_candidate(text, name, candidate),
        None => push_uncandidated(context, text, name),
    }
}

// Why no pair is the candidate of the name.
fn upgrade_cause(context: &Context<'_, '_, '_, '_, '_>, name: &[u8]) -> Result<Vec<u8>, AllocError>
    ensures { IfOk result
        (λ text. Goals.IsUpgradeCauseTold context.now.premises.now context.now.indices.now
        name.now text.items) }
{
    let mut text = Vec::new(context.alloc());
    text.extend_from_slice(b", but ")?;
    push_upgrade_cause(context, &mut text, name)?;
    Ok(text)
}

// Why no pair is the candidate of the name, where these pairs are none.
fn without_candidate(
    context: &Context<'_, '_, '_, '_, '_>,
    name: &[u8],
    numbers: &[u32],
) -> Result<Vec<u8>, AllocError>
    ensures { IfOk result (λ text. numbers.now ≡ []
        → Goals.IsUpgradeCauseTold context.now.premises.now context.now.indices.now name.now
        text.items) }
{
    if is_none(numbers) {
        upgrade_cause(context, name)
    } else {
        Ok(Vec::new(context.alloc()))
    }
}

// Writes what an upgrade goal asks for.
fn push_upgrade(
    context: &Context<'_, '_, '_, '_, '_>,
    text: &mut Vec<u8>,
    name: &Name,
    numbers: &[u32],
) -> Result<(), AllocError>
    ensures { OnOk result
        (Words.Grows (Spec.IsGoalTold context.now.premises.now context.now.indices.now
        numbers.now (goal.Upgrade name.now))
        text.old.items text.new.items) }
{
    let why = without_candidate(context, name.as_bytes(), numbers)?;
    text.extend_from_slice(b"You ask to upgrade ")?;
    text.extend_from_slice(name.as_bytes())?;
    context.push_satisfying(text, numbers, why.as_slice())?;
    Ok(())
}

// Writes what the goal asks for, which these pairs are.
fn push_asked(
    context: &Context<'_, '_, '_, '_, '_>,
    text: &mut Vec<u8>,
    asked: &Goal,
    numbers: &[u32],
) -> Result<(), AllocError>
    ensures { OnOk result
        (Words.Grows (Spec.IsGoalTold context.now.premises.now context.now.indices.now
        numbers.now asked.now)
        text.old.items text.new.items) }
{
    match asked {
        Goal::Install(name, restriction) => push_install(context, text, name, restriction, numbers),
        Goal::Upgrade(name) => push_upgrade(context, text, name, numbers),
        _ => Ok(()),
    }
}

/// Writes what the goal of this number asks for, which these pairs are.
pub(crate) fn push_goal(
    context: &Context<'_, '_, '_, '_, '_>,
    text: &mut Vec<u8>,
    number: u32,
    numbers: &[u32],
) -> Result<(), AllocError>
    ensures { OnOk result
        (Words.Grows (λ said. (asked : _) → item_at context.now.premises.now.goals number
        ≡ Some asked
        → Spec.IsGoalTold context.now.premises.now context.now.indices.now numbers.now asked
        said) text.old.items
        text.new.items) }
{
    match context.premises.goal_at(number) {
        None => Ok(()),
        Some(asked) => push_asked(context, text, asked, numbers),
    }
}

// Writes what the goal says of the pair by itself.
fn push_asked_on(
    context: &Context<'_, '_, '_, '_, '_>,
    text: &mut Vec<u8>,
    asked: &Goal,
    pair: u32,
) -> Result<(), AllocError>
    ensures { OnOk result
        (Words.Grows (Spec.IsGoalOnTold context.now.premises.now pair asked.now) text.old.items
        text.new.items) }
{
    match asked {
        Goal::Remove(name) => {
            text.extend_from_slice(b"You ask to remove ")?;
            text.extend_from_slice(name.as_bytes())
        }
        Goal::Purge(name) => {
            text.extend_from_slice(b"You ask to purge ")?;
            text.extend_from_slice(name.as_bytes())
        }
        Goal::UpgradeAll => {
            text.extend_from_slice(b"upgrade-all asks for ")?;
            context.push_number(text, pair)
        }
        _ => Ok(()),
    }
}

/// Writes what the goal of this number says of the pair by itself.
pub(crate) fn push_goal_on(
    context: &Context<'_, '_, '_, '_, '_>,
    text: &mut Vec<u8>,
    number: u32,
    pair: u32,
) -> Result<(), AllocError>
    ensures { OnOk result
        (Words.Grows (λ said. (asked : _) → item_at context.now.premises.now.goals number
        ≡ Some asked
        → Spec.IsGoalOnTold context.now.premises.now pair asked said) text.old.items
        text.new.items) }
{
    match context.premises.goal_at(number) {
        None => Ok(()),
        Some(asked) => push_asked_on(context, text, asked, pair),
    }
}
