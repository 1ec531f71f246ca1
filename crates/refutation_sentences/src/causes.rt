// Why no pair satisfies what is asked for: what is found of it, and how it is told.

ghost use Rattle.std.specs.Prelude.{◌≡◌, ◌++◌, IfOk, OnOk, codes};
ghost use Rattle.input_notes.specs.Inputs.{stanzas_of};
ghost use Rattle.refutation_sentences.specs.Causes as Spec;
ghost use Rattle.refutation_sentences.specs.Offers as Offers;
ghost use Rattle.refutation_sentences.specs.Words as Words;
ghost use Rattle.refutation_sentences.specs.declared.offers.By.TheVariants as by;

use crate::context::Context;
use crate::offers::{Among, By, is_listed, is_none};
use crate::unadmitted::{push_held, reason_of};
use crate::wanted::Wanted;
use index::IndexEntry;
use phrases::push_versioned;
use std::alloc::AllocError;

/// Why no pair satisfies what is asked for.
#[derive(Drop)]
pub(crate) enum Cause<'k, 'i> {
    /// It is asked for of another architecture.
    Foreign,
    /// The start says that the name is held.
    Held,
    /// The version of this stanza fits, but isn't admitted.
    Unadmitted(&'k IndexEntry<'i>),
    /// These pairs alone are of the name, and these provide it.
    Others(Vec<u32>, Vec<u32>),
    /// No pair provides the name so that it fits, but the package of this stanza does, which isn't admitted.
    Elsewhere(&'k IndexEntry<'i>),
    /// No pair is of the name, but these provide it.
    Provided(Vec<u32>),
    /// The indices have the name, but in no version that fits.
    Unfit,
    /// No index has the name, but the package of this stanza provides it, in no version that fits.
    UnfitElsewhere(&'k IndexEntry<'i>),
    /// No index has the name, and nothing there provides it.
    Missing,
}

// Whether an index has the name, or who provides it there, where nothing that is admitted has or provides it.
fn cause_of_left_out<'k, 'i>(
    context: &Context<'k, '_, '_, '_, 'i>,
    wanted: &Wanted<'_>,
) -> Result<Cause<'k, 'i>, AllocError>
    requires unnamed { Spec.IsUnnamed context.now.premises.now context.now.indices.now wanted.now }
    requires nowhere { Offers.IsNoneOf
        (Offers.IsLeftOutProvider context.now.premises.now wanted.now)
        (stanzas_of context.now.indices.now) }
    ensures { IfOk result
        (Spec.IsCause context.now.premises.now context.now.indices.now wanted.now) }
{
    let name = wanted.name();
    if is_listed(context.indices, name) {
        return Ok(Cause::Unfit);
    }
    let any = Wanted::of_name(name);
    let provider = context.elsewhere(&any)?;
    match provider {
        Some(stanza) => Ok(Cause::UnfitElsewhere(stanza)),
        None => Ok(Cause::Missing),
    }
}

// Who provides the name among the pairs, where no pair has it and nothing in the indices provides it so that it fits and isn't admitted.
fn cause_of_nowhere<'k, 'i>(
    context: &Context<'k, '_, '_, '_, 'i>,
    wanted: &Wanted<'_>,
) -> Result<Cause<'k, 'i>, AllocError>
    requires unnamed { Spec.IsUnnamed context.now.premises.now context.now.indices.now wanted.now }
    requires nowhere { Offers.IsNoneOf
        (Offers.IsLeftOutProvider context.now.premises.now wanted.now)
        (stanzas_of context.now.indices.now) }
    ensures { IfOk result
        (Spec.IsCause context.now.premises.now context.now.indices.now wanted.now) }
{
    let name = wanted.name();
    let providing = context.numbers_by(By::Provides, name)?;
    if is_none(providing.as_slice()) {
        cause_of_left_out(context, wanted)
    } else {
        Ok(Cause::Provided(providing))
    }
}

// Who provides the name where no pair has it, among the pairs or in the indices, and else whether an index has it.
fn cause_of_unnamed<'k, 'i>(
    context: &Context<'k, '_, '_, '_, 'i>,
    wanted: &Wanted<'_>,
) -> Result<Cause<'k, 'i>, AllocError>
    requires { Spec.IsUnnamed context.now.premises.now context.now.indices.now wanted.now }
    ensures { IfOk result
        (Spec.IsCause context.now.premises.now context.now.indices.now wanted.now) }
{
    let provider = context.elsewhere(wanted)?;
    match provider {
        Some(stanza) => Ok(Cause::Elsewhere(stanza)),
        None => cause_of_nowhere(context, wanted),
    }
}

// The cause where these pairs have the name.
fn cause_of_named<'k, 'i>(
    context: &Context<'k, '_, '_, '_, 'i>,
    wanted: &Wanted<'_>,
    named: Vec<u32>,
) -> Result<Cause<'k, 'i>, AllocError>
    requires { Offers.AreNumbersOf context.now.premises.now
        (Offers.IsBy by.Name wanted.now.name) named.items }
    ensures { IfOk result
        (Spec.IsCause context.now.premises.now context.now.indices.now wanted.now) }
{
    let name = wanted.name();
    let providing = context.numbers_by(By::Provides, name)?;
    Ok(Cause::Others(named, providing))
}

// The cause where no version of the name in the indices fits that isn't admitted.
fn cause_of_unfit<'k, 'i>(
    context: &Context<'k, '_, '_, '_, 'i>,
    wanted: &Wanted<'_>,
) -> Result<Cause<'k, 'i>, AllocError>
    requires { Offers.IsNoneOf (Offers.IsLeftOutFit context.now.premises.now wanted.now)
        (stanzas_of context.now.indices.now) }
    ensures { IfOk result
        (Spec.IsCause context.now.premises.now context.now.indices.now wanted.now) }
{
    let name = wanted.name();
    let named = context.numbers_by(By::Name, name)?;
    if is_none(named.as_slice()) {
        cause_of_unnamed(context, wanted)
    } else {
        cause_of_named(context, wanted, named)
    }
}

// The cause where the name isn't held.
fn cause_of_unheld<'k, 'i>(
    context: &Context<'k, '_, '_, '_, 'i>,
    wanted: &Wanted<'_>,
) -> Result<Cause<'k, 'i>, AllocError>
    ensures { IfOk result
        (Spec.IsCause context.now.premises.now context.now.indices.now wanted.now) }
{
    let highest = context.highest(wanted, Among::LeftOut);
    match highest {
        Some(stanza) => Ok(Cause::Unadmitted(stanza)),
        None => cause_of_unfit(context, wanted),
    }
}

/// Why no pair satisfies it, where none does. Memory alone can fail. Linear in the pairs and in the stanzas of the indices, and where no
/// pair is of the name in what the stanzas provide.
pub(crate) fn cause_of<'k, 'i>(
    context: &Context<'k, '_, '_, '_, 'i>,
    wanted: &Wanted<'_>,
) -> Result<Cause<'k, 'i>, AllocError>
    ensures { IfOk result
        (Spec.IsCause context.now.premises.now context.now.indices.now wanted.now) }
{
    if wanted.is_foreign() {
        return Ok(Cause::Foreign);
    }
    if context.is_held(wanted.name()) {
        Ok(Cause::Held)
    } else {
        cause_of_unheld(context, wanted)
    }
}

// Writes that the name is asked for of another architecture.
fn push_foreign(text: &mut Vec<u8>, name: &[u8]) -> Result<(), AllocError>
    ensures { OnOk result (text.new.items ≡ text.old.items ++ Spec.foreign_words name.now) }
{
    text.extend_from_slice(name)?;
    text.extend_from_slice(b" is asked for of another architecture")
}

// Writes that no index has the name.
fn push_missing(text: &mut Vec<u8>, name: &[u8]) -> Result<(), AllocError>
    ensures { OnOk result (text.new.items ≡ text.old.items ++ Spec.missing_words name.now) }
{
    text.extend_from_slice(b"there is no package ")?;
    text.extend_from_slice(name)?;
    text.extend_from_slice(b" in any index")?;
    Ok(())
}

// Writes that these pairs provide the name in no version that fits.
fn push_provider(
    context: &Context<'_, '_, '_, '_, '_>,
    text: &mut Vec<u8>,
    name: &[u8],
    numbers: &[u32],
) -> Result<(), AllocError>
    ensures { OnOk result
        (text.new.items ≡ text.old.items
        ++ Spec.provider_words context.now.premises.now name.now numbers.now) }
{
    context.push_pairs(text, numbers)?;
    text.extend_from_slice(b" provides ")?;
    text.extend_from_slice(name)?;
    text.extend_from_slice(b", without the version that is asked for")?;
    Ok(())
}

// Writes the same behind other pairs.
fn push_further(
    context: &Context<'_, '_, '_, '_, '_>,
    text: &mut Vec<u8>,
    name: &[u8],
    numbers: &[u32],
) -> Result<(), AllocError>
    ensures { OnOk result
        (text.new.items ≡ text.old.items ++ (codes ", and "
        ++ Spec.provider_words context.now.premises.now name.now numbers.now)) }
{
    text.extend_from_slice(b", and ")?;
    push_provider(context, text, name, numbers)
}

// Writes the same behind other pairs, where there are some.
fn push_also(
    context: &Context<'_, '_, '_, '_, '_>,
    text: &mut Vec<u8>,
    name: &[u8],
    numbers: &[u32],
) -> Result<(), AllocError>
    ensures { OnOk result
        (text.new.items ≡ text.old.items
        ++ Spec.also_words context.now.premises.now name.now numbers.now) }
{
    match numbers {
        [] => Ok(()),
        [_, ..] => push_further(context, text, name, numbers),
    }
}

// Writes that these pairs alone are of the name, and that these provide it.
fn push_others(
    context: &Context<'_, '_, '_, '_, '_>,
    text: &mut Vec<u8>,
    name: &[u8],
    numbers: &[u32],
    providing: &[u32],
) -> Result<(), AllocError>
    ensures { OnOk result
        (text.new.items ≡ text.old.items
        ++ Spec.only_words context.now.premises.now name.now numbers.now providing.now) }
{
    text.extend_from_slice(b"only ")?;
    context.push_pairs(text, numbers)?;
    text.extend_from_slice(b" can be had")?;
    push_also(context, text, name, providing)?;
    Ok(())
}

// Writes that these pairs alone provide the name, in no version that fits.
fn push_provided(
    context: &Context<'_, '_, '_, '_, '_>,
    text: &mut Vec<u8>,
    name: &[u8],
    numbers: &[u32],
) -> Result<(), AllocError>
    ensures { OnOk result
        (text.new.items ≡ text.old.items
        ++ Spec.provided_words context.now.premises.now name.now numbers.now) }
{
    text.extend_from_slice(b"only ")?;
    push_provider(context, text, name, numbers)
}

// Writes that the version of the stanza isn't admitted, and why.
fn push_unadmitted(
    context: &Context<'_, '_, '_, '_, '_>,
    text: &mut Vec<u8>,
    name: &[u8],
    stanza: &IndexEntry<'_>,
) -> Result<(), AllocError>
    ensures { OnOk result
        (Words.Grows (Spec.TellsUnadmitted context.now.premises.now name.now stanza.now)
        text.old.items text.new.items) }
{
    let version = stanza.version();
    let reason = reason_of(context, name, &version)?;
    push_versioned(text, name, version.text())?;
    text.extend_from_slice(b" is not admitted: ")?;
    text.extend_from_slice(reason.as_slice())?;
    Ok(())
}

// Writes that the package of the stanza provides the name and isn't admitted, and why.
fn push_elsewhere(
    context: &Context<'_, '_, '_, '_, '_>,
    text: &mut Vec<u8>,
    name: &[u8],
    stanza: &IndexEntry<'_>,
) -> Result<(), AllocError>
    ensures { OnOk result
        (Words.Grows (Spec.TellsElsewhere context.now.premises.now name.now stanza.now)
        text.old.items text.new.items) }
{
    let version = stanza.version();
    let reason = reason_of(context, stanza.name(), &version)?;
    text.extend_from_slice(name)?;
    text.extend_from_slice(b" is provided by ")?;
    push_versioned(text, stanza.name(), version.text())?;
    text.extend_from_slice(b", which is not admitted: ")?;
    text.extend_from_slice(reason.as_slice())?;
    Ok(())
}

// Writes that the package of the stanza provides the name, which no index has, in no version that fits.
fn push_unfit_elsewhere(
    text: &mut Vec<u8>,
    name: &[u8],
    stanza: &IndexEntry<'_>,
) -> Result<(), AllocError>
    ensures { OnOk result
        (text.new.items ≡ text.old.items ++ Spec.unfit_elsewhere_words name.now stanza.now) }
{
    let version = stanza.version();
    text.extend_from_slice(b"no index has a package ")?;
    text.extend_from_slice(name)?;
    text.extend_from_slice(b", and ")?;
    push_versioned(text, stanza.name(), version.text())?;
    text.extend_from_slice(b" provides it in no version that fits")?;
    Ok(())
}

/// Writes that no version of the name fits.
pub(crate) fn push_unfit(text: &mut Vec<u8>, name: &[u8]) -> Result<(), AllocError>
    ensures { OnOk result (text.new.items ≡ text.old.items ++ Spec.unfit_words name.now) }
{
    text.extend_from_slice(b"no index has a version of ")?;
    text.extend_from_slice(name)?;
    text.extend_from_slice(b" that fits")?;
    Ok(())
}

/// Writes the cause why no pair satisfies what a package asks for.
pub(crate) fn push_cause(
    context: &Context<'_, '_, '_, '_, '_>,
    text: &mut Vec<u8>,
    name: &[u8],
    cause: &Cause<'_, '_>,
) -> Result<(), AllocError>
    ensures { OnOk result
        (Words.Grows (Spec.TellsCause context.now.premises.now name.now cause.now)
        text.old.items text.new.items) }
{
    match cause {
        Cause::Foreign => push_foreign(text, name),
        Cause::Held => push_held(text, name, context.standing(name)),
        Cause::Unadmitted(stanza) => push_unadmitted(context, text, name, *stanza),
        Cause::Others(numbers, providing) => {
            push_others(
                context,
                text,
                name,
                numbers.as_slice(),
                providing.as_slice(),
            )
        }
        Cause::Elsewhere(stanza) => push_elsewhere(context, text, name, *stanza),
        Cause::Provided(numbers) => push_provided(context, text, name, numbers.as_slice()),
        Cause::Unfit => push_unfit(text, name),
        Cause::UnfitElsewhere(stanza) => push_unfit_elsewhere(text, name, *stanza),
        Cause::Missing => push_missing(text, name),
    }
}
