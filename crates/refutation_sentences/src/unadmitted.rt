// Why a version that an index has isn't admitted (apt_preferences(5)), and what may admit it.

ghost use Rattle.std.specs.Prelude.{◌≡◌, ◌++◌, IfOk, IfSome, OnOk, Some, codes};
ghost use Rattle.std.specs.Ordering.{is_lt};
ghost use Rattle.std.specs.Option.{option_copied};
ghost use Rattle.std.specs.declared.cmp.Ordering.TheVariants.{Less};
ghost use Rattle.index.specs.Providers.{plain_atom};
ghost use Rattle.input_notes.specs.Inputs.{stanzas_of};
ghost use Rattle.rules.specs.Package.{FitsByName};
ghost use Rattle.rules.specs.Version.{version_cmp};
ghost use Rattle.refutation_sentences.specs.GoalCauses as Goals;
ghost use Rattle.refutation_sentences.specs.Offers as Offers;
ghost use Rattle.refutation_sentences.specs.Reasons as Spec;
ghost use Rattle.refutation_sentences.specs.Words as Words;

use crate::context::Context;
use crate::offers::Among;
use crate::wanted::Wanted;
use debversion::Version;
use index::IndexEntry;
use input_notes::{Rating, rating_of};
use phrases::{push_count, push_priority};
use std::alloc::AllocError;

/// The priority from which on a version may be chosen though it is lower than the one that stands.
const DOWNGRADES: i32 = 1000;

/// Writes that the name is held.
pub(crate) fn push_held(
    text: &mut Vec<u8>,
    name: &[u8],
    standing: Option<&Version<'_>>,
) -> Result<(), AllocError>
    ensures { OnOk result
        (text.new.items ≡ text.old.items
        ++ Spec.held_words name.now (option_copied standing.entry)) }
{
    text.extend_from_slice(name)?;
    match standing {
        None => text.extend_from_slice(b" is held and not installed"),
        Some(version) => {
            text.extend_from_slice(b" is held at ")?;
            text.extend_from_slice(version.text())
        }
    }
}

// Writes the number of the record that gives a priority.
fn push_record(text: &mut Vec<u8>, number: usize) -> Result<(), AllocError>
    ensures { OnOk result (text.new.items ≡ text.old.items ++ Spec.record_words number) }
{
    text.extend_from_slice(b", by record ")?;
    push_count(text, number)?;
    text.extend_from_slice(b" of the preferences")
}

// Writes the priority, and the record that gives it.
fn push_rating(text: &mut Vec<u8>, rating: &Rating) -> Result<(), AllocError>
    ensures { OnOk result
        (text.new.items ≡ text.old.items
        ++ Spec.rating_words rating.now.priority rating.now.record) }
{
    push_priority(text, rating.priority)?;
    match rating.record {
        None => Ok(()),
        Some(record) => push_record(text, record),
    }
}

// The version that stands, where this one is lower and its priority doesn't allow that.
fn standing_above<'v, 'a>(
    standing: Option<&'v Version<'a>>,
    version: &Version<'_>,
    priority: i32,
) -> Option<&'v Version<'a>>
    ensures { IfSome result
        (λ above. (option_copied standing.entry ≡ Some above.now)
        × (version_cmp version.now above.now ≡ Less)) }
{
    match standing {
        None => None,
        Some(standing) => {
            if priority < DOWNGRADES && is_lower(version, standing) {
                Some(standing)
            } else {
                None
            }
        }
    }
}

// Writes which version is taken before one that isn't lower than the one that stands.
fn push_candidate(text: &mut Vec<u8>, candidate: Option<&Version<'_>>) -> Result<(), AllocError>
    ensures { OnOk result
        (text.new.items ≡ text.old.items
        ++ Spec.candidate_words (option_copied candidate.entry)) }
{
    match candidate {
        None => text.extend_from_slice(b", and no version of it may be chosen"),
        Some(candidate) => {
            text.extend_from_slice(b", and the candidate is ")?;
            text.extend_from_slice(candidate.text())
        }
    }
}

// Writes that the version that stands is the higher one.
fn push_lower(text: &mut Vec<u8>, standing: &Version<'_>) -> Result<(), AllocError>
    ensures { OnOk result (text.new.items ≡ text.old.items ++ Spec.lower_words standing.now) }
{
    text.extend_from_slice(b", and it is lower than the installed ")?;
    text.extend_from_slice(standing.text())
}

// Writes which version is taken before the version of the name: the higher one that stands, or else the candidate.
fn push_taken(
    context: &Context<'_, '_, '_, '_, '_>,
    text: &mut Vec<u8>,
    name: &[u8],
    version: &Version<'_>,
    above: Option<&Version<'_>>,
) -> Result<(), AllocError>
    requires { IfSome above
        (λ above. (Offers.standing_of context.now.premises.now name.now ≡ Some above.now)
        × (version_cmp version.now above.now ≡ Less)) }
    ensures { OnOk result
        (Words.Grows (Spec.IsTakenTold context.now.premises.now name.now version.now)
        text.old.items text.new.items) }
{
    match above {
        None => push_candidate(text, context.premises.candidate(name)),
        Some(standing) => push_lower(text, standing),
    }
}

// What stands before the name of what may admit a version.
fn remedy_before(is_offered: bool) -> &'static [u8]
    ensures { result.now ≡ Spec.remedy_before is_offered }
{
    if is_offered {
        b" (a line all-versions, or the goal install "
    } else {
        b" (the goal install "
    }
}

// What stands behind the version.
fn remedy_behind(is_offered: bool) -> &'static [u8]
    ensures { result.now ≡ Spec.remedy_behind is_offered }
{
    if is_offered {
        b"), may admit it)"
    } else {
        b") may admit it)"
    }
}

// Writes what may admit the version, among it a line all-versions where that does.
fn push_remedy(
    text: &mut Vec<u8>,
    name: &[u8],
    version: &Version<'_>,
    is_offered: bool,
) -> Result<(), AllocError>
    ensures { OnOk result
        (text.new.items ≡ text.old.items
        ++ Spec.remedy_words is_offered name.now version.now) }
{
    text.extend_from_slice(remedy_before(is_offered))?;
    text.extend_from_slice(name)?;
    text.extend_from_slice(b" (= ")?;
    text.extend_from_slice(version.text())?;
    text.extend_from_slice(remedy_behind(is_offered))?;
    Ok(())
}

// Whether a line all-versions admits a version of this priority, which this higher one stands above, if there is one.
fn is_offered(
    context: &Context<'_, '_, '_, '_, '_>,
    priority: i32,
    above: Option<&Version<'_>>,
) -> bool {
    priority > 0 && above.is_none() && !context.all_versions
}

// Writes which priority the version of a name that isn't held has, what is taken before it, and what may admit it.
fn push_unchosen(
    context: &Context<'_, '_, '_, '_, '_>,
    text: &mut Vec<u8>,
    name: &[u8],
    version: &Version<'_>,
) -> Result<(), AllocError>
    ensures { OnOk result
        (Words.Grows (Spec.IsUnchosenTold context.now.premises.now name.now version.now)
        text.old.items text.new.items) }
{
    let standing = context.standing(name);
    let rating = rating_of(
        context.alloc(),
        context.indices,
        context.prefs,
        standing,
        name,
        version,
    )?;
    let above = standing_above(standing, version, rating.priority);
    let offered = is_offered(context, rating.priority, above);
    text.extend_from_slice(b"its priority is ")?;
    push_rating(text, &rating)?;
    push_taken(context, text, name, version, above)?;
    push_remedy(text, name, version, offered)?;
    Ok(())
}

// Writes why the version of the name isn't admitted, which it isn't, and what may admit it.
fn push_reason(
    context: &Context<'_, '_, '_, '_, '_>,
    text: &mut Vec<u8>,
    name: &[u8],
    version: &Version<'_>,
) -> Result<(), AllocError>
    ensures { OnOk result
        (Words.Grows (Spec.IsReasonTold context.now.premises.now name.now version.now)
        text.old.items text.new.items) }
{
    if context.is_held(name) {
        push_held(text, name, context.standing(name))
    } else {
        push_unchosen(context, text, name, version)
    }
}

/// Why the version of the name isn't admitted, which it isn't, and what may admit it. Memory alone can fail.
pub(crate) fn reason_of(
    context: &Context<'_, '_, '_, '_, '_>,
    name: &[u8],
    version: &Version<'_>,
) -> Result<Vec<u8>, AllocError>
    ensures { IfOk result
        (λ reason. Spec.IsReasonTold context.now.premises.now name.now version.now
        reason.items) }
{
    let mut text = Vec::new(context.alloc());
    push_reason(context, &mut text, name, version)?;
    Ok(text)
}

// Writes what may admit the version of the name, where it isn't admitted.
fn push_remedy_where_left_out(
    context: &Context<'_, '_, '_, '_, '_>,
    text: &mut Vec<u8>,
    name: &[u8],
    version: &Version<'_>,
) -> Result<(), AllocError>
    ensures { OnOk result
        (text.new.items ≡ text.old.items
        ++ Spec.remedy_where_left_out context.now.premises.now name.now version.now) }
{
    match context.universe().number_of(name, version) {
        None => push_remedy(text, name, version, false),
        Some(_) => Ok(()),
    }
}

// Writes that this version of the name is its highest, with its priority, and what may admit it where it isn't admitted.
fn push_as_highest(
    context: &Context<'_, '_, '_, '_, '_>,
    text: &mut Vec<u8>,
    name: &[u8],
    version: &Version<'_>,
) -> Result<(), AllocError>
    requires { Offers.IsHighestVersionOf context.now.premises.now context.now.indices.now name.now
        version.now }
    ensures { OnOk result
        (Words.Grows
        (Goals.IsHighestOrNoneTold context.now.premises.now context.now.indices.now name.now)
        text.old.items text.new.items) }
{
    let rating = rating_of(
        context.alloc(),
        context.indices,
        context.prefs,
        context.standing(name),
        name,
        version,
    )?;
    text.extend_from_slice(b"its highest version is ")?;
    text.extend_from_slice(version.text())?;
    text.extend_from_slice(b", whose priority is ")?;
    push_rating(text, &rating)?;
    push_remedy_where_left_out(context, text, name, version)?;
    Ok(())
}

// Writes that no index has the name.
fn push_none(text: &mut Vec<u8>) -> Result<(), AllocError>
    ensures { OnOk result (text.new.items ≡ text.old.items ++ codes "no index has it") }
{
    text.extend_from_slice(b"no index has it")
}

// Writes that the version that stands is the highest of a name that no index has, or that there is none.
fn push_standing(
    context: &Context<'_, '_, '_, '_, '_>,
    text: &mut Vec<u8>,
    name: &[u8],
) -> Result<(), AllocError>
    requires { Offers.IsNoneOf (λ pkg. pkg.name ≡ name.now) (stanzas_of context.now.indices.now) }
    ensures { OnOk result
        (Words.Grows
        (Goals.IsHighestOrNoneTold context.now.premises.now context.now.indices.now name.now)
        text.old.items text.new.items) }
{
    let standing = context.standing(name);
    match standing {
        None => push_none(text),
        Some(standing) => push_as_highest(context, text, name, standing),
    }
}

// Whether the version is lower than the other.
fn is_lower(version: &Version<'_>, other: &Version<'_>) -> bool
    ensures { result ≡ is_lt (version_cmp version.now other.now) }
{
    *version < *other
}

// Writes the higher of this highest version in the indices and the version that stands.
fn push_higher(
    context: &Context<'_, '_, '_, '_, '_>,
    text: &mut Vec<u8>,
    name: &[u8],
    stanza: &IndexEntry<'_>,
    standing: &Version<'_>,
) -> Result<(), AllocError>
    requires highest { Offers.IsHighestOf (λ pkg. FitsByName pkg (plain_atom name.now))
        (stanzas_of context.now.indices.now) stanza.now }
    requires standing { Offers.standing_of context.now.premises.now name.now ≡ Some standing.now }
    ensures { OnOk result
        (Words.Grows
        (Goals.IsHighestOrNoneTold context.now.premises.now context.now.indices.now name.now)
        text.old.items text.new.items) }
{
    let version = stanza.version();
    if is_lower(&version, standing) {
        push_as_highest(context, text, name, standing)
    } else {
        push_as_highest(context, text, name, &version)
    }
}

// Writes which of this highest version in the indices and the version that stands is the highest of the name.
fn push_listed(
    context: &Context<'_, '_, '_, '_, '_>,
    text: &mut Vec<u8>,
    name: &[u8],
    stanza: &IndexEntry<'_>,
) -> Result<(), AllocError>
    requires { Offers.IsHighestOf (λ pkg. FitsByName pkg (plain_atom name.now))
        (stanzas_of context.now.indices.now) stanza.now }
    ensures { OnOk result
        (Words.Grows
        (Goals.IsHighestOrNoneTold context.now.premises.now context.now.indices.now name.now)
        text.old.items text.new.items) }
{
    let version = stanza.version();
    let standing = context.standing(name);
    match standing {
        None => push_as_highest(context, text, name, &version),
        Some(standing) => push_higher(context, text, name, stanza, standing),
    }
}

/// Writes which version of a name that has no candidate is the highest of those in the indices and the one that stands, with its
/// priority, or that there is none. Memory alone can fail. Linear in the stanzas.
pub(crate) fn push_highest(
    context: &Context<'_, '_, '_, '_, '_>,
    text: &mut Vec<u8>,
    name: &[u8],
) -> Result<(), AllocError>
    ensures { OnOk result
        (Words.Grows
        (Goals.IsHighestOrNoneTold context.now.premises.now context.now.indices.now name.now)
        text.old.items text.new.items) }
{
    let wanted = Wanted::of_name(name);
    let highest = context.highest(&wanted, Among::All);
    match highest {
        None => push_standing(context, text, name),
        Some(stanza) => push_listed(context, text, name, stanza),
    }
}
