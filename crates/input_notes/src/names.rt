// Names that have no candidate.
ghost use Rattle.std.specs.Prelude.{◌≡◌, IfOk, bytes_eq};
ghost use Rattle.std.specs.List.{list_any};
ghost use Rattle.input_notes.specs.Absent as Spec;

use crate::providers::providers_of;
use crate::words::push_word;
use index::Index;
use status_text::StatusRecord;
use std::alloc::{AllocError, Global};

// Whether a stanza of the index has the name.
fn index_has(index: &Index<'_>, name: &[u8]) -> bool
    ensures { result
        ≡ list_any (λ listed. bytes_eq listed.pkg.name name.now) index.now.index.listed }
{
    index.packages().iter().any(|entry| entry.name() == name)
}

fn is_listed(indices: &[Index<'_>], name: &[u8]) -> bool
    ensures { result ≡ Spec.is_listed indices.now name.now }
{
    indices.iter().any(|index| index_has(index, name))
}

fn is_standing(records: &[&StatusRecord<'_>], name: &[u8]) -> bool
    ensures { result ≡ Spec.is_standing records.now name.now }
{
    records
        .iter()
        .any(|record| record.stands() && record.name() == name)
}

fn is_present(records: &[&StatusRecord<'_>], name: &[u8]) -> bool
    ensures { result ≡ Spec.is_present records.now name.now }
{
    records
        .iter()
        .any(|record| record.is_present() && record.name() == name)
}

// What is said of a name that no index has and that doesn't stand.
fn absence_words(is_present: bool) -> &'static [u8]
    ensures { result.now ≡ Spec.absence_words is_present }
{
    if is_present {
        b" is in no index, and what is there of it has to be installed again.\n"
    } else {
        b" is in no index, and isn't installed.\n"
    }
}

// What is said of a name that an index has or that stands (apt_preferences(5)).
fn choice_words() -> &'static [u8]
    ensures { result.now ≡ Spec.choice_words }
{
    b" is there, but no version of it may be chosen: each has a priority of 0 or less, or is a downgrade.\n"
}

/// A line that tells why the name has no candidate, where it has none: no index has it and it isn't installed, or has to be installed
/// again, and who provides it then; or no version of it may be chosen. Memory alone can fail. Linear in the records and in the stanzas, with what they provide.
pub fn without_candidate(
    alloc: Global,
    records: &[&StatusRecord<'_>],
    indices: &[Index<'_>],
    name: &[u8],
) -> Result<Vec<u8>, AllocError>
    ensures { IfOk result (λ text. text.items
        ≡ Spec.candidate_words records.now indices.now name.now) }
{
    let mut text = Vec::new(alloc);
    push_word(&mut text, name)?;
    if is_listed(indices, name) || is_standing(records, name) {
        text.extend_from_slice(choice_words())?;
        return Ok(text);
    }
    text.extend_from_slice(absence_words(is_present(records, name)))?;
    let providers = providers_of(alloc, indices, name)?;
    text.extend_from_slice(providers.as_slice())?;
    Ok(text)
}
