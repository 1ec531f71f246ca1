// Which packages of the indices provide a name (Policy 7.5).
ghost use Rattle.std.specs.Prelude.{◌≡◌, ◌∷◌, [], ◌++◌, IfOk, OnOk, map};
ghost use Rattle.std.specs.List.{list_any};
ghost use Rattle.index.specs.Names.{with_name};
ghost use Rattle.index.specs.Providers.{is_item_of};
ghost use Rattle.input_notes.specs.Providers as Spec;

use crate::words::{push_names, push_word};
use index::{Index, IndexEntry};
use indexmap::IndexSet;
use relation::Provided;
use std::alloc::{AllocError, Global};

// Whether an item is of the name, for the configured architecture.
fn has_item(items: &[Provided<'_>], name: &[u8]) -> bool
    ensures { result ≡ list_any (is_item_of name.now) items.now }
{
    items
        .iter()
        .any(|item| !item.is_foreign() && item.name() == name)
}

// Whether the package provides the name.
fn provides_name(alloc: Global, entry: &IndexEntry<'_>, name: &[u8]) -> Result<bool, AllocError>
    ensures { IfOk result (λ provides. provides ≡ Spec.provides_name name.now entry.now) }
{
    let items = entry.provides(alloc)?;
    Ok(has_item(items.as_slice(), name))
}

// Puts the name behind the others, unless it is one of them.
fn insert_name<'a>(names: &mut IndexSet<&'a [u8]>, name: &'a [u8]) -> Result<(), AllocError>
    ensures { OnOk result (map (λ key. key.now) names.new.keys
        ≡ with_name (map (λ key. key.now) names.old.keys) name.now) }
{
    names.insert(name)?;
    Ok(())
}

// Puts the name of the package behind the others where it provides the name.
fn insert_provider<'a>(
    alloc: Global,
    names: &mut IndexSet<&'a [u8]>,
    entry: &IndexEntry<'a>,
    name: &[u8],
) -> Result<(), AllocError>
    ensures { OnOk result (map (λ key. key.now) names.new.keys
        ≡ Spec.with_providers (map (λ key. key.now) names.old.keys) name.now (entry.now ∷ [])) }
{
    if provides_name(alloc, entry, name)? {
        insert_name(names, entry.name())?;
    }
    Ok(())
}

// Puts the names of the packages that provide the name behind the others, each once.
fn insert_providers<'a>(
    alloc: Global,
    names: &mut IndexSet<&'a [u8]>,
    entries: &[IndexEntry<'a>],
    name: &[u8],
) -> Result<(), AllocError>
    ensures { OnOk result (map (λ key. key.now) names.new.keys
        ≡ Spec.with_providers (map (λ key. key.now) names.old.keys) name.now entries.now) }
{
    for entry in entries {
        insert_provider(alloc, names, entry, name)?;
    }
    Ok(())
}

// The names of the packages that provide the name, each once, in the order of the indices.
fn provider_names<'a>(
    alloc: Global,
    indices: &[Index<'a>],
    name: &[u8],
) -> Result<IndexSet<&'a [u8]>, AllocError>
    ensures { IfOk result (λ names. map (λ key. key.now) names.keys
        ≡ Spec.provider_names indices.now name.now) }
{
    let mut names = IndexSet::new(alloc);
    for index in indices {
        insert_providers(alloc, &mut names, index.packages(), name)?;
    }
    Ok(names)
}

// Writes that packages of these names provide the name.
fn push_line(
    alloc: Global,
    text: &mut Vec<u8>,
    name: &[u8],
    names: &[&[u8]],
) -> Result<(), AllocError>
    ensures { OnOk result (text.new.items ≡ text.old.items
        ++ Spec.provided_line name.now (map (λ one. one.now) names.now)) }
{
    push_word(text, name)?;
    text.extend_from_slice(b" is provided by ")?;
    push_names(alloc, text, names)?;
    text.extend_from_slice(b".\n")?;
    Ok(())
}

// Writes it where there are some.
fn push_provided(
    alloc: Global,
    text: &mut Vec<u8>,
    name: &[u8],
    names: &[&[u8]],
) -> Result<(), AllocError>
    ensures { OnOk result (text.new.items ≡ text.old.items
        ++ Spec.provided_words name.now (map (λ one. one.now) names.now)) }
{
    match names {
        [] => Ok(()),
        [_, ..] => push_line(alloc, text, name, names),
    }
}

/// A line that tells which packages of the indices provide the name, at most five of them by their names, or nothing where none
/// does. Memory alone can fail. Linear in the stanzas and in what they provide.
pub fn providers_of(
    alloc: Global,
    indices: &[Index<'_>],
    name: &[u8],
) -> Result<Vec<u8>, AllocError>
    ensures { IfOk result (λ text. text.items ≡ Spec.providers_words indices.now name.now) }
{
    let mut text = Vec::new(alloc);
    let names = provider_names(alloc, indices, name)?;
    push_provided(alloc, &mut text, name, names.as_slice())?;
    Ok(text)
}
