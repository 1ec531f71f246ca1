//! The names that the indices say are essential (Policy 3.8).
ghost use Rattle.std.specs.Prelude.{◌≡◌, IfOk, OnOk, bytes_eq, fold};
ghost use Rattle.std.specs.List.{list_any};
ghost use Rattle.candidates.specs.Inputs.{indices_of};
ghost use Rattle.index.specs.Names.{with_name};
ghost use Rattle.installable.specs.Essential.{essential_names, names_marked};

use index::Index;
use rules::Text;
use std::alloc::{AllocError, Global};

// Whether one of the names is this one.
fn has_name(names: &[Text], name: &[u8]) -> bool
    ensures { result ≡ list_any (bytes_eq name.now) names.now }
{
    names.iter().any(|one| name == one.as_bytes())
}

// Puts the name behind the others, unless it is there.
fn add_name(alloc: Global, names: &mut Vec<Text>, name: &[u8]) -> Result<(), AllocError>
    ensures { OnOk result (names.new.items ≡ with_name names.old.items name.now) }
{
    if has_name(names.as_slice(), name) {
        return Ok(());
    }
    names.push(Text::copied_from(alloc, name)?)?;
    Ok(())
}

// Puts the names behind the others that the index says are essential, each unless it is there.
fn add_marked(alloc: Global, names: &mut Vec<Text>, index: &Index<'_>) -> Result<(), AllocError>
    ensures { OnOk result
        (names.new.items ≡ fold with_name names.old.items (names_marked index.now.index.listed)) }
{
    for entry in index.packages() {
        if entry.says_essential() {
            add_name(alloc, names, entry.name())?;
        }
    }
    Ok(())
}

/// The names with a field `Essential: yes` in a stanza of the indices, each once, in the order in which each comes first. Each costs a walk
/// over the names. Memory alone can fail.
pub(crate) fn essential_names(alloc: Global, indices: &[Index<'_>]) -> Result<Vec<Text>, AllocError>
    ensures { IfOk result (λ names. names.items ≡ essential_names (indices_of indices.now)) }
{
    let mut names = Vec::new(alloc);
    for index in indices {
        add_marked(alloc, &mut names, index)?;
    }
    Ok(names)
}
