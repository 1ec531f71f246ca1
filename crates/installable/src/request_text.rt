//! The request for a package by itself, as a text.
ghost use Rattle.std.specs.Prelude.{◌≡◌, ◌++◌, IfOk, OnOk};
ghost use Rattle.std.specs.List.{flat_map};
ghost use Rattle.installable.specs.RequestText.{line_of, lines_beside, request_of};

use crate::asked::Stanza;
use rules::Text;
use std::alloc::{AllocError, Global};

// Writes the line that asks for the name.
fn push_line(text: &mut Vec<u8>, name: &[u8]) -> Result<(), AllocError>
    ensures { OnOk result (text.new.items ≡ text.old.items ++ line_of name.now) }
{
    text.extend_from_slice(b"install ")?;
    text.extend_from_slice(name)?;
    text.extend_from_slice(b"\n")
}

// Writes a line for each of the names.
fn push_lines(text: &mut Vec<u8>, names: &[Text]) -> Result<(), AllocError>
    ensures { OnOk result (text.new.items ≡ text.old.items ++ flat_map line_of names.now) }
{
    for name in names {
        push_line(text, name.as_bytes())?;
    }
    Ok(())
}

/// The lines that stand beside that of each package: one for each of the names, and where all versions are asked for one that asks for
/// them. Memory alone can fail.
pub(crate) fn lines_beside(
    alloc: Global,
    names: &[Text],
    asks_all_versions: bool,
) -> Result<Vec<u8>, AllocError>
    ensures { IfOk result (λ text. text.items ≡ lines_beside names.now asks_all_versions) }
{
    let mut text = Vec::new(alloc);
    push_lines(&mut text, names)?;
    if asks_all_versions {
        text.extend_from_slice(b"all-versions\n")?;
    }
    Ok(text)
}

/// The request for this version of the package, beside these lines. Memory alone can fail.
pub(crate) fn request_of(
    alloc: Global,
    stanza: &Stanza<'_, '_>,
    beside: &[u8],
) -> Result<Vec<u8>, AllocError>
    ensures { IfOk result (λ text. text.items ≡ request_of beside.now stanza.now) }
{
    let mut text = b"install ".to_vec(alloc)?;
    text.extend_from_slice(stanza.name())?;
    text.extend_from_slice(b" (= ")?;
    text.extend_from_slice(stanza.version().text())?;
    text.extend_from_slice(b")\n")?;
    text.extend_from_slice(beside)?;
    Ok(text)
}
