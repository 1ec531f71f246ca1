// What sentences are about.

ghost use Rattle.std.specs.Prelude.{◌≡◌, ◌++◌, OnOk};
ghost use Rattle.refutation_sentences.specs.Sentences as Spec;

use std::alloc::AllocError;

// Which versions are admitted beside the installed one of each package.
fn versions_words(all_versions: bool) -> &'static [u8]
    ensures { result.now ≡ Spec.versions_words all_versions }
{
    if all_versions {
        b", all versions that may be chosen, and what goals name with =.\n"
    } else {
        b", its candidate, and what goals name with =.\n"
    }
}

/// Writes the closing line, which says which versions are admitted.
pub(crate) fn push_closing(text: &mut Vec<u8>, all_versions: bool) -> Result<(), AllocError>
    ensures { OnOk result (text.new.items ≡ text.old.items ++ Spec.closing_words all_versions) }
{
    text.extend_from_slice(
        b"This is about the admitted versions: of each package the installed one",
    )?;
    text.extend_from_slice(versions_words(all_versions))?;
    Ok(())
}
