// The archives of packages, read in the stanzas of an index.
ghost use Rattle.std.specs.Prelude.{◌≡◌, ◌⊎◌, ℕ, IfErr, List, OnOk, Some};
ghost use Rattle.json_answers.specs.Archives.{found_also, stanzas_of};
ghost use Rattle.json_answers.specs.Unpacked.{unpacked_in};
ghost use Rattle.stanza.specs.declared.error.ReaderError.TheVariants as error;

use crate::archives::Archives;
use crate::unpacked::UnpackedNames;
use rules::TEXT_BYTES;
use stanza::{Reader, ReaderError, Source};
use std::alloc::Global;

// Finds archives in the text that the source has, where these are the names of what is unpacked.
fn read_stanzas<S: Source>(
    alloc: Global,
    source: &mut S,
    arch: &[u8],
    names: &UnpackedNames<'_>,
    archives: &mut Archives<'_>,
) -> Result<(), ReaderError>
    requires { names.now ≡ unpacked_in archives.old.steps }
    ensures steps { archives.new.steps ≡ archives.old.steps }
    ensures known { (text : List ℕ) → S.left source.old ≡ Some text
        → OnOk result (archives.new ≡ found_also arch.now (stanzas_of text) archives.old) }
    ensures faulty { (text : List ℕ) → S.left source.old ≡ Some text
        → IfErr result (λ e. (e ≡ error.OutOfMemory)
        ⊎ (archives.new ≡ found_also arch.now (stanzas_of text) archives.old)) }
{
    let mut reader = Reader::new(alloc, TEXT_BYTES)?;
    loop {
        reader.advance(source)?;
        match reader.stanza() {
            Some(stanza) => archives.note(alloc, &stanza, arch, names)?,
            None => return Ok(()),
        }
    }
}

/// Finds archives in the text of an index that the source has, for this architecture: of each package that is unpacked and of which
/// none was found yet, in the first stanza of its name and of an equal version that is of this architecture or of `all`. Where the text
/// has a fault, what stands before that is found. Linear in the text, of which a stanza is held at a time, and in the steps for each
/// stanza of a package that one of them unpacks.
pub fn read_archives<S: Source>(
    alloc: Global,
    source: &mut S,
    arch: &[u8],
    archives: &mut Archives<'_>,
) -> Result<(), ReaderError>
    ensures steps { archives.new.steps ≡ archives.old.steps }
    ensures known { (text : List ℕ) → S.left source.old ≡ Some text
        → OnOk result (archives.new ≡ found_also arch.now (stanzas_of text) archives.old) }
    ensures faulty { (text : List ℕ) → S.left source.old ≡ Some text
        → IfErr result (λ e. (e ≡ error.OutOfMemory)
        ⊎ (archives.new ≡ found_also arch.now (stanzas_of text) archives.old)) }
{
    let names = UnpackedNames::by(alloc, archives.steps())?;
    read_stanzas(alloc, source, arch, &names, archives)
}
