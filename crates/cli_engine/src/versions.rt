//! What is told of the candidates of names: why one has none, and the versions of each.
ghost use Rattle.std.specs.Prelude.{◌≡◌, false};

use crate::notes::Notes;
use crate::offered::CandidateAnswer;
use input_notes::{versions_of, without_candidate};
use inputs::Before;
use std::alloc::{AllocError, Global};

// The lines on the names whose candidates these are.
fn lines_on(
    alloc: Global,
    before: &Before<'_, '_, '_, '_, '_, '_, '_, '_>,
    names: &[&str],
    candidates: &[Option<CandidateAnswer>],
    tells_versions: bool,
) -> Result<Vec<u8>, AllocError> {
    let mut text = Vec::new(alloc);
    let records = before.status_file.records(alloc)?;
    let records = records.as_slice();
    for (name, candidate) in names.iter().zip(candidates.iter()) {
        let name = name.as_bytes();
        if candidate.is_none() {
            let line = without_candidate(alloc, records, before.indices, name)?;
            text.extend_from_slice(line.as_slice())?;
        }
        if !tells_versions {
            continue;
        }
        let version = candidate.as_ref().map(|candidate| candidate.version());
        let table = versions_of(alloc, records, before.indices, before.prefs, name, version)?;
        text.extend_from_slice(table.as_slice())?;
    }
    Ok(text)
}

/// Tells of each of the names, whose candidates these are, why it has none where it has none, and where that is asked for which versions
/// there are, with their priorities; where sentences are wanted. Costs what `input_notes::versions_of` costs for each name. Where memory is refused
/// for it, it isn't told.
pub(crate) fn tell_candidates(
    alloc: Global,
    before: &Before<'_, '_, '_, '_, '_, '_, '_, '_>,
    names: &[&str],
    candidates: &[Option<CandidateAnswer>],
    tells_versions: bool,
    notes: &mut Notes,
)
    ensures unasked { notes.old.wanted ≡ false → notes.new ≡ notes.old }
{
    if !notes.wanted {
        return;
    }
    let text = lines_on(alloc, before, names, candidates, tells_versions);
    notes.add_told(text);
}
