//! The packages of a database.
ghost use Rattle.std.specs.Prelude.{◌≡◌, IfOk, map};
ghost use Rattle.plancheck_state.specs.Packages.{packages_of, present_pkg};

use relation::Pkg;
use status_text::StatusRecord;
use std::alloc::{AllocError, Global};

// The package of the record, if it is present.
fn present_pkg<'a>(alloc: Global, record: &StatusRecord<'a>) -> Result<Option<Pkg<'a>>, AllocError>
    ensures { IfOk result (λ pkg. pkg ≡ present_pkg «record».now.status) }
{
    if !record.is_present() {
        return Ok(None);
    }
    match record.pkg(alloc) {
        Ok(pkg) => Ok(Some(pkg)),
        Err(refused) => Err(refused),
    }
}

/// The package of each record that is present, and nothing in the place of another. Each is parsed once. Linear in the
/// stanzas. Memory alone can fail.
pub fn parse_packages<'a>(
    alloc: Global,
    records: &[&StatusRecord<'a>],
) -> Result<Vec<Option<Pkg<'a>>>, AllocError>
    ensures { IfOk result
        (λ packages. packages.items ≡ packages_of (map (λ entry. entry.now) records.now)) }
{
    let mut packages = Vec::new(alloc);
    for record in records {
        packages.push(present_pkg(alloc, record)?)?;
    }
    Ok(packages)
}
