//! The records of a database with their packages.
ghost use Rattle.std.specs.Prelude.{◌≡◌, None, Some, IfOk, map};
ghost use Rattle.std.specs.Option.{option_copied};
ghost use Rattle.rules.specs.FileRecord.{records_of};
ghost use Rattle.plancheck_state.specs.Packages.{packages_of, present_pkg};

use crate::lookup::Records;
use crate::package_record::StateRecord;
use debversion::Version;
use relation::Pkg;
use status_text::StatusRecord;
use std::alloc::{AllocError, Global};

fn version_again<'a>(version: &Option<Version<'a>>) -> Option<Version<'a>>
    ensures { result ≡ version.now }
{
    match version {
        Some(version) => Some(version.again()),
        None => None,
    }
}

// The record of a package, which is present.
fn with_package<'p, 'a>(record: &StatusRecord<'a>, pkg: &'p Pkg<'a>) -> StateRecord<'p, 'a>
    requires { present_pkg «record».now.status ≡ Some pkg.now }
    ensures { result ≡ «record».now.status }
{
    StateRecord::present(
        pkg,
        record.state(),
        record.want(),
        record.flag(),
        version_again(record.config_version()),
        record.is_essential(),
    )
}

// The record of a package that isn't present.
fn without_package<'p, 'a>(record: &StatusRecord<'a>) -> StateRecord<'p, 'a>
    requires { present_pkg «record».now.status ≡ None }
    ensures { result ≡ «record».now.status }
{
    let _is_present = record.is_present();
    StateRecord::absent(
        record.name(),
        record.state(),
        record.want(),
        record.flag(),
        version_again(record.version()),
        version_again(record.config_version()),
        record.is_essential(),
    )
}

// The record with its package, if it is present.
fn package_record<'p, 'a>(
    record: &StatusRecord<'a>,
    pkg: &'p Option<Pkg<'a>>,
) -> StateRecord<'p, 'a>
    requires { pkg.now ≡ present_pkg «record».now.status }
    ensures { result ≡ «record».now.status }
{
    if let Some(pkg) = pkg {
        return with_package(record, pkg);
    }
    without_package(record)
}

// The records, each with its package.
fn package_records<'p, 'a>(
    alloc: Global,
    records: &[&StatusRecord<'a>],
    packages: &'p [Option<Pkg<'a>>],
) -> Result<Vec<StateRecord<'p, 'a>>, AllocError>
    requires { packages.now ≡ packages_of (map (λ entry. entry.now) records.now) }
    ensures { IfOk result (λ view. view.items ≡ records_of (map (λ entry. entry.now) records.now)) }
{
    let mut view = Vec::new(alloc);
    let mut place = 0;
    for record in records {
        view.push(package_record(record, &packages[place]))?;
        place += 1;
    }
    Ok(view)
}

/// The records, each with its package of those that were parsed, as the checkers of plans read, find and change them.
/// Linear in the records and in what they provide. Memory alone can fail.
pub fn view<'p, 'a>(
    alloc: Global,
    records: &[&StatusRecord<'a>],
    packages: &'p [Option<Pkg<'a>>],
) -> Result<Records<'p, 'a>, AllocError>
    requires { packages.now ≡ packages_of (map (λ entry. entry.now) records.now) }
    ensures { IfOk result (λ view. view ≡ records_of (map (λ entry. entry.now) records.now)) }
{
    Records::new(alloc, package_records(alloc, records, packages)?)
}
