// The names that wait to be configured, and those that are to be removed.

ghost use Rattle.std.specs.Prelude.{◌≡◌, IfOk, map};
ghost use Rattle.std.specs.List.{filter};
ghost use Rattle.forward_steps.specs.Selection.{is_leaving, is_waiting};

use crate::member::MemberTable;
use plancheck_state::{Records, StateRecord};
use rules::{Name, is_name};
use std::alloc::{AllocError, Global};

/// Whether the record is present and of a selected version, that is to be configured.
pub fn is_waiting(members: &MemberTable<'_>, entry: &StateRecord<'_, '_>) -> bool
    ensures { result ≡ is_waiting members.now entry.now }
{
    match entry.present_pkg() {
        Some(there) if entry.state().is_unconfigured() => {
            is_name(entry.name()) && members.has_version(entry.name(), there.version())
        }
        _ => false,
    }
}

/// The names of the records that wait to be configured, in the order of the records. Linear in them. Memory alone can fail.
pub fn waiting(
    alloc: Global,
    db: &Records<'_, '_>,
    members: &MemberTable<'_>,
) -> Result<Vec<Name>, AllocError>
    ensures { IfOk result
        (λ names. names.items
        ≡ map (λ entry. entry.name) (filter (is_waiting members.now) db.now)) }
{
    let mut names = Vec::new(alloc);
    for entry in db.as_slice() {
        if is_waiting(members, entry) {
            names.push(Name::copied_from(alloc, entry.name())?)?;
        }
    }
    Ok(names)
}

// Whether the record is present and of a name without a member.
fn is_leaving(members: &MemberTable<'_>, entry: &StateRecord<'_, '_>) -> bool
    ensures { result ≡ is_leaving members.now entry.now }
{
    entry.state().is_present() && is_name(entry.name()) && members.of(entry.name()).is_none()
}

/// The names of the present records that have no member, in the order of the records. Linear in them. Memory alone can fail.
pub fn leaving(
    alloc: Global,
    db: &Records<'_, '_>,
    members: &MemberTable<'_>,
) -> Result<Vec<Name>, AllocError>
    ensures { IfOk result
        (λ names. names.items
        ≡ map (λ entry. entry.name) (filter (is_leaving members.now) db.now)) }
{
    let mut names = Vec::new(alloc);
    for entry in db.as_slice() {
        if is_leaving(members, entry) {
            names.push(Name::copied_from(alloc, entry.name())?)?;
        }
    }
    Ok(names)
}
