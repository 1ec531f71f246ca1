// What has become of a name by a plan.

ghost use Rattle.std.specs.Prelude.{◌≡◌};
ghost use Rattle.std.specs.Option.{option_copied};
ghost use Rattle.plan_sentences.specs.Changes as Spec;
ghost use Rattle.plan_sentences.specs.Told.{is_of};

use debversion::Version;
use std::cmp::Ordering;

/// What has become of a name.
#[derive(Clone, Copy)]
pub(crate) enum Kind {
    /// A package that wasn't present is.
    New,
    /// Its version is greater.
    Upgraded,
    /// Its version is smaller.
    Downgraded,
    /// Configuration files alone are left of a package that was present.
    Removed,
    /// Nothing is left of a package or of its configuration files.
    Purged,
}

// Of a package that was present and is.
fn kept_kind(ordering: Ordering) -> Option<Kind>
    ensures { result ≡ Spec.kept_kind ordering }
{
    match ordering {
        Ordering::Less => Some(Kind::Upgraded),
        Ordering::Equal => None,
        Ordering::Greater => Some(Kind::Downgraded),
    }
}

// Of a package that was present and isn't.
fn gone_kind(has_config_files: bool) -> Kind
    ensures { result ≡ Spec.gone_kind has_config_files }
{
    if has_config_files {
        Kind::Removed
    } else {
        Kind::Purged
    }
}

// Of a name that wasn't present and isn't.
fn absent_kind(had_config_files: bool, has_config_files: bool) -> Option<Kind>
    ensures { result ≡ Spec.absent_kind had_config_files has_config_files }
{
    if had_config_files && !has_config_files {
        Some(Kind::Purged)
    } else {
        None
    }
}

/// What has become of a name, by the versions in which it was present and is, and by whether its configuration files alone were
/// there and are; nothing where nothing has changed.
pub(crate) fn kind_between(
    old: Option<&Version<'_>>,
    new: Option<&Version<'_>>,
    had_config_files: bool,
    has_config_files: bool,
) -> Option<Kind>
    ensures { result
        ≡ Spec.kind_between (option_copied old.entry) (option_copied new.entry)
        had_config_files has_config_files }
{
    match (old, new) {
        (Some(old), Some(new)) => kept_kind(old.cmp(new)),
        (None, Some(_)) => Some(Kind::New),
        (Some(_), None) => Some(gone_kind(has_config_files)),
        (None, None) => absent_kind(had_config_files, has_config_files),
    }
}

/// Whether what has become of a name is of the kind.
pub(crate) fn is_of(kind: Kind, other: Option<Kind>) -> bool
    ensures { result ≡ is_of kind other }
{
    match (kind, other) {
        (Kind::New, Some(Kind::New)) => true,
        (Kind::Upgraded, Some(Kind::Upgraded)) => true,
        (Kind::Downgraded, Some(Kind::Downgraded)) => true,
        (Kind::Removed, Some(Kind::Removed)) => true,
        (Kind::Purged, Some(Kind::Purged)) => true,
        _ => false,
    }
}
