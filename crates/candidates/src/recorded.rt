// The records of the start, and what they say of a name.

ghost use Rattle.std.specs.Prelude.{◌≡◌, ◌&&◌, IfOk, None, Some, if◌then◌else◌, map, not, refl};
ghost use Rattle.std.specs.Cmp.{eq_by_cmp_equiv, partial_equiv_from_equiv, po};
ghost use Rattle.std.specs.Ordering.{as_partial_cmp, eq_by_cmp};
ghost use Rattle.rules.specs.Available.{same_version};
ghost use Rattle.rules.specs.Database.{Stands, pkg_of, stands};
ghost use Rattle.rules.specs.FileRecord.{records_of};
ghost use Rattle.rules.specs.State.{is_hold, is_not_installed_state};
ghost use Rattle.rules.specs.Universe.{start_of};
ghost use Rattle.candidates.specs.Recorded.{IsByName, record_cmp, standing_as, stands_above};
ghost use Rattle.candidates.specs.RecordedLaws.{record_cmp_total};

use debversion::Version;
use relation::Pkg;
use rules::name_cmp;
use status_text::StatusRecord;
use std::alloc::{AllocError, Global};
use std::cmp::Ordering;
use std::marker::Model;
use universe_parts::Start;

/// A record of the start. Records are ordered by the bytes of their names.
#[derive(Drop)]
pub struct Recorded<'p, 'a> {
    record: &'p StatusRecord<'a>,
}

impl<'p, 'a> Model for Recorded<'p, 'a> {
    ghost use Rattle.rules.specs.Database.{Record as RecordValue};

    ghost Value = { RecordValue };

    ghost view = { λ r. r.record.now.status };
}

impl<'p, 'a> Recorded<'p, 'a> {
    /// The name.
    pub fn name(&self) -> &'a [u8]
        ensures { result.now ≡ self.now.name }
    {
        self.record.name()
    }

    /// The version, if the package stands.
    pub fn standing(&self) -> Option<Version<'a>>
        ensures { result ≡ (if stands self.now then Some self.now.version else None) }
    {
        if !self.record.stands() {
            return None;
        }
        // What stands has a version, as its stanza was read.
        let _origin = self.record.origin();
        match self.record.version() {
            Some(version) => Some(version.again()),
            None => unreachable!(),
        }
    }

    /// The package, if it stands, with its relations. Memory alone can fail. Linear in the stanza.
    pub fn standing_pkg(&self, alloc: Global) -> Result<Option<Pkg<'a>>, AllocError>
        ensures { IfOk result
            (λ pkg. pkg ≡ (if stands self.now then Some (pkg_of self.now) else None)) }
    {
        if self.record.stands() {
            let pkg = self.record.pkg(alloc)?;
            Ok(Some(pkg))
        } else {
            Ok(None)
        }
    }

    /// The facts of the record.
    pub fn start(&self) -> Start<'a>
        ensures { result ≡ start_of self.now }
    {
        Start::new(
            self.name(),
            self.record.is_present(),
            self.standing(),
            self.record.is_held(),
            self.record.is_essential(),
        )
    }

    pub(crate) fn is_held(&self) -> bool
        ensures { result ≡ is_hold self.now.want }
    {
        self.record.is_held()
    }

    pub(crate) fn is_recorded(&self) -> bool
        ensures { result ≡ not (is_not_installed_state self.now.state) }
    {
        !self.record.state().is_not_installed()
    }

    pub(crate) fn stands_as(&self, version: &Version<'_>) -> bool
        ensures { result ≡ (stands self.now && same_version self.now.version version.now) }
    {
        match self.standing() {
            None => false,
            Some(standing) => standing == *version,
        }
    }

    // The version that it stands in, where it is this one.
    pub(crate) fn standing_as(&self, version: &Version<'_>) -> Option<Version<'a>>
        ensures { result ≡ standing_as version.now self.now }
    {
        match self.standing() {
            None => None,
            Some(standing) => {
                if standing == *version {
                    Some(standing)
                } else {
                    None
                }
            }
        }
    }

    pub(crate) fn stands_above(&self, version: &Version<'_>) -> bool
        ensures { result ≡ stands_above version.now self.now }
    {
        match self.standing() {
            None => false,
            Some(standing) => version.cmp(&standing).is_lt(),
        }
    }
}

/// The records, in their order.
pub fn records_in<'p, 'a>(
    alloc: Global,
    start: &[&'p StatusRecord<'a>],
) -> Result<Vec<Recorded<'p, 'a>>, AllocError>
    ensures { IfOk result (λ recorded. recorded.items ≡ records_of (map (λ r. r.now) start.now)) }
{
    start
        .iter()
        .map(|record| Recorded { record })
        .collect(alloc)
}

/// The records in the order of their names. About n log n comparisons of n records.
pub fn by_name<'p, 'a>(start: Vec<Recorded<'p, 'a>>) -> Result<Vec<Recorded<'p, 'a>>, AllocError>
    ensures { IfOk result (λ known. IsByName start.entry.items known.items) }
{
    let mut known = start;
    known.sort()?;
    // No two have one name, so nothing is dropped: that each is before the next is seen from this call alone.
    known.dedup();
    Ok(known)
}

impl PartialEq for Recorded<'_, '_> {
    ghost eq = { eq_by_cmp record_cmp };

    ghost laws = { partial_equiv_from_equiv (eq_by_cmp_equiv record_cmp_total) };

    fn eq(&self, other: &Self) -> bool {
        self.cmp(other) == Ordering::Equal
    }
}

impl Eq for Recorded<'_, '_> {
    ghost laws = { eq_by_cmp_equiv record_cmp_total };
}

impl PartialOrd for Recorded<'_, '_> {
    ghost partial_cmp = { as_partial_cmp record_cmp };

    ghost laws = { po record_cmp_total (λ entry other. refl) };

    fn partial_cmp(&self, other: &Self) -> Option<Ordering> {
        Some(self.cmp(other))
    }
}

impl Ord for Recorded<'_, '_> {
    ghost cmp = { record_cmp };

    ghost total = { record_cmp_total };

    ghost matches_partial_cmp = { λ entry other. refl };

    ghost matches_eq = { λ entry other. refl };

    fn cmp(&self, other: &Self) -> Ordering {
        name_cmp(self.name(), other.name())
    }
}
