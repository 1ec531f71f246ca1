// A change of a name as it is told.

ghost use Rattle.std.specs.Prelude.{◌≡◌, ◌++◌, IfOk, OnOk};
ghost use Rattle.std.specs.Option.{option_copied};
ghost use Rattle.rules.specs.Database.{HasDistinctNames};
ghost use Rattle.plan_sentences.specs.Changes.{change_of, has_config_files, kind_of, present_version, version_in};
ghost use Rattle.plan_sentences.specs.Told.{item_between, item_of};

use crate::kind::{Kind, kind_between};
use crate::named::record_of;
use crate::removal::push_reason;
use debversion::Version;
use phrases::push_versioned;
use plancheck_state::{Records, StateRecord};
use std::alloc::{AllocError, Global};
use std::marker::Model;
use universe::Universe;

/// A name with its records at the start and at the end of a plan, and of a package that is gone why.
#[derive(Drop)]
pub(crate) struct Told<'v, 'p, 'a> {
    name: &'a [u8],
    old: Option<&'v StateRecord<'p, 'a>>,
    new: Option<&'v StateRecord<'p, 'a>>,
    reason: Vec<u8>,
}

impl<'v, 'p, 'a> Model for Told<'v, 'p, 'a> {
    ghost use Rattle.std.specs.Option.{option_copied};
    ghost use Rattle.plan_sentences.specs.Told.{Told as ToldValue};

    ghost Value = { ToldValue };

    ghost view = { λ t. record {
      change = record { name = t.name.now; old = option_copied t.old; new = option_copied t.new };
      reason = t.reason.items;
    } };
}

// The version of the package of the record, if it is present.
fn present_version<'p, 'a>(entry: &StateRecord<'p, 'a>) -> Option<&'p Version<'a>>
    ensures { option_copied result ≡ present_version entry.now }
{
    match entry.present_pkg() {
        None => None,
        Some(pkg) => Some(pkg.version()),
    }
}

// The same where there may be no record.
fn version_in<'p, 'a>(entry: Option<&StateRecord<'p, 'a>>) -> Option<&'p Version<'a>>
    ensures { option_copied result ≡ version_in (option_copied entry.entry) }
{
    match entry {
        None => None,
        Some(entry) => present_version(entry),
    }
}

// Whether configuration files alone are left.
fn has_config_files(entry: Option<&StateRecord<'_, '_>>) -> bool
    ensures { result ≡ has_config_files (option_copied entry.entry) }
{
    match entry {
        None => false,
        Some(entry) => entry.state().is_removed(),
    }
}

// Why the package of the record is gone, if it was present and isn't.
fn reason_of(
    alloc: Global,
    start: &Records<'_, '_>,
    end: &Records<'_, '_>,
    universe: &Universe<'_, '_>,
    old: Option<&StateRecord<'_, '_>>,
    new: Option<&StateRecord<'_, '_>>,
) -> Result<Vec<u8>, AllocError> {
    let mut reason = Vec::new(alloc);
    let is_gone = version_in(new).is_none();
    if let Some(entry) = old {
        if let (Some(pkg), true) = (entry.present_pkg(), is_gone) {
            push_reason(&mut reason, start, end, universe, pkg)?;
        }
    }
    Ok(reason)
}

// Writes an item: `foo 1 -> 2`, `foo 2`, `foo 1` with the reason, or `foo`.
fn push_item(
    text: &mut Vec<u8>,
    name: &[u8],
    reason: &[u8],
    old: Option<&Version<'_>>,
    new: Option<&Version<'_>>,
) -> Result<(), AllocError>
    ensures { OnOk result (text.new.items ≡ text.old.items
        ++ item_between name.now reason.now (option_copied old.entry) (option_copied new.entry)) }
{
    match (old, new) {
        (Some(old), Some(new)) => {
            push_versioned(text, name, old.text())?;
            text.extend_from_slice(b" -> ")?;
            text.extend_from_slice(new.text())
        }
        (None, Some(new)) => push_versioned(text, name, new.text()),
        (Some(old), None) => {
            push_versioned(text, name, old.text())?;
            text.extend_from_slice(reason)
        }
        (None, None) => text.extend_from_slice(name),
    }
}

impl<'v, 'p, 'a> Told<'v, 'p, 'a> {
    /// What is told of the name. Of a package that is gone it costs what is linear in the goals and in the records. Memory alone
    /// can fail.
    pub(crate) fn new(
        alloc: Global,
        start: &'v Records<'p, 'a>,
        end: &'v Records<'p, 'a>,
        universe: &Universe<'_, '_>,
        name: &'a [u8],
    ) -> Result<Told<'v, 'p, 'a>, AllocError>
        requires start { HasDistinctNames start.now }
        requires end { HasDistinctNames end.now }
        ensures { IfOk result (λ told. told.change ≡ change_of start.now end.now name.now) }
    {
        let old = record_of(start, name);
        let new = record_of(end, name);
        let reason = reason_of(alloc, start, end, universe, old, new)?;
        Ok(Told {
            name,
            old,
            new,
            reason,
        })
    }

    /// The name.
    pub(crate) fn name(&self) -> &'a [u8]
        ensures { result.now ≡ self.now.change.name }
    {
        self.name
    }

    /// The version that is present at the end, if one is.
    pub(crate) fn new_version(&self) -> Option<&'p Version<'a>>
        ensures { option_copied result ≡ version_in self.now.change.new }
    {
        version_in(self.new)
    }

    /// What has become of the name, if something has.
    pub(crate) fn kind(&self) -> Option<Kind>
        ensures { result ≡ kind_of self.now.change }
    {
        kind_between(
            version_in(self.old),
            version_in(self.new),
            has_config_files(self.old),
            has_config_files(self.new),
        )
    }

    /// The item of its line.
    pub(crate) fn item(&self, alloc: Global) -> Result<Vec<u8>, AllocError>
        ensures { IfOk result (λ item. item.items ≡ item_of self.now) }
    {
        let mut item = Vec::new(alloc);
        push_item(
            &mut item,
            self.name,
            self.reason.as_slice(),
            version_in(self.old),
            version_in(self.new),
        )?;
        Ok(item)
    }
}
