//! What an unpacking writes (dpkg(1)).
ghost use Rattle.std.specs.Prelude.{◌≡◌, None, Some, false, true, IfOk, IfSome, MatchOption, OnErr};
ghost use Rattle.std.specs.Arc.{arc_slice_items};
ghost use Rattle.std.specs.Option.{option_copied, option_map_or};
ghost use Rattle.std.specs.Ordering.{is_eq};
ghost use Rattle.rules.specs.Step.{kept_config_version};
ghost use Rattle.rules.specs.Version.{version_cmp};
ghost use Rattle.status.specs.Applicable.{handed_in, is_indexed_as};
ghost use Rattle.status.specs.Change.{IsTextUnpacked};
ghost use Rattle.status.specs.Written.{entry_over};
ghost use Rattle.status_text.specs.Spelling.{stanza_text};

use crate::action::last_configured;
use crate::table::Table;
use crate::write::push_unpacked;
use debversion::Version;
use index::{IndexStanza, read_alone};
use rules::{Flag, Name, State, VersionText, Want};
use status_text::{Mark, StatusRecord};
use std::alloc::{AllocError, Global};
use std::sync::ArcSlice;

fn is_same_version(version: &Version<'_>, text: &VersionText) -> bool
    ensures { result ≡ is_eq (version_cmp version.now text.now) }
{
    match Version::parse(text.as_bytes()) {
        Ok(wanted) => *version == wanted,
        Err(_) => unreachable!(),
    }
}

// What is handed in to be unpacked, if it is one readable stanza, counts for the architecture, and is of this name and
// this version.
fn indexed_as<'a>(
    arch: &'a [u8],
    name: &Name,
    version: &VersionText,
    given: Option<&'a [u8]>,
) -> Option<IndexStanza<'a>>
    ensures { MatchOption result
        (is_indexed_as name.now version.now (handed_in arch.now (option_copied given.entry))
        ≡ false)
        (λ indexed. (handed_in arch.now (option_copied given.entry) ≡ Some indexed)
        × (is_indexed_as name.now version.now (handed_in arch.now (option_copied given.entry))
        ≡ true)) }
{
    let indexed = match given {
        Some(text) => read_alone(text, arch)?,
        None => return None,
    };
    if indexed.name() == name.as_bytes() && is_same_version(indexed.version(), version) {
        Some(indexed)
    } else {
        None
    }
}

// The config version of what is unpacked over the record, if there is one.
fn kept_config_version<'a>(old: &Option<StatusRecord<'a>>) -> Option<Version<'a>>
    ensures { result ≡ option_map_or (λ entry. kept_config_version entry.status) old.now None }
{
    match old {
        Some(entry) if entry.state().is_unconfigured() || entry.state().is_installed() => {
            last_configured(entry)
        }
        _ => None,
    }
}

// The stanza of a package of an index once it is unpacked, over the record of its name if there is one.
fn unpacked_text(
    alloc: Global,
    indexed: &IndexStanza<'_>,
    old: &Option<StatusRecord<'_>>,
) -> Result<Vec<u8>, AllocError>
    ensures { IfOk result
        (λ text. text.items ≡ stanza_text (entry_over indexed.now old.now).stanza) }
{
    let mut text = Vec::new(alloc);
    let mark = Mark {
        want: Want::Install,
        flag: Flag::Ok,
        state: State::Unpacked,
    };
    let (stanza, _) = indexed.origin();
    push_unpacked(&mut text, stanza, old, mark, &kept_config_version(old))?;
    Ok(text)
}

/// The text of what a step unpacks, where it can be taken.
pub fn text_unpacked(
    alloc: Global,
    table: &Table,
    name: &Name,
    version: &VersionText,
    given: Option<&[u8]>,
) -> Result<Option<ArcSlice<u8>>, AllocError>
    ensures text { IfOk result (λ text. MatchOption text
        (is_indexed_as name.now version.now (handed_in table.now.arch (option_copied given.entry))
        ≡ false)
        (λ text. (is_indexed_as name.now version.now
        (handed_in table.now.arch (option_copied given.entry)) ≡ true)
        × IfSome (handed_in table.now.arch (option_copied given.entry))
        (λ indexed. IsTextUnpacked indexed table.now name.now (arc_slice_items text)))) }
    ensures err { OnErr result
        (is_indexed_as name.now version.now (handed_in table.now.arch (option_copied given.entry))
        ≡ true) }
{
    match indexed_as(table.arch(), name, version, given) {
        Some(indexed) => {
            let old = table.find(name.as_bytes());
            table.is_sound();
            let text = unpacked_text(alloc, &indexed, &old)?;
            Ok(Some(ArcSlice::from_vec(text)?))
        }
        None => Ok(None),
    }
}
