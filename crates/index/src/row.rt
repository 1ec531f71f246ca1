//! A row: where in an arena of bytes the texts of a package stand.
ghost use Rattle.std.specs.Prelude.{◌≡◌, ◌++◌, ◌+◌, IfOk, OnOk, drop, length, take};
ghost use Rattle.relation.specs.PkgTexts.{values_in};
ghost use Rattle.relation.specs.PkgValues.{spelled};
ghost use Rattle.index.specs.Row.{AreRows, IsRow, bytes_at, joined_text, packages_at, values_at};
ghost use Rattle.index.specs.Row as Spec;

use crate::index_entry::IndexEntry;
use relation::{PkgTexts, PkgValues, Provided, Version};
use std::alloc::{AllocError, Global};

/// The texts that an index keeps of its packages, one behind another, and for which architecture and as the index of which
/// number it was read.
#[derive(Drop)]
pub struct KeptTexts {
    pub(crate) arch: Vec<u8>,
    pub(crate) number: usize,
    pub(crate) arena: Vec<u8>,
}

/// Where the texts of a package stand, one behind another: at a place, so many bytes, and how long each is but the last. And
/// whether the package is marked essential, whether it is so by the field Essential itself, and the number of its stanza.
#[derive(Clone, Copy, Drop)]
pub struct Row {
    pub(crate) at: u32,
    pub(crate) len: u32,
    pub(crate) name: u32,
    pub(crate) version: u32,
    pub(crate) pre_depends: u32,
    pub(crate) depends: u32,
    pub(crate) conflicts: u32,
    pub(crate) breaks: u32,
    pub(crate) is_essential: bool,
    pub(crate) says_essential: bool,
    pub(crate) stanza: u32,
}

// A length in 32 bits; a longer one is answered as want of memory.
fn narrow(len: usize) -> Result<u32, AllocError>
    ensures { IfOk result (λ narrow. narrow ≡ len) }
{
    match u32::try_from(len) {
        Ok(narrow) => Ok(narrow),
        Err(_) => Err(AllocError),
    }
}

// So many bytes at the front, or as many as there are, and the others.
fn cut(bytes: &[u8], len: u32) -> (&[u8], &[u8])
    ensures front { result.0.now ≡ take len bytes.now }
    ensures rest { result.1.now ≡ drop len bytes.now }
{
    bytes.split_at((len as usize).min(bytes.len()))
}

// The bytes of the row.
fn bytes_of<'a>(arena: &'a [u8], row: &Row) -> &'a [u8]
    ensures { result.now ≡ bytes_at arena.now row.now }
{
    let (_, behind) = cut(arena, row.at);
    cut(behind, row.len).0
}

// The texts that these bytes of the row are.
fn texts_of<'a>(row: &Row, bytes: &'a [u8]) -> PkgTexts<'a>
    ensures { values_in result ≡ Spec.values_of row.now bytes.now }
{
    let (name, rest) = cut(bytes, row.name);
    let (version, rest) = cut(rest, row.version);
    let (pre_depends, rest) = cut(rest, row.pre_depends);
    let (depends, rest) = cut(rest, row.depends);
    let (conflicts, rest) = cut(rest, row.conflicts);
    let (breaks, provides) = cut(rest, row.breaks);
    PkgTexts {
        name,
        version,
        pre_depends,
        depends,
        conflicts,
        breaks,
        provides,
    }
}

/// The name of the package of the row.
pub fn name_of<'a>(arena: &'a [u8], row: &Row) -> &'a [u8]
    ensures { result.now ≡ (values_at arena.now row.now).name }
{
    cut(bytes_of(arena, row), row.name).0
}

/// The version of the package of the row, parsed.
pub fn version_of<'a>(arena: &'a [u8], row: &Row) -> Version<'a>
    requires { IsRow arena.now row.now }
    ensures { result ≡ (values_at arena.now row.now).version }
{
    let (_, behind) = cut(bytes_of(arena, row), row.name);
    match Version::parse(cut(behind, row.version).0) {
        Ok(version) => version,
        Err(_) => unreachable!(),
    }
}

/// What the package of the row provides, for this architecture. Memory alone can fail.
pub fn provides_of<'a>(
    alloc: Global,
    arena: &'a [u8],
    row: &Row,
    arch: &[u8],
) -> Result<Vec<Provided<'a>>, AllocError>
    requires { IsRow arena.now row.now }
    ensures { IfOk result
        (λ items. items.items
        ≡ (spelled arch.now (values_at arena.now row.now)).relations.provides) }
{
    texts_of(row, bytes_of(arena, row)).provides(alloc, arch)
}

/// The values of the package of the row.
pub fn values_of<'a>(arena: &'a [u8], row: &Row) -> PkgValues<'a>
    requires { IsRow arena.now row.now }
    ensures { result ≡ values_at arena.now row.now }
{
    texts_of(row, bytes_of(arena, row)).values()
}

/// The packages of the rows, in their order. Memory alone can fail.
pub fn entries_of<'a>(
    alloc: Global,
    kept: &'a KeptTexts,
    rows: &'a [Row],
) -> Result<Vec<IndexEntry<'a>>, AllocError>
    requires { AreRows kept.now.arena.items rows.now }
    ensures { IfOk result
        (λ entries. entries.items
        ≡ packages_at kept.now.arch.items kept.now.number kept.now.arena.items rows.now) }
{
    let mut entries = Vec::new(alloc);
    for row in rows {
        entries.push(IndexEntry::new(kept, row))?;
    }
    Ok(entries)
}

// Puts the texts behind the bytes of the arena, one behind another.
fn keep_texts(arena: &mut Vec<u8>, texts: &PkgTexts<'_>) -> Result<(), AllocError>
    ensures { OnOk result (arena.new.items ≡ arena.old.items ++ joined_text (values_in texts.now)) }
{
    arena.extend_from_slice(texts.name)?;
    arena.extend_from_slice(texts.version)?;
    arena.extend_from_slice(texts.pre_depends)?;
    arena.extend_from_slice(texts.depends)?;
    arena.extend_from_slice(texts.conflicts)?;
    arena.extend_from_slice(texts.breaks)?;
    arena.extend_from_slice(texts.provides)?;
    Ok(())
}

/// Puts the texts of the values behind the bytes of the arena, and answers their row.
pub fn keep_row(
    arena: &mut Vec<u8>,
    values: &PkgValues<'_>,
    is_essential: bool,
    says_essential: bool,
    stanza: usize,
) -> Result<Row, AllocError>
    ensures grown { OnOk result (arena.new.items ≡ arena.old.items ++ joined_text values.now) }
    ensures row { IfOk result (λ row. IsRow arena.new.items row) }
    ensures values { IfOk result (λ row. values_at arena.new.items row ≡ values.now) }
    ensures essential { IfOk result (λ row. row.is_essential ≡ is_essential) }
    ensures said { IfOk result (λ row. row.says_essential ≡ says_essential) }
    ensures stanza { IfOk result (λ row. row.stanza ≡ stanza) }
{
    let texts = values.texts();
    let at = arena.len();
    keep_texts(arena, &texts)?;
    Ok(Row {
        at: narrow(at)?,
        len: narrow(arena.len() - at)?,
        name: narrow(texts.name.len())?,
        version: narrow(texts.version.len())?,
        pre_depends: narrow(texts.pre_depends.len())?,
        depends: narrow(texts.depends.len())?,
        conflicts: narrow(texts.conflicts.len())?,
        breaks: narrow(texts.breaks.len())?,
        is_essential,
        says_essential,
        stanza: narrow(stanza)?,
    })
}
