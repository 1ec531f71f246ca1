//! What stands before the first gate.
ghost use Rattle.std.specs.Prelude.{◌≡◌, ◌++◌, ◌≤◌, ◌<◌, ◌^◌, List, ℕ, Option, None, Some, length, MatchOption, IsTrue, IsFalse};
ghost use Rattle.std.specs.Int.{w16, w64, to_be_bytes};
ghost use Rattle.std.specs.Option.{option_copied};
ghost use Rattle.journal.specs.File.{HeaderFits, header, magic_of};
ghost use Rattle.journal.specs.Fault.{IsMarked};

use crate::bytes::{cut_at, number_2, number_8};

/// The version of a file.
#[derive(Clone, Copy)]
pub enum FormatVersion {
    One,
    Two,
}

/// The name of the architecture, in version 2, the start, and the bytes from the first gate on.
#[derive(Drop)]
pub struct Header<'a> {
    pub name: Option<&'a [u8]>,
    pub start: &'a [u8],
    pub records: &'a [u8],
}

// Whether files of the version begin with these bytes.
#[tactic(auto, unfolding(crate::specs::File::magic_of))]
fn is_of(version: FormatVersion, magic: &[u8]) -> bool
    ensures yes { IsTrue result → magic.now ≡ magic_of version }
    ensures no { IsFalse result → ¬ (magic.now ≡ magic_of version) }
{
    match version {
        FormatVersion::One => magic == b"DPJRNL01".as_slice(),
        FormatVersion::Two => magic == b"DPJRNL02".as_slice(),
    }
}

// The version of the files that begin with these bytes.
fn version_of(magic: &[u8]) -> Option<FormatVersion>
    ensures { MatchOption result ((version : _) → ¬ (magic.now ≡ magic_of version))
        (λ version. magic.now ≡ magic_of version) }
{
    if is_of(FormatVersion::One, magic) {
        Some(FormatVersion::One)
    } else if is_of(FormatVersion::Two, magic) {
        Some(FormatVersion::Two)
    } else {
        None
    }
}

/// The version of a file that begins as a journal, and what is behind that.
pub fn read_magic(file: &[u8]) -> Option<(FormatVersion, &[u8])>
    ensures { MatchOption result (¬ IsMarked file.now)
        (λ parts. (8 ≤ length parts.1.now) × (file.now ≡ magic_of parts.0 ++ parts.1.now)) }
{
    let Some((magic, rest)) = cut_at(file, 8) else {
        return None;
    };
    if rest.len() < 8 {
        return None;
    }
    match version_of(magic) {
        Some(version) => Some((version, rest)),
        None => None,
    }
}

// The start, and what is behind it, in version 1.
fn parts_1(rest: &[u8]) -> Option<(&[u8], &[u8])>
    ensures { MatchOption result
        ((start tail : List ℕ) → length start < 2 ^ 64
        → ¬ (rest.now ≡ to_be_bytes w64 (length start) ++ (start ++ tail)))
        (λ parts. (length parts.0.now < 2 ^ 64)
        × (rest.now ≡ to_be_bytes w64 (length parts.0.now) ++ (parts.0.now ++ parts.1.now))) }
{
    let (len, behind) = number_8(rest)?;
    cut_at(behind, len)
}

// The name of the architecture, the start, and what is behind them, in version 2.
fn parts_2(rest: &[u8]) -> Option<(&[u8], &[u8], &[u8])>
    ensures { MatchOption result
        ((arch start tail : List ℕ) → length arch < 2 ^ 16 → length start < 2 ^ 64
        → ¬ (rest.now ≡ to_be_bytes w64 (length start)
        ++ (to_be_bytes w16 (length arch) ++ (arch ++ (start ++ tail)))))
        (λ parts. (length parts.0.now < 2 ^ 16) × (length parts.1.now < 2 ^ 64)
        × (rest.now ≡ to_be_bytes w64 (length parts.1.now)
        ++ (to_be_bytes w16 (length parts.0.now)
        ++ (parts.0.now ++ (parts.1.now ++ parts.2.now))))) }
{
    let (len, behind) = number_8(rest)?;
    let (name_len, behind) = number_2(behind)?;
    let (name, behind) = cut_at(behind, name_len)?;
    let (start, records) = cut_at(behind, len)?;
    Some((name, start, records))
}

/// The header of this version, where no part of it runs past the end.
pub fn read_header(version: FormatVersion, rest: &[u8]) -> Option<Header<'_>>
    ensures { MatchOption result
        ((named : Option (List ℕ)) (start tail : List ℕ) → HeaderFits named start
        → ¬ (magic_of version ++ rest.now ≡ header named start ++ tail))
        (λ read. HeaderFits (option_copied read.name) read.start.now
        × (magic_of version ++ rest.now ≡ header (option_copied read.name) read.start.now
        ++ read.records.now)) }
{
    match version {
        FormatVersion::One => {
            let Some((start, records)) = parts_1(rest) else {
                return None;
            };
            Some(Header {
                name: None,
                start,
                records,
            })
        }
        FormatVersion::Two => {
            let Some((name, start, records)) = parts_2(rest) else {
                return None;
            };
            Some(Header {
                name: Some(name),
                start,
                records,
            })
        }
    }
}
