// Changes of a file that are on the disk when they return: each is a call and its sync.
ghost use Rattle.std.specs.Prelude.{◌≡◌, ◌⊎◌, ◌↔◌, ◌++◌, ◌+◌, ◌≤◌, List, ℕ, length, take, drop, OnOk};
ghost use Rattle.disk.specs.Calls.{Counts, Shortened, Torn};
ghost use Rattle.disk.specs.Facts.{LeavesOnly, Synced};

use crate::{Disk, Failed};

/// Writes the bytes at this offset. At `Ok` they are on the disk.
pub fn put<D: Disk>(disk: &mut D, at: usize, bytes: &[u8]) -> Result<(), Failed>
    ensures honest { D.honest disk.new ↔ D.honest disk.old }
    ensures any_moment { D.honest disk.old → (file : List ℕ) → at ≤ length file
        → Synced file (D.facts disk.old)
        → LeavesOnly (λ c. (c ≡ file) ⊎ Torn at (length bytes.now) file c) (D.facts disk.old)
        (D.facts disk.new) }
    ensures done { OnOk result
        (D.honest disk.old → (file : List ℕ) → at ≤ length file → Synced file (D.facts disk.old)
        → Synced (take at file ++ bytes.now ++ drop (at + length bytes.now) file)
        (D.facts disk.new)) }
    ensures count { Counts result (D.faults disk.old) (D.faults disk.new) }
{
    disk.write_at(at, bytes)?;
    // A crash before this sync may leave any bytes in the range.
    disk.sync()?;
    Ok(())
}

/// Cuts the file to this length. At `Ok` the cut is on the disk.
pub fn shorten<D: Disk>(disk: &mut D, len: usize) -> Result<(), Failed>
    ensures honest { D.honest disk.new ↔ D.honest disk.old }
    ensures any_moment { D.honest disk.old → (file : List ℕ) → len ≤ length file
        → Synced file (D.facts disk.old)
        → LeavesOnly (λ c. (c ≡ file) ⊎ Shortened len file c) (D.facts disk.old)
        (D.facts disk.new) }
    ensures done { OnOk result
        (D.honest disk.old → (file : List ℕ) → len ≤ length file → Synced file (D.facts disk.old)
        → Synced (take len file) (D.facts disk.new)) }
    ensures count { Counts result (D.faults disk.old) (D.faults disk.new) }
{
    disk.cut(len)?;
    // A crash before this sync may leave the end that was cut off.
    disk.sync()?;
    Ok(())
}

/// Puts on the disk what a read gives.
pub fn keep<D: Disk>(disk: &mut D) -> Result<(), Failed>
    ensures honest { D.honest disk.new ↔ D.honest disk.old }
    ensures any_moment { D.honest disk.old
        → LeavesOnly (D.facts disk.old).leaves (D.facts disk.old) (D.facts disk.new) }
    ensures done { OnOk result
        (D.honest disk.old → Synced (D.facts disk.old).seen (D.facts disk.new)) }
    ensures count { Counts result (D.faults disk.old) (D.faults disk.new) }
{
    disk.sync()?;
    Ok(())
}
