//! The writes of a journal, and what a crash leaves at any moment of them. They know bytes and no steps.
ghost use Rattle.std.specs.Prelude.{◌≡◌, ◌⊎◌, ◌↔◌, ◌++◌, ◌∷◌, [], ◌+◌, ◌<◌, ◌^◌, List, ℕ, length, OnOk};
ghost use Rattle.disk.specs.Calls.{Counts};
ghost use Rattle.disk.specs.Facts.{LeavesOnly, Synced};
ghost use Rattle.journal.specs.Commit.{HasFront, IsBetween};

use disk::{Disk, Failed, keep, put, shorten};

/// Puts a record behind the closed gate at this offset, and then opens the gate.
pub fn commit<D: Disk>(disk: &mut D, gate: usize, bytes: &[u8]) -> Result<(), Failed>
    requires { gate + 1 < 2 ^ 64 }
    ensures honest { D.honest disk.new ↔ D.honest disk.old }
    ensures any_moment { D.honest disk.old → (front : List ℕ) → gate ≡ length front
        → Synced (front ++ 0 ∷ []) (D.facts disk.old)
        → LeavesOnly (IsBetween front bytes.now) (D.facts disk.old) (D.facts disk.new) }
    ensures done { OnOk result
        (D.honest disk.old → (front : List ℕ) → gate ≡ length front
        → Synced (front ++ 0 ∷ []) (D.facts disk.old)
        → Synced (front ++ 1 ∷ bytes.now) (D.facts disk.new)) }
    ensures count { Counts result (D.faults disk.old) (D.faults disk.new) }
{
    // A crash before its sync leaves the gate closed, and behind it any bytes.
    put(disk, gate + 1, bytes)?;
    // The whole record is on the disk: a crash before this sync leaves the gate closed, or open with the record behind it.
    put(disk, gate, &[1])?;
    Ok(())
}

/// Keeps what a read gives, and then cuts off what is behind the closed gate: in this order, since a gate that a crash
/// might yet open is followed by what would count.
pub fn settle<D: Disk>(disk: &mut D, end: usize, len: usize) -> Result<(), Failed>
    ensures honest { D.honest disk.new ↔ D.honest disk.old }
    ensures any_moment { D.honest disk.old → (front tail : List ℕ) → end ≡ length front + 1
        → (D.facts disk.old).seen ≡ front ++ 0 ∷ tail
        → LeavesOnly (λ c. (D.facts disk.old).leaves c ⊎ HasFront front c) (D.facts disk.old)
        (D.facts disk.new) }
    ensures done { OnOk result
        (D.honest disk.old → (front tail : List ℕ) → end ≡ length front + 1
        → (D.facts disk.old).seen ≡ front ++ 0 ∷ tail
        → len ≡ length (front ++ 0 ∷ tail) → Synced (front ++ 0 ∷ []) (D.facts disk.new)) }
    ensures count { Counts result (D.faults disk.old) (D.faults disk.new) }
{
    // A crash before this sync leaves what it could leave at the start.
    keep(disk)?;
    if end < len {
        // A crash before the cut's sync leaves the same gate closed, and behind it a part of what was there.
        shorten(disk, end)?;
    }
    Ok(())
}
