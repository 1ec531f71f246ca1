//! Where a text is read from, piece by piece.
ghost use Rattle.std.specs.Prelude.{◌≡◌, ◌≤◌, ◌<◌, ◌+◌, ◌-◌, ◌^◌, ℕ, List, Option, None, Some, Bool, true, false, length, take, min, IfOk, IsOk, MatchResult};
ghost use Rattle.std.specs.Io.KnownBytes.{Consumes, IsAtEnd};

/// The device failed in a reading. The source has counted it.
#[derive(Clone, Copy, Debug, PartialEq, Eq)]
pub struct ReadFailed;

/// A text that is read from its beginning to its end.
pub trait Source {
    // The bytes that are left, where they are known.
    ghost left: { Self → Option (List ℕ) } = { λ _. None };

    // Whether it is known that no reading fails.
    ghost is_sure: { Self → Bool } = { λ _. false };

    // How many readings have failed.
    ghost faults: { Self → ℕ };

    /// How many readings have failed, up to what 64 bits hold.
    fn failures(&self) -> u64
        ensures { result ≡ faults self.now };

    /// Reads as many of the bytes that are left as the device gives at once into the front of the block, and says how many:
    /// none at the end alone, or where the block has no room.
    fn read(&mut self, block: &mut [u8]) -> Result<usize, ReadFailed>
        ensures bytes { MatchResult result
            (λ count. (count ≤ length block.new)
            × Consumes (left self.old) (left self.new) (take count block.new))
            (λ _. left self.old ≡ None) }
        ensures size { length block.new ≡ length block.old }
        ensures end { 0 < length block.old
            → IfOk result (λ count. count ≡ 0 → IsAtEnd (left self.new)) }
        ensures sure { is_sure self.old ≡ true → IsOk result × (is_sure self.new ≡ true) }
        ensures count { MatchResult result
            (λ _. faults self.new ≡ faults self.old)
            (λ _. faults self.new ≡ min (faults self.old + 1) (2 ^ 64 - 1)) };
}

/// Bytes in memory: they are known, and no reading fails.
impl Source for &[u8] {
    ghost left = { λ bytes. Some bytes.now };

    ghost is_sure = { λ _. true };

    ghost faults = { λ _. 0 };

    fn failures(&self) -> u64 {
        0
    }

    fn read(&mut self, block: &mut [u8]) -> Result<usize, ReadFailed> {
        let count = self.len().min(block.len());
        let (front, rest) = self.split_at(count);
        block.split_at_mut(count).0.copy_from_slice(front);
        *self = rest;
        Ok(count)
    }
}
