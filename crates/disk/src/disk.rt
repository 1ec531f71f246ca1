// A file as a journal sees it: what a read gives, and what a crash may leave.
ghost use Rattle.std.specs.Prelude.{◌≡◌, ◌↔◌, ◌≤◌, ◌+◌, List, ℕ, length, take, drop, IfOk, OnOk};
ghost use Rattle.disk.specs.Calls.{Counts, Cuts, Stays, Syncs, Writes};
ghost use Rattle.disk.specs.Facts.{DiskFacts};

/// A call of the disk failed. The disk has counted it.
#[derive(Clone, Copy, Debug)]
pub struct Failed;

/// A file. What its calls promise of bytes and crashes holds of a disk that says that it is honest.
pub trait Disk {
    /// It says that it keeps to the clauses that ask for it.
    ghost honest: { Self → Type 0 };

    /// What a read gives, and what a crash may leave.
    ghost facts: { Self → DiskFacts };

    /// How often a call has failed.
    ghost faults: { Self → ℕ };

    /// How often a call has failed, up to what 64 bits hold.
    fn failures(&self) -> u64
        ensures { result ≡ faults self.now };

    /// The length of the file in bytes.
    fn len(&mut self) -> Result<usize, Failed>
        ensures honest { honest self.new ↔ honest self.old }
        ensures known { honest self.old → IfOk result (λ len. len ≡ length (facts self.old).seen) }
        ensures stays { honest self.old → Stays (facts self.old) (facts self.new) }
        ensures count { Counts result (faults self.old) (faults self.new) };

    /// Fills the buffer with the bytes from this offset on. A range past the end may be refused.
    fn read(&mut self, at: usize, buffer: &mut [u8]) -> Result<(), Failed>
        ensures honest { honest self.new ↔ honest self.old }
        ensures size { length buffer.new ≡ length buffer.old }
        ensures known { honest self.old → at + length buffer.old ≤ length (facts self.old).seen
            → OnOk result (buffer.new ≡ take (length buffer.old) (drop at (facts self.old).seen)) }
        ensures stays { honest self.old → Stays (facts self.old) (facts self.new) }
        ensures count { Counts result (faults self.old) (faults self.new) };

    /// Writes the bytes at this offset, which is within the file or at its end: over what is there, and past the end.
    fn write_at(&mut self, at: usize, bytes: &[u8]) -> Result<(), Failed>
        ensures honest { honest self.new ↔ honest self.old }
        ensures writes { honest self.old → at ≤ length (facts self.old).seen
            → Writes at bytes.now result (facts self.old) (facts self.new) }
        ensures count { Counts result (faults self.old) (faults self.new) };

    /// Cuts the file to this length, which is no more than it has.
    fn cut(&mut self, len: usize) -> Result<(), Failed>
        ensures honest { honest self.new ↔ honest self.old }
        ensures cuts { honest self.old → len ≤ length (facts self.old).seen
            → Cuts len result (facts self.old) (facts self.new) }
        ensures count { Counts result (faults self.old) (faults self.new) };

    /// Puts on the disk all that was written and cut: then a crash leaves what a read gives.
    fn sync(&mut self) -> Result<(), Failed>
        ensures honest { honest self.new ↔ honest self.old }
        ensures syncs { honest self.old → Syncs result (facts self.old) (facts self.new) }
        ensures count { Counts result (faults self.old) (faults self.new) };
}
