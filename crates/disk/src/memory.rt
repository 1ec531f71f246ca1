// A file in memory that keeps its calls and fails where it is told to.
ghost use Rattle.std.specs.Prelude.{◌≡◌, ◌≤◌};
ghost use Rattle.disk.specs.Facts.{Synced};

use crate::changes::{DiskCall, Made, apply_cut, apply_write, note, note_sync};
use crate::{Disk, Failed};
use std::alloc::Global;

/// How much of a write or a cut is done that fails.
#[derive(Clone, Copy)]
pub enum Failing {
    Undone,
    Half,
    Done,
}

/// Which calls fail: the one before which so many were made, or from it on all.
#[derive(Clone, Copy)]
pub struct Fuse {
    pub calls: usize,
    pub lasting: bool,
    pub failing: Failing,
}

/// A file in memory. It is honest.
#[derive(Drop)]
pub struct MemoryDisk {
    alloc: Global,
    bytes: Vec<u8>,
    calls: Vec<Made>,
    fuse: Option<Fuse>,
    failures: u64,
}

impl MemoryDisk {
    ghost use Rattle.disk.specs.Memory.{memory_facts};

    /// A file with these bytes, all of them on the disk.
    pub fn new(alloc: Global, bytes: Vec<u8>) -> MemoryDisk
        ensures synced { Synced bytes.items (memory_facts result) }
    {
        MemoryDisk {
            alloc,
            bytes,
            calls: Vec::new(alloc),
            fuse: None,
            failures: 0,
        }
    }

    /// The same, of which calls fail.
    pub fn with_fuse(alloc: Global, bytes: Vec<u8>, fuse: Fuse) -> MemoryDisk
        ensures synced { Synced bytes.items (memory_facts result) }
    {
        MemoryDisk {
            alloc,
            bytes,
            calls: Vec::new(alloc),
            fuse: Some(fuse),
            failures: 0,
        }
    }

    /// What a read gives.
    pub fn bytes(&self) -> &[u8]
        ensures { result.now ≡ (memory_facts self.now).seen }
    {
        &self.bytes
    }

    /// All calls so far, the oldest first. A write or a cut past the end, and a call for which no memory was left, are not
    /// among them.
    pub fn calls(&self) -> &[Made]
        ensures { result.now ≡ self.now.calls.items }
    {
        &self.calls
    }

    // How the next call fails, where it does.
    fn failing(&self) -> Option<Failing> {
        let Some(fuse) = self.fuse else {
            return None;
        };
        let made = self.calls.len();
        if made == fuse.calls || (fuse.lasting && made > fuse.calls) {
            return Some(fuse.failing);
        }
        None
    }
}

// How many of so many a call does that fails, or all of them.
fn part_done(count: usize, failing: Option<Failing>) -> usize
    ensures most { result ≤ count }
    ensures all { failing ≡ None → result ≡ count }
{
    match failing {
        None | Some(Failing::Done) => count,
        Some(Failing::Undone) => 0,
        Some(Failing::Half) => count / 2,
    }
}

impl Disk for MemoryDisk {
    ghost use Rattle.disk.specs.Memory.{memory_facts};

    ghost honest = { λ _. Unit {0} };

    ghost facts = { λ m. memory_facts m };

    ghost faults = { λ m. m.failures };

    fn failures(&self) -> u64 {
        self.failures
    }

    fn len(&mut self) -> Result<usize, Failed> {
        let fails = self.failing().is_some();
        let noted = note(&mut self.calls, self.alloc, DiskCall::Length, fails);
        if fails || noted.is_err() {
            self.failures = self.failures.saturating_add(1);
            return Err(Failed);
        }
        Ok(self.bytes.len())
    }

    fn read(&mut self, at: usize, buffer: &mut [u8]) -> Result<(), Failed> {
        let past_end = at > self.bytes.len() || buffer.len() > self.bytes.len() - at;
        let fails = past_end || self.failing().is_some();
        let noted = note(
            &mut self.calls,
            self.alloc,
            DiskCall::Reading(at, buffer.len()),
            fails,
        );
        if fails || noted.is_err() {
            self.failures = self.failures.saturating_add(1);
            return Err(Failed);
        }
        buffer.copy_from_slice(&self.bytes[at..at + buffer.len()]);
        Ok(())
    }

    fn write_at(&mut self, at: usize, bytes: &[u8]) -> Result<(), Failed> {
        if at > self.bytes.len() {
            self.failures = self.failures.saturating_add(1);
            return Err(Failed);
        }
        let failing = self.failing();
        let count = part_done(bytes.len(), failing);
        let fails = failing.is_some();
        let done = apply_write(
            &mut self.bytes,
            &mut self.calls,
            self.alloc,
            at,
            bytes,
            count,
            fails,
        );
        if fails || done.is_err() {
            self.failures = self.failures.saturating_add(1);
            return Err(Failed);
        }
        Ok(())
    }

    fn cut(&mut self, len: usize) -> Result<(), Failed> {
        if len > self.bytes.len() {
            self.failures = self.failures.saturating_add(1);
            return Err(Failed);
        }
        let failing = self.failing();
        let end = self.bytes.len() - part_done(self.bytes.len() - len, failing);
        let fails = failing.is_some();
        let done = apply_cut(
            &mut self.bytes,
            &mut self.calls,
            self.alloc,
            len,
            end,
            fails,
        );
        if fails || done.is_err() {
            self.failures = self.failures.saturating_add(1);
            return Err(Failed);
        }
        Ok(())
    }

    fn sync(&mut self) -> Result<(), Failed> {
        if self.failing().is_some() {
            let _ = note(&mut self.calls, self.alloc, DiskCall::Syncing, true);
            self.failures = self.failures.saturating_add(1);
            return Err(Failed);
        }
        match note_sync(&mut self.calls, self.alloc) {
            Ok(()) => Ok(()),
            Err(_) => {
                self.failures = self.failures.saturating_add(1);
                Err(Failed)
            }
        }
    }
}
