// What a crash leaves of a file in memory: the bytes at the last sync, and of each call behind it what is chosen.
ghost use Rattle.std.specs.Prelude.{◌≡◌, ◌≤◌, ◌+◌, ◌++◌, length, take, drop, reverse, IfOk, OnOk, IsTrue, ◌↔◌, ℕ};
ghost use Rattle.disk.specs.Calls.{Shortened, Torn};
ghost use Rattle.disk.specs.Crash.{IsSyncDone, NoSyncDone, undone};
ghost use Rattle.disk.specs.Memory.{before, Leaves, Takes};

use crate::changes::{DiskCall, Made};
use crate::memory::MemoryDisk;
use std::alloc::{AllocError, Global};

/// What a crash leaves of a write or a cut that no sync has put on the disk.
#[derive(Clone, Copy)]
pub enum Unsynced {
    /// Nothing.
    Lost,
    /// All of it.
    Kept,
    /// The first half of a write. A cut is done.
    Half,
    /// This byte all over the range of a write, and so many of them behind the end. A cut is done.
    Filled(u8, usize),
}

impl MemoryDisk {
    ghost use Rattle.disk.specs.Memory.{memory_facts};

    /// What a crash leaves at the moment at which so many calls had been made: those behind it never were.
    pub fn bytes_left(
        &self,
        alloc: Global,
        moment: usize,
        unsynced: Unsynced,
    ) -> Result<Vec<u8>, AllocError>
        ensures since { moment ≤ (memory_facts self.now).moment
            → IfOk result (λ left. (memory_facts self.now).since moment left.items) }
        ensures now { (memory_facts self.now).moment ≤ moment
            → IfOk result (λ left. (memory_facts self.now).leaves left.items) }
    {
        let calls = self.calls();
        let to = moment.min(calls.len());
        let from = behind_sync(calls, to);
        let mut left = self.bytes().to_vec(alloc)?;
        undo_all(&mut left, calls, from)?;
        redo_all(&mut left, alloc, calls, from, to, unsynced)?;
        Ok(left)
    }
}

// The place behind the last sync that succeeded before a place, or the first.
fn behind_sync(calls: &[Made], to: usize) -> usize
    requires { to ≤ length calls.now }
    ensures most { result ≤ to }
    ensures none { NoSyncDone calls.now result to }
{
    let mut from = to;
    while from > 0 {
        if is_sync_done(&calls[from - 1]) {
            return from;
        }
        from -= 1;
    }
    0
}

fn is_sync_done(made: &Made) -> bool
    ensures { IsTrue result ↔ IsSyncDone made.now.call made.now.failed }
{
    match made.call() {
        DiskCall::Syncing => !made.has_failed(),
        _ => false,
    }
}

// Puts back what was there before a call.
fn undo(left: &mut Vec<u8>, made: &Made) -> Result<(), AllocError>
    ensures { OnOk result (left.new.items ≡ before made.now left.old.items) }
{
    match made.call() {
        DiskCall::Writing(at, _) => left.truncate(*at),
        DiskCall::Cutting(len) => left.truncate(*len),
        _ => return Ok(()),
    }
    left.extend_from_slice(made.tail())
}

// Puts back what was there before all calls from a place on.
fn undo_all(left: &mut Vec<u8>, calls: &[Made], from: usize) -> Result<(), AllocError>
    requires { from ≤ length calls.now }
    ensures { OnOk result (left.new.items ≡ undone (drop from calls.now) left.old.items) }
{
    let mut i = calls.len();
    while i > from {
        i -= 1;
        undo(left, &calls[i])?;
    }
    Ok(())
}

// The bytes behind a range, of which there may be none.
fn rest_of(alloc: Global, old: &[u8], at: usize, len: usize) -> Result<Vec<u8>, AllocError>
    ensures { IfOk result (λ rest. rest.items ≡ drop (at + len) old.now) }
{
    if at > old.len() || len > old.len() - at {
        return Ok(Vec::new(alloc));
    }
    old[at + len..].to_vec(alloc)
}

// Writes bytes at an offset, and others behind the end: what a crash may make of a write that has no fewer bytes.
fn splice(
    left: &mut Vec<u8>,
    alloc: Global,
    at: usize,
    with: &[u8],
    beyond: &[u8],
) -> Result<(), AllocError>
    ensures { (n : ℕ) → length with.now ≤ n
        → OnOk result (Torn at n left.old.items left.new.items) }
{
    let rest = rest_of(alloc, left, at, with.len())?;
    left.truncate(at);
    left.extend_from_slice(with)?;
    left.extend_from_slice(&rest)?;
    left.extend_from_slice(beyond)?;
    Ok(())
}

// What a crash makes of a write.
fn redo_write(
    left: &mut Vec<u8>,
    alloc: Global,
    at: usize,
    bytes: &[u8],
    unsynced: Unsynced,
) -> Result<(), AllocError>
    ensures { OnOk result (Torn at (length bytes.now) left.old.items left.new.items) }
{
    match unsynced {
        Unsynced::Lost => Ok(()),
        Unsynced::Kept => splice(left, alloc, at, bytes, &[]),
        Unsynced::Half => splice(left, alloc, at, &bytes[..bytes.len() / 2], &[]),
        Unsynced::Filled(byte, beyond) => {
            let with = vec![in alloc; byte; bytes.len()]?;
            let behind = vec![in alloc; byte; beyond]?;
            splice(left, alloc, at, &with, &behind)
        }
    }
}

// What a crash makes of a cut.
fn redo_cut(left: &mut Vec<u8>, len: usize, unsynced: Unsynced)
    ensures { Shortened len left.old.items left.new.items }
{
    match unsynced {
        Unsynced::Lost => {}
        _ => left.truncate(len),
    }
}

// What a crash makes of a call.
fn redo(
    left: &mut Vec<u8>,
    alloc: Global,
    made: &Made,
    unsynced: Unsynced,
) -> Result<(), AllocError>
    requires { ¬ IsSyncDone made.now.call made.now.failed }
    ensures { OnOk result (Takes made.now.call made.now.failed left.old.items left.new.items) }
{
    match made.call() {
        DiskCall::Writing(at, bytes) => redo_write(left, alloc, *at, bytes, unsynced),
        DiskCall::Cutting(len) => {
            redo_cut(left, *len, unsynced);
            Ok(())
        }
        _ => Ok(()),
    }
}

// What a crash makes of the calls from a place up to another.
fn redo_all(
    left: &mut Vec<u8>,
    alloc: Global,
    calls: &[Made],
    from: usize,
    to: usize,
    unsynced: Unsynced,
) -> Result<(), AllocError>
    requires { (from ≤ to) × (to ≤ length calls.now) × NoSyncDone calls.now from to }
    ensures { OnOk result ((seen : _) → left.old.items ≡ undone (drop from calls.now) seen
        → Leaves (undone (drop to calls.now) seen) (reverse (take to calls.now)) left.new.items) }
{
    let mut i = from;
    while i < to {
        redo(left, alloc, &calls[i], unsynced)?;
        i += 1;
    }
    Ok(())
}
