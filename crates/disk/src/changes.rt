// The calls that a file in memory keeps, and what writes and cuts make of its bytes.
ghost use Rattle.std.specs.Prelude.{◌≡◌, ◌≤◌, ◌+◌, ◌-◌, ◌++◌, ◌∷◌, [], length, take, drop, reverse, IfOk, OnErr, OnOk};
ghost use Rattle.disk.specs.Calls.{Moves, Same, Shortened, Stays, Torn};
ghost use Rattle.disk.specs.Facts.{Only};
ghost use Rattle.disk.specs.Memory.{facts_of, IsQuiet, IsWriteOf};

use std::alloc::{AllocError, Global};

/// A call of a disk, with what it was given.
#[derive(Drop)]
pub enum DiskCall {
    Length,
    /// From which offset, and how many bytes.
    Reading(usize, usize),
    /// At which offset, and the bytes.
    Writing(usize, Vec<u8>),
    /// To which length.
    Cutting(usize),
    Syncing,
}

/// A call that was made, whether it failed, and what stood from its offset on before it.
#[derive(Drop)]
pub struct Made {
    call: DiskCall,
    failed: bool,
    tail: Vec<u8>,
}

impl Made {
    pub fn call(&self) -> &DiskCall
        ensures { result.now ≡ self.now.call }
    {
        &self.call
    }

    pub fn has_failed(&self) -> bool
        ensures { result ≡ self.now.failed }
    {
        self.failed
    }

    pub(crate) fn tail(&self) -> &[u8]
        ensures { result.now ≡ self.now.tail.items }
    {
        &self.tail
    }
}

// Keeps a call that changes nothing.
pub(crate) fn note(
    calls: &mut Vec<Made>,
    alloc: Global,
    call: DiskCall,
    failed: bool,
) -> Result<(), AllocError>
    requires { IsQuiet call failed }
    ensures stays { (seen : _)
        → Stays (facts_of seen (reverse calls.old.items))
        (facts_of seen (reverse calls.new.items)) }
{
    let tail = Vec::new(alloc);
    calls.push(Made { call, failed, tail })?;
    Ok(())
}

// Keeps a sync that succeeds.
pub(crate) fn note_sync(calls: &mut Vec<Made>, alloc: Global) -> Result<(), AllocError>
    ensures done { (seen : _)
        → OnOk result (Only seen (facts_of seen (reverse calls.new.items)).leaves) }
    ensures moves { (seen : _)
        → Moves Same (facts_of seen (reverse calls.old.items))
        (facts_of seen (reverse calls.new.items)) }
    ensures failed { (seen : _)
        → OnErr result
        (Stays (facts_of seen (reverse calls.old.items))
        (facts_of seen (reverse calls.new.items))) }
{
    let tail = Vec::new(alloc);
    calls.push(Made {
        call: DiskCall::Syncing,
        failed: false,
        tail,
    })?;
    Ok(())
}

// Puts other bytes in the place of those from an offset on, and keeps the call.
fn replace_tail(
    bytes: &mut Vec<u8>,
    calls: &mut Vec<Made>,
    at: usize,
    made: Made,
    next: Vec<u8>,
) -> Result<(), AllocError>
    requires { at ≤ length bytes.old.items }
    ensures bytes { OnOk result (bytes.new.items ≡ take at bytes.old.items ++ next.items) }
    ensures calls { OnOk result (calls.new.items ≡ calls.old.items ++ made ∷ []) }
    ensures unchanged { OnErr result
        ((bytes.new.items ≡ bytes.old.items) × (calls.new.items ≡ calls.old.items)) }
{
    bytes.reserve(next.len())?;
    calls.push(made)?;
    bytes.truncate(at);
    bytes.extend_from_slice(&next)?;
    Ok(())
}

// A write as it is kept, and what stands from its offset on once its first bytes are written, so many.
fn write_of(
    alloc: Global,
    old: &[u8],
    at: usize,
    written: &[u8],
    count: usize,
    failed: bool,
) -> Result<(Made, Vec<u8>), AllocError>
    requires { (at ≤ length old.now) × (count ≤ length written.now) }
    ensures call { IfOk result (λ it. IsWriteOf at written.now it.0.call) }
    ensures tail { IfOk result (λ it. it.0.tail.items ≡ drop at old.now) }
    ensures next { IfOk result
        (λ it. it.1.items ≡ take count written.now ++ drop (at + count) old.now) }
{
    let tail = old[at..].to_vec(alloc)?;
    let mut next = written[..count].to_vec(alloc)?;
    if count < tail.len() {
        next.extend_from_slice(&old[at + count..])?;
    }
    let call = DiskCall::Writing(at, written.to_vec(alloc)?);
    Ok((Made { call, failed, tail }, next))
}

// Writes the first bytes of those that are given, so many, and keeps the call.
pub(crate) fn apply_write(
    bytes: &mut Vec<u8>,
    calls: &mut Vec<Made>,
    alloc: Global,
    at: usize,
    written: &[u8],
    count: usize,
    failed: bool,
) -> Result<(), AllocError>
    requires { (at ≤ length bytes.old.items) × (count ≤ length written.now) }
    ensures done { OnOk result (count ≡ length written.now
        → bytes.new.items ≡ take at bytes.old.items ++ written.now
        ++ drop (at + length written.now) bytes.old.items) }
    ensures torn { Torn at (length written.now) bytes.old.items bytes.new.items }
    ensures moves { Moves (Torn at (length written.now))
        (facts_of bytes.old.items (reverse calls.old.items))
        (facts_of bytes.new.items (reverse calls.new.items)) }
{
    let (made, next) = write_of(alloc, bytes, at, written, count, failed)?;
    replace_tail(bytes, calls, at, made, next)?;
    Ok(())
}

// A cut as it is kept, and what stands from its offset on once the file is cut to an end that is no less.
fn cut_of(
    alloc: Global,
    old: &[u8],
    len: usize,
    end: usize,
    failed: bool,
) -> Result<(Made, Vec<u8>), AllocError>
    requires { (len ≤ end) × (end ≤ length old.now) }
    ensures call { IfOk result (λ it. it.0.call ≡ DiskCall.Cutting len) }
    ensures tail { IfOk result (λ it. it.0.tail.items ≡ drop len old.now) }
    ensures next { IfOk result (λ it. it.1.items ≡ take (end - len) (drop len old.now)) }
{
    let tail = old[len..].to_vec(alloc)?;
    let next = old[len..end].to_vec(alloc)?;
    let call = DiskCall::Cutting(len);
    Ok((Made { call, failed, tail }, next))
}

// Cuts the file to an end that is no less than the length that is given, and keeps the call.
pub(crate) fn apply_cut(
    bytes: &mut Vec<u8>,
    calls: &mut Vec<Made>,
    alloc: Global,
    len: usize,
    end: usize,
    failed: bool,
) -> Result<(), AllocError>
    requires { (len ≤ end) × (end ≤ length bytes.old.items) }
    ensures done { OnOk result (bytes.new.items ≡ take end bytes.old.items) }
    ensures cut { Shortened len bytes.old.items bytes.new.items }
    ensures moves { Moves (Shortened len) (facts_of bytes.old.items (reverse calls.old.items))
        (facts_of bytes.new.items (reverse calls.new.items)) }
{
    let (made, next) = cut_of(alloc, bytes, len, end, failed)?;
    replace_tail(bytes, calls, len, made, next)?;
    Ok(())
}
