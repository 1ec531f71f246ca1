//! Reading a file: the header, the start, and each record behind an open gate.
ghost use Rattle.std.specs.Prelude.{◌≡◌, ◌++◌, ◌∷◌, [], ◌≤◌, ◌<◌, ◌+◌, ◌^◌, List, ℕ, Option, IfErr, IfOk, IsTrue, IsFalse, length, MatchOption};
ghost use Rattle.std.specs.Option.{option_copied};
ghost use Rattle.rules.specs.declared.limits.TheConstants.{TEXT_BYTES};
ghost use Rattle.status.specs.Stored.{read_stored};
ghost use Rattle.std.specs.Prelude.{Ok};
ghost use Rattle.journal.specs.File.{framed};
ghost use Rattle.journal.specs.Fault.{IsReadFault, IsStuck};
ghost use Rattle.journal.specs.History.{IsApplicable, IsFor, Reaches, slots_left};
ghost use Rattle.journal.specs.Ledger.{history_of, IsReadFrom};
ghost use Rattle.journal.specs.Reading.{IsNamedElse, IsPushed, IsPushFault, IsPushedFault, IsStartFault, IsTaken};

use crate::bytes::{cut_at, number_4};
use crate::error::OpenError;
use crate::header::{read_header, read_magic};
use crate::ledger::{Ledger, RecordedStep};
use crate::payload::read_payload;
use crate::spare::WithSpare;
use rules::TEXT_BYTES;
use status::{ApplyError, Database, StatusError};
use std::alloc::{AllocError, Global};

/// The record behind a gate: the gate, the length of the payload, what it says, and the bytes behind it.
#[derive(Drop)]
pub struct Taken<'a> {
    gate: u8,
    len: usize,
    recorded: RecordedStep<'a>,
    behind: &'a [u8],
}

fn is_closed(rest: &[u8]) -> bool
    ensures closed { IsTrue result → (tail : List ℕ) × (rest.now ≡ 0 ∷ tail) }
    ensures not_closed { (tail : List ℕ) → rest.now ≡ 0 ∷ tail → IsTrue result }
{
    match rest {
        [0, ..] => true,
        _ => false,
    }
}

// The gate, the payload behind it, and what is behind that.
fn split_record(rest: &[u8]) -> Option<(u8, &[u8], &[u8])>
    ensures { MatchOption result
        ((gate : ℕ) (payload tail : List ℕ) → length payload ≤ TEXT_BYTES
        → ¬ (rest.now ≡ gate ∷ framed payload ++ tail))
        (λ parts. (length parts.1.now ≤ TEXT_BYTES)
        × (rest.now ≡ parts.0 ∷ framed parts.1.now ++ parts.2.now)) }
{
    let [gate, behind @ ..] = rest else {
        return None;
    };
    let (len, behind) = number_4(behind)?;
    if len > TEXT_BYTES {
        return None;
    }
    let (payload, behind) = cut_at(behind, len)?;
    Some((*gate, payload, behind))
}

// Takes a recorded step again. Answers whether it can be taken.
fn redo(
    alloc: Global,
    database: &mut WithSpare,
    recorded: &RecordedStep<'_>,
) -> Result<bool, AllocError>
    ensures taken { IfOk result
        (λ done. IsTrue done → IsApplicable database.old.arch recorded.now database.old.slots
        × (database.new
        ≡ record database.old {
          slots = slots_left database.old.arch recorded.now
              database.old.slots;
        })) }
    ensures not_taken { IfOk result
        (λ done. IsFalse done → ¬ IsApplicable database.old.arch recorded.now database.old.slots) }
{
    match database.apply(alloc, recorded.step(), recorded.stanza()) {
        Ok(()) => Ok(true),
        Err(ApplyError::NotApplicable(_)) => Ok(false),
        Err(ApplyError::OutOfMemory) => Err(AllocError),
    }
}

// Takes the step of the record behind an open gate, if there is such a record.
fn take_record<'a>(
    alloc: Global,
    database: &mut WithSpare,
    rest: &'a [u8],
) -> Result<Option<Taken<'a>>, AllocError>
    requires { (tail : List ℕ) → ¬ (rest.now ≡ 0 ∷ tail) }
    ensures { IfOk result
        (λ taken. MatchOption taken (IsStuck database.old.arch database.old.slots rest.now)
        (IsTaken rest.now database.old database.new)) }
{
    let Some((gate, payload, behind)) = split_record(rest) else {
        return Ok(None);
    };
    let Some(recorded) = read_payload(alloc, payload)? else {
        return Ok(None);
    };
    if !redo(alloc, database, &recorded)? {
        return Ok(None);
    }
    Ok(Some(Taken {
        gate,
        len: payload.len(),
        recorded,
        behind,
    }))
}

// Takes the next record into a journal of which this is left, and answers what is left then.
fn push_record<'a>(
    alloc: Global,
    ledger: &mut Ledger<'a>,
    rest: &'a [u8],
) -> Result<&'a [u8], OpenError>
    requires open { (tail : List ℕ) → ¬ (rest.now ≡ 0 ∷ tail) }
    requires size { ledger.old.gate + length rest.now < 2 ^ 64 }
    ensures pushed { IfOk result (λ behind. IsPushed ledger.old ledger.new rest.now behind.now) }
    ensures fault { IfErr result (IsPushFault ledger.old rest.now) }
{
    let Some(taken) = take_record(alloc, &mut ledger.database, rest)? else {
        return Err(OpenError::Damaged(ledger.gate));
    };
    ledger.gate += 5 + taken.len;
    ledger.steps.push(taken.recorded)?;
    Ok(taken.behind)
}

// Takes all records, up to the first closed gate.
fn push_records<'a>(
    alloc: Global,
    begun: Ledger<'a>,
    records: &'a [u8],
) -> Result<Ledger<'a>, OpenError>
    requires size { begun.gate + length records.now < 2 ^ 64 }
    requires whole { IsFalse begun.broken }
    ensures read { IfOk result
        (λ ledger. (file : List ℕ)
        → Reaches file (history_of begun.entry) begun.entry.gate records.now
        → IsReadFrom begun.entry.database.arch file ledger) }
    ensures fault { IfErr result
        (λ e. (file : List ℕ) → Reaches file (history_of begun.entry) begun.entry.gate records.now
        → IsPushedFault begun.entry.database.arch file e) }
{
    let mut ledger = begun;
    let mut rest = records;
    while !is_closed(rest) {
        rest = match push_record(alloc, &mut ledger, rest) {
            Ok(behind) => behind,
            Err(e) => return Err(e),
        };
    }
    Ok(ledger)
}

// Whether a header names another architecture.
fn names_another(name: Option<&[u8]>, arch: &[u8]) -> bool
    ensures another { IsTrue result → IsNamedElse arch.now (option_copied name.entry) }
    ensures same { IsFalse result → IsFor arch.now (option_copied name.entry) }
{
    match name {
        Some(name) => name != arch,
        None => false,
    }
}

// The status file at the start.
fn read_start(alloc: Global, start: &[u8], arch: &[u8]) -> Result<Database, OpenError>
    ensures arch { IfOk result (λ db. db.arch ≡ arch.now) }
    ensures ok { IfOk result (λ db. read_stored arch.now start.now ≡ Ok db.slots) }
    ensures err { IfErr result (IsStartFault arch.now start.now) }
{
    match Database::read(alloc, start, arch) {
        Ok(database) => Ok(database),
        Err(StatusError::Refused(_)) => Err(OpenError::Damaged(16)),
        Err(StatusError::OutOfMemory) => Err(OpenError::OutOfMemory),
    }
}

/// The journal that a file is for an architecture, or why it is none. Linear in the file, but for each step what taking it
/// costs.
pub fn read_journal<'a>(
    alloc: Global,
    file: &'a [u8],
    arch: &'a [u8],
) -> Result<Ledger<'a>, OpenError>
    ensures read { IfOk result (IsReadFrom arch.now file.now) }
    ensures fault { IfErr result (IsReadFault arch.now file.now) }
{
    let Some((version, rest)) = read_magic(file) else {
        return Err(OpenError::NotAJournal);
    };
    let Some(header) = read_header(version, rest) else {
        return Err(OpenError::Damaged(16));
    };
    if names_another(header.name, arch) {
        return Err(OpenError::OtherArchitecture);
    }
    let database = match read_start(alloc, header.start, arch) {
        Ok(database) => database,
        Err(e) => return Err(e),
    };
    let gate = file.len() - header.records.len();
    let begun = Ledger::begun(alloc, header.start, database, gate);
    push_records(alloc, begun, header.records)
}
