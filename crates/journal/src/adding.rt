//! Adding a step: all memory is taken first, then the record is written behind the closed gate, then the gate is opened.
ghost use Rattle.std.specs.Prelude.{◌≡◌, ◌≢◌, ◌⊎◌, ◌↔◌, ◌++◌, ◌∷◌, [], ◌+◌, ◌-◌, ◌<◌, ◌≤◌, ◌^◌, true, IfErr, IfOk, IsErrOf, IsTrue, OnErr, OnOk, length, min};
ghost use Rattle.std.specs.Option.{option_copied, unwrap_or};
ghost use Rattle.disk.specs.Facts.{LeavesOnly};
ghost use Rattle.plantext.specs.Plan.{IsReadAsStep};
ghost use Rattle.plantext.specs.StepLine.{step_line};
ghost use Rattle.rules.specs.declared.limits.TheConstants.{TEXT_BYTES};
ghost use Rattle.journal.specs.Adding.{IsAppendFault, IsPrepareFault, IsPrepared, recorded_of, text_for};
ghost use Rattle.journal.specs.File.{framed};
ghost use Rattle.journal.specs.History.{IsApplicable, IsBeforeOrAfter, followed};
ghost use Rattle.journal.specs.Ledger.{history_of, IsSettled};
ghost use Rattle.journal.specs.declared.error.AppendError.TheVariants as append_error;

use crate::commit::commit;
use crate::error::AppendError;
use crate::ledger::{Ledger, RecordedStep};
use crate::spare::WithSpare;
use disk::Disk;
use plantext::write_step;
use rules::{Step, TEXT_BYTES};
use status::Database;
use std::alloc::{AllocError, Global};

// Behind a gate at this offset no record is added.
const FILE_BYTES: usize = 1 << 60;

/// All that is to be written and remembered of a step.
#[derive(Drop)]
pub struct PreparedStep<'a> {
    bytes: Vec<u8>,
    len: usize,
    recorded: RecordedStep<'a>,
    database: Database,
}

// What counts of the text that is handed in.
fn text_for<'a>(step: &Step, given: Option<&'a [u8]>) -> Option<&'a [u8]>
    ensures { option_copied result ≡ text_for step.now (option_copied given.entry) }
{
    match step {
        Step::Unpack(_, _) => given,
        _ => None,
    }
}

// The payload of a record of the step.
fn payload_of(alloc: Global, step: &Step, text: Option<&[u8]>) -> Result<Vec<u8>, AllocError>
    ensures bytes { IfOk result
        (λ payload. payload.items ≡ step_line step.now ++ unwrap_or (option_copied text.entry) []) }
    ensures line { OnOk result (IsReadAsStep step.now (step_line step.now)) }
{
    let mut payload = write_step(alloc, step)?;
    match text {
        Some(text) => payload.extend_from_slice(text)?,
        None => {}
    }
    Ok(payload)
}

// The record behind a gate, and the closed gate behind that.
fn record_of(alloc: Global, payload: &[u8]) -> Result<Vec<u8>, AllocError>
    requires { length payload.now ≤ TEXT_BYTES }
    ensures { IfOk result (λ made. made.items ≡ framed payload.now ++ 0 ∷ []) }
{
    let mut made = Vec::new(alloc);
    let len = payload.len() as u32;
    made.extend_from_slice(&len.to_be_bytes())?;
    made.extend_from_slice(payload)?;
    made.push(0)?;
    Ok(made)
}

// All that is to be written and remembered of a step, where it can be taken. The step is taken last, since an error behind
// it would cost the spare.
fn prepare<'a, 's>(
    alloc: Global,
    old: &mut WithSpare,
    step: &'s Step,
    given: Option<&'a [u8]>,
) -> Result<PreparedStep<'a>, AppendError<'s>>
    ensures unchanged { old.new ≡ old.old }
    ensures prepared { IfOk result
        (IsPrepared old.old (recorded_of step.now (option_copied given.entry))) }
    ensures fault { IfErr result
        (IsPrepareFault old.old (recorded_of step.now (option_copied given.entry))) }
{
    let text = text_for(step, given);
    let payload = payload_of(alloc, step, text)?;
    if payload.len() > TEXT_BYTES {
        return Err(AppendError::TooLarge);
    }
    let bytes = record_of(alloc, &payload)?;
    let recorded = RecordedStep::new(step.try_copy(alloc)?, text);
    let database = old.left_by(alloc, step, text)?;
    Ok(PreparedStep {
        bytes,
        len: payload.len(),
        recorded,
        database,
    })
}

/// Adds a step, and of an unpacking the text of the stanza that is unpacked. At `Ok` it is acknowledged: from then on each
/// crash leaves a file that has it. After `E20 Disk` no step is added until the file is opened again.
pub fn append<'a, 's, D: Disk>(
    alloc: Global,
    ledger: &mut Ledger<'a>,
    disk: &mut D,
    step: &'s Step,
    stanza: Option<&'a [u8]>,
) -> Result<(), AppendError<'s>>
    ensures honest { D.honest disk.new ↔ D.honest disk.old }

    // A crash at any moment of the call leaves the history from before it, without the step or with it.
    ensures any_moment { D.honest disk.old → IsSettled ledger.old (D.facts disk.old)
        → LeavesOnly (IsBeforeOrAfter (history_of ledger.old)
        (recorded_of step.now (option_copied stanza.entry))) (D.facts disk.old)
        (D.facts disk.new) }
    ensures taken { OnOk result
        (IsApplicable ledger.old.database.arch
        (recorded_of step.now (option_copied stanza.entry)) ledger.old.database.slots) }
    ensures follows { OnOk result
        (history_of ledger.new
        ≡ followed (history_of ledger.old)
        (recorded_of step.now (option_copied stanza.entry))) }
    ensures settled { OnOk result
        (D.honest disk.old → IsSettled ledger.old (D.facts disk.old)
        → IsSettled ledger.new (D.facts disk.new)) }

    // An error changes nothing that is remembered, and E20 alone what the disk holds.
    ensures fault { IfErr result
        (IsAppendFault ledger.old (recorded_of step.now (option_copied stanza.entry))) }
    ensures remembered { OnErr result (history_of ledger.new ≡ history_of ledger.old) }
    ensures refused { IfErr result
        (λ e. e ≢ append_error.Disk → (disk.new ≡ disk.old) × (ledger.new.gate ≡ ledger.old.gate)
        × (ledger.new.broken ≡ ledger.old.broken)) }
    ensures failed { IsErrOf result append_error.Disk → (ledger.new.broken ≡ true)
        × (D.faults disk.new ≡ min (D.faults disk.old + 1) (2 ^ 64 - 1)) }
    ensures count { OnOk result (D.faults disk.new ≡ D.faults disk.old) }
    ensures reopen { IsTrue ledger.old.broken → IsErrOf result append_error.Reopen }
{
    if ledger.broken {
        return Err(AppendError::Reopen);
    }
    if ledger.gate >= FILE_BYTES {
        return Err(AppendError::TooLarge);
    }
    let prepared = prepare(alloc, &mut ledger.database, step, stanza)?;
    ledger.steps.push(prepared.recorded)?;
    match commit(disk, ledger.gate, &prepared.bytes) {
        Ok(()) => {
            let text = text_for(step, stanza);
            ledger
                .database
                .exchange(alloc, prepared.database, step, text);
            ledger.gate += 5 + prepared.len;
            Ok(())
        }
        Err(_) => {
            ledger.broken = true;
            ledger.steps.pop();
            Err(AppendError::Disk)
        }
    }
}
