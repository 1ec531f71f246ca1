//! A journal that is brought to the end of a plan, step by step.
ghost use Rattle.std.specs.Prelude.{◌≡◌, ◌≢◌, ◌↔◌, ℕ, List, ◌+◌, ◌-◌, ◌^◌, true, IfErr, IsErrOf, IsTrue, OnErr, OnOk, length, map, min};
ghost use Rattle.std.specs.Option.{option_copied};
ghost use Rattle.std.specs.Result.{IsOk};
ghost use Rattle.disk.specs.Facts.{LeavesOnly};
ghost use Rattle.journal.specs.Ledger.{history_of, IsSettled};
ghost use Rattle.journal.specs.declared.error.AppendError.TheVariants as append_error;
ghost use Rattle.apply.specs.Fault.{IsCatchUpFault, StandsAgainst, cause_of};
ghost use Rattle.apply.specs.Planned.{BeginsWith, IsOfPlan, planned};
ghost use Rattle.apply.specs.Progress.{IsCaughtUp, IsPartTaken, IsUpTo, ShowsOrNext, ShowsUpTo};
ghost use Rattle.apply.specs.declared.error.CatchUpError.TheVariants as error;

use crate::comparing::is_of_plan;
use crate::error::CatchUpError;
use disk::Disk;
use journal::{AppendError, Ledger, append};
use rules::Step;
use std::alloc::Global;

// Adds the steps of the plan that are missing to a journal that has begun with it.
fn append_missing<'a, 's, D: Disk>(
    alloc: Global,
    ledger: &mut Ledger<'a>,
    disk: &mut D,
    steps: &'s [Step],
    texts: &[Option<&'a [u8]>],
) -> Result<(), AppendError<'s>>
    requires texts { length texts.now ≡ length steps.now }
    requires begun { BeginsWith (planned steps.now (map option_copied texts.now))
        (history_of ledger.old).steps }
    ensures honest { D.honest disk.new ↔ D.honest disk.old }
    ensures any_moment { D.honest disk.old → IsSettled ledger.old (D.facts disk.old)
        → LeavesOnly (ShowsUpTo (planned steps.now (map option_copied texts.now))
        (history_of ledger.old)) (D.facts disk.old) (D.facts disk.new) }
    ensures done { OnOk result
        (IsCaughtUp (planned steps.now (map option_copied texts.now)) (history_of ledger.old)
        (history_of ledger.new)) }
    ensures settled { OnOk result
        (D.honest disk.old → IsSettled ledger.old (D.facts disk.old)
        → IsSettled ledger.new (D.facts disk.new)) }
    ensures fault { IfErr result
        (StandsAgainst (planned steps.now (map option_copied texts.now)) ledger.new) }
    ensures remembered { OnErr result
        (IsPartTaken (planned steps.now (map option_copied texts.now)) (history_of ledger.old)
        (history_of ledger.new)) }
    ensures kept { OnErr result (D.honest disk.old → IsSettled ledger.old (D.facts disk.old)
        → (c : List ℕ) → (D.facts disk.new).leaves c
        → ShowsOrNext (planned steps.now (map option_copied texts.now))
        (history_of ledger.new) c) }
    ensures refused { IfErr result
        (λ e. e ≢ append_error.Disk → D.faults disk.new ≡ D.faults disk.old) }
    ensures still { IfErr result
        (λ e. e ≢ append_error.Disk → D.honest disk.old → IsSettled ledger.old (D.facts disk.old)
        → IsSettled ledger.new (D.facts disk.new)) }
    ensures failed { IsErrOf result append_error.Disk → (ledger.new.broken ≡ true)
        × (D.faults disk.new ≡ min (D.faults disk.old + 1) (2 ^ 64 - 1)) }
    ensures count { OnOk result (D.faults disk.new ≡ D.faults disk.old) }
    ensures already { planned steps.now (map option_copied texts.now)
        ≡ (history_of ledger.old).steps
        → IsOk result × (ledger.new ≡ ledger.old) × (disk.new ≡ disk.old) }
    ensures broken { IsTrue ledger.old.broken → (history_of ledger.new ≡ history_of ledger.old)
        × (disk.new ≡ disk.old) }
{
    let begun = ledger.history().len();
    for i in begun..steps.len() {
        match append(alloc, ledger, disk, &steps[i], texts[i]) {
            Ok(()) => {}
            Err(e) => return Err(e),
        }
    }
    Ok(())
}

// The same cause, of a plan that wasn't taken to its end.
fn cause_of<'s>(e: AppendError<'s>) -> CatchUpError<'s>
    ensures { result ≡ cause_of e.entry }
{
    match e {
        AppendError::OutOfMemory => CatchUpError::OutOfMemory,
        AppendError::TooLarge => CatchUpError::TooLarge,
        AppendError::Disk => CatchUpError::Disk,
        AppendError::Reopen => CatchUpError::Reopen,
        AppendError::NotApplicable(name) => CatchUpError::NotApplicable(name),
    }
}

/// Adds to the journal the steps of the plan that it hasn't, where its start is this text of a status file and its steps are the
/// first of the plan's. With each unpacking the text of its stanza is handed in. At `Ok` it has exactly the plan's steps. After
/// `E20 Disk` it is to be opened again, and can then catch up: no step that was acknowledged is lost.
pub fn catch_up<'a, 's, D: Disk>(
    alloc: Global,
    ledger: &mut Ledger<'a>,
    disk: &mut D,
    start: &[u8],
    steps: &'s [Step],
    texts: &[Option<&'a [u8]>],
) -> Result<(), CatchUpError<'s>>
    requires { length texts.now ≡ length steps.now }
    ensures honest { D.honest disk.new ↔ D.honest disk.old }

    // The comparison comes first, and an error of it changes nothing.
    ensures mismatch { IsErrOf result error.Mismatch
        ↔ ¬ IsOfPlan start.now (planned steps.now (map option_copied texts.now))
        (history_of ledger.old) }
    ensures of_plan { (¬ IsErrOf result error.Mismatch)
        → IsOfPlan start.now (planned steps.now (map option_copied texts.now))
        (history_of ledger.old) }
    ensures untouched { IsErrOf result error.Mismatch → (ledger.new ≡ ledger.old)
        × (disk.new ≡ disk.old) }

    // A crash at any moment of the call leaves the steps that the journal had, and behind them the next ones of the plan up to
    // one of them.
    ensures any_moment { D.honest disk.old → IsSettled ledger.old (D.facts disk.old)
        → LeavesOnly (ShowsUpTo (planned steps.now (map option_copied texts.now))
        (history_of ledger.old)) (D.facts disk.old) (D.facts disk.new) }
    ensures done { OnOk result
        (IsCaughtUp (planned steps.now (map option_copied texts.now)) (history_of ledger.old)
        (history_of ledger.new)) }
    ensures settled { OnOk result
        (D.honest disk.old → IsSettled ledger.old (D.facts disk.old)
        → IsSettled ledger.new (D.facts disk.new)) }
    ensures count { OnOk result (D.faults disk.new ≡ D.faults disk.old) }

    // Where no step is missing the call succeeds and does nothing, and behind a failed disk it does nothing.
    ensures already { IsOfPlan start.now (planned steps.now (map option_copied texts.now))
        (history_of ledger.old)
        → planned steps.now (map option_copied texts.now) ≡ (history_of ledger.old).steps
        → IsOk result × (ledger.new ≡ ledger.old) × (disk.new ≡ disk.old) }
    ensures broken { IsTrue ledger.old.broken → (history_of ledger.new ≡ history_of ledger.old)
        × (disk.new ≡ disk.old) }

    // An error keeps each step that was acknowledged, also in a crash, which may leave the next one beside.
    ensures fault { IfErr result
        (IsCatchUpFault start.now
        (planned steps.now (map option_copied texts.now)) ledger.old ledger.new) }
    ensures remembered { OnErr result
        (IsUpTo (planned steps.now (map option_copied texts.now)) (history_of ledger.old)
        (history_of ledger.new)) }
    ensures kept { OnErr result (D.honest disk.old → IsSettled ledger.old (D.facts disk.old)
        → (c : List ℕ) → (D.facts disk.new).leaves c
        → ShowsOrNext (planned steps.now (map option_copied texts.now))
        (history_of ledger.new) c) }
    ensures failed { IsErrOf result error.Disk → (ledger.new.broken ≡ true)
        × (D.faults disk.new ≡ min (D.faults disk.old + 1) (2 ^ 64 - 1)) }

    // After another error than E20 the journal can go on.
    ensures refused { IfErr result (λ e. e ≢ error.Disk → D.faults disk.new ≡ D.faults disk.old) }
    ensures still { IfErr result
        (λ e. e ≢ error.Disk → D.honest disk.old → IsSettled ledger.old (D.facts disk.old)
        → IsSettled ledger.new (D.facts disk.new)) }
{
    if !is_of_plan(ledger, start, steps, texts) {
        return Err(CatchUpError::Mismatch);
    }
    match append_missing(alloc, ledger, disk, steps, texts) {
        Ok(()) => Ok(()),
        Err(e) => Err(cause_of(e)),
    }
}
