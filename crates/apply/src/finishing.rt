//! A journal that is brought to the end of a plan, and the status file that it then leads to.
ghost use Rattle.std.specs.Prelude.{◌≡◌, ◌≢◌, ◌↔◌, ◌+◌, ◌-◌, ◌^◌, ℕ, List, IfErr, IfOk, IsErrOf, OnErr, OnOk, length, map, min};
ghost use Rattle.std.specs.Option.{option_copied};
ghost use Rattle.disk.specs.Facts.{LeavesOnly};
ghost use Rattle.journal.specs.History.{Shows};
ghost use Rattle.journal.specs.Ledger.{history_of, IsSettled};
ghost use Rattle.status.specs.Text.{slots_text};
ghost use Rattle.apply.specs.Planned.{IsOfPlan, planned};
ghost use Rattle.apply.specs.Progress.{IsCaughtUp, IsUpTo, ShowsOrNext, ShowsUpTo};
ghost use Rattle.apply.specs.declared.error.CatchUpError.TheVariants as error;
ghost use Rattle.apply.specs.RunFault.{IsFinishFault};

use crate::catching::catch_up;
use crate::error::CatchUpError;
use disk::Disk;
use journal::Ledger;
use rules::Step;
use std::alloc::{AllocError, Global};

/// Adds to the journal the steps of the plan that it hasn't, and answers the text of the status file that they lead to.
pub(crate) fn finish<'a, 's, D: Disk>(
    alloc: Global,
    ledger: &mut Ledger<'a>,
    disk: &mut D,
    start: &[u8],
    steps: &'s [Step],
    texts: &[Option<&'a [u8]>],
) -> Result<Vec<u8>, CatchUpError<'s>>
    requires { length texts.now ≡ length steps.now }
    ensures honest { D.honest disk.new ↔ D.honest disk.old }
    ensures of_plan { (¬ IsErrOf result error.Mismatch)
        → IsOfPlan start.now (planned steps.now (map option_copied texts.now))
        (history_of ledger.old) }
    ensures untouched { IsErrOf result error.Mismatch → (ledger.new ≡ ledger.old)
        × (disk.new ≡ disk.old) }
    ensures any_moment { D.honest disk.old → IsSettled ledger.old (D.facts disk.old)
        → LeavesOnly (ShowsUpTo (planned steps.now (map option_copied texts.now))
        (history_of ledger.old)) (D.facts disk.old) (D.facts disk.new) }
    ensures done { OnOk result
        (IsCaughtUp (planned steps.now (map option_copied texts.now)) (history_of ledger.old)
        (history_of ledger.new)) }
    ensures text { IfOk result (λ text. text.items ≡ slots_text (history_of ledger.new).slots) }
    ensures kept { OnOk result (D.honest disk.old → IsSettled ledger.old (D.facts disk.old)
        → (c : List ℕ) → (D.facts disk.new).leaves c → Shows c (history_of ledger.new)) }
    ensures fault { IfErr result (λ e. D.honest disk.old → IsSettled ledger.old (D.facts disk.old)
        → IsFinishFault start.now (planned steps.now (map option_copied texts.now))
        (history_of ledger.old) e) }
    ensures remembered { OnErr result
        (IsUpTo (planned steps.now (map option_copied texts.now)) (history_of ledger.old)
        (history_of ledger.new)) }
    ensures acknowledged { OnErr result (D.honest disk.old → IsSettled ledger.old (D.facts disk.old)
        → (c : List ℕ) → (D.facts disk.new).leaves c
        → ShowsOrNext (planned steps.now (map option_copied texts.now))
        (history_of ledger.new) c) }
    ensures failed { IsErrOf result error.Disk → D.faults disk.new
        ≡ min (D.faults disk.old + 1) (2 ^ 64 - 1) }
    ensures refused { IfErr result (λ e. e ≢ error.Disk → D.faults disk.new ≡ D.faults disk.old) }
    ensures count { OnOk result (D.faults disk.new ≡ D.faults disk.old) }
{
    match catch_up(alloc, ledger, disk, start, steps, texts) {
        Ok(()) => {}
        Err(e) => return Err(e),
    }
    match ledger.database().text(alloc) {
        Ok(text) => Ok(text),
        Err(AllocError) => Err(CatchUpError::OutOfMemory),
    }
}
