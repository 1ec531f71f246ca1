//! The whole run of a plan on the file of a journal.
ghost use Rattle.std.specs.Prelude.{◌≡◌, ◌↔◌, ◌+◌, ◌-◌, ◌^◌, ℕ, List, IfErr, IfOk, OnOk, length, map, min};
ghost use Rattle.std.specs.Option.{option_copied};
ghost use Rattle.apply.specs.Planned.{planned};
ghost use Rattle.apply.specs.Run.{IsEndText, IsRunOn};
ghost use Rattle.apply.specs.RunFault.{IsDiskFault};

use crate::error::RunError;
use crate::finishing::finish;
use disk::Disk;
use journal::open;
use rules::Step;
use std::alloc::Global;

/// Adds to the journal of the disk, of whose file these are all bytes, the steps of the plan that it hasn't, each with the text that is
/// handed in for it, and answers the text of the status file that all steps lead to. The journal has to have this start, and its steps
/// have to be the first of the plan's. A run that was stopped, or whose machine was, is gone on with by another one. Linear in the file
/// and the status file, and for each step what taking it costs and two syncs.
pub fn go_on<'a, 's, D: Disk>(
    alloc: Global,
    disk: &mut D,
    file: &'a [u8],
    arch: &'a [u8],
    start: &[u8],
    steps: &'s [Step],
    texts: &[Option<&'a [u8]>],
) -> Result<Vec<u8>, RunError<'s>>
    requires { length texts.now ≡ length steps.now }
    ensures honest { D.honest disk.new ↔ D.honest disk.old }
    ensures run { D.honest disk.old → file.now ≡ (D.facts disk.old).seen
        → IsRunOn arch.now start.now (planned steps.now (map option_copied texts.now))
        (D.facts disk.old) result (D.facts disk.new) }
    ensures end { IfOk result
        (λ text. IsEndText arch.now start.now
        (planned steps.now (map option_copied texts.now)) text.items) }
    ensures failed { IfErr result
        (λ e. IsDiskFault e → D.faults disk.new ≡ min (D.faults disk.old + 1) (2 ^ 64 - 1)) }
    ensures other { IfErr result (λ e. ¬ IsDiskFault e → D.faults disk.new ≡ D.faults disk.old) }
    ensures count { OnOk result (D.faults disk.new ≡ D.faults disk.old) }
{
    let mut ledger = match open(alloc, disk, file, arch) {
        Ok(ledger) => ledger,
        Err(e) => return Err(RunError::NotOpened(e)),
    };
    match finish(alloc, &mut ledger, disk, start, steps, texts) {
        Ok(text) => Ok(text),
        Err(cause) => Err(RunError::NotFinished {
            taken: ledger.history().len(),
            cause,
        }),
    }
}
