//! Opening a journal.
ghost use Rattle.std.specs.Prelude.{◌≡◌, ◌≢◌, ◌⊎◌, ◌↔◌, ◌-◌, ◌+◌, ◌^◌, IfErr, IfOk, OnOk, IsErrOf, min};
ghost use Rattle.disk.specs.Calls.{Stays};
ghost use Rattle.disk.specs.Facts.{LeavesOnly};
ghost use Rattle.journal.specs.Fault.{IsOpenFault};
ghost use Rattle.journal.specs.History.{Shows};
ghost use Rattle.journal.specs.declared.error.OpenError.TheVariants as open_error;
ghost use Rattle.journal.specs.Ledger.{history_of, IsSettled, MeansAsBefore};

use crate::commit::settle;
use crate::error::OpenError;
use crate::ledger::Ledger;
use crate::reading::read_journal;
use disk::Disk;
use std::alloc::Global;

/// All bytes of the file.
pub fn read_all<D: Disk>(alloc: Global, disk: &mut D) -> Result<Vec<u8>, OpenError>
    ensures honest { D.honest disk.new ↔ D.honest disk.old }
    ensures known { D.honest disk.old
        → IfOk result (λ bytes. bytes.items ≡ (D.facts disk.old).seen) }
    ensures stays { D.honest disk.old → Stays (D.facts disk.old) (D.facts disk.new) }
    ensures causes { IfErr result (λ e. (e ≡ open_error.OutOfMemory) ⊎ (e ≡ open_error.Disk)) }
    ensures failed { IsErrOf result open_error.Disk → D.faults disk.new
        ≡ min (D.faults disk.old + 1) (2 ^ 64 - 1) }
    ensures refused { IfErr result
        (λ e. e ≢ open_error.Disk → D.faults disk.new ≡ D.faults disk.old) }
    ensures count { OnOk result (D.faults disk.new ≡ D.faults disk.old) }
{
    let len = disk.len()?;
    let mut bytes = vec![in alloc; 0u8; len]?;
    disk.read(0, &mut bytes)?;
    Ok(bytes)
}

/// The journal of a file for an architecture, of which these are all bytes, with its end made one that a step can be added to.
pub fn open<'a, D: Disk>(
    alloc: Global,
    disk: &mut D,
    file: &'a [u8],
    arch: &'a [u8],
) -> Result<Ledger<'a>, OpenError>
    ensures honest { D.honest disk.new ↔ D.honest disk.old }
    ensures shows { IfOk result (λ l. Shows file.now (history_of l)) }
    ensures arch { IfOk result (λ l. (history_of l).arch ≡ arch.now) }
    ensures fault { IfErr result (IsOpenFault arch.now file.now) }

    // A crash at any moment of the call leaves what a crash at its start could have left, or a file that means the same.
    ensures any_moment { D.honest disk.old → file.now ≡ (D.facts disk.old).seen
        → LeavesOnly (MeansAsBefore arch.now (D.facts disk.old)) (D.facts disk.old)
        (D.facts disk.new) }
    ensures settled { IfOk result
        (λ l. D.honest disk.old → file.now ≡ (D.facts disk.old).seen
        → IsSettled l (D.facts disk.new)) }
    ensures failed { IsErrOf result open_error.Disk → D.faults disk.new
        ≡ min (D.faults disk.old + 1) (2 ^ 64 - 1) }
    ensures refused { IfErr result (λ e. e ≢ open_error.Disk → disk.new ≡ disk.old) }
    ensures count { OnOk result (D.faults disk.new ≡ D.faults disk.old) }
{
    let ledger = read_journal(alloc, file, arch)?;
    settle(disk, ledger.gate + 1, file.len())?;
    Ok(ledger)
}
