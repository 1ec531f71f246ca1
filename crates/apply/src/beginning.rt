//! A journal for a plan, which is made where there is none.
ghost use Rattle.std.specs.Prelude.{◌≡◌, ◌↔◌, ◌+◌, ◌-◌, ◌^◌, IfErr, OnOk, min};
ghost use Rattle.disk.specs.Calls.{Stays};
ghost use Rattle.journal.specs.Creating.{IsUnmade};
ghost use Rattle.apply.specs.Begun.{IsBeginFault, IsBegunOn, IsDiskError, IsMakingFailed};

use crate::error::BeginError;
use disk::Disk;
use journal::{create, is_unmade, read_all};
use std::alloc::Global;

/// Makes the file of the disk a journal for the architecture, with this start and no step, where no journal was made of it before: it
/// is empty, or its making was stopped. Any other file is read and left as it is, whatever is answered. Where the making is stopped,
/// another run begins anew: nothing was acknowledged. Linear in the file and in the start; three syncs.
pub fn begin<D: Disk>(
    alloc: Global,
    disk: &mut D,
    arch: &[u8],
    start: &[u8],
) -> Result<(), BeginError>
    ensures honest { D.honest disk.new ↔ D.honest disk.old }
    ensures begun { OnOk result
        (D.honest disk.old → IsBegunOn arch.now start.now (D.facts disk.old) (D.facts disk.new)) }
    ensures fault { IfErr result
        (λ e. D.honest disk.old → IsBeginFault arch.now start.now (D.facts disk.old).seen e) }
    ensures kept { D.honest disk.old → ¬ IsUnmade (D.facts disk.old).seen
        → Stays (D.facts disk.old) (D.facts disk.new) }
    ensures refused { IfErr result
        (λ e. ¬ IsMakingFailed e → D.honest disk.old
        → Stays (D.facts disk.old) (D.facts disk.new)) }
    ensures failed { IfErr result
        (λ e. IsDiskError e → D.faults disk.new ≡ min (D.faults disk.old + 1) (2 ^ 64 - 1)) }
    ensures other { IfErr result (λ e. ¬ IsDiskError e → D.faults disk.new ≡ D.faults disk.old) }
    ensures count { OnOk result (D.faults disk.new ≡ D.faults disk.old) }
{
    let file = match read_all(alloc, disk) {
        Ok(file) => file,
        Err(e) => return Err(BeginError::NotRead(e)),
    };
    if !is_unmade(&file) {
        return Ok(());
    }
    match create(alloc, disk, start, arch) {
        Ok(_) => Ok(()),
        Err(e) => Err(BeginError::NotCreated(e)),
    }
}
