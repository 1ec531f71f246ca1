//! Creating a journal.
ghost use Rattle.std.specs.Prelude.{◌≡◌, ◌≢◌, ◌↔◌, ◌++◌, ◌∷◌, [], ◌+◌, ◌-◌, ◌<◌, ◌≤◌, ◌^◌, Ok, Some, IfErr, IfOk, IsErrOf, IsTrue, OnOk, length, min};
ghost use Rattle.disk.specs.Calls.{Counts};
ghost use Rattle.disk.specs.Facts.{Synced};
ghost use Rattle.rules.specs.declared.limits.TheConstants.{TEXT_BYTES};
ghost use Rattle.status.specs.Stored.{read_stored};
ghost use Rattle.journal.specs.Creating.{IsCreateFault, IsCreated, IsUnmade, IsUnreadStart};
ghost use Rattle.journal.specs.File.{header};
ghost use Rattle.journal.specs.Ledger.{IsSettled};
ghost use Rattle.journal.specs.declared.error.CreateError.TheVariants as create_error;

use crate::error::CreateError;
use crate::ledger::Ledger;
use disk::{Disk, Failed};
use rules::TEXT_BYTES;
use status::{Database, StatusError};
use std::alloc::{AllocError, Global};

// The greatest length of the name of an architecture.
const NAME_BYTES: usize = 65535;

// The bytes of a journal of version 2 with this start, and no step.
#[tactic(auto, using(crate::proofs::HeaderLemmas::image_is), unfolding(crate::specs::File::magic_of))]
fn image_of(alloc: Global, start: &[u8], arch: &[u8]) -> Result<Vec<u8>, AllocError>
    requires start_fits { length start.now ≤ TEXT_BYTES }
    requires arch_fits { length arch.now < 2 ^ 16 }
    ensures { IfOk result (λ made. made.items ≡ header (Some arch.now) start.now ++ 0 ∷ []) }
{
    let mut made = b"DPJRNL02".to_vec(alloc)?;
    let start_len = start.len() as u64;
    made.extend_from_slice(&start_len.to_be_bytes())?;
    let name_len = arch.len() as u16;
    made.extend_from_slice(&name_len.to_be_bytes())?;
    made.extend_from_slice(arch)?;
    made.extend_from_slice(start)?;
    made.push(0)?;
    Ok(made)
}

// The first eight bytes of a file that is being made a journal.
const UNMADE: &[u8; 8] = b"DPJRNL00";

/// Whether no journal was ever made of a file with these bytes: it is empty, or its making was stopped.
#[tactic(auto, unfolding(crate::specs::Creating::unmade))]
pub fn is_unmade(file: &[u8]) -> bool
    ensures { IsTrue result ↔ IsUnmade file.now }
{
    if file.len() < 8 {
        file == &UNMADE[..file.len()]
    } else {
        &file[..8] == UNMADE.as_slice()
    }
}

// Makes the file these bytes, all of them on the disk. The first eight of them are written last, and till then they are those of a
// file that is being made.
fn replace<D: Disk>(disk: &mut D, bytes: &[u8]) -> Result<(), Failed>
    requires { 8 ≤ length bytes.now }
    ensures honest { D.honest disk.new ↔ D.honest disk.old }
    ensures done { OnOk result (D.honest disk.old → Synced bytes.now (D.facts disk.new)) }
    ensures count { Counts result (D.faults disk.old) (D.faults disk.new) }
{
    disk.cut(0)?;
    // A crash before this sync may leave any bytes: nothing was acknowledged.
    disk.write_at(0, UNMADE)?;
    disk.sync()?;
    disk.write_at(8, &bytes[8..])?;
    disk.sync()?;
    disk.write_at(0, &bytes[..8])?;
    disk.sync()?;
    Ok(())
}

// The status file at the start.
fn read_start<'a>(alloc: Global, start: &'a [u8], arch: &'a [u8]) -> Result<Database, CreateError>
    ensures arch { IfOk result (λ db. db.arch ≡ arch.now) }
    ensures ok { IfOk result (λ db. read_stored arch.now start.now ≡ Ok db.slots) }
    ensures err { IfErr result (IsUnreadStart arch.now start.now) }
{
    match Database::read(alloc, start, arch) {
        Ok(database) => Ok(database),
        Err(StatusError::Refused(_)) => Err(CreateError::BadStart),
        Err(StatusError::OutOfMemory) => Err(CreateError::OutOfMemory),
    }
}

/// Makes the file a journal for the architecture, whose start is this text of a status file, and which has no step. It is of
/// version 2, so it names the architecture. Such a text is what `Database::text` of `status` answers. Where the making is stopped, a
/// file is left that is unmade, or after a crash of the machine within the first write one that isn't opened.
pub fn create<'a, D: Disk>(
    alloc: Global,
    disk: &mut D,
    start: &'a [u8],
    arch: &'a [u8],
) -> Result<Ledger<'a>, CreateError>
    ensures honest { D.honest disk.new ↔ D.honest disk.old }
    ensures made { IfOk result (IsCreated arch.now start.now) }
    ensures settled { IfOk result (λ l. D.honest disk.old → IsSettled l (D.facts disk.new)) }
    ensures named { OnOk result
        (D.honest disk.old
        → Synced (header (Some arch.now) start.now ++ 0 ∷ []) (D.facts disk.new)) }
    ensures fault { IfErr result (IsCreateFault arch.now start.now) }
    ensures refused { IfErr result (λ e. e ≢ create_error.Disk → disk.new ≡ disk.old) }
    ensures failed { IsErrOf result create_error.Disk → D.faults disk.new
        ≡ min (D.faults disk.old + 1) (2 ^ 64 - 1) }
    ensures count { OnOk result (D.faults disk.new ≡ D.faults disk.old) }
{
    if start.len() > TEXT_BYTES {
        return Err(CreateError::TooLarge);
    }
    if arch.len() > NAME_BYTES {
        return Err(CreateError::TooLarge);
    }
    let database = read_start(alloc, start, arch)?;
    let image = image_of(alloc, start, arch)?;
    let ledger = Ledger::begun(alloc, start, database, image.len() - 1);
    replace(disk, &image)?;
    Ok(ledger)
}
