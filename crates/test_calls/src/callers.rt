// What a crash leaves of a file in memory, as a caller knows it by the contracts alone.
ghost use Rattle.std.specs.Prelude.{◌≡◌, ◌++◌, IfSome, length};
ghost use Rattle.disk.specs.Calls.{Torn};

use disk::{Disk, MemoryDisk, Unsynced};
use std::alloc::Global;

/// Writes the bytes behind those of a file and syncs: whatever a crash does to what isn't synced, it leaves all of them.
pub fn written(alloc: Global, file: Vec<u8>, bytes: &[u8], unsynced: Unsynced) -> Option<Vec<u8>>
    ensures { IfSome result (λ left. left.items ≡ file.items ++ bytes.now) }
{
    let mut disk = MemoryDisk::new(alloc, file);
    let end = disk.len().ok()?;
    disk.write_at(end, bytes).ok()?;
    disk.sync().ok()?;
    let now = disk.calls().len();
    disk.bytes_left(alloc, now, unsynced).ok()
}

/// Writes the bytes behind those of a file and doesn't sync: a crash may leave any bytes in their place.
pub fn unwritten(alloc: Global, file: Vec<u8>, bytes: &[u8], unsynced: Unsynced) -> Option<Vec<u8>>
    ensures { IfSome result (λ left. Torn (length file.items) (length bytes.now) file.items left.items) }
{
    let mut disk = MemoryDisk::new(alloc, file);
    let end = disk.len().ok()?;
    disk.write_at(end, bytes).ok()?;
    let now = disk.calls().len();
    disk.bytes_left(alloc, now, unsynced).ok()
}

#[cfg(test)]
mod tests {
    use super::*;
    use std::test::Fail;

    #[test]
    fn a_crash_leaves_what_the_callers_promise(rt: HostRuntime) -> Result<(), Fail> {
        let alloc = rt.alloc();
        let synced = written(alloc, vec![in alloc; b'a']?, b"b", Unsynced::Lost);
        assert!(rt; synced.is_some_and(|left| left.as_slice() == b"ab".as_slice()));
        let lost = unwritten(alloc, vec![in alloc; b'a']?, b"b", Unsynced::Lost);
        assert!(rt; lost.is_some_and(|left| left.as_slice() == b"a".as_slice()));
        Ok(())
    }
}
