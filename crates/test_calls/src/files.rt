//! A file of one's own below `FileDisk`: it has nothing, and its sync fails once.
use disk::{Disk, FileDisk};
use std::cell::Cell;
use std::fs::{Metadata, OpenFile};
use std::io;
use std::os::unix::fs::FileExt;

/// A file that has nothing, and whose second sync fails.
#[derive(Drop)]
struct Flaky {
    syncs: Cell<u64>,
}

impl FileExt for Flaky {
    fn read_at(&self, _buffer: &mut [u8], _offset: u64) -> io::Result<usize> {
        Err(io::Error::from(io::ErrorKind::Other))
    }

    fn write_at(&self, _bytes: &[u8], _offset: u64) -> io::Result<usize> {
        Err(io::Error::from(io::ErrorKind::Other))
    }
}

impl OpenFile for Flaky {
    fn metadata(&self) -> io::Result<Metadata> {
        Err(io::Error::from(io::ErrorKind::Other))
    }

    fn set_len(&self, _size: u64) -> io::Result<()> {
        Err(io::Error::from(io::ErrorKind::Other))
    }

    fn sync_all(&self) -> io::Result<()> {
        let syncs = self.syncs.get();
        self.syncs.set(syncs.saturating_add(1));
        if syncs == 1 {
            return Err(io::Error::from(io::ErrorKind::Other));
        }
        Ok(())
    }

    fn sync_data(&self) -> io::Result<()> {
        self.sync_all()
    }
}

#[test]
fn after_a_failed_sync_none_succeeds(rt: HostRuntime) {
    let mut disk = FileDisk::new(Flaky {
        syncs: Cell::new(0),
    });
    assert!(rt; disk.sync().is_ok());
    assert!(rt; disk.sync().is_err());
    assert!(rt; disk.sync().is_err());
    assert_eq!(rt; disk.failures(), 2);
    assert!(rt; disk.len().is_err() && disk.cut(0).is_err());
    assert!(rt; disk.read(0, &mut [0]).is_err() && disk.write_at(0, b"x").is_err());
    assert_eq!(rt; disk.failures(), 6);
}
