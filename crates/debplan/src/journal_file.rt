// The file of a journal.
ghost use Rattle.std.specs.Prelude.{◌≡◌};
ghost use Rattle.disk.specs.Calls.{Counts};
ghost use Rattle.disk.specs.Facts.{nothing_known};

use crate::folder::sync_name;
use crate::places::text_of;
use disk::{Disk, Failed, FileDisk};
use std::alloc::{AllocError, Global};
use std::fs::{File, OpenOptions, TryLockError};
use std::io;
use std::io::ErrorKind;

/// The file of a journal, which the first call opens. It doesn't say that it is honest: what a machine's file does in a crash is
/// outside of what a contract can know.
#[derive(Drop)]
pub(crate) struct JournalFile<'a> {
    rt: &'a HostRuntime,
    path: Vec<u8>,
    disk: Option<FileDisk<File>>,
    failures: u64,
}

impl<'a> JournalFile<'a> {
    /// The file at the path.
    pub(crate) fn at(
        rt: &'a HostRuntime,
        alloc: Global,
        path: &[u8],
    ) -> Result<JournalFile<'a>, AllocError> {
        Ok(JournalFile {
            rt,
            path: path.to_vec(alloc)?,
            disk: None,
            failures: 0,
        })
    }

    // Opens the file where it isn't open; where that fails, it stays so.
    fn make_open(&mut self)
        ensures { self.new.failures ≡ self.old.failures }
    {
        if self.disk.is_some() {
            return;
        }
        if let Ok(file) = open_journal(self.rt, self.path.as_slice()) {
            self.disk = Some(FileDisk::new(file));
        }
    }
}

// Opens a file for reading and writing, which is made where there is none. One that is no plain file, or that another run works on, is
// refused. Where it is empty, so that this run or one that was stopped has made it, that it is in its folder is brought to the disk.
fn open_journal(rt: &HostRuntime, path: &[u8]) -> io::Result<File> {
    let path = text_of(path)?;
    let file = OpenOptions::new()
        .read(true)
        .write(true)
        .create(true)
        .open(rt, path)?;
    if !file.metadata()?.is_file() {
        return Err(io::Error::from(ErrorKind::InvalidInput));
    }
    if let Err(TryLockError::WouldBlock) = file.try_lock() {
        return Err(io::Error::from(ErrorKind::WouldBlock));
    }
    if file.metadata()?.len() == 0 {
        sync_name(rt, path)?;
    }
    Ok(file)
}

// Counts a call that failed.
fn count_failure<T>(failures: &mut u64, answer: Result<T, Failed>) -> Result<T, Failed>
    ensures { Counts result failures.old failures.new }
{
    match answer {
        Ok(value) => Ok(value),
        Err(failed) => {
            *failures = failures.saturating_add(1);
            Err(failed)
        }
    }
}

impl Disk for JournalFile<'_> {
    ghost honest = { λ _. ⊥ };

    ghost facts = { λ _. nothing_known };

    ghost faults = { λ file. file.failures };

    fn failures(&self) -> u64 {
        self.failures
    }

    fn len(&mut self) -> Result<usize, Failed> {
        self.make_open();
        let answer = match &mut self.disk {
            Some(disk) => disk.len(),
            None => Err(Failed),
        };
        count_failure(&mut self.failures, answer)
    }

    fn read(&mut self, at: usize, buffer: &mut [u8]) -> Result<(), Failed> {
        self.make_open();
        let answer = match &mut self.disk {
            Some(disk) => disk.read(at, buffer),
            None => Err(Failed),
        };
        count_failure(&mut self.failures, answer)
    }

    fn write_at(&mut self, at: usize, bytes: &[u8]) -> Result<(), Failed> {
        self.make_open();
        let answer = match &mut self.disk {
            Some(disk) => disk.write_at(at, bytes),
            None => Err(Failed),
        };
        count_failure(&mut self.failures, answer)
    }

    fn cut(&mut self, len: usize) -> Result<(), Failed> {
        self.make_open();
        let answer = match &mut self.disk {
            Some(disk) => disk.cut(len),
            None => Err(Failed),
        };
        count_failure(&mut self.failures, answer)
    }

    fn sync(&mut self) -> Result<(), Failed> {
        self.make_open();
        let answer = match &mut self.disk {
            Some(disk) => disk.sync(),
            None => Err(Failed),
        };
        count_failure(&mut self.failures, answer)
    }
}
