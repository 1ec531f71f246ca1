// A file of the machine. It counts its failures and doesn't say that it is honest: what a machine's file does in a crash
// is outside of what a contract can know.
ghost use Rattle.std.specs.Prelude.{◌≡◌};
ghost use Rattle.disk.specs.Calls.{Counts};
ghost use Rattle.disk.specs.Facts.{nothing_known};

use crate::{Disk, Failed};
use std::fs::OpenFile;
use std::io;
use std::os::unix::fs::FileExt;

/// A file that was opened for reading and writing.
#[derive(Drop)]
pub struct FileDisk<F> {
    file: F,
    /// A sync failed. The system may then have dropped what it couldn't write, and the next sync wouldn't tell.
    sync_failed: bool,
    failures: u64,
}

impl<F> FileDisk<F> {
    /// The disk over a file.
    pub fn new(file: F) -> FileDisk<F>
        ensures failures { result.failures ≡ 0 }
    {
        FileDisk {
            file,
            sync_failed: false,
            failures: 0,
        }
    }
}

// Counts a call that failed.
fn count_failure<T>(failures: &mut u64, answer: io::Result<T>) -> Result<T, Failed>
    ensures { Counts result failures.old failures.new }
{
    match answer {
        Ok(value) => Ok(value),
        Err(_) => {
            *failures = failures.saturating_add(1);
            Err(Failed)
        }
    }
}

fn length_of<F: OpenFile>(file: &F) -> io::Result<usize> {
    Ok(file.metadata()?.len() as usize)
}

impl<F: FileExt + OpenFile> Disk for FileDisk<F> {
    ghost honest = { λ _. ⊥ };

    ghost facts = { λ _. nothing_known };

    ghost faults = { λ d. d.failures };

    fn failures(&self) -> u64 {
        self.failures
    }

    fn len(&mut self) -> Result<usize, Failed> {
        let answer = length_of(&self.file);
        count_failure(&mut self.failures, answer)
    }

    fn read(&mut self, at: usize, buffer: &mut [u8]) -> Result<(), Failed> {
        let answer = self.file.read_exact_at(buffer, at as u64);
        count_failure(&mut self.failures, answer)
    }

    fn write_at(&mut self, at: usize, bytes: &[u8]) -> Result<(), Failed> {
        let answer = self.file.write_all_at(bytes, at as u64);
        count_failure(&mut self.failures, answer)
    }

    fn cut(&mut self, len: usize) -> Result<(), Failed> {
        let answer = self.file.set_len(len as u64);
        count_failure(&mut self.failures, answer)
    }

    fn sync(&mut self) -> Result<(), Failed> {
        let answer = if self.sync_failed {
            Err(io::Error::from(io::ErrorKind::Other))
        } else {
            self.file.sync_all()
        };
        self.sync_failed = answer.is_err();
        count_failure(&mut self.failures, answer)
    }
}
