// The plain files that were read, as they were then.
use crate::places::{STANDARD_INPUT, text_of};
use std::alloc::{AllocError, Global};
use std::fs;
use std::fs::{File, Metadata};
use std::os::unix::fs::MetadataExt;

// A plain file, as it is known to the system.
#[derive(Clone, Copy, PartialEq, Eq)]
struct FileState {
    device: u64,
    inode: u64,
    len: u64,
    // When it or what is known of it was changed, in seconds and nanoseconds.
    changed: (i64, i64),
}

impl FileState {
    fn of(metadata: &Metadata) -> FileState {
        FileState {
            device: metadata.dev(),
            inode: metadata.ino(),
            len: metadata.len(),
            changed: (metadata.ctime(), metadata.ctime_nsec()),
        }
    }

    fn is_file(&self, metadata: &Metadata) -> bool {
        self.device == metadata.dev() && self.inode == metadata.ino()
    }
}

// A path, and the plain file that was read there.
#[derive(Drop)]
struct Input {
    path: Vec<u8>,
    state: FileState,
}

/// The plain files that were read, with their paths.
#[derive(Drop)]
pub(crate) struct Inputs {
    files: Vec<Input>,
}

impl Inputs {
    /// None.
    pub(crate) fn new(alloc: Global) -> Inputs {
        Inputs {
            files: Vec::new(alloc),
        }
    }

    /// One more: the file that was opened at the path, if it is a plain one.
    pub(crate) fn add(
        &mut self,
        alloc: Global,
        path: &[u8],
        file: &File,
    ) -> Result<(), AllocError> {
        match file.metadata() {
            Ok(metadata) => self.add_state(alloc, path, &metadata),
            Err(_) => Ok(()),
        }
    }

    /// One more: the file that is standard input, if it is a plain one.
    pub(crate) fn add_standard_input(
        &mut self,
        rt: &HostRuntime,
        alloc: Global,
    ) -> Result<(), AllocError> {
        match fs::metadata(rt, STANDARD_INPUT) {
            Ok(metadata) => self.add_state(alloc, b"-", &metadata),
            Err(_) => Ok(()),
        }
    }

    fn add_state(
        &mut self,
        alloc: Global,
        path: &[u8],
        metadata: &Metadata,
    ) -> Result<(), AllocError> {
        if !metadata.is_file() {
            return Ok(());
        }
        let path = path.to_vec(alloc)?;
        let state = FileState::of(metadata);
        self.files.push(Input { path, state })?;
        Ok(())
    }

    /// Whether the file that was opened at the path is the one that was read there, and wasn't written since.
    pub(crate) fn is_unchanged(&self, path: &[u8], file: &File) -> bool {
        match file.metadata() {
            Ok(metadata) => {
                let state = FileState::of(&metadata);
                self.files.iter().any(|input| input.path.as_slice() == path && input.state == state)
            }
            Err(_) => false,
        }
    }

    /// Whether the file at the path, behind links, is one that was read, or standard input.
    pub(crate) fn has(&self, rt: &HostRuntime, path: &[u8]) -> bool {
        match text_of(path) {
            Ok(path) => match fs::metadata(rt, path) {
                Ok(metadata) => self
                    .files
                    .iter()
                    .any(|input| input.state.is_file(&metadata)),
                Err(_) => false,
            },
            Err(_) => false,
        }
    }
}
