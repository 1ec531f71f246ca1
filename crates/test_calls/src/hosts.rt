//! A host of one's own: a contract knows which file it has, and it counts the others that it is asked for.
ghost use Rattle.std.specs.Prelude.{◌≡◌, None, Some, bytes_eq, if◌then◌else◌};
ghost use Rattle.inputs.specs.Counting.{one_more};
ghost use Rattle.inputs.specs.declared.shelf.ReadError.TheVariants as ReadError;

use cli::{
    Host, HostShelf, Openings, Paths, PutError, ReadError, Settings, Source, TextAt, Turn,
    ask_files,
};
use cli_engine::{CheckPlan, Fault, Input, JudgedPlan, Notes, Refusal};
use disk::MemoryDisk;
use std::alloc::{AllocError, Global};

/// A host that has one file, which a contract knows, and counts the others that it is asked for.
#[derive(Drop)]
struct OneFile<'a> {
    path: &'a [u8],
    text: &'a [u8],
    failures: u64,
}

impl OneFile<'_> {
    // Counts a file that isn't there.
    fn missing(&mut self) -> ReadError
        ensures path { self.new.path ≡ self.old.path }
        ensures text { self.new.text ≡ self.old.text }
        ensures error { result ≡ ReadError.Unreadable }
        ensures count { self.new.failures ≡ one_more self.old.failures }
    {
        self.failures = self.failures.saturating_add(1);
        ReadError::Unreadable
    }
}

impl<'a> Host for OneFile<'a> {
    type Text = &'a [u8];

    type Journal = MemoryDisk;

    ghost files = { λ host. Some (λ path. if bytes_eq path host.path.now then Some host.text.now else None) };

    ghost faults = { λ host. host.failures };

    fn failures(&self) -> u64 {
        self.failures
    }

    fn read(&mut self, alloc: Global, path: &[u8], _turn: Turn) -> Result<Vec<u8>, ReadError> {
        if path != self.path {
            return Err(self.missing());
        }
        match self.text.to_vec(alloc) {
            Ok(text) => Ok(text),
            Err(AllocError) => Err(ReadError::OutOfMemory),
        }
    }

    fn open(&mut self, _alloc: Global, path: &[u8], _turn: Turn) -> Result<&'a [u8], ReadError> {
        if path != self.path {
            return Err(self.missing());
        }
        Ok(self.text)
    }

    fn close(&mut self, text: &'a [u8]) {
        self.failures = self.failures.saturating_add(text.failures());
    }

    fn journal(&mut self, alloc: Global, _path: &[u8]) -> Result<MemoryDisk, AllocError> {
        Ok(MemoryDisk::new(alloc, Vec::new(alloc)))
    }

    fn give_back(&mut self, _path: &[u8], _journal: MemoryDisk) {}

    fn finish(
        &mut self,
        alloc: Global,
        _at: &[u8],
        _journal: MemoryDisk,
        path: &[u8],
        text: &[u8],
    ) -> Result<(), PutError> {
        self.put(alloc, path, text)
    }

    fn is_same_file(&self, left: &[u8], right: &[u8]) -> bool {
        left == right
    }

    fn put(&mut self, _alloc: Global, _path: &[u8], _text: &[u8]) -> Result<(), PutError> {
        Err(PutError::Unwritten)
    }

    fn put_named(&mut self, _alloc: Global, _path: &[u8], _text: &[u8]) -> Result<(), PutError> {
        Err(PutError::Unwritten)
    }
}

const SETTINGS: Settings<'static> = Settings {
    arch: b"amd64",
    target: None,
};

const PATHS: Paths<'static> = Paths {
    status: "status",
    sources: "sources",
    preferences: None,
    request: TextAt::File("request"),
    judged: "plan",
};

// What is answered about the plan of the files of the host.
fn judged(alloc: Global, host: &mut OneFile<'_>) -> Result<JudgedPlan, Refusal> {
    let mut context = None;
    let mut shelf = HostShelf {
        host,
        paths: &PATHS,
        context: &mut context,
        openings: Openings::none(),
    };
    let mut notes = Notes::new(alloc);
    ask_files(
        alloc,
        &mut shelf,
        &SETTINGS,
        &CheckPlan {
            tells_reasons: false,
        },
        &mut notes,
    )
}

fn are_sources_unread(refusal: &Refusal) -> bool {
    refusal.place == Input::Sources && matches!(refusal.fault, Fault::Read)
}

#[test]
fn a_host_of_one_file_is_asked_for_no_file_behind_one_that_is_missing(rt: HostRuntime) {
    let mut host = OneFile {
        path: b"status",
        text: b"",
        failures: 0,
    };
    let answer = judged(rt.alloc(), &mut host);
    assert!(rt; matches!(&answer, Err(refusal) if are_sources_unread(refusal)));
    assert!(rt; host.failures() == 1);
}
