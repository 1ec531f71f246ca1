// The files of the machine, and its standard input.
ghost use Rattle.std.specs.Prelude.{◌≡◌, ◌≤◌, IfErr, IfOk, length};
ghost use Rattle.inputs.specs.Counting.{Counts, one_more};
ghost use Rattle.inputs.specs.declared.shelf.ReadError.TheVariants as ReadError;

use crate::journal_file::JournalFile;
use crate::output::{put_text, put_under, try_folder};
use crate::places::{is_in_folder, is_plain, is_same_file, stream_at};
use crate::read_files::Inputs;
use crate::watch::Watch;
use cli::{Host, Progress, PutError, ReadError, ReadFailed, Source, Turn};
use rules::TEXT_BYTES;
use std::alloc::{AllocError, Global};
use std::fs::File;
use std::io;
use std::io::{ErrorKind, Read, Stdin};

/// What is read of the machine: a file that was opened, or its standard input.
#[derive(Drop)]
pub(crate) struct Opened<R> {
    reader: R,
    failures: u64,
}

/// A file, or the standard input.
#[derive(Drop)]
pub(crate) enum Readable {
    File(File),
    Input(Stdin),
}

impl Read for Readable {
    fn read(&mut self, buf: &mut [u8]) -> io::Result<usize> {
        match self {
            Readable::File(file) => file.read(buf),
            Readable::Input(input) => input.read(buf),
        }
    }
}

impl<R: Read> Source for Opened<R> {
    ghost faults = { λ opened. opened.failures };

    fn failures(&self) -> u64 {
        self.failures
    }

    fn read(&mut self, block: &mut [u8]) -> Result<usize, ReadFailed> {
        match read_some(&mut self.reader, block) {
            Ok(count) => Ok(count),
            Err(failed) => {
                self.failures = self.failures.saturating_add(1);
                Err(failed)
            }
        }
    }
}

// Reads into the block, and once more where a signal came in between.
fn read_some<R: Read>(reader: &mut R, block: &mut [u8]) -> Result<usize, ReadFailed>
    ensures size { length block.new ≡ length block.old }
    ensures count { IfOk result (λ count. count ≤ length block.new) }
{
    for _ in 0..usize::MAX {
        match reader.read(block) {
            Ok(count) => return Ok(count),
            Err(error) if error.kind() == ErrorKind::Interrupted => {}
            Err(_) => return Err(ReadFailed),
        }
    }
    Err(ReadFailed)
}

/// The files of the machine, of which that at `-` is its standard input, which of them were read, how many couldn't be, and who is shown how
/// far an answer is.
#[derive(Drop)]
pub(crate) struct Machine<'a> {
    rt: &'a HostRuntime,
    inputs: Inputs,
    failures: u64,
    watch: Watch,
}

impl<'a> Machine<'a> {
    /// The files of the machine.
    pub(crate) fn new(rt: &'a HostRuntime) -> Machine<'a> {
        Machine {
            rt,
            inputs: Inputs::new(rt.alloc()),
            failures: 0,
            watch: Watch::new(),
        }
    }

    // Counts a file that can't be read.
    fn unreadable(&mut self) -> ReadError
        ensures error { result ≡ ReadError.Unreadable }
        ensures count { self.new.failures ≡ one_more self.old.failures }
    {
        self.failures = self.failures.saturating_add(1);
        ReadError::Unreadable
    }

    // All that is read here.
    fn read_all<R: Read + Drop>(
        &mut self,
        alloc: Global,
        opened: Opened<R>,
    ) -> Result<Vec<u8>, ReadError>
        ensures { Counts result self.old.failures self.new.failures }
    {
        let mut opened = opened;
        match read_whole(alloc, &mut opened) {
            Ok(Ok(text)) => Ok(text),
            Ok(Err(ReadFailed)) => Err(self.unreadable()),
            Err(AllocError) => Err(ReadError::OutOfMemory),
        }
    }
}

impl<'a> Host for Machine<'a> {
    type Text = Opened<Readable>;

    type Journal = JournalFile<'a>;

    ghost faults = { λ machine. machine.failures };

    fn failures(&self) -> u64 {
        self.failures
    }

    fn read(&mut self, alloc: Global, path: &[u8], turn: Turn) -> Result<Vec<u8>, ReadError> {
        match (path, turn) {
            (b"-", Turn::First) => {
                note_input(self.inputs.add_standard_input(self.rt, alloc))?;
                self.read_all(alloc, standard_input(self.rt))
            }
            (b"-", _) => Err(self.unreadable()),
            _ => {
                let file = self.open(alloc, path, turn)?;
                self.read_all(alloc, file)
            }
        }
    }

    fn open(
        &mut self,
        alloc: Global,
        path: &[u8],
        turn: Turn,
    ) -> Result<Opened<Readable>, ReadError> {
        match readable_at(self.rt, alloc, &mut self.inputs, path, turn) {
            Ok(reader) => Ok(Opened {
                reader,
                failures: 0,
            }),
            Err(ErrorKind::OutOfMemory) => Err(ReadError::OutOfMemory),
            Err(_) => Err(self.unreadable()),
        }
    }

    fn close(&mut self, text: Opened<Readable>) {
        self.failures = self.failures.saturating_add(text.failures());
    }

    fn journal(&mut self, alloc: Global, path: &[u8]) -> Result<JournalFile<'a>, AllocError> {
        JournalFile::at(self.rt, alloc, path)
    }

    fn give_back(&mut self, _path: &[u8], journal: JournalFile<'a>) {
        drop(journal);
    }

    fn put(&mut self, _alloc: Global, path: &[u8], text: &[u8]) -> Result<(), PutError> {
        if self.inputs.has(self.rt, path) {
            return Err(PutError::Unwritten);
        }
        put_text(self.rt, path, text)
    }

    fn put_named(&mut self, _alloc: Global, path: &[u8], text: &[u8]) -> Result<(), PutError> {
        if self.inputs.has(self.rt, path) || stream_at(self.rt, path).is_some() {
            return Err(PutError::Unwritten);
        }
        put_under(self.rt, path, text)
    }

    fn try_folder(&mut self, _alloc: Global, folder: &[u8]) -> Result<(), PutError> {
        try_folder(self.rt, folder)
    }

    fn finish(
        &mut self,
        alloc: Global,
        _at: &[u8],
        journal: JournalFile<'a>,
        path: &[u8],
        text: &[u8],
    ) -> Result<(), PutError> {
        let put = self.put(alloc, path, text);
        drop(journal);
        put
    }

    fn is_same_file(&self, left: &[u8], right: &[u8]) -> bool {
        is_same_file(self.rt, left, right)
    }

    fn stream_at(&self, path: &[u8]) -> Option<&'static str> {
        stream_at(self.rt, path)
    }

    fn is_in_folder(&self, folder: &[u8], path: &[u8]) -> bool {
        is_in_folder(self.rt, folder, path)
    }

    fn show(&mut self, progress: Progress) {
        self.watch.show(self.rt, progress);
    }

    fn trouble(&self, path: &[u8]) -> &'static str {
        match first_error(self.rt, path) {
            Some(kind) => words_of(kind),
            None => "",
        }
    }
}

fn standard_input(rt: &HostRuntime) -> Opened<Stdin> {
    Opened {
        reader: rt.stdin(),
        failures: 0,
    }
}

// For a file that can't be noted memory was wanting.
fn note_input(noted: Result<(), AllocError>) -> Result<(), ReadError>
    ensures { IfErr result (λ e. e ≡ ReadError.OutOfMemory) }
{
    match noted {
        Ok(()) => Ok(()),
        Err(AllocError) => Err(ReadError::OutOfMemory),
    }
}

// What is read at the path at this turn: at `-` the standard input, which is read once. What is read for the first time is noted.
fn readable_at(
    rt: &HostRuntime,
    alloc: Global,
    inputs: &mut Inputs,
    path: &[u8],
    turn: Turn,
) -> Result<Readable, ErrorKind> {
    match (path, turn) {
        (b"-", Turn::First) => {
            inputs
                .add_standard_input(rt, alloc)
                .map_err(|_| ErrorKind::OutOfMemory)?;
            Ok(Readable::Input(rt.stdin()))
        }
        (_, Turn::First) => {
            let file = open_file(rt, path)?;
            inputs
                .add(alloc, path, &file)
                .map_err(|_| ErrorKind::OutOfMemory)?;
            Ok(Readable::File(file))
        }
        _ => Ok(Readable::File(open_again(rt, inputs, path, turn)?)),
    }
}

// Opens the file at the path once more. Only a plain file is: of another, as a pipe, what was read is gone, and who opens it may wait for
// ever. At the turn of what is unchanged it has to be so.
fn open_again(
    rt: &HostRuntime,
    inputs: &Inputs,
    path: &[u8],
    turn: Turn,
) -> Result<File, ErrorKind> {
    if !is_plain(rt, path) {
        return Err(ErrorKind::NotSeekable);
    }
    let file = open_file(rt, path)?;
    match turn {
        Turn::Unchanged if !inputs.is_unchanged(path, &file) => Err(ErrorKind::NotSeekable),
        _ => Ok(file),
    }
}

// Opens the file at the path, which has to be UTF-8.
fn open_file(rt: &HostRuntime, path: &[u8]) -> Result<File, ErrorKind> {
    match str::from_utf8(path) {
        Ok(path) => File::open(rt, path).map_err(|error| error.kind()),
        Err(_) => Err(ErrorKind::InvalidInput),
    }
}

// Why the first byte of the file at the path can't be read, if it can't.
fn first_error(rt: &HostRuntime, path: &[u8]) -> Option<ErrorKind> {
    match open_file(rt, path) {
        Ok(file) => reading_error(file),
        Err(kind) => Some(kind),
    }
}

fn reading_error(file: File) -> Option<ErrorKind> {
    let mut file = file;
    let mut block = [0u8; 1];
    match file.read(&mut block) {
        Ok(_) => None,
        Err(error) => Some(error.kind()),
    }
}

// The words for what is in the way.
fn words_of(kind: ErrorKind) -> &'static str {
    match kind {
        ErrorKind::NotFound => "no such file or directory",
        ErrorKind::PermissionDenied => "permission denied",
        ErrorKind::IsADirectory => "it is a directory",
        ErrorKind::NotADirectory => "a part of its path is no directory",
        ErrorKind::FilesystemLoop => "too many symbolic links",
        ErrorKind::InvalidInput => "no file can have this path",
        _ => "reading it fails",
    }
}

// How many bytes are asked for at a time.
const BLOCK: usize = 262_144;

// Reads it to its end, or until it is longer than a text may be: what is longer is refused for that alone, so no
// more of it is asked for, be there an end or not.
fn read_whole<R: Read>(
    alloc: Global,
    opened: &mut Opened<R>,
) -> Result<Result<Vec<u8>, ReadFailed>, AllocError> {
    let mut text = Vec::new(alloc);
    let mut block = Vec::new(alloc);
    block.resize(BLOCK, 0u8)?;
    for _ in 0..usize::MAX {
        let Ok(count) = opened.read(block.as_mut_slice()) else {
            return Ok(Err(ReadFailed));
        };
        let front = block.as_slice().get(..count).unwrap_or_default();
        make_room(&mut text, front.len())?;
        text.extend_from_slice(front)?;
        if front.is_empty() || text.len() > TEXT_BYTES {
            break;
        }
    }
    Ok(Ok(text))
}

// Makes room for so many more bytes: it is doubled, and where that comes near to what a text may have, so much is taken
// at once that it never grows again.
fn make_room(text: &mut Vec<u8>, count: usize) -> Result<(), AllocError> {
    let len = text.len();
    if text.capacity().saturating_sub(len) >= count {
        return Ok(());
    }
    let most = TEXT_BYTES.saturating_add(BLOCK).saturating_sub(len);
    let room = if len > TEXT_BYTES / 8 { most } else { len };
    text.reserve_exact(room.max(count))
}
