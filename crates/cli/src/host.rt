// What the program asks of the machine that it runs on.
ghost use Rattle.std.specs.Prelude.{◌≡◌, ◌↔◌, ◌+◌, ◌-◌, ◌^◌, ℕ, IfErr, IfOk, IsTrue, List, None, Option, Some, false, min, true};
ghost use Rattle.cli.specs.Files.{Files, Puts, is_in_folder};
ghost use Rattle.cli.specs.Kept.{Finishes, GivesBack, Kept, Lends, NotesPut};
ghost use Rattle.inputs.specs.Counting.{Counts};

use disk::Disk;
use inputs::{Progress, ReadError, Source};
use std::alloc::{AllocError, Global};

/// Why a text wasn't put in a file's place.
#[derive(Clone, Copy, Debug, PartialEq, Eq)]
pub enum PutError {
    /// The file couldn't be written.
    Unwritten,
    /// A growth was refused.
    OutOfMemory,
}

/// Whether a file is read for the first time.
#[derive(Clone, Copy, Debug, PartialEq, Eq)]
pub enum Turn {
    First,
    /// It was read before, and who reads it compares what it says: what can't be read a second time, as a pipe, is unreadable.
    Again,
    /// It was read before, and has to be the same still: a file that was replaced or written since is unreadable, too.
    Unchanged,
}

// Whether the path is one of the folder.
fn is_path_in(folder: &[u8], path: &[u8]) -> bool
    ensures { result ≡ is_in_folder folder.now path.now }
{
    path.starts_with(folder) && path[folder.len()..].starts_with(b"/")
}

/// Where files are read, and where the file of a journal and the output are. A path is bytes: one that the machine can't open,
/// as one that is no UTF-8 where paths have to be, is unreadable.
pub trait Host {
    /// The text of a file that was opened, to be read from its beginning.
    type Text: Source + Drop;

    /// The file of a journal.
    type Journal: Disk + Drop;

    // The files, where they are known.
    ghost files: { Self → Option Files } = { λ _. None };

    // The files of journals by their paths, and which texts were put, where they are known.
    ghost kept: { Self → Option (Kept Self.Journal) } = { λ _. None };

    // How many files couldn't be read.
    ghost faults: { Self → ℕ };

    /// How many files couldn't be read, up to what 64 bits hold.
    fn failures(&self) -> u64
        ensures { result ≡ faults self.now };

    /// All bytes of the file at the path. Of one that is longer than a text may be it need be no more than shows that.
    fn read(&mut self, alloc: Global, path: &[u8], turn: Turn) -> Result<Vec<u8>, ReadError>
        ensures text { (at : Files) → files self.old ≡ Some at
            → IfOk result (λ text. at path.now ≡ Some text.items) }
        ensures missing { (at : Files) → files self.old ≡ Some at
            → IfErr result (λ e. e ≡ ReadError.Unreadable → at path.now ≡ None) }
        ensures same { files self.new ≡ files self.old }
        ensures keeps { kept self.new ≡ kept self.old }
        ensures count { Counts result (faults self.old) (faults self.new) };

    /// Opens the file at the path, whose text is the one that `read` would give.
    fn open(&mut self, alloc: Global, path: &[u8], turn: Turn) -> Result<Self::Text, ReadError>
        ensures text { (at : Files) → files self.old ≡ Some at → IfOk result (λ text.
            (bytes : List ℕ) × (at path.now ≡ Some bytes) × (Self.Text.left text ≡ Some bytes)) }
        ensures missing { (at : Files) → files self.old ≡ Some at
            → IfErr result (λ e. e ≡ ReadError.Unreadable → at path.now ≡ None) }
        ensures fresh { IfOk result (λ text. Self.Text.faults text ≡ 0) }
        ensures same { files self.new ≡ files self.old }
        ensures keeps { kept self.new ≡ kept self.old }
        ensures count { Counts result (faults self.old) (faults self.new) };

    /// Gives back a text: what couldn't be read of it is counted.
    fn close(&mut self, text: Self::Text)
        ensures same { files self.new ≡ files self.old }
        ensures keeps { kept self.new ≡ kept self.old }
        ensures count { faults self.new
            ≡ min (faults self.old + Self.Text.faults text) (2 ^ 64 - 1) };

    /// The file at the path as that of a journal, which is held until it is given back. It isn't opened before the first call of it,
    /// which makes one where there is none; a file that can't be opened or made, or that is held by another run, is one whose calls
    /// fail. Memory alone can fail.
    fn journal(&mut self, alloc: Global, path: &[u8]) -> Result<Self::Journal, AllocError>
        ensures lent { (was : Kept Self.Journal) → kept self.old ≡ Some was
            → Lends path.now was result (kept self.new) }
        ensures same { files self.new ≡ files self.old }
        ensures count { faults self.new ≡ faults self.old };

    /// Takes the file of a journal back, of this path.
    fn give_back(&mut self, path: &[u8], journal: Self::Journal)
        ensures back { (was : Kept Self.Journal) → kept self.old ≡ Some was
            → GivesBack path.now journal was (kept self.new) }
        ensures same { files self.new ≡ files self.old }
        ensures count { faults self.new ≡ faults self.old };

    /// Puts the text in the place of what the file at the path has, or makes the file: all of it or, at an error, none.
    fn put(&mut self, alloc: Global, path: &[u8], text: &[u8]) -> Result<(), PutError>
        ensures put { (at : Files) → files self.old ≡ Some at
            → Puts path.now text.now at result (files self.new) }
        ensures noted { (was : Kept Self.Journal) → kept self.old ≡ Some was
            → NotesPut false path.now text.now was result (kept self.new) }
        ensures count { faults self.new ≡ faults self.old };

    /// Puts the text at the path as `put` does, but in the place of what stands under that very name: a link there isn't followed, and what
    /// is no plain file isn't opened.
    fn put_named(&mut self, alloc: Global, path: &[u8], text: &[u8]) -> Result<(), PutError>
        ensures put { (at : Files) → files self.old ≡ Some at
            → Puts path.now text.now at result (files self.new) }
        ensures noted { (was : Kept Self.Journal) → kept self.old ≡ Some was
            → NotesPut true path.now text.now was result (kept self.new) }
        ensures count { faults self.new ≡ faults self.old };

    /// Tries whether files can be made in the folder. Nothing is left there.
    fn try_folder(&mut self, _alloc: Global, _folder: &[u8]) -> Result<(), PutError>
        ensures same { files self.new ≡ files self.old }
        ensures keeps { kept self.new ≡ kept self.old }
        ensures count { faults self.new ≡ faults self.old }
    {
        Ok(())
    }

    /// Puts the text as `put` does while the journal of the path `at` is held, and then takes that back.
    fn finish(
        &mut self,
        alloc: Global,
        at: &[u8],
        journal: Self::Journal,
        path: &[u8],
        text: &[u8],
    ) -> Result<(), PutError>
        ensures put { (files_at : Files) → files self.old ≡ Some files_at
            → Puts path.now text.now files_at result (files self.new) }
        ensures back { (was : Kept Self.Journal) → kept self.old ≡ Some was
            → Finishes at.now journal path.now text.now was result (kept self.new) }
        ensures count { faults self.new ≡ faults self.old };

    /// Whether both paths lead to one file, of which the first is written. If only the other one is `-`, that is standard input.
    fn is_same_file(&self, left: &[u8], right: &[u8]) -> bool
        ensures { (at : Files) → files self.now ≡ Some at → IsTrue result ↔ left.now ≡ right.now };

    /// Which stream of the program the file at the path is, by whatever path or link: the name of standard input or output, if it is a
    /// plain file that isn't named as that stream. Files that are known are none.
    fn stream_at(&self, _path: &[u8]) -> Option<&'static str>
        ensures { (at : Files) → files self.now ≡ Some at → result ≡ None }
    {
        None
    }

    /// Whether the name at the path, or what it leads to by links, is in the folder. Files that are known are where their paths say.
    fn is_in_folder(&self, folder: &[u8], path: &[u8]) -> bool
        ensures { (at : Files) → files self.now ≡ Some at
            → result ≡ is_in_folder folder.now path.now }
    {
        is_path_in(folder, path)
    }

    /// Shows a person on standard error how far an answer is, where one looks on. Nothing is promised of what is shown.
    fn show(&mut self, _progress: Progress)
        ensures same { files self.new ≡ files self.old }
        ensures keeps { kept self.new ≡ kept self.old }
        ensures count { faults self.new ≡ faults self.old }
    {}

    /// Why the file at the path can't be read, in the words of the system, or nothing where it can be or that isn't known. It is for a
    /// person to read, and nothing is promised of it.
    fn trouble(&self, _path: &[u8]) -> &'static str {
        ""
    }
}
