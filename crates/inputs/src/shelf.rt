//! Where the texts of a request are found: each is read at its turn.
ghost use Rattle.std.specs.Prelude.{◌≡◌, ◌+◌, ◌-◌, ◌^◌, ℕ, IfErr, IfOk, List, None, Option, Some, min, ⊤};
ghost use Rattle.std.specs.Option.{option_map};
ghost use Rattle.inputs.specs.Counting.{Counts};
ghost use Rattle.inputs.specs.Texts.{Shelved, part_of};

use stanza::Source;
use std::alloc::Global;

/// A text that is read whole.
#[derive(Clone, Copy, Debug, PartialEq, Eq)]
pub enum WholeText {
    /// The status file.
    Status,
    /// The sources.
    Sources,
    /// The request.
    Request,
    /// The plan or the refutation that is judged.
    Judged,
}

/// Why a text wasn't read.
#[derive(Clone, Copy, Debug, PartialEq, Eq)]
pub enum ReadError {
    /// There is no such text, or it can't be read.
    Unreadable,
    /// A growth was refused.
    OutOfMemory,
}

/// How far an answer that takes long is.
#[derive(Clone, Copy, Debug, PartialEq, Eq)]
pub enum Progress {
    /// Packages are asked about one after the other.
    Packages {
        /// How many of them are answered.
        answered: usize,
        /// How many there are.
        all: usize,
        /// How many of those that are answered are a no.
        refuted: usize,
    },
    /// Goals are left out of a request one after the other.
    Goals {
        /// How many are left out.
        left_out: usize,
        /// How many there were.
        all: usize,
    },
    /// The answer is there.
    Over,
}

/// Where the texts of a request are found.
pub trait Shelf {
    /// The text of an index that was opened, to be read from its beginning.
    type Text: Source + Drop;

    // What is found, where it is known.
    ghost known_texts: { Self → Option Shelved } = { λ _. None };

    // How many texts couldn't be read.
    ghost faults: { Self → ℕ };

    // It holds the very value that it held before, where it holds one that is lent, as a host.
    ghost holds: { Self → Self → Type 0 } = { λ _ _. ⊤ };

    /// How many texts couldn't be read, up to what 64 bits hold.
    fn failures(&self) -> u64
        ensures { result ≡ faults self.now };

    /// All bytes of this text. Of one that is longer than a text may be it need be no more than shows that.
    fn read(&mut self, alloc: Global, part: WholeText) -> Result<Vec<u8>, ReadError>
        ensures text { (at : Shelved) → known_texts self.old ≡ Some at
            → IfOk result (λ text. part_of at part ≡ Some text.items) }
        ensures missing { (at : Shelved) → known_texts self.old ≡ Some at
            → IfErr result (λ e. e ≡ ReadError.Unreadable → part_of at part ≡ None) }
        ensures same { known_texts self.new ≡ known_texts self.old }
        ensures count { Counts result (faults self.old) (faults self.new) }
        ensures held { holds self.old self.new };

    /// All bytes of the preferences, or nothing where none are asked for.
    fn read_preferences(&mut self, alloc: Global) -> Result<Option<Vec<u8>>, ReadError>
        ensures text { (at : Shelved) → known_texts self.old ≡ Some at
            → IfOk result (λ text. at.preferences ≡ option_map (λ text. Some text.items) text) }
        ensures missing { (at : Shelved) → known_texts self.old ≡ Some at
            → IfErr result (λ e. e ≡ ReadError.Unreadable → at.preferences ≡ Some None) }
        ensures same { known_texts self.new ≡ known_texts self.old }
        ensures count { Counts result (faults self.old) (faults self.new) }
        ensures held { holds self.old self.new };

    /// Opens the text of the index of this number, counted from 1, whose source names this file.
    fn open(&mut self, alloc: Global, number: usize, file: &[u8]) -> Result<Self::Text, ReadError>
        ensures text { (at : Shelved) → known_texts self.old ≡ Some at → IfOk result (λ text.
            (bytes : List ℕ) × (at.index number file.now ≡ Some bytes)
            × (Self.Text.left text ≡ Some bytes)) }
        ensures missing { (at : Shelved) → known_texts self.old ≡ Some at
            → IfErr result (λ e. e ≡ ReadError.Unreadable → at.index number file.now ≡ None) }
        ensures fresh { IfOk result (λ text. Self.Text.faults text ≡ 0) }
        ensures same { known_texts self.new ≡ known_texts self.old }
        ensures count { Counts result (faults self.old) (faults self.new) }
        ensures held { holds self.old self.new };

    /// Gives back a text of an index: what couldn't be read of it is counted.
    fn close(&mut self, text: Self::Text)
        ensures same { known_texts self.new ≡ known_texts self.old }
        ensures count { faults self.new
            ≡ min (faults self.old + Self.Text.faults text) (2 ^ 64 - 1) }
        ensures held { holds self.old self.new };

    /// Shows a person how far an answer is, where one looks on. Nothing is promised of what is shown.
    fn show(&mut self, progress: Progress)
        ensures same { known_texts self.new ≡ known_texts self.old }
        ensures count { faults self.new ≡ faults self.old }
        ensures held { holds self.old self.new };

    // It holds what it held before a call, and what it held before two calls.
    ghost holds_still: { (shelf : Self) → holds shelf shelf };

    ghost holds_on: { (first then last : Self) → holds first then → holds then last → holds first last };
}
