//! Texts in memory, as a shelf.
ghost use Rattle.std.specs.Prelude.{◌≡◌, IfErr, IfOk, None, Some};
ghost use Rattle.std.specs.List.{slice_get};
ghost use Rattle.std.specs.Option.{option_copied, option_map};
ghost use Rattle.inputs.specs.Counting.{one_more};
ghost use Rattle.inputs.specs.Inputs.{shelved};
ghost use Rattle.inputs.specs.declared.shelf.ReadError.TheVariants as ReadError;

use crate::shelf::{Progress, ReadError, Shelf, WholeText};
use stanza::Source;
use std::alloc::{AllocError, Global};

/// The texts that a request is answered from. They are read in the order of the fields.
#[derive(Clone, Copy)]
pub struct Inputs<'p, 'a> {
    /// The status file of dpkg.
    pub status: &'a [u8],
    /// The sources: a stanza for each index.
    pub sources: &'a [u8],
    /// The texts of the indices, one for each stanza of the sources, in their order. One that is missing can't be read.
    pub indices: &'p [&'a [u8]],
    /// The preferences of the administrator, if there are any.
    pub preferences: Option<&'a [u8]>,
    /// The request.
    pub request: &'a [u8],
}

/// Texts in memory.
#[derive(Drop)]
pub struct MemoryShelf<'p, 'a> {
    inputs: Inputs<'p, 'a>,
    judged: Option<&'a [u8]>,
    failures: u64,
}

impl<'p, 'a> MemoryShelf<'p, 'a> {
    /// These texts, with a plan or a refutation that is judged, if there is one.
    pub fn new(inputs: Inputs<'p, 'a>, judged: Option<&'a [u8]>) -> MemoryShelf<'p, 'a>
        ensures inputs { result.inputs ≡ inputs.entry }
        ensures judged { result.judged ≡ judged.entry }
    {
        MemoryShelf {
            inputs,
            judged,
            failures: 0,
        }
    }

    // Counts a text that isn't there.
    fn missing(&mut self) -> ReadError
        ensures inputs { self.new.inputs ≡ self.old.inputs }
        ensures judged { self.new.judged ≡ self.old.judged }
        ensures count { self.new.failures ≡ one_more self.old.failures }
        ensures error { result ≡ ReadError.Unreadable }
    {
        self.failures = self.failures.saturating_add(1);
        ReadError::Unreadable
    }
}

// The bytes, copied.
fn copy_of(alloc: Global, bytes: &[u8]) -> Result<Vec<u8>, ReadError>
    ensures ok { IfOk result (λ text. text.items ≡ bytes.now) }
    ensures err { IfErr result (λ e. e ≡ ReadError.OutOfMemory) }
{
    match bytes.to_vec(alloc) {
        Ok(text) => Ok(text),
        Err(AllocError) => Err(ReadError::OutOfMemory),
    }
}

// The text at this place, counted from 0.
fn text_at<'a>(texts: &[&'a [u8]], at: usize) -> Option<&'a [u8]>
    ensures { option_copied result ≡ option_map (λ text. text.now) (slice_get texts.now at) }
{
    if at < texts.len() {
        Some(texts[at])
    } else {
        None
    }
}

impl<'p, 'a> Shelf for MemoryShelf<'p, 'a> {
    type Text = &'a [u8];

    ghost known_texts = { λ shelf. Some (shelved shelf.inputs (option_copied shelf.judged)) };

    ghost faults = { λ shelf. shelf.failures };

    fn failures(&self) -> u64 {
        self.failures
    }

    fn read(&mut self, alloc: Global, part: WholeText) -> Result<Vec<u8>, ReadError> {
        let inputs = &self.inputs;
        match part {
            WholeText::Status => copy_of(alloc, inputs.status),
            WholeText::Sources => copy_of(alloc, inputs.sources),
            WholeText::Request => copy_of(alloc, inputs.request),
            WholeText::Judged => match self.judged {
                Some(judged) => copy_of(alloc, judged),
                None => Err(self.missing()),
            },
        }
    }

    fn read_preferences(&mut self, alloc: Global) -> Result<Option<Vec<u8>>, ReadError> {
        match self.inputs.preferences {
            None => Ok(None),
            Some(text) => Ok(Some(copy_of(alloc, text)?)),
        }
    }

    fn open(&mut self, _alloc: Global, number: usize, _file: &[u8]) -> Result<&'a [u8], ReadError> {
        match text_at(self.inputs.indices, number.saturating_sub(1)) {
            Some(text) => Ok(text),
            None => Err(self.missing()),
        }
    }

    fn close(&mut self, text: &'a [u8]) {
        self.failures = self.failures.saturating_add(text.failures());
    }

    fn show(&mut self, _progress: Progress) {}

    ghost holds_still = { λ _. tt };

    ghost holds_on = { λ _ _ _ _ _. tt };
}
