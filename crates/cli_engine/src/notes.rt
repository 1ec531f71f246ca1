//! What is told beside an answer.
ghost use Rattle.std.specs.Prelude.{◌≡◌, ◌++◌, OnOk, [], false, if◌then◌else◌};

use std::alloc::{AllocError, Global};

/// What is told beside an answer, where that is wanted: sentences for a person to read, on inputs that change no answer and on who provides
/// a name that no package has. It is no part of the answer, and its words aren't promised. What is told of the answer itself is a part of
/// it.
#[derive(Drop)]
pub struct Notes {
    /// Whether anything is wanted.
    pub wanted: bool,
    /// The sentences so far, each a line of its own.
    pub text: Vec<u8>,
    /// Those on inputs that change no answer, where they are known before: they depend on what is read before a request alone.
    pub idle: Option<Vec<u8>>,
}

impl Notes {
    /// No sentences, which aren't wanted.
    pub fn new(alloc: Global) -> Notes
        ensures unwanted { result.wanted ≡ false }
        ensures none { result.text.items ≡ [] }
    {
        Notes {
            wanted: false,
            text: Vec::new(alloc),
            idle: None,
        }
    }

    /// One more piece of their text, where they are wanted and memory isn't refused for it.
    pub fn add_told(&mut self, piece: Result<Vec<u8>, AllocError>)
        ensures unasked { self.old.wanted ≡ false → self.new ≡ self.old }
    {
        if !self.wanted {
            return;
        }
        if let Ok(text) = piece {
            let _ = self.text.extend_from_slice(text.as_slice());
        }
    }

    /// One more piece of their text, where they are wanted. Memory alone can fail.
    pub fn add(&mut self, piece: &[u8]) -> Result<(), AllocError>
        ensures added { OnOk result (self.new.text.items
            ≡ (if self.old.wanted then self.old.text.items ++ piece.now else self.old.text.items)) }
        ensures wanted { self.new.wanted ≡ self.old.wanted }
        ensures unasked { self.old.wanted ≡ false → self.new.text.items ≡ self.old.text.items }
    {
        if self.wanted {
            self.text.extend_from_slice(piece)?;
        }
        Ok(())
    }
}
