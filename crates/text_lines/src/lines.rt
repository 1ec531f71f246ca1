//! The lines of a text that is read from a source as it comes.
ghost use Rattle.std.specs.Prelude.{◌≡◌, ◌<◌, ◌≤◌, ◌+◌, ◌-◌, ◌^◌, [], ℕ, true, false, List, Option, None, Some, length, min, IfErr, IfOk, IsOk};
ghost use Rattle.std.specs.Io.KnownBytes.{Consumes, IsAtEnd};
ghost use Rattle.text_lines.specs.Lines.{HasHeard, HasNoNewline, left_of};
ghost use Rattle.text_lines.specs.declared.error.HearError.TheVariants as hear_error;

use crate::block::Block;
use crate::error::HearError;
use crate::piece::{LineState, go_on};
use stanza::{ReadFailed, Source};
use std::alloc::{AllocError, Global};

/// The lines of a text that is read from a source as it comes.
#[derive(Drop)]
pub struct Lines<T> {
    text: T,
    block: Block,
}

/// What comes next of a text.
#[derive(Drop)]
pub enum Heard {
    /// A line, without the newline that ends it.
    Line(Vec<u8>),
    /// The last line, which no newline ends. It has at least one byte.
    Last(Vec<u8>),
    /// Nothing: the text is over.
    Nothing,
    /// A line that has more bytes than a line may have.
    TooLong,
}

// What is heard at the end of a text, behind whose last newline these bytes stand.
fn at_end(line: Vec<u8>) -> Heard
    ensures { (most : ℕ) (old new : Option (List ℕ)) → Consumes old new line.items → IsAtEnd new
        → HasNoNewline line.items
        → length line.items ≤ most → HasHeard most old new result }
{
    if line.is_empty() {
        Heard::Nothing
    } else {
        Heard::Last(line)
    }
}

impl<T: Source + Drop> Lines<T> {
    /// The lines of this text. Memory alone can fail: a block of 64 KiB is taken, and then the text is let go.
    pub fn new(alloc: Global, text: T) -> Result<Lines<T>, AllocError>
        ensures left { IfOk result (λ lines. left_of T.left lines ≡ T.left text) }
        ensures text { IfOk result (λ lines. lines.text ≡ text) }
    {
        let block = Block::new(alloc)?;
        Ok(Lines { text, block })
    }
}

impl<T: Source> Lines<T> {
    // Reads once where no byte waits, and answers whether one waits now: none at the end of the text alone.
    fn read_on(&mut self) -> Result<bool, ReadFailed>
        ensures left { IfOk result
            (λ _. Consumes (left_of T.left self.old) (left_of T.left self.new) []) }
        ensures some { IfOk result (λ some. some ≡ true → 0 < length self.new.block) }
        ensures end { IfOk result (λ some. some ≡ false → IsAtEnd (left_of T.left self.new)) }
        ensures failed { IfErr result (λ _. left_of T.left self.old ≡ None) }
        ensures sure { T.is_sure self.old.text ≡ true → IsOk result
            × (T.is_sure self.new.text ≡ true) }
        ensures count { IfOk result (λ _. T.faults self.new.text ≡ T.faults self.old.text) }
        ensures counted { IfErr result
            (λ _. T.faults self.new.text ≡ min (T.faults self.old.text + 1) (2 ^ 64 - 1)) }
    {
        if !self.block.is_empty() {
            return Ok(true);
        }
        self.block.fill(&mut self.text)?;
        Ok(!self.block.is_empty())
    }

    /// The next line, which may have so many bytes. The source is read no further than to the read that brings the line's newline, so
    /// that a line is handed on as soon as it is there, and no more is held than that many bytes and a block. Of a line that is too
    /// long, and of one in which an error comes, what was read is gone. Linear in the line.
    pub fn next(&mut self, alloc: Global, most: usize) -> Result<Heard, HearError>
        ensures heard { IfOk result
            (λ heard. HasHeard most (left_of T.left self.old) (left_of T.left self.new) heard) }
        ensures known { (left : List ℕ) → left_of T.left self.old ≡ Some left
            → IfErr result (λ e. e ≡ hear_error.OutOfMemory) }
        ensures sure { T.is_sure self.old.text ≡ true → (T.is_sure self.new.text ≡ true)
            × IfErr result (λ e. e ≡ hear_error.OutOfMemory) }
        ensures count { IfOk result (λ _. T.faults self.new.text ≡ T.faults self.old.text) }
        ensures counted { IfErr result
            (λ e. e ≡ hear_error.Unreadable → T.faults self.new.text
            ≡ min (T.faults self.old.text + 1) (2 ^ 64 - 1)) }
    {
        let mut line = Vec::new(alloc);
        while self.read_on()? {
            match go_on(&mut line, &mut self.block, most)? {
                LineState::Whole => return Ok(Heard::Line(line)),
                LineState::More => {}
                LineState::TooLong => return Ok(Heard::TooLong),
            }
        }
        Ok(at_end(line))
    }

    /// Gives the source back. The bytes that were read of it and not yet handed on are gone.
    pub fn into_source(self) -> T
        ensures { result ≡ self.text }
    {
        self.text
    }
}
