//! A stream that is written to, and whether a write failed.
ghost use Rattle.std.specs.Prelude.{◌≡◌, false, true, IfErr, OnOk};
ghost use Rattle.std.specs.Io.KnownBytes.{Appends};
ghost use Rattle.conversation.specs.Stream.{IsBehind, written_on};

use std::io;
use std::io::Write;

/// A stream that is written to, and whether a write on it failed.
#[derive(Drop)]
pub struct Stream<W> {
    writer: W,
    has_failed: bool,
}

/// What was to be written couldn't be.
#[derive(Clone, Copy, Debug, PartialEq, Eq)]
pub struct Unwritten;

impl<W: Write> Stream<W> {
    /// The stream over this writer. No write on it has failed yet.
    pub fn new(writer: W) -> Stream<W>
        ensures written { (written_on W.contents result).contents ≡ W.contents writer }
        ensures failed { (written_on W.contents result).has_failed ≡ false }
    {
        Stream {
            writer,
            has_failed: false,
        }
    }

    /// Whether a write failed.
    pub fn has_failed(&self) -> bool
        ensures { result ≡ (written_on W.contents self.now).has_failed }
    {
        self.has_failed
    }

    /// What is written to.
    pub fn writer(&self) -> &W
        ensures { W.contents result.now ≡ (written_on W.contents self.now).contents }
    {
        &self.writer
    }

    /// What was written to.
    pub fn into_writer(self) -> W
        ensures { result ≡ self.writer }
    {
        self.writer
    }

    /// Writes the text, and hands it on where the writer keeps it back. A failure is one of the machine.
    pub fn write(&mut self, text: &[u8]) -> Result<(), Unwritten>
        ensures written { OnOk result
            (IsBehind (written_on W.contents self.old) (written_on W.contents self.new) text.now) }
        ensures failed { IfErr result
            (λ _. (written_on W.contents self.new).has_failed ≡ true) }
    {
        match write_whole(&mut self.writer, text) {
            Ok(()) => Ok(()),
            Err(_) => {
                self.has_failed = true;
                Err(Unwritten)
            }
        }
    }
}

// Writes the text, and hands it on where the writer keeps it back.
fn write_whole<W: Write>(writer: &mut W, text: &[u8]) -> io::Result<()>
    ensures { OnOk result (Appends (W.contents writer.old) (W.contents writer.new) text.now) }
{
    writer.write_all(text)?;
    writer.flush()
}
