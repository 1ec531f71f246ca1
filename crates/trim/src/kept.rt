// The lines that are kept, and their new numbers.

ghost use Rattle.std.specs.Prelude.{◌≡◌, ◌<◌, ◌+◌, ◌++◌, ◌∷◌, [], Some, IfOk, OnOk, length, slice_get};
ghost use Rattle.trim.specs.Needed.{renumbered};
ghost use Rattle.trim.specs.Marks.{AreMarks};
ghost use Rattle.trim.specs.Kept.{AreKept};

use crate::copied::line_of;
use crate::marks::is_marked;
use refutation::Line;
use std::alloc::{AllocError, Global};

/// The lines so far that are kept, and the number that each line so far has among them, by its own number counted
/// from 1: 0 where it isn't kept.
#[derive(Drop)]
pub(crate) struct Kept {
    pub(crate) lines: Vec<Line>,
    pub(crate) numbers: Vec<u32>,
}

// The number of the next line. Where it has no 32 bits it is want of memory.
fn next_number(count: usize) -> Result<u32, AllocError>
    ensures { IfOk result (λ number. number ≡ count + 1) }
{
    let Ok(before) = u32::try_from(count) else {
        return Err(AllocError);
    };
    let Some(number) = before.checked_add(1) else {
        return Err(AllocError);
    };
    Ok(number)
}

impl Kept {
    // Keeps the next line.
    fn push(&mut self, alloc: Global, line: &Line) -> Result<(), AllocError>
        ensures lines { OnOk result
            (self.new.lines.items ≡ self.old.lines.items
            ++ renumbered self.old.numbers.items line.now ∷ []) }
        ensures numbers { OnOk result
            (self.new.numbers.items ≡ self.old.numbers.items ++ (length self.old.lines.items + 1)
            ∷ []) }
    {
        let copy = line_of(alloc, self.numbers.as_slice(), line)?;
        let number = next_number(self.lines.len())?;
        self.lines.push(copy)?;
        self.numbers.push(number)?;
        Ok(())
    }

    // Leaves the next line out.
    fn pass(&mut self) -> Result<(), AllocError>
        ensures lines { OnOk result (self.new.lines.items ≡ self.old.lines.items) }
        ensures numbers { OnOk result (self.new.numbers.items ≡ self.old.numbers.items ++ 0 ∷ []) }
    {
        self.numbers.push(0)?;
        Ok(())
    }

    // Keeps the next line, at this place, if it is marked.
    fn next(
        &mut self,
        alloc: Global,
        lines: &[Line],
        marks: &[bool],
        place: usize,
        line: &Line,
    ) -> Result<(), AllocError>
        requires within { place < length lines.now }
        requires there { slice_get lines.now place ≡ Some line.now }
        requires marks { AreMarks lines.now marks.now 0 }
        requires kept { AreKept lines.now marks.now place self.old.numbers.items
            self.old.lines.items }
        ensures { OnOk result
            (AreKept lines.now marks.now (place + 1) self.new.numbers.items self.new.lines.items) }
    {
        if is_marked(marks, place + 1) {
            self.push(alloc, line)?;
            return Ok(());
        }
        self.pass()?;
        Ok(())
    }

    // No lines.
    fn none(alloc: Global) -> Result<Kept, AllocError>
        ensures lines { IfOk result (λ kept. kept.lines.items ≡ []) }
        ensures numbers { IfOk result (λ kept. kept.numbers.items ≡ 0 ∷ []) }
    {
        let mut numbers = Vec::new(alloc);
        numbers.push(0)?;
        Ok(Kept {
            lines: Vec::new(alloc),
            numbers,
        })
    }

    /// The lines that are marked. Memory alone can fail, and want of it is answered where a number has no 32 bits. Linear
    /// in the lines and in what is kept.
    pub(crate) fn of_marked(
        alloc: Global,
        lines: &[Line],
        marks: &[bool],
    ) -> Result<Kept, AllocError>
        requires { AreMarks lines.now marks.now 0 }
        ensures { IfOk result
            (λ kept. AreKept lines.now marks.now
            (length lines.now) kept.numbers.items kept.lines.items) }
    {
        let mut kept = Kept::none(alloc)?;
        for (place, line) in lines.iter().enumerate() {
            kept.next(alloc, lines, marks, place, line)?;
        }
        Ok(kept)
    }
}
