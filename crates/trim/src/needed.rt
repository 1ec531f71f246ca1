// The lines of a refutation that its last one needs.

ghost use Rattle.std.specs.Prelude.{IfOk};
ghost use Rattle.trim.specs.Needed.{AreAllNamed, ArePremisesOf, StaysAccepted};

use crate::kept::Kept;
use crate::marks::marks_of;
use refutation::Refutation;
use std::alloc::{AllocError, Global};

/// The lines of the refutation that its last one needs, by its hints and by theirs, in their order, with the hints
/// numbered anew. It is accepted over every universe over which the refutation is, and its premises are among those of the
/// refutation. Memory alone can fail, and want of it is answered where more than 4,294,967,295 lines are needed. Linear in
/// the lines, their literals and their hints.
pub fn needed_lines(alloc: Global, refutation: &Refutation) -> Result<Refutation, AllocError>
    // accepted over every universe over which the refutation is accepted
    ensures accepted { IfOk result (StaysAccepted refutation.now) }
    // its premises are among those of the refutation
    ensures premises { IfOk result (λ needed. ArePremisesOf needed refutation.now) }
    // every line but the last is named by a later one
    ensures needed { IfOk result AreAllNamed }
{
    let lines = refutation.as_slice();
    let marks = marks_of(alloc, lines)?;
    let kept = Kept::of_marked(alloc, lines, marks.as_slice())?;
    Ok(Refutation::new(kept.lines))
}
