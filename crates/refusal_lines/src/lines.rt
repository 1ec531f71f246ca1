// The line that is printed of a refusal.
ghost use Rattle.std.specs.Prelude.{◌≡◌, IfOk};
ghost use Rattle.refusal_lines.specs.Lines as Spec;

use crate::journals::{begin_words, run_words};
use crate::texts::{fault_words, place_words};
use apply::{BeginError, RunError};
use inputs::Refusal;
use std::alloc::{AllocError, Global};

// A place, and what is wrong there.
fn with_place(mut place: Vec<u8>, said: &[u8]) -> Result<Vec<u8>, AllocError>
    ensures { IfOk result (λ words. words.items ≡ Spec.with_place place.items said.now) }
{
    place.extend_from_slice(b": ")?;
    place.extend_from_slice(said)?;
    Ok(place)
}

// A line on standard error.
fn line_of(alloc: Global, said: &[u8]) -> Result<Vec<u8>, AllocError>
    ensures { IfOk result (λ line. line.items ≡ Spec.line_of said.now) }
{
    let mut line = b"debplan: ".to_vec(alloc)?;
    line.extend_from_slice(said)?;
    line.extend_from_slice(b"\n")?;
    Ok(line)
}

/// Which text is refused, and why: `index 1: E4 DuplicateField 7`. Memory alone can fail.
pub fn refusal_words(alloc: Global, refusal: &Refusal) -> Result<Vec<u8>, AllocError>
    ensures { IfOk result (λ words. words.items ≡ Spec.refusal_words refusal.now) }
{
    let place = place_words(alloc, refusal.place)?;
    let said = fault_words(alloc, &refusal.fault)?;
    with_place(place, said.as_slice())
}

/// The line that is printed of a text that is refused. Memory alone can fail.
pub fn refusal_line(alloc: Global, refusal: &Refusal) -> Result<Vec<u8>, AllocError>
    ensures { IfOk result (λ line. line.items ≡ Spec.refusal_line refusal.now) }
{
    let words = refusal_words(alloc, refusal)?;
    line_of(alloc, words.as_slice())
}

/// The line that is printed of a plan for which no journal is made. Memory alone can fail.
pub fn unbegun_line(alloc: Global, e: BeginError) -> Result<Vec<u8>, AllocError>
    ensures { IfOk result (λ line. line.items ≡ Spec.unbegun_line e) }
{
    let place = b"journal".to_vec(alloc)?;
    let said = begin_words(alloc, e)?;
    let words = with_place(place, said.as_slice())?;
    line_of(alloc, words.as_slice())
}

/// The line that is printed of a plan that its journal doesn't carry out. Memory alone can fail.
pub fn stopped_line(alloc: Global, e: &RunError<'_>) -> Result<Vec<u8>, AllocError>
    ensures { IfOk result (λ line. line.items ≡ Spec.stopped_line e.now) }
{
    let place = b"journal".to_vec(alloc)?;
    let said = run_words(alloc, e)?;
    let words = with_place(place, said.as_slice())?;
    line_of(alloc, words.as_slice())
}
