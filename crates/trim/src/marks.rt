// Which lines the last one needs, from the last line back to the first.

ghost use Rattle.std.specs.Prelude.{◌≡◌, ◌≢◌, ℕ, ◌<◌, ◌≤◌, ◌+◌, ◌-◌, true, false, IfOk, length, slice_index_or};
ghost use Rattle.std.specs.List.{Contains};
ghost use Rattle.std.specs.Option.{option_copied};
ghost use Rattle.refutation.specs.Clause.{item_at};
ghost use Rattle.trim.specs.Needed.{HintsAt};
ghost use Rattle.trim.specs.Marks.{AreMarks, IsMarked, MarksAlso};

use refutation::Line;
use std::alloc::{AllocError, Global};

/// Whether the number is marked.
pub(crate) fn is_marked(marks: &[bool], number: usize) -> bool
    ensures { result ≡ slice_index_or marks.now number false }
{
    match marks.get(number) {
        Some(marked) => *marked,
        None => false,
    }
}

// No marks for this number of lines but that of the last.
fn mark_of_last(alloc: Global, count: usize) -> Result<Vec<bool>, AllocError>
    ensures long { IfOk result (λ marks. length marks.items ≡ count + 1) }
    ensures last { IfOk result (λ marks. IsMarked marks.items count) }
    ensures only { IfOk result
        (λ marks. (number : ℕ) → IsMarked marks.items number → number ≡ count) }
{
    let mut marks = vec![in alloc; false; count]?;
    marks.push(true)?;
    Ok(marks)
}

fn set_mark(marks: &mut Vec<bool>, place: usize)
    requires { place < length marks.old.items }
    ensures kept { (other : ℕ) → other ≢ place → slice_index_or marks.new.items other false
        ≡ slice_index_or marks.old.items other false }
    ensures marked { slice_index_or marks.new.items place false ≡ true }
    ensures long { length marks.new.items ≡ length marks.old.items }
{
    marks[place] = true;
}

// Marks the line that is hinted at, if it is before the line of this number.
fn mark_hint(marks: &mut Vec<bool>, number: usize, hint: usize)
    requires { number ≤ length marks.old.items }
    ensures { MarksAlso
        (λ other. (other < number) × (other ≡ hint)) marks.old.items marks.new.items }
{
    if hint < number {
        set_mark(marks, hint);
    }
}

// Marks the lines that are hinted at and are before the line of this number.
fn mark_hints(marks: &mut Vec<bool>, number: usize, hints: &[u32])
    requires { number ≤ length marks.old.items }
    ensures { MarksAlso
        (λ other. (other < number) × Contains hints.now other) marks.old.items marks.new.items }
{
    for hint in hints {
        mark_hint(marks, number, *hint as usize);
    }
}

// Marks the lines before this number at which the line has hints.
fn mark_hinted(marks: &mut Vec<bool>, number: usize, line: &Line)
    requires { number ≤ length marks.old.items }
    ensures { MarksAlso
        (λ other. (other < number) × HintsAt line.now other) marks.old.items marks.new.items }
{
    match line {
        Line::Premise(_) => {}
        Line::Derived(_, hints) => mark_hints(marks, number, hints.as_slice()),
    }
}

// The line of this number, counted from 1.
fn line_at(lines: &[Line], number: usize) -> Option<&Line>
    ensures { option_copied result ≡ item_at lines.now number }
{
    let place = number.checked_sub(1)?;
    lines.get(place)
}

// Marks the earlier lines at which the line of this number, if it is marked, has hints.
fn mark_needed(marks: &mut Vec<bool>, lines: &[Line], number: usize)
    requires some { 0 < number }
    requires within { number ≤ length lines.now }
    requires marks { AreMarks lines.now marks.old.items number }
    ensures { AreMarks lines.now marks.new.items (number - 1) }
{
    if !is_marked(marks.as_slice(), number) {
        return;
    }
    match line_at(lines, number) {
        Some(line) => mark_hinted(marks, number, line),
        None => {}
    }
}

/// Marks by number, counted from 1, of the lines that the last one needs. Memory alone can fail. Linear in the lines and
/// their hints.
pub(crate) fn marks_of(alloc: Global, lines: &[Line]) -> Result<Vec<bool>, AllocError>
    ensures { IfOk result (λ marks. AreMarks lines.now marks.items 0) }
{
    let mut marks = mark_of_last(alloc, lines.len())?;
    let mut number = lines.len();
    while number > 0 {
        mark_needed(&mut marks, lines, number);
        number -= 1;
    }
    Ok(marks)
}
