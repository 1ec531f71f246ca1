// What is told of a goal that is left out.

use itoa::Buffer;
use request_lines::Wish;
use std::alloc::AllocError;

fn push_count(text: &mut Vec<u8>, count: usize) -> Result<(), AllocError> {
    let mut buffer = Buffer::new();
    text.extend_from_slice(buffer.format(count).as_bytes())
}

// The lines but for the last one.
fn without_last_line(text: &[u8]) -> &[u8] {
    let Some((_, lines)) = text.split_last() else {
        return text;
    };
    match lines.iter().rposition(|byte| *byte == b'\n') {
        None => &[],
        Some(at) => text.split_at(at + 1).0,
    }
}

// Writes the lines, each behind two spaces.
fn push_indented(text: &mut Vec<u8>, lines: &[u8]) -> Result<(), AllocError> {
    let mut is_first = true;
    for byte in lines {
        if is_first {
            text.extend_from_slice(b"  ")?;
        }
        text.push(*byte)?;
        is_first = *byte == b'\n';
    }
    Ok(())
}

/// Writes that the wish is kept back. Memory alone can fail.
pub(crate) fn push_wish(text: &mut Vec<u8>, wish: &Wish) -> Result<(), AllocError> {
    text.extend_from_slice(b"Kept back: ")?;
    text.extend_from_slice(wish.text.as_bytes())?;
    text.extend_from_slice(b" (line ")?;
    push_count(text, wish.line)?;
    text.extend_from_slice(b"), since:\n")
}

/// Writes below a wish what these sentences say but for their closing line. Memory alone can fail.
pub(crate) fn push_reasons(text: &mut Vec<u8>, sentences: &[u8]) -> Result<(), AllocError> {
    push_indented(text, without_last_line(sentences))
}

/// Writes below a wish that it can't be had beside what is left, where the reasons aren't told. Memory alone can fail.
pub(crate) fn push_refuted(text: &mut Vec<u8>) -> Result<(), AllocError> {
    text.extend_from_slice(b"  With it the request that is left can't be satisfied.\n")
}

/// Writes below a wish that it isn't known whether it can be had beside what is left. Memory alone can fail.
pub(crate) fn push_undecided(text: &mut Vec<u8>) -> Result<(), AllocError> {
    text.extend_from_slice(b"  With it the request that is left isn't decided.\n")
}

/// How many of the wishes may be left out: those that ask for an installation or an upgrade.
pub(crate) fn count_goals(wishes: &[Wish]) -> usize {
    wishes.iter().filter(|wish| wish.asks_for_more()).count()
}

/// Writes how many goals are left of all, and that the others were tried again. Memory alone can fail.
pub(crate) fn push_counts(text: &mut Vec<u8>, left: usize, all: usize) -> Result<(), AllocError> {
    text.extend_from_slice(b"Goals that are left: ")?;
    push_count(text, left)?;
    text.extend_from_slice(b" of ")?;
    push_count(text, all)?;
    text.extend_from_slice(b". Each of the others was tried again, alone beside them.\n")
}
