//! What the bytes that wait make of a line.
ghost use Rattle.std.specs.Prelude.{◌<◌, ◌≤◌, true, false, length, IfOk};
ghost use Rattle.text_lines.specs.Piece.{Goes, IsPiece};

use crate::block::Block;
use memchr::memchr;
use std::alloc::AllocError;

const NEWLINE: u8 = b'\n';

/// What a line has become.
#[derive(Clone, Copy, Drop)]
pub enum LineState {
    /// It is whole: its newline was found.
    Whole,
    /// It goes on.
    More,
    /// It has more bytes than it may have.
    TooLong,
}

// The bytes before the first newline, and whether there is one.
fn piece_of(bytes: &[u8]) -> (&[u8], bool)
    ensures { IsPiece bytes.now result.0.now result.1 }
{
    match memchr(NEWLINE, bytes) {
        Some(at) => (bytes.split_at(at).0, true),
        None => (bytes, false),
    }
}

/// Adds the bytes that wait to a line, up to the first newline, unless it would have more than `most`.
pub fn go_on(line: &mut Vec<u8>, block: &mut Block, most: usize) -> Result<LineState, AllocError>
    requires short { length line.old.items ≤ most }
    requires some { 0 < length block.old }
    ensures { IfOk result
        (λ step. Goes most line.old.items line.new.items block.old block.new step) }
{
    let (piece, is_whole) = piece_of(block.waiting());
    let count = piece.len();
    if count > most - line.len() {
        block.go_past(count);
        return Ok(LineState::TooLong);
    }
    line.extend_from_slice(piece)?;
    if is_whole {
        block.go_past(count + 1);
        return Ok(LineState::Whole);
    }
    block.go_past(count);
    Ok(LineState::More)
}
