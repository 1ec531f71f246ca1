// The words of the command line.
use std::alloc::AllocError;
use std::env::{Env, FillError};

/// The words of the command line, which need not be text.
pub(crate) fn words_of(rt: &HostRuntime) -> Result<Vec<Vec<u8>>, AllocError> {
    let mut words = Vec::new(rt.alloc());
    for number in 0..usize::MAX {
        let Some(word) = word_at(rt, number)? else {
            break;
        };
        words.push(word)?;
    }
    Ok(words)
}

// The word of this number, or nothing behind the last. The room for it is doubled until it fits.
fn word_at(rt: &HostRuntime, number: usize) -> Result<Option<Vec<u8>>, AllocError> {
    let mut room = 256usize;
    for _ in 0..usize::BITS {
        let mut word = Vec::new(rt.alloc());
        word.resize(room, 0u8)?;
        match rt.arg(number, word.as_mut_slice()) {
            Ok(len) => {
                word.truncate(len);
                return Ok(Some(word));
            }
            Err(FillError::NotPresent) => return Ok(None),
            Err(FillError::TooLong) => room = room.saturating_mul(2),
        }
    }
    Err(AllocError)
}
