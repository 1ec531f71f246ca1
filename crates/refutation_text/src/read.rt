// The lines in the text of a refutation.

ghost use Rattle.std.specs.Prelude.{◌≡◌, ◌<◌, ◌+◌, ◌^◌, [], Err, ◌≤◌, IfErr, IfOk, MatchResult, Ok, OnOk, length};
ghost use Rattle.std.specs.Str.{bytes_eq};
ghost use Rattle.rules.specs.declared.limits.TheConstants.{TEXT_BYTES};
ghost use Rattle.plantext.specs.Cut.{parts_at};
ghost use Rattle.refutation_text.specs.Error.{IsRefutationFault};
ghost use Rattle.refutation_text.specs.Text as Spec;
ghost use Rattle.refutation_text.specs.Text.{header, is_wide, line_in_text, read_lines, read_refutation};
ghost use Rattle.plantext.specs.declared.cut.TheConstants.{NEWLINE};
ghost use Rattle.refutation_text.specs.declared.error.RefutationError.TheVariants.{Refused};
ghost use Rattle.refutation_text.specs.declared.error.RefutationFault.TheVariants.{TooLarge};
ghost use Rattle.refutation_text.specs.declared.limits.TheConstants.{LINES};

use crate::error::{RefutationError, RefutationFault};
use crate::limits::{LINES, WIDTH};
use crate::line::line_of;
use plantext::{NEWLINE, cut_part, split_part};
use refutation::{Line, Refutation};
use rules::TEXT_BYTES;
use std::alloc::Global;

fn is_header(line: &[u8]) -> bool
    ensures { result ≡ bytes_eq line.now header }
{
    line == b"refutation 1".as_slice()
}

// Whether the line has too many literals, or too many hints.
fn is_wide(line: &Line) -> bool
    ensures { result ≡ is_wide line.now }
{
    match line {
        Line::Premise(_) => false,
        Line::Derived(literals, hints) => {
            literals.as_slice().len() > WIDTH || hints.as_slice().len() > WIDTH
        }
    }
}

// The line of this number in its text, which has its newline.
fn line_in_text(alloc: Global, number: usize, text: &[u8]) -> Result<Line, RefutationError>
    requires { number + 1 < 2 ^ 64 }
    ensures ok { IfOk result (λ line. line_in_text number text.now ≡ Ok line) }
    ensures err { IfErr result (λ e. IsRefutationFault e (line_in_text number text.now)) }
    ensures within { OnOk result (number ≤ LINES) }
{
    let Some(line) = line_of(alloc, text)? else {
        return Err(RefutationError::Refused(RefutationFault::BadRefutation(number + 1)));
    };
    if number > LINES || is_wide(&line) {
        return Err(RefutationError::Refused(RefutationFault::TooLarge));
    }
    Ok(line)
}

// Behind the last newline nothing may stand.
fn check_end(number: usize, last: &[u8]) -> Result<(), RefutationFault>
    requires { number + 1 < 2 ^ 64 }
    ensures { MatchResult result (λ _. Spec.read_end number last.now ≡ Ok [])
        (λ fault. Spec.read_end number last.now ≡ Err fault) }
{
    match last {
        [] => Ok(()),
        [_, ..] => Err(RefutationFault::BadRefutation(number + 1)),
    }
}

// The lines behind the header's.
fn read_lines(alloc: Global, texts: &[u8]) -> Result<Vec<Line>, RefutationError>
    ensures ok { IfOk result (λ lines. read_lines 1 (parts_at NEWLINE texts.now) ≡ Ok lines.items) }
    ensures err { IfErr result
        (λ e. IsRefutationFault e (read_lines 1 (parts_at NEWLINE texts.now))) }
{
    let mut lines = Vec::new(alloc);
    let mut rest = texts;
    while let Some((text, after)) = split_part(NEWLINE, rest) {
        lines.push(line_in_text(alloc, lines.len() + 1, text)?)?;
        rest = after;
    }
    check_end(lines.len() + 1, rest)?;
    Ok(lines)
}

/// Reads the text of a refutation: the line `refutation 1`, then its lines, each with its newline. The answer to a
/// text that isn't one is its first refusal in reading order. Linear in the text.
#[tactic(auto, unfolding(crate::specs::Text::read_refutation))]
pub fn read_refutation(alloc: Global, text: &[u8]) -> Result<Refutation, RefutationError>
    ensures ok { IfOk result (λ lines. read_refutation text.now ≡ Ok lines) }
    ensures err { IfErr result (λ e. IsRefutationFault e (read_refutation text.now)) }
    ensures too_long { TEXT_BYTES < length text.now → result ≡ Err (Refused TooLarge) }
{
    if text.len() > TEXT_BYTES {
        return Err(RefutationError::Refused(RefutationFault::TooLarge));
    }
    let (first, left) = cut_part(NEWLINE, text);
    if !is_header(first) {
        return Err(RefutationError::Refused(RefutationFault::BadRefutation(1)));
    }
    match left {
        None => Err(RefutationError::Refused(RefutationFault::BadRefutation(1))),
        Some(lines) => Ok(Refutation::new(read_lines(alloc, lines)?)),
    }
}
