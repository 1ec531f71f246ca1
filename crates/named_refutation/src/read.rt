// The lines in the text of a refutation.

ghost use Rattle.std.specs.Prelude.{◌≡◌, ◌<◌, ◌+◌, ◌^◌, [], Err, ◌≤◌, IfErr, IfOk, MatchResult, Ok, OnOk, decimal, length};
ghost use Rattle.std.specs.Str.{bytes_eq};
ghost use Rattle.rules.specs.declared.limits.TheConstants.{TEXT_BYTES};
ghost use Rattle.plantext.specs.Cut.{parts_at};
ghost use Rattle.plantext.specs.Plan.{end_line};
ghost use Rattle.plantext.specs.declared.cut.TheConstants.{NEWLINE};
ghost use Rattle.refutation_text.specs.Error.{IsRefutationFault};
ghost use Rattle.refutation_text.specs.declared.error.RefutationError.TheVariants.{Refused};
ghost use Rattle.refutation_text.specs.declared.error.RefutationFault.TheVariants.{TooLarge};
ghost use Rattle.refutation_text.specs.declared.limits.TheConstants.{LINES};
ghost use Rattle.named_refutation.specs.Text as Spec;
ghost use Rattle.named_refutation.specs.Text.{cut_indices, header, is_wide, line_in_text, read_behind, read_lines, read_named, with_indices};

use crate::index_line::index_of;
use crate::line::line_of;
use crate::named::{IndexLine, NamedLine, NamedRefutation};
use itoa::Buffer;
use plantext::{NEWLINE, cut_part, split_part};
use refutation_text::{LINES, RefutationError, RefutationFault, WIDTH};
use rules::{Items, TEXT_BYTES};
use std::alloc::Global;

fn is_header(line: &[u8]) -> bool
    ensures { result ≡ bytes_eq line.now header }
{
    line == b"refutation 2".as_slice()
}

// Whether the digits are those of the number.
fn is_decimal(number: usize, digits: &[u8]) -> bool
    ensures { result ≡ bytes_eq digits.now (decimal number) }
{
    digits == Buffer::new().format(number).as_bytes()
}

// Whether the line ends so many.
fn is_end(count: usize, line: &[u8]) -> bool
    ensures { result ≡ bytes_eq line.now (end_line count) }
{
    match line {
        [b'e', b'n', b'd', b' ', digits @ ..] => is_decimal(count, digits),
        _ => false,
    }
}

// Whether the line has too many literals, or too many hints.
fn is_wide(line: &NamedLine) -> bool
    ensures { result ≡ is_wide line.now }
{
    match line {
        NamedLine::Premise(_) => false,
        NamedLine::Derived(literals, hints) => {
            literals.as_slice().len() > WIDTH || hints.as_slice().len() > WIDTH
        }
    }
}

// The line of this number in its text, which has its newline; so many lines of another kind stand before the first.
fn line_in_text(
    alloc: Global,
    before: usize,
    number: usize,
    text: &[u8],
) -> Result<NamedLine, RefutationError>
    requires { before + number < 2 ^ 64 }
    ensures ok { IfOk result (λ line. line_in_text before number text.now ≡ Ok line) }
    ensures err { IfErr result (λ e. IsRefutationFault e (line_in_text before number text.now)) }
    ensures within { OnOk result (number ≤ LINES) }
{
    let Some(line) = line_of(alloc, text)? else {
        return Err(RefutationError::Refused(RefutationFault::BadRefutation(before + number)));
    };
    if number > LINES || is_wide(&line) {
        return Err(RefutationError::Refused(RefutationFault::TooLarge));
    }
    Ok(line)
}

// Behind the last line, which has this place in the text, nothing may stand.
#[tactic(auto, using(crate::proofs::LineLemmas::read_end_more))]
fn check_end(place: usize, rest: &[u8]) -> Result<(), RefutationFault>
    requires { place + 1 < 2 ^ 64 }
    ensures { MatchResult result (λ _. Spec.read_end place (parts_at NEWLINE rest.now) ≡ Ok [])
        (λ fault. Spec.read_end place (parts_at NEWLINE rest.now) ≡ Err fault) }
{
    match rest {
        [] => Ok(()),
        [_, ..] => Err(RefutationFault::BadRefutation(place + 1)),
    }
}

// The lines before the line that ends so many.
fn read_lines(alloc: Global, before: usize, texts: &[u8]) -> Result<Vec<NamedLine>, RefutationError>
    requires { before ≤ TEXT_BYTES + 1 }
    ensures ok { IfOk result
        (λ lines. read_lines before 0 (parts_at NEWLINE texts.now) ≡ Ok lines.items) }
    ensures err { IfErr result
        (λ e. IsRefutationFault e (read_lines before 0 (parts_at NEWLINE texts.now))) }
{
    let mut lines = Vec::new(alloc);
    let mut rest = texts;
    while let Some((text, after)) = split_part(NEWLINE, rest) {
        let number = lines.len() + 1;
        if is_end(lines.len(), text) {
            check_end(before + number, after)?;
            return Ok(lines);
        }
        lines.push(line_in_text(alloc, before, number, text)?)?;
        rest = after;
    }
    Err(RefutationError::Refused(RefutationFault::BadRefutation(before + (lines.len() + 1))))
}

// The refutation of these indices and of the lines behind them.
fn read_behind(
    alloc: Global,
    indices: Vec<IndexLine>,
    texts: &[u8],
) -> Result<NamedRefutation, RefutationError>
    requires { length indices.items ≤ TEXT_BYTES }
    ensures ok { IfOk result
        (λ refutation. read_behind (indices.items, parts_at NEWLINE texts.now) ≡ Ok refutation) }
    ensures err { IfErr result
        (λ e. IsRefutationFault e (read_behind (indices.items, parts_at NEWLINE texts.now))) }
{
    let lines = read_lines(alloc, indices.len() + 1, texts)?;
    Ok(NamedRefutation {
        indices: Items::new(indices),
        lines: Items::new(lines),
    })
}

// The refutation of the lines behind the header.
fn read_texts(alloc: Global, texts: &[u8]) -> Result<NamedRefutation, RefutationError>
    requires { length texts.now ≤ TEXT_BYTES }
    ensures ok { IfOk result
        (λ refutation. read_behind (cut_indices (parts_at NEWLINE texts.now)) ≡ Ok refutation) }
    ensures err { IfErr result
        (λ e. IsRefutationFault e (read_behind (cut_indices (parts_at NEWLINE texts.now)))) }
{
    let mut indices = Vec::new(alloc);
    let mut rest = texts;
    while let Some((text, after)) = split_part(NEWLINE, rest) {
        let Some(index) = index_of(alloc, text)? else {
            return read_behind(alloc, indices, rest);
        };
        indices.push(index)?;
        rest = after;
    }
    read_behind(alloc, indices, rest)
}

/// Reads the text of a refutation whose pairs are named: the line `refutation 2`, lines of indices, its lines, and the line
/// `end N`, N the number of its lines; each with its newline. The answer to a text that isn't one is its first refusal in
/// reading order. Linear in the text.
#[tactic(auto, unfolding(crate::specs::Text::read_named))]
pub fn read_named_refutation(alloc: Global, text: &[u8]) -> Result<NamedRefutation, RefutationError>
    ensures ok { IfOk result (λ refutation. read_named text.now ≡ Ok refutation) }
    ensures err { IfErr result (λ e. IsRefutationFault e (read_named text.now)) }
    ensures too_long { TEXT_BYTES < length text.now → result ≡ Err (Refused TooLarge) }
{
    if text.len() > TEXT_BYTES {
        return Err(RefutationError::Refused(RefutationFault::TooLarge));
    }
    let (first, left) = cut_part(NEWLINE, text);
    if !is_header(first) {
        return Err(RefutationError::Refused(RefutationFault::BadRefutation(1)));
    }
    match left {
        None => Err(RefutationError::Refused(RefutationFault::BadRefutation(1))),
        Some(texts) => read_texts(alloc, texts),
    }
}
