// The steps in the text of a plan.

ghost use Rattle.std.specs.Prelude.{◌≡◌, ◌<◌, ◌+◌, ◌^◌, [], Err, ◌≤◌, IfErr, IfOk, MatchResult, Ok, OnOk, decimal, length};
ghost use Rattle.std.specs.Option.{option_copied};
ghost use Rattle.std.specs.Str.{bytes_eq};
ghost use Rattle.plantext.specs.Error.{IsPlanFault};
ghost use Rattle.plantext.specs.Cut.{parts_at};
ghost use Rattle.plantext.specs.Plan as Spec;
ghost use Rattle.plantext.specs.Plan.{end_line, header, header_2, only_line, read_plan, read_step, read_steps, read_steps_2, step_in_line};
ghost use Rattle.rules.specs.declared.limits.TheConstants.{STEPS, TEXT_BYTES};
ghost use Rattle.plantext.specs.declared.cut.TheConstants.{NEWLINE};
ghost use Rattle.plantext.specs.declared.error.PlanError.TheVariants.{Refused};
ghost use Rattle.plantext.specs.declared.error.PlanFault.TheVariants.{TooLarge};

use crate::cut::{NEWLINE, cut_part, split_part};
use crate::error::{PlanError, PlanFault};
use crate::step_line::step_of;
use itoa::Buffer;
use rules::{STEPS, Step, TEXT_BYTES};
use std::alloc::Global;

fn is_header(line: &[u8]) -> bool
    ensures { result ≡ bytes_eq line.now header }
{
    line == b"plan 1".as_slice()
}

fn is_header_2(line: &[u8]) -> bool
    ensures { result ≡ bytes_eq line.now header_2 }
{
    line == b"plan 2".as_slice()
}

// Whether the digits are those of the number.
fn is_decimal(number: usize, digits: &[u8]) -> bool
    ensures { result ≡ bytes_eq digits.now (decimal number) }
{
    digits == Buffer::new().format(number).as_bytes()
}

// Whether the line ends a plan of this many steps in version 2.
fn is_end(count: usize, line: &[u8]) -> bool
    ensures { result ≡ bytes_eq line.now (end_line count) }
{
    match line {
        [b'e', b'n', b'd', b' ', digits @ ..] => is_decimal(count, digits),
        _ => false,
    }
}

// The step of this number in its line, which has its newline.
fn step_in_line(alloc: Global, number: usize, line: &[u8]) -> Result<Step, PlanError>
    requires { number + 1 < 2 ^ 64 }
    ensures ok { IfOk result (λ step. step_in_line number line.now ≡ Ok step) }
    ensures err { IfErr result (λ e. IsPlanFault e (step_in_line number line.now)) }
    ensures within { OnOk result (number ≤ STEPS) }
{
    let Some(step) = step_of(alloc, line)? else {
        return Err(PlanError::Refused(PlanFault::BadPlan(number + 1)));
    };
    if number > STEPS {
        return Err(PlanError::Refused(PlanFault::TooLarge));
    }
    Ok(step)
}

// Behind the last line, which has this number, nothing may stand.
#[tactic(auto, using(crate::proofs::PlanLemmas::read_end_more))]
fn check_end(number: usize, rest: &[u8]) -> Result<(), PlanFault>
    requires { number + 1 < 2 ^ 64 }
    ensures { MatchResult result (λ _. Spec.read_end number (parts_at NEWLINE rest.now) ≡ Ok [])
        (λ fault. Spec.read_end number (parts_at NEWLINE rest.now) ≡ Err fault) }
{
    match rest {
        [] => Ok(()),
        [_, ..] => Err(PlanFault::BadPlan(number + 1)),
    }
}

// The steps of the lines behind the header of version 1.
fn read_steps(alloc: Global, lines: &[u8]) -> Result<Vec<Step>, PlanError>
    ensures ok { IfOk result (λ steps. read_steps 1 (parts_at NEWLINE lines.now) ≡ Ok steps.items) }
    ensures err { IfErr result (λ e. IsPlanFault e (read_steps 1 (parts_at NEWLINE lines.now))) }
{
    let mut steps = Vec::new(alloc);
    let mut rest = lines;
    while let Some((line, after)) = split_part(NEWLINE, rest) {
        steps.push(step_in_line(alloc, steps.len() + 1, line)?)?;
        rest = after;
    }
    check_end(steps.len() + 1, rest)?;
    Ok(steps)
}

// The steps of the lines behind the header of version 2: those before the line that ends a plan of so many.
fn read_steps_2(alloc: Global, lines: &[u8]) -> Result<Vec<Step>, PlanError>
    ensures ok { IfOk result
        (λ steps. read_steps_2 0 (parts_at NEWLINE lines.now) ≡ Ok steps.items) }
    ensures err { IfErr result (λ e. IsPlanFault e (read_steps_2 0 (parts_at NEWLINE lines.now))) }
{
    let mut steps = Vec::new(alloc);
    let mut rest = lines;
    while let Some((line, after)) = split_part(NEWLINE, rest) {
        if is_end(steps.len(), line) {
            check_end(steps.len() + 2, after)?;
            return Ok(steps);
        }
        steps.push(step_in_line(alloc, steps.len() + 1, line)?)?;
        rest = after;
    }
    Err(PlanError::Refused(PlanFault::BadPlan(steps.len() + 2)))
}

/// Reads the text of a plan in either version: the line `plan 1` and one step a line, or the line `plan 2`, one step a
/// line, and the line `end N`, N the number of the steps; each line with its newline. The answer to a text that isn't
/// one is its first refusal in reading order. Linear in the text, and the memory in its steps.
#[tactic(auto, unfolding(crate::specs::Plan::read_plan))]
pub fn read_plan(alloc: Global, text: &[u8]) -> Result<Vec<Step>, PlanError>
    ensures ok { IfOk result (λ steps. read_plan text.now ≡ Ok steps.items) }
    ensures err { IfErr result (λ e. IsPlanFault e (read_plan text.now)) }
    ensures too_long { TEXT_BYTES < length text.now → result ≡ Err (Refused TooLarge) }
{
    if text.len() > TEXT_BYTES {
        return Err(PlanError::Refused(PlanFault::TooLarge));
    }
    let (first, Some(lines)) = cut_part(NEWLINE, text) else {
        return Err(PlanError::Refused(PlanFault::BadPlan(1)));
    };
    if is_header(first) {
        read_steps(alloc, lines)
    } else if is_header_2(first) {
        read_steps_2(alloc, lines)
    } else {
        Err(PlanError::Refused(PlanFault::BadPlan(1)))
    }
}

// The line that is all of the text but for the newline at its end.
#[tactic(auto, using(crate::proofs::PlanLemmas::only_line_more))]
fn only_line(text: &[u8]) -> Option<&[u8]>
    ensures { option_copied result ≡ only_line (parts_at NEWLINE text.now) }
{
    let (line, last) = split_part(NEWLINE, text)?;
    match last {
        [] => Some(line),
        [_, ..] => None,
    }
}

/// Reads the line of one step, with its newline, and nothing else. Every other text is refused as its first line, but for
/// one that is too long. Linear in the text.
#[tactic(auto, unfolding(crate::specs::Plan::read_step))]
pub fn read_step(alloc: Global, text: &[u8]) -> Result<Step, PlanError>
    ensures ok { IfOk result (λ step. read_step text.now ≡ Ok step) }
    ensures err { IfErr result (λ e. IsPlanFault e (read_step text.now)) }
    ensures too_long { TEXT_BYTES < length text.now → result ≡ Err (Refused TooLarge) }
{
    if text.len() > TEXT_BYTES {
        return Err(PlanError::Refused(PlanFault::TooLarge));
    }
    let Some(line) = only_line(text) else {
        return Err(PlanError::Refused(PlanFault::BadPlan(1)));
    };
    match step_of(alloc, line)? {
        None => Err(PlanError::Refused(PlanFault::BadPlan(1))),
        Some(step) => Ok(step),
    }
}
