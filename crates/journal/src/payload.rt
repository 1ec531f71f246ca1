//! What the payload of a record says.
ghost use Rattle.std.specs.Prelude.{◌≡◌, [], ◌==◌, IfOk, MatchOption};
ghost use Rattle.std.specs.Io.BufRead.{take_through, drop_through};
ghost use Rattle.std.specs.List.{position};
ghost use Rattle.std.specs.Option.{option_copied, unwrap_or};
ghost use Rattle.journal.specs.Payload as Spec;
ghost use Rattle.journal.specs.Payload.{HasItsText, Says};
ghost use Rattle.plantext.specs.declared.cut.TheConstants.{NEWLINE};

use crate::ledger::RecordedStep;
use plantext::{NEWLINE, PlanError, read_step};
use rules::Step;
use std::alloc::{AllocError, Global};

fn first_newline(text: &[u8]) -> Option<usize>
    ensures { result ≡ position (λ b. b == NEWLINE) text.now }
{
    text.iter().position(|byte| *byte == NEWLINE)
}

// The first line, with its newline, and what is behind it.
fn split_line(text: &[u8]) -> (&[u8], &[u8])
    ensures line { result.0.now ≡ take_through NEWLINE text.now }
    ensures behind { result.1.now ≡ drop_through NEWLINE text.now }
{
    match first_newline(text) {
        Some(at) => text.split_at(at + 1),
        None => text.split_at(text.len()),
    }
}

// The text beside a step, where what is behind its line is one.
fn text_beside<'a>(step: &Step, behind: &'a [u8]) -> Option<Option<&'a [u8]>>
    ensures { MatchOption result
        ((text : _) → HasItsText step.now text → ¬ (behind.now ≡ unwrap_or text []))
        (λ text. HasItsText step.now (option_copied text)
        × (behind.now ≡ unwrap_or (option_copied text) [])) }
{
    match (step, behind) {
        (Step::Unpack(_, _), _) => Some(Some(behind)),
        (_, []) => Some(None),
        _ => None,
    }
}

/// What the payload says, if it is one. Memory alone can fail. Linear in it.
pub fn read_payload<'a>(
    alloc: Global,
    payload: &'a [u8],
) -> Result<Option<RecordedStep<'a>>, AllocError>
    ensures { IfOk result
        (λ said. MatchOption said ((recorded : Spec.RecordedStep) → ¬ Says payload.now recorded)
        (Says payload.now)) }
{
    let (line, behind) = split_line(payload);
    let step = match read_step(alloc, line) {
        Ok(step) => step,
        Err(PlanError::Refused(_)) => return Ok(None),
        Err(PlanError::OutOfMemory) => return Err(AllocError),
    };
    match text_beside(&step, behind) {
        Some(stanza) => Ok(Some(RecordedStep::new(step, stanza))),
        None => Ok(None),
    }
}
