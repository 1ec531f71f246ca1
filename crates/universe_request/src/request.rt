// The goals of a request, and whether it asks for all versions.

ghost use Rattle.std.specs.Prelude.{◌≡◌, ◌<◌, ◌≤◌, Err, IfErr, IfOk, Ok, OnOk, length};
ghost use Rattle.std.specs.List.{list_any};
ghost use Rattle.rules.specs.declared.limits.TheConstants.{GOALS, TEXT_BYTES};
ghost use Rattle.universe_request.specs.Cut.{lines_of};
ghost use Rattle.universe_request.specs.Error.{IsRequestFault};
ghost use Rattle.universe_request.specs.Request.{is_all_versions, is_goalless, read_goal, read_lines, read_request};
ghost use Rattle.universe_request.specs.declared.error.RequestError.TheVariants.{Refused};
ghost use Rattle.universe_request.specs.declared.error.RequestFault.TheVariants.{TooLarge};

use crate::error::{RequestError, RequestFault};
use crate::goal_text::{goal_of, is_all_versions};
use crate::words::{cut_line, is_skipped};
use rules::{GOALS, GoalLine, TEXT_BYTES};
use std::alloc::Global;
use std::marker::Model;

/// A request: its goals in order, each with the line that asks for it, and whether it asks for all versions.
#[derive(Drop)]
pub struct Request {
    goals: Vec<GoalLine>,
    asks_all_versions: bool,
}

impl Model for Request {
    ghost use Rattle.universe_request.specs.Request.{ReadRequest};

    ghost Value = { ReadRequest };

    ghost view = { λ request. record { goals = request.goals.items; asks_all_versions = request.asks_all_versions } };
}

// The goal of this number in the text of this line.
fn read_goal(
    alloc: Global,
    line: usize,
    number: usize,
    text: &[u8],
    arch: &[u8],
) -> Result<GoalLine, RequestError>
    ensures ok { IfOk result (λ goal. read_goal arch.now line number text.now ≡ Ok goal) }
    ensures err { IfErr result (λ e. IsRequestFault e (read_goal arch.now line number text.now)) }
    ensures within { OnOk result (number ≤ GOALS) }
{
    let Some(goal) = goal_of(alloc, text, arch)? else {
        return Err(RequestError::Refused(RequestFault::BadRequest(line)));
    };
    if number > GOALS {
        return Err(RequestError::Refused(RequestFault::TooLarge));
    }
    Ok(GoalLine { line, goal })
}

fn is_goalless(line: &[u8]) -> bool
    ensures { result ≡ is_goalless line.now }
{
    is_skipped(line) || is_all_versions(line)
}

// Whether a line asks for all versions.
fn asks_all_versions(text: &[u8]) -> bool
    ensures { result ≡ list_any is_all_versions (lines_of text.now) }
{
    text.split(|byte| *byte == b'\n')
        .any(|line| is_all_versions(line))
}

// The goals of all lines.
fn read_lines(alloc: Global, text: &[u8], arch: &[u8]) -> Result<Vec<GoalLine>, RequestError>
    requires { length text.now ≤ TEXT_BYTES }
    ensures ok { IfOk result
        (λ goals. read_lines arch.now 1 1 (lines_of text.now) ≡ Ok goals.items) }
    ensures err { IfErr result
        (λ e. IsRequestFault e (read_lines arch.now 1 1 (lines_of text.now))) }
{
    let mut goals = Vec::new(alloc);
    let mut line = 0;
    let mut left = Some(text);
    while let Some(rest) = left {
        let (here, after) = cut_line(rest);
        left = after;
        line += 1;
        if is_goalless(here) {
            continue;
        }
        goals.push(read_goal(alloc, line, goals.len() + 1, here, arch)?)?;
    }
    Ok(goals)
}

impl Request {
    /// Reads a request, for the configured architecture `arch`: a goal a line, but for lines that ask for all versions. The
    /// answer to a text that isn't one is its first refusal in reading order. Linear in the text, and the memory in its goals.
    #[tactic(auto, unfolding(crate::specs::Request::read_request))]
    pub fn read(alloc: Global, text: &[u8], arch: &[u8]) -> Result<Request, RequestError>
        ensures ok { IfOk result (λ request. read_request arch.now text.now ≡ Ok request) }
        ensures err { IfErr result (λ e. IsRequestFault e (read_request arch.now text.now)) }
        ensures too_long { TEXT_BYTES < length text.now → result ≡ Err (Refused TooLarge) }
    {
        if text.len() > TEXT_BYTES {
            return Err(RequestError::Refused(RequestFault::TooLarge));
        }
        let goals = read_lines(alloc, text, arch)?;
        Ok(Request {
            goals,
            asks_all_versions: asks_all_versions(text),
        })
    }

    /// The goals, in order.
    pub fn as_slice(&self) -> &[GoalLine]
        ensures { result.now ≡ self.now.goals }
    {
        self.goals.as_slice()
    }

    /// Whether a line asks for all versions: then every version that may be chosen is admitted, not the candidates alone.
    pub fn asks_all_versions(&self) -> bool
        ensures { result ≡ self.now.asks_all_versions }
    {
        self.asks_all_versions
    }

    /// The goals, in order, as an owned list.
    pub fn into_vec(self) -> Vec<GoalLine>
        ensures { result.items ≡ self.goals }
    {
        let Request { goals, .. } = self;
        goals
    }
}
