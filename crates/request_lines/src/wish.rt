// A line of a request with its goal.

ghost use Rattle.std.specs.Prelude.{◌≡◌, IfOk};
ghost use Rattle.std.specs.Option.{option_copied};
ghost use Rattle.request_lines.specs.Goals as Spec;
ghost use Rattle.request_lines.specs.Goals.{asks_for_all, asks_for_more, only_goal};

use rules::{Goal, GoalLine, Text};
use std::alloc::{AllocError, Global};
use universe_request::{Request, RequestError};

/// A line that asks for something, or says how.
#[derive(Drop)]
pub struct Wish {
    /// The line of the request that it comes from, counted from 1.
    pub line: usize,
    /// What it says.
    pub text: Text,
    goals: Vec<GoalLine>,
}

// The goals of the line by itself: one, or none.
fn goals_in(alloc: Global, line: &[u8], arch: &[u8]) -> Result<Vec<GoalLine>, AllocError>
    ensures { IfOk result (λ goals. goals.items ≡ Spec.goals_in arch.now line.now) }
{
    match Request::read(alloc, line, arch) {
        Ok(request) => Ok(request.into_vec()),
        Err(RequestError::OutOfMemory) => Err(AllocError),
        Err(RequestError::Refused(_)) => Ok(Vec::new(alloc)),
    }
}

fn only_goal(goals: &[GoalLine]) -> Option<&Goal>
    ensures { option_copied result ≡ only_goal goals.now }
{
    match goals {
        [] => None,
        [only] => Some(&only.goal),
        [_, _, ..] => None,
    }
}

impl Wish {
    /// The wish that the line of this number is.
    pub(crate) fn read(
        alloc: Global,
        line: usize,
        text: &[u8],
        arch: &[u8],
    ) -> Result<Wish, AllocError>
        ensures text { IfOk result (λ wish. wish.text ≡ text.now) }
        ensures goals { IfOk result (λ wish. wish.goals.items ≡ Spec.goals_in arch.now text.now) }
    {
        let goals = goals_in(alloc, text, arch)?;
        Ok(Wish {
            line,
            text: Text::copied_from(alloc, text)?,
            goals,
        })
    }

    /// Its goal, if it has one.
    pub fn goal(&self) -> Option<&Goal>
        ensures { option_copied result ≡ only_goal self.now.goals.items }
    {
        only_goal(self.goals.as_slice())
    }

    // Whether it asks for `upgrade-all`.
    pub(crate) fn asks_for_all(&self) -> bool
        ensures { result ≡ asks_for_all (only_goal self.now.goals.items) }
    {
        match self.goal() {
            Some(Goal::UpgradeAll) => true,
            _ => false,
        }
    }

    /// Whether it asks for an installation or an upgrade.
    pub fn asks_for_more(&self) -> bool
        ensures { result ≡ asks_for_more (only_goal self.now.goals.items) }
    {
        match self.goal() {
            Some(Goal::Install(_, _)) | Some(Goal::Upgrade(_)) => true,
            _ => false,
        }
    }
}
