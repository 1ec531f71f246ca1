// With which status the program ends (this project's own).
ghost use Rattle.std.specs.Prelude.{◌≡◌, is_some};
ghost use Rattle.std.specs.List.{list_all};
ghost use Rattle.outcomes.specs.Exit as Spec;

use apply::{BeginError, CatchUpError, RunError};
use cli_engine::{CandidateAnswer, Fault, Refusal, RefutationVerdict, Solved};
use journal::{CreateError, OpenError};
use rules::Verdict;

/// How the program ends.
#[derive(Clone, Copy, PartialEq, Eq)]
pub enum Exit {
    /// The answer is yes, or help was asked for.
    Success,
    /// The answer is no, or one of the names has no candidate.
    No,
    /// A request is undecided.
    Undecided,
    /// A text is refused.
    Refused,
    /// The words of the command line are wrong.
    Usage,
    /// A file couldn't be read or written, or memory was wanting.
    Device,
}

impl Exit {
    /// The exit status.
    pub fn code(self) -> u8
        ensures { result ≡ Spec.code_of self }
    {
        match self {
            Exit::Success => 0,
            Exit::No => 1,
            Exit::Undecided => 2,
            Exit::Refused => 3,
            Exit::Usage => 4,
            Exit::Device => 5,
        }
    }
}

/// How the program ends with this verdict.
pub fn exit_of_verdict(verdict: &Verdict) -> Exit
    ensures { result ≡ Spec.exit_of_verdict verdict.now }
{
    match verdict {
        Verdict::Yes => Exit::Success,
        Verdict::Start | Verdict::Step(_, _) | Verdict::End(_) => Exit::No,
    }
}

/// How the program ends with this verdict on a refutation.
pub fn exit_of_refutation(verdict: &RefutationVerdict) -> Exit
    ensures { result ≡ Spec.exit_of_refutation verdict.now }
{
    match verdict {
        RefutationVerdict::Yes => Exit::Success,
        RefutationVerdict::No(_) => Exit::No,
    }
}

/// How the program ends with this answer to a request.
pub fn exit_of_solved(solved: &Solved) -> Exit
    ensures { result ≡ Spec.exit_of_solved solved.now }
{
    match solved {
        Solved::Plan(_) => Exit::Success,
        Solved::Refuted(_) => Exit::No,
        Solved::Undecided(_) => Exit::Undecided,
    }
}

/// How the program ends with this answer of a comparison.
pub fn exit_of_comparison(answer: bool) -> Exit
    ensures { result ≡ Spec.exit_of_comparison answer }
{
    if answer { Exit::Success } else { Exit::No }
}

/// How the program ends with these candidates of names, of which some may have none.
pub fn exit_of_candidates(candidates: &[Option<CandidateAnswer>]) -> Exit
    ensures { result ≡ Spec.exit_of_candidates candidates.now }
{
    if are_all_there(candidates) {
        Exit::Success
    } else {
        Exit::No
    }
}

fn are_all_there(candidates: &[Option<CandidateAnswer>]) -> bool
    ensures { result ≡ list_all is_some candidates.now }
{
    candidates.iter().all(|candidate| candidate.is_some())
}

/// How the program ends with this refusal: files and memory (E1, E5) have a status of their own.
pub fn exit_of_refusal(refusal: &Refusal) -> Exit
    ensures { result ≡ Spec.exit_of_fault refusal.now.fault }
{
    match refusal.fault {
        Fault::OutOfMemory | Fault::Read => Exit::Device,
        _ => Exit::Refused,
    }
}

/// How the program ends where no journal is made for this: its device and memory (E1, E20) have a status of their own.
pub fn exit_of_begin_error(e: BeginError) -> Exit
    ensures { result ≡ Spec.exit_of_begin_error e }
{
    match e {
        BeginError::NotRead(e) => exit_of_open_error(e),
        BeginError::NotCreated(e) => exit_of_create_error(e),
    }
}

/// How the program ends where a plan isn't carried out by its journal for this, likewise.
pub fn exit_of_run_error(e: &RunError<'_>) -> Exit
    ensures { result ≡ Spec.exit_of_run_error e.now }
{
    match e {
        RunError::NotOpened(e) => exit_of_open_error(*e),
        RunError::NotFinished { cause, .. } => match cause {
            CatchUpError::OutOfMemory | CatchUpError::Disk => Exit::Device,
            _ => Exit::Refused,
        },
    }
}

fn exit_of_create_error(e: CreateError) -> Exit
    ensures { result ≡ Spec.exit_of_create_error e }
{
    match e {
        CreateError::OutOfMemory | CreateError::Disk => Exit::Device,
        CreateError::TooLarge | CreateError::BadStart => Exit::Refused,
    }
}

fn exit_of_open_error(e: OpenError) -> Exit
    ensures { result ≡ Spec.exit_of_open_error e }
{
    match e {
        OpenError::OutOfMemory | OpenError::Disk => Exit::Device,
        _ => Exit::Refused,
    }
}
