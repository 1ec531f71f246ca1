//! A plan, carried out by the files of a host and a journal.
ghost use Rattle.std.specs.Prelude.{◌≡◌, IfOk, Some};
ghost use Rattle.cli.specs.Applied.{IsOutcomeOfGood, IsOutcomeOfPlanTaken, IsOutcomeOfPrepared, IsOutcomeOfPut, IsOutcomeOfReady, IsOutcomeOfStop, IsRunThrough};
ghost use Rattle.cli.specs.Calls.{texts_at};
ghost use Rattle.cli.specs.Files.{Files, judged_at};
ghost use Rattle.cli.specs.Kept.{Kept};
ghost use Rattle.cli.specs.Leaving.{IsLeftOfGood, IsLeftOfPlanTaken, IsLeftOfPrepared, IsLeftOfReady, IsLeftWith};
ghost use Rattle.cli.specs.Places.{paths_read};
ghost use Rattle.apply_engine.specs.GoodPlan.{IsCarriedOut};
ghost use Rattle.apply_engine.specs.Prepared.{IsSaidOfPrepared};

use crate::arguments::Arguments;
use crate::files::{HostShelf, Openings, ask_files};
use crate::host::{Host, PutError};
use crate::one_file::{one_file_of_indices, one_file_of_paths};
use apply::{BeginError, RunError};
use apply_engine::{CarriedOut, GoodPlan, Prepare, Prepared};
use cli_engine::Refusal;
use disk::Disk;
use outcomes::{
    Outcome, outcome_of_refusal, outcome_of_steps, outcome_of_stopped, outcome_of_unbegun,
    outcome_of_unwritten, outcome_of_verdict,
};
use std::alloc::{AllocError, Global};

/// Why a good plan wasn't carried out.
#[derive(Drop)]
pub(crate) enum Stop<'p> {
    /// There is no journal for it.
    NotBegun(BeginError),
    /// Its journal wasn't brought to its end.
    Stopped(RunError<'p>),
}

/// Where the plan is carried out: the paths of its journal and of the output.
#[derive(Clone, Copy)]
pub(crate) struct Target<'a> {
    pub(crate) journal: &'a [u8],
    pub(crate) output: &'a [u8],
}

// What is said of the plan by the files of the host.
fn said_of_plan<H: Host>(
    alloc: Global,
    host: &mut H,
    arguments: &Arguments<'_>,
) -> Result<Prepared, Refusal>
    ensures said { (at : Files) → H.files host.old ≡ Some at
        → IsSaidOfPrepared (texts_at at arguments.now)
        (judged_at at arguments.now.paths.judged.now) result }
    ensures same { H.files host.new ≡ H.files host.old }
    ensures keeps { H.kept host.new ≡ H.kept host.old }
{
    let Arguments { settings, .. } = *arguments;
    let mut context = None;
    let mut shelf = HostShelf {
        host,
        paths: &arguments.paths,
        context: &mut context,
        openings: Openings::for_comparison(),
    };
    ask_files(alloc, &mut shelf, &settings, &Prepare {}, &mut ())
}

// Carries the plan out on the file of a journal, which is made one where none was made of it.
fn run_through<'p, D: Disk>(
    alloc: Global,
    disk: &mut D,
    plan: &'p GoodPlan,
) -> Result<CarriedOut, Stop<'p>>
    ensures through { IsRunThrough D.honest D.facts plan.now disk.old result disk.new }
    ensures carried { IfOk result (IsCarriedOut plan.now) }
{
    match plan.begin(alloc, disk) {
        Ok(()) => {}
        Err(e) => return Err(Stop::NotBegun(e)),
    }
    match plan.go_on(alloc, disk) {
        Ok(done) => Ok(done),
        Err(e) => Err(Stop::Stopped(e)),
    }
}

// What is printed of what stood against a plan.
fn outcome_of_stop(alloc: Global, stop: &Stop<'_>) -> Result<Outcome, AllocError>
    ensures { IfOk result (IsOutcomeOfStop stop.now) }
{
    match stop {
        Stop::NotBegun(e) => outcome_of_unbegun(alloc, *e),
        Stop::Stopped(e) => outcome_of_stopped(alloc, e),
    }
}

// What is printed of a plan of so many steps that was carried out, once its status file was put.
fn outcome_of_status(
    alloc: Global,
    steps: usize,
    put: Result<(), PutError>,
) -> Result<Outcome, AllocError>
    ensures { IfOk result (IsOutcomeOfPut steps put) }
{
    match put {
        Ok(()) => outcome_of_steps(alloc, steps),
        Err(PutError::Unwritten) => outcome_of_unwritten(alloc),
        Err(PutError::OutOfMemory) => Err(AllocError),
    }
}

// What is printed of a plan that is run on the journal of the target, which is held until the status file stands at the output.
fn outcome_of_ready<H: Host>(
    alloc: Global,
    host: &mut H,
    target: Target<'_>,
    plan: &GoodPlan,
) -> Result<Outcome, AllocError>
    ensures printed { IfOk result (IsOutcomeOfReady plan.now) }
    ensures left { (at : Files) (was : Kept H.Journal) → H.files host.old ≡ Some at
        → H.kept host.old ≡ Some was → IsLeftWith
        (IsLeftOfReady H.Journal.honest H.Journal.facts plan.now target.entry.journal.now
        target.entry.output.now at was)
        at was result (H.files host.new) (H.kept host.new) }
{
    let Target {
        journal: at,
        output,
    } = target;
    let mut journal = host.journal(alloc, at)?;
    match run_through(alloc, &mut journal, plan) {
        Ok(done) => {
            let put = host.finish(alloc, at, journal, output, done.status.as_slice());
            outcome_of_status(alloc, done.steps, put)
        }
        Err(stop) => {
            host.give_back(at, journal);
            outcome_of_stop(alloc, &stop)
        }
    }
}

// The same, where the journal and the output are none of the indices.
fn outcome_of_good<H: Host>(
    alloc: Global,
    host: &mut H,
    target: Target<'_>,
    plan: &GoodPlan,
) -> Result<Outcome, AllocError>
    ensures printed { IfOk result (IsOutcomeOfGood plan.now) }
    ensures left { (at : Files) (was : Kept H.Journal) → H.files host.old ≡ Some at
        → H.kept host.old ≡ Some was → IsLeftWith
        (IsLeftOfGood H.Journal.honest H.Journal.facts plan.now target.entry.journal.now
        target.entry.output.now at was)
        at was result (H.files host.new) (H.kept host.new) }
{
    match one_file_of_indices(alloc, host, target, plan)? {
        Some(outcome) => Ok(outcome),
        None => outcome_of_ready(alloc, host, target, plan),
    }
}

// What is printed of what is said of the plan.
fn outcome_of_said<H: Host>(
    alloc: Global,
    host: &mut H,
    target: Target<'_>,
    said: &Result<Prepared, Refusal>,
) -> Result<Outcome, AllocError>
    ensures printed { IfOk result (IsOutcomeOfPrepared said.now) }
    ensures left { (at : Files) (was : Kept H.Journal) → H.files host.old ≡ Some at
        → H.kept host.old ≡ Some was → IsLeftWith
        (IsLeftOfPrepared H.Journal.honest H.Journal.facts said.now target.entry.journal.now
        target.entry.output.now at was)
        at was result (H.files host.new) (H.kept host.new) }
{
    match said {
        Ok(Prepared::Judged(verdict)) => outcome_of_verdict(alloc, verdict),
        Ok(Prepared::Ready(plan)) => outcome_of_good(alloc, host, target, plan),
        Err(refusal) => outcome_of_refusal(alloc, refusal),
    }
}

/// What is printed of the plan that is to be carried out, by the journal of the target, with the status file at its end at the path of
/// the output. Words that name one file in two places are refused before one is written. Memory alone can fail.
pub(crate) fn outcome_of_applied<H: Host>(
    alloc: Global,
    host: &mut H,
    arguments: &Arguments<'_>,
    target: Target<'_>,
) -> Result<Outcome, AllocError>
    ensures printed { (at : Files) → H.files host.old ≡ Some at → IfOk result (λ outcome.
        IsOutcomeOfPlanTaken (texts_at at arguments.now)
        (judged_at at arguments.now.paths.judged.now) outcome) }
    ensures left { (at : Files) (was : Kept H.Journal) → H.files host.old ≡ Some at
        → H.kept host.old ≡ Some was → IsLeftWith
        (IsLeftOfPlanTaken H.Journal.honest H.Journal.facts (texts_at at arguments.now)
        (judged_at at arguments.now.paths.judged.now)
        (paths_read arguments.now.paths) target.entry.journal.now target.entry.output.now at was)
        at was result (H.files host.new) (H.kept host.new) }
{
    match one_file_of_paths(alloc, host, target, &arguments.paths)? {
        Some(outcome) => Ok(outcome),
        None => {
            let said = said_of_plan(alloc, host, arguments);
            outcome_of_said(alloc, host, target, &said)
        }
    }
}
