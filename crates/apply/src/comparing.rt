//! Whether a journal has begun with a plan. No call takes memory.
ghost use Rattle.std.specs.Prelude.{◌≡◌, ◌↔◌, IsTrue, length, map};
ghost use Rattle.std.specs.Option.{option_copied};
ghost use Rattle.journal.specs.Adding.{recorded_of, text_for};
ghost use Rattle.journal.specs.Ledger.{history_of};
ghost use Rattle.apply.specs.Planned.{BeginsWith, IsOfPlan, planned};

use journal::{Ledger, RecordedStep};
use rules::{Name, Step};

// Whether the names are the same.
fn are_same_names(left: &[Name], right: &[Name]) -> bool
    ensures { IsTrue result ↔ left.now ≡ right.now }
{
    if left.len() != right.len() {
        return false;
    }
    for i in 0..left.len() {
        if left[i].as_bytes() != right[i].as_bytes() {
            return false;
        }
    }
    true
}

// Whether the steps are the same, by the bytes of their names and versions.
fn is_same_step(left: &Step, right: &Step) -> bool
    ensures { IsTrue result ↔ left.now ≡ right.now }
{
    match (left, right) {
        (Step::Unpack(name, version), Step::Unpack(other, newer)) => {
            name.as_bytes() == other.as_bytes() && version.as_bytes() == newer.as_bytes()
        }
        (Step::Deconfigure(name), Step::Deconfigure(other)) => name.as_bytes() == other.as_bytes(),
        (Step::Configure(names), Step::Configure(others)) => {
            are_same_names(names.as_slice(), others.as_slice())
        }
        (Step::Remove(name), Step::Remove(other)) => name.as_bytes() == other.as_bytes(),
        (Step::Purge(name), Step::Purge(other)) => name.as_bytes() == other.as_bytes(),
        _ => false,
    }
}

// Whether both are missing, or both are there and the same.
fn is_same_text(left: Option<&[u8]>, right: Option<&[u8]>) -> bool
    ensures { IsTrue result ↔ option_copied left.entry ≡ option_copied right.entry }
{
    match (left, right) {
        (Some(left), Some(right)) => left == right,
        (None, None) => true,
        _ => false,
    }
}

// What counts of the text that is handed in.
fn text_for<'a>(step: &Step, given: Option<&'a [u8]>) -> Option<&'a [u8]>
    ensures { option_copied result ≡ text_for step.now (option_copied given.entry) }
{
    match step {
        Step::Unpack(_, _) => given,
        _ => None,
    }
}

// Whether this is what is recorded of the step.
fn is_recorded(recorded: &RecordedStep<'_>, step: &Step, given: Option<&[u8]>) -> bool
    ensures { IsTrue result ↔ recorded.now ≡ recorded_of step.now (option_copied given.entry) }
{
    is_same_step(recorded.step(), step) && is_same_text(recorded.stanza(), text_for(step, given))
}

// Whether the first steps of the plan were taken.
fn begins_with(steps: &[Step], texts: &[Option<&[u8]>], taken: &[RecordedStep<'_>]) -> bool
    requires { length texts.now ≡ length steps.now }
    ensures { IsTrue result
        ↔ BeginsWith (planned steps.now (map option_copied texts.now)) taken.now }
{
    if taken.len() > steps.len() {
        return false;
    }
    for i in 0..taken.len() {
        if !is_recorded(&taken[i], &steps[i], texts[i]) {
            return false;
        }
    }
    true
}

// Whether the journal has this start, and its steps are the first of the plan's.
pub(crate) fn is_of_plan(
    ledger: &Ledger<'_>,
    start: &[u8],
    steps: &[Step],
    texts: &[Option<&[u8]>],
) -> bool
    requires { length texts.now ≡ length steps.now }
    ensures { IsTrue result
        ↔ IsOfPlan start.now (planned steps.now (map option_copied texts.now))
        (history_of ledger.now) }
{
    ledger.start() == start && begins_with(steps, texts, ledger.history())
}
