//! What a journal remembers.
ghost use Rattle.std.specs.Prelude.{◌≡◌, [], false};
ghost use Rattle.std.specs.Option.{option_copied};

use crate::spare::WithSpare;
use rules::Step;
use status::Database;
use std::alloc::Global;
use std::marker::Model;

/// A step that was taken, and of an unpacking the text of the stanza that was handed in.
#[derive(Drop)]
pub struct RecordedStep<'a> {
    step: Step,
    stanza: Option<&'a [u8]>,
}

impl<'a> Model for RecordedStep<'a> {
    ghost use Rattle.std.specs.Option.{option_copied};
    ghost use Rattle.journal.specs.Payload.{RecordedStep as RecordedStepValue};

    ghost Value = { RecordedStepValue };

    ghost view = { λ r. record { step = r.step; stanza = option_copied r.stanza } };
}

impl<'a> RecordedStep<'a> {
    // This step with this text.
    pub(crate) fn new(step: Step, stanza: Option<&'a [u8]>) -> RecordedStep<'a>
        ensures step { result.step ≡ step }
        ensures stanza { result.stanza ≡ option_copied stanza.entry }
    {
        RecordedStep { step, stanza }
    }

    /// The step.
    pub fn step(&self) -> &Step
        ensures { result.now ≡ self.now.step }
    {
        &self.step
    }

    /// The text of the stanza, of an unpacking.
    pub fn stanza(&self) -> Option<&'a [u8]>
        ensures { option_copied result ≡ self.now.stanza }
    {
        self.stanza
    }
}

/// A journal in memory: the start, the steps since, the status file that they lead to, and where the next record goes. It
/// borrows the start and the texts of stanzas that were handed in; the database owns its own.
#[derive(Drop)]
pub struct Ledger<'a> {
    pub(crate) start: &'a [u8],
    pub(crate) steps: Vec<RecordedStep<'a>>,
    pub(crate) database: WithSpare,
    /// The offset of the closed gate.
    pub(crate) gate: usize,
    /// A call of the disk failed: what the file holds isn't known.
    pub(crate) broken: bool,
}

impl<'a> Ledger<'a> {
    ghost use Rattle.journal.specs.Ledger.{history_of};

    // A journal without steps, whose first gate is at this offset.
    pub(crate) fn begun(
        alloc: Global,
        start: &'a [u8],
        database: Database,
        gate: usize,
    ) -> Ledger<'a>
        ensures start { result.start.now ≡ start.now }
        ensures steps { result.steps.items ≡ [] }
        ensures database { result.database ≡ database }
        ensures gate { result.gate ≡ gate }
        ensures whole { result.broken ≡ false }
    {
        Ledger {
            start,
            steps: Vec::new(alloc),
            database: WithSpare::new(database),
            gate,
            broken: false,
        }
    }

    /// The text of the status file before the first step.
    pub fn start(&self) -> &'a [u8]
        ensures { result.now ≡ (history_of self.now).start }
    {
        self.start
    }

    /// The steps since, in their order.
    pub fn history(&self) -> &[RecordedStep<'a>]
        ensures { result.now ≡ (history_of self.now).steps }
    {
        &self.steps
    }

    /// The status file that the steps lead to.
    pub fn database(&self) -> &Database
        ensures arch { result.now.arch ≡ (history_of self.now).arch }
        ensures slots { result.now.slots ≡ (history_of self.now).slots }
    {
        self.database.database()
    }
}
