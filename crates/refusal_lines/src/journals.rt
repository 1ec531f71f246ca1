// What is said of a journal that isn't made, isn't opened or doesn't carry a plan out.
ghost use Rattle.std.specs.Prelude.{◌≡◌, IfOk};
ghost use Rattle.refusal_lines.specs.Journals as Spec;

use crate::words::{bare, with_number, with_value};
use apply::{BeginError, CatchUpError, RunError};
use journal::{CreateError, OpenError};
use std::alloc::{AllocError, Global};

// A journal that isn't opened.
fn open_words(alloc: Global, e: OpenError) -> Result<Vec<u8>, AllocError>
    ensures { IfOk result (λ words. words.items ≡ Spec.open_words e) }
{
    match e {
        OpenError::OutOfMemory => bare(alloc, "E1 OutOfMemory"),
        OpenError::Disk => bare(alloc, "E20 Disk"),
        OpenError::NotAJournal => bare(alloc, "E21 NotAJournal"),
        OpenError::Damaged(offset) => with_number(alloc, "E22 Damaged", offset),
        OpenError::OtherArchitecture => bare(alloc, "E29 OtherArchitecture"),
    }
}

// A journal that isn't made.
fn create_words(alloc: Global, e: CreateError) -> Result<Vec<u8>, AllocError>
    ensures { IfOk result (λ words. words.items ≡ Spec.create_words e) }
{
    match e {
        CreateError::OutOfMemory => bare(alloc, "E1 OutOfMemory"),
        CreateError::TooLarge => bare(alloc, "E10 TooLarge"),
        CreateError::Disk => bare(alloc, "E20 Disk"),
        CreateError::BadStart => bare(alloc, "E22 Damaged 16"),
    }
}

/// A plan for which there is no journal.
pub(crate) fn begin_words(alloc: Global, e: BeginError) -> Result<Vec<u8>, AllocError>
    ensures { IfOk result (λ words. words.items ≡ Spec.begin_words e) }
{
    match e {
        BeginError::NotRead(e) => open_words(alloc, e),
        BeginError::NotCreated(e) => create_words(alloc, e),
    }
}

// A plan that isn't taken to its end.
fn catch_up_words(alloc: Global, e: &CatchUpError<'_>) -> Result<Vec<u8>, AllocError>
    ensures { IfOk result (λ words. words.items ≡ Spec.catch_up_words e.now) }
{
    match e {
        CatchUpError::OutOfMemory => bare(alloc, "E1 OutOfMemory"),
        CatchUpError::TooLarge => bare(alloc, "E10 TooLarge"),
        CatchUpError::Disk => bare(alloc, "E20 Disk"),
        CatchUpError::Reopen => bare(alloc, "E23 Reopen"),
        CatchUpError::NotApplicable(name) => with_value(
            alloc,
            "E24 NotApplicable",
            name.as_bytes(),
        ),
        CatchUpError::Mismatch => bare(alloc, "E25 JournalMismatch"),
    }
}

/// A plan that its journal doesn't carry out.
pub(crate) fn run_words(alloc: Global, e: &RunError<'_>) -> Result<Vec<u8>, AllocError>
    ensures { IfOk result (λ words. words.items ≡ Spec.run_words e.now) }
{
    match e {
        RunError::NotOpened(e) => open_words(alloc, *e),
        RunError::NotFinished { cause, .. } => catch_up_words(alloc, cause),
    }
}
