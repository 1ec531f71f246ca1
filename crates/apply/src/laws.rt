//! A law that follows from the definitions: the function has an empty body, and its contract is the law.
ghost use Rattle.std.specs.Prelude.{List, ℕ, Result};
ghost use Rattle.journal.specs.Payload.{RecordedStep};
ghost use Rattle.apply.specs.Begun.{IsBegunOn, IsNotBegunOn};
ghost use Rattle.apply.specs.Kept.{KeepsHistory};
ghost use Rattle.apply.specs.Run.{IsRunOn};
ghost use Rattle.apply.specs.declared.error.BeginError.{BeginError};
ghost use Rattle.apply.specs.declared.error.RunError.{RunError};

use disk::Disk;

/// Whatever comes of `begin` and `go_on`, a crash at any moment leaves of a file that was made a journal no less than one could leave
/// before.
pub fn a_run_keeps_each_history<D: Disk, T>()
    ensures not_begun { (arch start : List ℕ) (old new : D) (e : BeginError)
        → IsNotBegunOn arch start (D.facts old) e (D.facts new)
        → KeepsHistory (D.facts old) (D.facts new) }
    ensures run { (arch start : List ℕ) (plan : List RecordedStep) (old begun new : D)
        (result : Result T RunError) → IsBegunOn arch start (D.facts old) (D.facts begun)
        → IsRunOn arch start plan (D.facts begun) result (D.facts new)
        → KeepsHistory (D.facts old) (D.facts new) }
{}
