//! Laws that follow from the definitions: the functions have empty bodies, and their contracts are the laws.
ghost use Rattle.std.specs.Prelude.{◌≡◌, ◌⊎◌, ◌++◌, List, ℕ, Option, Some};
ghost use Rattle.disk.specs.Facts.{Synced};
ghost use Rattle.journal.specs.Calls.{Came, GoesOn, IsCall, IsLedTo, IsRun, Resumes, ShowsFrom, ShowsOneOf};
ghost use Rattle.journal.specs.Creating.{IsCreated, IsUnmade};
ghost use Rattle.journal.specs.Fault.{IsOpenFault, IsReadFault};
ghost use Rattle.journal.specs.History.{History, Shows};
ghost use Rattle.journal.specs.Ledger.{IsSettled, history_of};
ghost use Rattle.journal.specs.declared.error.OpenError.{OpenError};
ghost use Rattle.journal.specs.declared.error.OpenError.TheVariants as open_error;
ghost use Rattle.journal.specs.declared.ledger.Ledger.{Ledger};

use disk::Disk;

/// A file shows one history for an architecture.
pub fn a_file_shows_one_history()
    ensures { (file : List ℕ) (h k : History) → Shows file h → Shows file k → h.arch ≡ k.arch → h
        ≡ k }
{}

/// A file of which no journal was made shows no history.
pub fn what_is_unmade_shows_nothing()
    ensures { (file : List ℕ) (h : History) → IsUnmade file → ¬ Shows file h }
{}

/// A file that shows a history for the architecture is read, unless memory is refused, and opened, unless memory is refused
/// or a call of the disk fails.
pub fn a_history_is_opened()
    ensures read { (arch file : List ℕ) (h : History) (e : OpenError) → Shows file h → h.arch ≡ arch
        → IsReadFault arch file e
        → e ≡ open_error.OutOfMemory }
    ensures opened { (arch file : List ℕ) (h : History) (e : OpenError) → Shows file h → h.arch
        ≡ arch → IsOpenFault arch file e
        → (e ≡ open_error.OutOfMemory) ⊎ (e ≡ open_error.Disk) }
{}

/// Whatever calls are made of a journal on an honest disk from where `create` answered `Ok`, and whenever a call of the disk
/// fails, the program ends or the machine stops, also within a call: each file that a crash may leave shows the start, and
/// behind it all steps that were acknowledged, in their order, and each other one in its place or not at all that was handed
/// in to `append` when it failed or stopped.
pub fn no_acknowledged_step_is_lost<D: Disk>()
    ensures { (arch start : List ℕ) (begun : Ledger) (came : List Came) (held : Option Ledger)
        (disk : D) → IsCreated arch start begun
        → IsRun D.facts (history_of begun) came held disk
        → (file : List ℕ) → (D.facts disk).leaves file → ShowsFrom arch start came file }
{}

/// The same from where `create` or `open` answered `Ok`, behind the steps from before, and of each moment within a call. What
/// a read gives is opened, unless memory is refused or a call of the disk fails, and the journal has such steps and the status
/// file to which they lead from the start. A machine that stopped goes on with one file that a crash at that moment could leave,
/// all of it on the disk (`on_disk`).
pub fn a_run_of_calls_loses_nothing<D: Disk>()
    ensures left { (before : History) (came : List Came) (held : Option Ledger) (disk : D)
        → IsRun D.facts before came held disk
        → (file : List ℕ) → (D.facts disk).leaves file → ShowsOneOf before came file }
    ensures within { (before : History) (came handed : List Came) (held : Option Ledger)
        (disk after : D) → IsRun D.facts before came held disk
        → IsCall before.arch (D.facts disk) (D.facts after) held handed
        → (file : List ℕ) → (D.facts after).since (D.facts disk).moment file
        → ShowsOneOf before (came ++ handed) file }
    ensures on_disk { (disk after again : D) (file : List ℕ)
        → (D.facts after).since (D.facts disk).moment file → Synced file (D.facts again)
        → Resumes (D.facts disk) (D.facts after) (D.facts again) }
    ensures read { (before : History) (came : List Came) (held : Option Ledger) (disk : D)
        → IsRun D.facts before came held disk
        → (h : History) → Shows (D.facts disk).seen h → h.arch ≡ before.arch → GoesOn before came h
        × IsLedTo h }
    ensures opened { (before : History) (came : List Came) (held : Option Ledger) (disk : D)
        → IsRun D.facts before came held disk
        → (e : OpenError) → IsOpenFault before.arch (D.facts disk).seen e
        → (e ≡ open_error.OutOfMemory) ⊎ (e ≡ open_error.Disk) }
    ensures settled { (before : History) (came : List Came) (ledger : Ledger) (disk : D)
        → IsRun D.facts before came (Some ledger) disk
        → IsSettled ledger (D.facts disk) × GoesOn before came (history_of ledger) }
{}
