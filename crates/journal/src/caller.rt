//! A caller of a journal, which knows it by its public contracts alone.
ghost use Rattle.std.specs.Prelude.{◌≡◌, ◌∷◌, [], ℕ, List, None, IfSome};
ghost use Rattle.journal.specs.Adding.{recorded_of};
ghost use Rattle.journal.specs.History.{History, Shows};

use crate::adding::append;
use crate::creating::create;
use crate::laws::no_acknowledged_step_is_lost;
use disk::Disk;
use rules::Step;
use std::alloc::Global;

// Creates a journal and takes two steps. Once both are acknowledged, each file that a crash may leave shows them.
fn take_both<'a, D: Disk>(
    alloc: Global,
    disk: &mut D,
    start: &'a [u8],
    arch: &'a [u8],
    first: &Step,
    second: &Step,
) -> Option<()>
    ensures { IfSome result
        (λ _. D.honest disk.old → (file : List ℕ) → (D.facts disk.new).leaves file
        → (h : History) × (h.arch ≡ arch.now) × (h.start ≡ start.now)
        × (h.steps ≡ recorded_of first.now None ∷ recorded_of second.now None ∷ [])
        × Shows file h) }
{
    let Ok(mut ledger) = create(alloc, disk, start, arch) else {
        return None;
    };
    let Ok(()) = append(alloc, &mut ledger, disk, first, None) else {
        return None;
    };
    let Ok(()) = append(alloc, &mut ledger, disk, second, None) else {
        return None;
    };
    no_acknowledged_step_is_lost::<D>();
    Some(())
}
