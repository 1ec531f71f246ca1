// What is known of the pairs of a universe.

ghost use Rattle.std.specs.Prelude.{◌≡◌, ◌++◌, ◌∷◌, [], Bool, false, IfOk, OnOk};
ghost use Rattle.search_settle.specs.Encoded.{IsKnown};
ghost use Rattle.search_settle.specs.Settled.{IsCovered};
ghost use Rattle.universe_parts.specs.Parts.{HaveDistinctNames};

use crate::asked::Asked;
use crate::facts::{is_wanted, stood, was_present};
use crate::known::Known;
use reach::Part;
use std::alloc::{AllocError, Global};

impl Known {
    // Nothing, but that the number 0 is no pair's.
    fn of_none(alloc: Global) -> Result<Known, AllocError>
        ensures present { IfOk result (λ known. known.present ≡ false ∷ []) }
        ensures stood { IfOk result (λ known. known.stood ≡ false ∷ []) }
        ensures wanted { IfOk result (λ known. known.wanted ≡ false ∷ []) }
    {
        let mut known = Known {
            present: Vec::new(alloc),
            stood: Vec::new(alloc),
            wanted: Vec::new(alloc),
        };
        known.push(false, false, false)?;
        Ok(known)
    }

    // What is known of one more number.
    fn push(&mut self, present: bool, stood: bool, wanted: bool) -> Result<(), AllocError>
        ensures present { OnOk result (self.new.present ≡ self.old.present ++ present ∷ []) }
        ensures stood { OnOk result (self.new.stood ≡ self.old.stood ++ stood ∷ []) }
        ensures wanted { OnOk result (self.new.wanted ≡ self.old.wanted ++ wanted ∷ []) }
    {
        self.present.push(present)?;
        self.stood.push(stood)?;
        self.wanted.push(wanted)?;
        Ok(())
    }
}

/// What is known of the pairs of a universe. Memory alone can fail. Linear in the pairs and in the goals.
pub(crate) fn known_of(alloc: Global, part: &Part<'_, '_, '_>) -> Result<Known, AllocError>
    requires distinct { HaveDistinctNames part.now.starts }
    ensures known { IfOk result (IsKnown part.now) }
    ensures covered { IfOk result IsCovered }
{
    let asked = Asked::by(alloc, part.goals())?;
    let mut known = Known::of_none(alloc)?;
    for pair in part.pairs() {
        let present = was_present(part, pair.name());
        let stands = stood(part, pair);
        let wanted = is_wanted(part, &asked, pair);
        known.push(present, stands, wanted)?;
    }
    Ok(known)
}
