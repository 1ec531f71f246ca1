// Settles a selection of a universe.

ghost use Rattle.std.specs.Prelude.{IfOk};
ghost use Rattle.clauses.specs.Clause.{MakesAllTrue};
ghost use Rattle.rules.specs.Minimal.{IsLocallyMinimal};
ghost use Rattle.rules.specs.Sound.{IsAcceptable};
ghost use Rattle.refutation.specs.Laws.{HasAscendingPairs, HasNeededPairs};
ghost use Rattle.universe_parts.specs.Parts.{HaveDistinctNames};
ghost use Rattle.encode.specs.Encoding.{IsEncoding};
ghost use Rattle.refutation.specs.Selection.{selects};
ghost use Rattle.search_settle.specs.Encoded.{StandingArePresent};
ghost use Rattle.search_settle.specs.Selected.{IsSelection};

use crate::laws::{closed_parts_are_true, settled_is_minimal};
use crate::numbers::{numbers_of, set_of};
use crate::pairs::known_of;
use crate::roles::given_of;
use crate::settled::settle_set;
use encode::Encoding;
use reach::Part;
use std::alloc::{AllocError, Global};

/// Of a selection that makes all clauses of the universe true one that is acceptable and locally minimal: the numbers of its
/// pairs, ascending. Memory alone can fail. Each round is linear in the literals, and in those of the clauses with changed
/// numbers; another round comes only where pairs weren't reached.
pub fn settle(
    alloc: Global,
    part: &Part<'_, '_, '_>,
    encoding: &Encoding<'_>,
    selection: &[u32],
) -> Result<Vec<u32>, AllocError>
    requires encoding { IsEncoding part.now encoding.now }
    requires ascending { HasAscendingPairs part.now }
    requires needed { HasNeededPairs part.now }
    requires distinct { HaveDistinctNames part.now.starts }
    requires present { StandingArePresent part.now }
    requires selection { IsSelection encoding.now.clauses.numbers selection.now }
    requires makes_true { MakesAllTrue selection.now encoding.now.clauses.clauses }
    ensures selection { IfOk result
        (λ settled. IsSelection encoding.now.clauses.numbers settled.items) }
    ensures makes_true { IfOk result
        (λ settled. MakesAllTrue settled.items encoding.now.clauses.clauses) }
    ensures acceptable { IfOk result (λ settled. IsAcceptable part.now (selects settled.items)) }
    ensures minimal { IfOk result (λ settled. IsLocallyMinimal part.now (selects settled.items)) }
{
    closed_parts_are_true();
    settled_is_minimal();
    let given = given_of(alloc, part, encoding)?;
    let known = known_of(alloc, part)?;
    let mut set = set_of(alloc, given.numbers(), selection)?;
    settle_set(alloc, &given, &known, &mut set)?;
    numbers_of(alloc, &set)
}
