// The members of a selection: the packages that count of its pairs.

ghost use Rattle.std.specs.Prelude.{◌≡◌, IfOk};
ghost use Rattle.rules.specs.Sound.{selected};
ghost use Rattle.refutation.specs.Selection.{selects};
ghost use Rattle.plainness.specs.Members.{AreSame, numbered_members};

use std::alloc::{AllocError, Global};
use universe::{CountingPkg, Universe};

// The packages of the pairs of these numbers, in their order.
fn in_order_of<'u, 'a>(
    alloc: Global,
    universe: &'u Universe<'_, 'a>,
    selection: &[u32],
) -> Result<Vec<CountingPkg<'u, 'a>>, AllocError>
    ensures { IfOk result (λ members. members.items ≡ numbered_members universe.now selection.now) }
{
    let mut members = Vec::new(alloc);
    for number in selection {
        if let Some(pair) = universe.pair(*number) {
            members.push(CountingPkg::of_pair(alloc, pair)?)?;
        }
    }
    Ok(members)
}

/// The packages of the pairs of these numbers, counted from 1; numbers of no pair are passed over. Memory alone can fail.
/// Linear in the numbers; the relations of each pair that doesn't stand are read.
pub(crate) fn members_of<'u, 'a>(
    alloc: Global,
    universe: &'u Universe<'_, 'a>,
    selection: &[u32],
) -> Result<Vec<CountingPkg<'u, 'a>>, AllocError>
    ensures { IfOk result
        (λ members. AreSame members.items (selected universe.now (selects selection.now))) }
{
    let members = in_order_of(alloc, universe, selection)?;
    Ok(members)
}
