// The order of steps for an acceptable selection.

ghost use Rattle.std.specs.Prelude.{IfOk};
ghost use Rattle.refutation.specs.Selection.{selects};
ghost use Rattle.rules.specs.Names.{HasNames, HasPairNames};
ghost use Rattle.ordering.specs.Ordering.{AreAscending, IsOrdering};
ghost use Rattle.plain.specs.Change.{IsPlainChange};
ghost use Rattle.plain.specs.Counted.{IsCounted};
ghost use Rattle.rules.specs.Sound.{IsAcceptable};
ghost use Rattle.rules.specs.Verdict.{IsBuiltOn};

use fixed_order::fixed_order;
use order::{Ordered, order};
use plain::plain_change_is_ordered;
use plainness::is_plain;
use plancheck_state::Records;
use refutation::premises_are_true;
use std::alloc::{AllocError, Global};
use universe::Universe;

// Makes a plain change in the fixed order.
fn order_plain<'p, 'a>(
    alloc: Global,
    start: &Records<'p, 'a>,
    universe: &Universe<'_, 'a>,
    selection: &[u32],
) -> Result<Ordered, AllocError>
    requires change { IsPlainChange universe.now start.now (selects selection.now) }
    requires start_names { HasNames start.now }
    requires pair_names { HasPairNames universe.now }
    ensures { IfOk result (λ ordered. IsOrdering universe.now start.now selection.now ordered) }
{
    plain_change_is_ordered();
    let steps = fixed_order(alloc, start, universe, selection)?;
    Ok(Ordered::Plan(steps))
}

/// Puts an acceptable selection, the ascending numbers of its pairs, into an order of steps from this start, on which the
/// universe is built: a plan at whose end just its packages are installed, or steps after which no step that leads there is
/// allowed. A plain change is a plan in the fixed order. Costs what `is_plain` costs, and then `fixed_order` or `order`.
/// Memory alone can fail.
pub fn order_selection<'p, 'a>(
    alloc: Global,
    start: &Records<'p, 'a>,
    universe: &Universe<'_, 'a>,
    selection: &[u32],
) -> Result<Ordered, AllocError>
    // the universe is built on the start
    requires built { IsBuiltOn start.now universe.now }
    // and counts each pair by the record that stands, or else by the indices
    requires counted { IsCounted start.now universe.now }
    // what is read has package names
    requires start_names { HasNames start.now }
    requires pair_names { HasPairNames universe.now }
    requires ascending { AreAscending selection.now }
    requires acceptable { IsAcceptable universe.now (selects selection.now) }
    ensures { IfOk result (λ ordered. IsOrdering universe.now start.now selection.now ordered) }
{
    premises_are_true();
    let plain = is_plain(alloc, start, universe, selection)?;
    if plain {
        return order_plain(alloc, start, universe, selection);
    }
    let ordered = order(alloc, start, universe, selection)?;
    Ok(ordered)
}
