// What is wished: that each name which was present keeps a version, best the one that stands.

ghost use Rattle.std.specs.Prelude.{◌≡◌, OnOk};

use crate::encoding::Encoding;
use crate::facts::Facts;
use crate::query::Query;
use std::alloc::AllocError;

// The wishes of the names that were present and have one pair, or of those that have several.
fn add_wishes_of(
    facts: &Facts<'_, '_, '_, '_>,
    encoding: &mut Encoding<'_>,
    alone: bool,
) -> Result<(), AllocError>
    ensures { OnOk result (encoding.new ≡ encoding.old) }
{
    for start in facts.part().starts() {
        if start.is_present() {
            let numbers = facts.numbers_of(Query::Named(start.name()))?;
            if !numbers.is_empty() && (numbers.len() == 1) == alone {
                encoding.add_wish(numbers.as_slice())?;
            }
        }
    }
    Ok(())
}

/// The wishes, those first that leave no choice. They change no clause. Memory alone can fail. Linear in the start.
pub(crate) fn add_wishes(
    facts: &Facts<'_, '_, '_, '_>,
    encoding: &mut Encoding<'_>,
) -> Result<(), AllocError>
    ensures { OnOk result (encoding.new ≡ encoding.old) }
{
    add_wishes_of(facts, encoding, true)?;
    add_wishes_of(facts, encoding, false)
}
