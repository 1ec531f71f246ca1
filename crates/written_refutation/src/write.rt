// The text of a refutation with its pairs named.

ghost use Rattle.std.specs.Prelude.{◌≡◌, IfOk};
ghost use Rattle.written_refutation.specs.Written as Spec;

use named_lines::name_pairs;
use named_refutation::write_named_refutation;
use refutation::Refutation;
use refutation_text::write_refutation;
use std::alloc::{AllocError, Global};
use universe::Universe;

/// The text of the lines by numbers, with the pairs of the universe named (version 2); by numbers (version 1) where a number is that of
/// no pair, or of one whose name is none (Policy 5.6.1). It has no line of an index. Memory alone can fail; linear in the text.
#[tactic(auto, unfolding(crate::specs::Written::naming_text))]
pub fn write_naming(
    alloc: Global,
    universe: &Universe<'_, '_>,
    refutation: &Refutation,
) -> Result<Vec<u8>, AllocError>
    ensures { IfOk result
        (λ text. text.items ≡ Spec.naming_text universe.now.pairs refutation.now) }
{
    match name_pairs(alloc, universe, refutation)? {
        Some(named) => {
            let text = write_named_refutation(alloc, &named)?;
            Ok(text)
        }
        None => {
            let text = write_refutation(alloc, refutation)?;
            Ok(text)
        }
    }
}
