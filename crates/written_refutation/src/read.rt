// A refutation, read in either version.

ghost use Rattle.std.specs.Prelude.{◌≡◌, IfErr, IfOk, Ok};
ghost use Rattle.refutation_text.specs.Error.{IsRefutationFault};
ghost use Rattle.written_refutation.specs.Written as Spec;

use crate::written::WrittenRefutation;
use named_refutation::read_named_refutation;
use refutation_text::{RefutationError, read_refutation};
use std::alloc::Global;

// Whether pairs are named in the text.
fn names_pairs(text: &[u8]) -> bool
    ensures { result ≡ Spec.names_pairs text.now }
{
    text.starts_with(b"refutation 2\n")
}

/// Reads the refutation, with named pairs where the first line is `refutation 2`, and else with numbers, or answers the first refusal
/// of the version. Linear in the text.
#[tactic(auto, unfolding(crate::specs::Written::read_written))]
pub fn read_written(alloc: Global, text: &[u8]) -> Result<WrittenRefutation, RefutationError>
    ensures ok { IfOk result (λ written. Spec.read_written text.now ≡ Ok written) }
    ensures err { IfErr result (λ e. IsRefutationFault e (Spec.read_written text.now)) }
{
    if names_pairs(text) {
        Ok(WrittenRefutation::Named(read_named_refutation(alloc, text)?))
    } else {
        Ok(WrittenRefutation::Numbered(read_refutation(alloc, text)?))
    }
}
