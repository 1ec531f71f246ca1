//! The offers of a name that have a version.
ghost use Rattle.std.specs.Prelude.{◌≡◌, is_some, not};
ghost use Rattle.std.specs.List.{filter};
ghost use Rattle.providers.specs.Range.{IsRun};

use crate::offer::Offer;

/// Those that have a version, which stand behind the others, by a binary search.
pub(crate) fn versioned_offers<'k, 'a>(run: &'k [Offer<'a>]) -> &'k [Offer<'a>]
    requires { IsRun run.now }
    ensures { result.now ≡ filter (λ offer. is_some offer.version) run.now }
{
    let start = run.partition_point(Offer::is_unversioned);
    run.split_at(start).1
}
