// The names of which `upgrade-all` asks for another version.

ghost use Rattle.std.specs.Prelude.{◌≡◌, IfOk, map};
ghost use Rattle.std.specs.Option.{option_copied};
ghost use Rattle.request_lines.specs.Upgraded.{is_below, is_to_upgrade, names_to_upgrade};

use debversion::Version;
use std::alloc::{AllocError, Global};
use universe::{Start, Universe};

fn is_below(standing: Option<&Version<'_>>, candidate: Option<&Version<'_>>) -> bool
    ensures { result ≡ is_below (option_copied standing.entry) (option_copied candidate.entry) }
{
    match (standing, candidate) {
        (Some(standing), Some(candidate)) => standing.cmp(candidate).is_lt(),
        _ => false,
    }
}

// Whether `upgrade-all` asks for another version of the name.
fn is_to_upgrade(universe: &Universe<'_, '_>, start: &Start<'_>) -> bool
    ensures { result ≡ is_to_upgrade universe.now start.now }
{
    !start.is_held() && is_below(start.standing(), universe.candidate(start.name()))
}

/// The names of which `upgrade-all` asks for another version, in the order of the status file. Memory alone can fail. Linear in the
/// facts of the start, with a binary search among the candidates for each.
pub(crate) fn names_to_upgrade<'a>(
    alloc: Global,
    universe: &Universe<'_, 'a>,
) -> Result<Vec<&'a [u8]>, AllocError>
    ensures { IfOk result
        (λ names. map (λ name. name.now) names.items ≡ names_to_upgrade universe.now) }
{
    let mut names = Vec::new(alloc);
    for start in universe.starts() {
        if is_to_upgrade(universe, start) {
            names.push(start.name())?;
        }
    }
    Ok(names)
}
