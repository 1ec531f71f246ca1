//! Two versions, compared.
ghost use Rattle.std.specs.Prelude.{◌≡◌, IfOk};
ghost use Rattle.cli.specs.Calls.{IsOutcomeOfVersions, IsSaidOfVersions};
ghost use Rattle.cli.specs.Places.{comparison_of};

use crate::arguments::comparison_by;
use cli_engine::{Comparison, Refusal, compare};
use command_line::Relation;
use outcomes::{Outcome, outcome_of_comparison};
use std::alloc::{AllocError, Global};

fn answer_of_comparison(version: &str, relation: Comparison, other: &str) -> Result<bool, Refusal>
    ensures { IsSaidOfVersions version.now relation other.now result }
{
    compare(version.as_bytes(), relation, other.as_bytes())
}

/// What is printed of the answer to the comparison. Memory alone can fail.
pub(crate) fn outcome_of_versions(
    alloc: Global,
    version: &str,
    relation: Relation,
    other: &str,
) -> Result<Outcome, AllocError>
    ensures { IfOk result (IsOutcomeOfVersions version.now (comparison_of relation) other.now) }
{
    let answer = answer_of_comparison(version, comparison_by(relation), other);
    outcome_of_comparison(alloc, &answer)
}
