// What the clauses of a universe are for, by what says them.

ghost use Rattle.std.specs.Prelude.{◌≡◌, IfOk, map};
ghost use Rattle.encode.specs.Basis.{premise_of};
ghost use Rattle.encode.specs.Encoding.{IsEncoding};
ghost use Rattle.search_settle.specs.Encoded.{IsGivenBy};
ghost use Rattle.search_settle.specs.Given.{role_of};

use crate::given::Given;
use crate::role::Role;
use encode::{Basis, Encoding};
use reach::Part;
use std::alloc::{AllocError, Global};

fn role_of(basis: &Basis<'_>) -> Role
    ensures { result ≡ role_of (premise_of basis.now) }
{
    match basis {
        Basis::Same(number, other) => Role::Same(*number, *other),
        Basis::PreDepends(number, _) => Role::Need(*number),
        Basis::Depends(number, _) => Role::Need(*number),
        Basis::Conflicts(_, _) => Role::Other,
        Basis::Breaks(_, _) => Role::Other,
        Basis::Goal(_) => Role::Other,
        Basis::GoalOn(_, _) => Role::Other,
        Basis::Hold(_) => Role::Other,
        Basis::Essential(_) => Role::Other,
        Basis::Keep(_) => Role::Other,
    }
}

// The roles of clauses that hold for these reasons, in their order.
fn roles_of(alloc: Global, bases: &[Basis<'_>]) -> Result<Vec<Role>, AllocError>
    ensures { IfOk result
        (λ roles. roles.items ≡ map (λ basis. role_of (premise_of basis)) bases.now) }
{
    bases.iter().map(|basis| role_of(basis)).collect(alloc)
}

/// The clauses of the universe, each in the role of what says it. Memory alone can fail. Linear in the literals.
pub(crate) fn given_of<'e>(
    alloc: Global,
    part: &Part<'_, '_, '_>,
    encoding: &'e Encoding<'_>,
) -> Result<Given<'e>, AllocError>
    requires { IsEncoding part.now encoding.now }
    ensures given_by { IfOk result (IsGivenBy part.now encoding.now.premises) }
    ensures clauses { IfOk result (λ given. given.clauses ≡ encoding.now.clauses.clauses) }
    ensures numbers { IfOk result (λ given. given.numbers ≡ encoding.now.clauses.numbers) }
{
    let _part = part;
    let roles = roles_of(alloc, encoding.bases())?;
    let given = Given::new(alloc, roles, encoding.clauses())?;
    Ok(given)
}
