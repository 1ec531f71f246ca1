// The premises that speak of a clause of Pre-Depends or Depends (Policy 7.2).

ghost use Rattle.std.specs.Prelude.{◌≡◌, IfOk};
ghost use Rattle.std.specs.Option.{option_copied};
ghost use Rattle.refutation.specs.Clause.{IsListOf, item_at};
ghost use Rattle.refutecheck.specs.Answer.{IsAnswer, IsNeedOf, IsOutOrMatching};

use crate::premises::Premises;
use refutation::{Literal, Premise};
use relation::{Atom, Clause};
use rules::Items;
use std::alloc::AllocError;

// The clause of this number, counted from 1.
fn clause_at<'k, 'a>(clauses: &'k [Clause<'a>], number: u32) -> Option<&'k Clause<'a>>
    ensures { option_copied result ≡ item_at clauses.now number }
{
    let place = number.checked_sub(1)?;
    clauses.get(place as usize)
}

// That the pair isn't selected, or one is that matches an atom of the list.
fn out_or_matching(
    premises: &Premises<'_, '_, '_>,
    number: u32,
    atoms: &[Atom<'_>],
) -> Result<Items<Literal>, AllocError>
    ensures { IfOk result (IsListOf (IsOutOrMatching premises.now number atoms.now)) }
{
    let mut literals = Vec::new(premises.alloc());
    literals.push(Literal::Unselected(number))?;
    for atom in atoms {
        premises.push_matching(&mut literals, atom)?;
    }
    Ok(Items::new(literals))
}

// The clause of a pair and of the clause of this number of a field of its package, if there is one.
fn need_of(
    premises: &Premises<'_, '_, '_>,
    number: u32,
    clauses: &[Clause<'_>],
    clause: u32,
) -> Result<Option<Items<Literal>>, AllocError>
    ensures { IfOk result (IsNeedOf premises.now number (item_at clauses.now clause)) }
{
    let Some(atoms) = clause_at(clauses, clause) else {
        return Ok(None);
    };
    let literals = out_or_matching(premises, number, atoms.as_slice())?;
    Ok(Some(literals))
}

/// The clause of a pair and a clause of its Pre-Depends. Memory alone can fail. Linear in the package, with two binary
/// searches for each atom, and m log m in the m packages that match it.
pub fn pre_depends_clause(
    premises: &Premises<'_, '_, '_>,
    number: u32,
    clause: u32,
) -> Result<Option<Items<Literal>>, AllocError>
    ensures { IfOk result (IsAnswer premises.now (Premise.PreDepends number clause)) }
{
    let Some(read) = premises.read_at(number)? else {
        return Ok(None);
    };
    let answer = need_of(premises, number, read.pkg().pre_depends(), clause)?;
    Ok(answer)
}

/// The clause of a pair and a clause of its Depends. Memory alone can fail. Linear in the package, with two binary searches
/// for each atom, and m log m in the m packages that match it.
pub fn depends_clause(
    premises: &Premises<'_, '_, '_>,
    number: u32,
    clause: u32,
) -> Result<Option<Items<Literal>>, AllocError>
    ensures { IfOk result (IsAnswer premises.now (Premise.Depends number clause)) }
{
    let Some(read) = premises.read_at(number)? else {
        return Ok(None);
    };
    let answer = need_of(premises, number, read.pkg().depends(), clause)?;
    Ok(answer)
}
