// The premises that speak of two pairs: of one name, in conflict, and one that breaks the other (Policy 7.3 and 7.4).

ghost use Rattle.std.specs.Prelude.{◌≡◌, ◌≢◌, ◌↔◌, ◌<◌, IfOk, IsTrue};
ghost use Rattle.rules.specs.Package.{MatchesSome};
ghost use Rattle.refutation.specs.Premise.{BreaksAnother, ConflictsWithOther, IsPremise, PairHas, PairsAre};
ghost use Rattle.refutecheck.specs.Answer.{IsAnswer};

use crate::literals::either_out_if;
use crate::premises::Premises;
use crate::sought::is_same;
use refutation::{Literal, Premise};
use relation::{Atom, Pkg};
use rules::Items;
use std::alloc::AllocError;

/// Whether the pair of this number is there and of the name.
pub fn is_named(premises: &Premises<'_, '_, '_>, number: u32, name: &[u8]) -> bool
    ensures { IsTrue result ↔ PairHas premises.now number (λ pkg. pkg.name ≡ name.now) }
{
    match premises.pair_at(number) {
        None => false,
        Some(pair) => is_same(pair.name(), name),
    }
}

fn are_of_one_name(premises: &Premises<'_, '_, '_>, number: u32, other: u32) -> bool
    ensures { IsTrue result
        ↔ PairsAre premises.now number other (λ pkg other_pkg. other_pkg.name ≡ pkg.name) }
{
    match premises.pair_at(number) {
        None => false,
        Some(pair) => is_named(premises, other, pair.name()),
    }
}

// Whether the package matches an atom of the list. Linear in the atoms and in what the package provides.
#[tactic(auto, unfolding(rules::specs::Package::MatchesSome))]
fn matches_some(pkg: &Pkg<'_>, atoms: &[Atom<'_>]) -> bool
    ensures { IsTrue result ↔ MatchesSome pkg.now atoms.now }
{
    atoms.iter().any(|atom| atom.matched_by(pkg))
}

#[tactic(auto, unfolding(rules::specs::Package::ConflictsWith))]
fn conflicts_with_other(pkg: &Pkg<'_>, other: &Pkg<'_>) -> bool
    ensures { IsTrue result ↔ ConflictsWithOther pkg.now other.now }
{
    !is_same(other.name(), pkg.name()) && matches_some(other, pkg.conflicts())
}

#[tactic(auto, unfolding(rules::specs::Package::BreaksOther))]
fn breaks_another(pkg: &Pkg<'_>, other: &Pkg<'_>) -> bool
    ensures { IsTrue result ↔ BreaksAnother pkg.now other.now }
{
    !is_same(other.name(), pkg.name()) && matches_some(other, pkg.breaks())
}

fn is_same_premise(premises: &Premises<'_, '_, '_>, number: u32, other: u32) -> bool
    ensures { IsTrue result ↔ IsPremise premises.now (Premise.Same number other) }
{
    number < other && are_of_one_name(premises, number, other)
}

/// The clause of two pairs of one name, the lower number first. Memory alone can fail. Linear in the name.
pub fn same_clause(
    premises: &Premises<'_, '_, '_>,
    number: u32,
    other: u32,
) -> Result<Option<Items<Literal>>, AllocError>
    ensures { IfOk result (IsAnswer premises.now (Premise.Same number other)) }
{
    let is_premise = is_same_premise(premises, number, other);
    let answer = either_out_if(premises.alloc(), is_premise, number, other)?;
    Ok(answer)
}

/// The clause of a pair and one that it conflicts with. Memory alone can fail. Linear in both packages, and for each atom
/// in what the other provides.
pub fn conflicts_clause(
    premises: &Premises<'_, '_, '_>,
    number: u32,
    other: u32,
) -> Result<Option<Items<Literal>>, AllocError>
    ensures { IfOk result (IsAnswer premises.now (Premise.Conflicts number other)) }
{
    let Some(one) = premises.read_at(number)? else {
        return Ok(None);
    };
    let Some(two) = premises.read_at(other)? else {
        return Ok(None);
    };
    let is_premise = conflicts_with_other(one.pkg(), two.pkg());
    let answer = either_out_if(premises.alloc(), is_premise, number, other)?;
    Ok(answer)
}

/// The clause of a pair and one that it breaks. Memory alone can fail. Linear in both packages, and for each atom in what
/// the other provides.
pub fn breaks_clause(
    premises: &Premises<'_, '_, '_>,
    number: u32,
    other: u32,
) -> Result<Option<Items<Literal>>, AllocError>
    ensures { IfOk result (IsAnswer premises.now (Premise.Breaks number other)) }
{
    let Some(one) = premises.read_at(number)? else {
        return Ok(None);
    };
    let Some(two) = premises.read_at(other)? else {
        return Ok(None);
    };
    let is_premise = breaks_another(one.pkg(), two.pkg());
    let answer = either_out_if(premises.alloc(), is_premise, number, other)?;
    Ok(answer)
}
