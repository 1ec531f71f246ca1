// What a pair is against: other versions of its name, and what its Conflicts and Breaks match (Policy 7.3 and 7.4).

ghost use Rattle.std.specs.Prelude.{◌≡◌, ◌↔◌, ◌<◌, ◌+◌, ℕ, IfOk, OnOk, nat_lt};
ghost use Rattle.encode.specs.Basis.{premise_of};
ghost use Rattle.std.specs.List.{Contains, filter};
ghost use Rattle.refutation.specs.Premise.{IsPremise, PairHas};
ghost use Rattle.encode.specs.Against.{IsAgainstBy, IsAgainstEach, premise_against};
ghost use Rattle.encode.specs.Growing.{Grows, IsAgainst, IsAgainstOf, PkgIsAt};

use crate::basis::Basis;
use crate::encoding::Encoding;
use crate::facts::{Facts, number_at};
use crate::literals::either_out;
use crate::query::Query;
use relation::Pkg;
use std::alloc::{AllocError, Global};

/// Why two pairs can't both be selected.
#[derive(Clone, Copy)]
pub(crate) enum Against {
    /// They are of one name.
    Same,
    /// The first conflicts with the second.
    Conflicts,
    /// The first breaks the second.
    Breaks,
}

fn basis_of<'a>(against: Against, number: u32, other: u32) -> Basis<'a>
    ensures { premise_of result ≡ premise_against against number other }
{
    match against {
        Against::Same => Basis::Same(number, other),
        Against::Conflicts => Basis::Conflicts(number, other),
        Against::Breaks => Basis::Breaks(number, other),
    }
}

// That the one pair isn't selected, or that the other isn't.
fn add_one<'a>(
    facts: &Facts<'_, '_, '_, 'a>,
    encoding: &mut Encoding<'a>,
    against: Against,
    number: u32,
    other: u32,
) -> Result<(), AllocError>
    ensures { OnOk result
        (Grows facts.now encoding.old encoding.new
        (λ reason. reason ≡ premise_against against number other)) }
{
    let literals = either_out(facts.alloc(), number, other)?;
    let basis = basis_of(against, number, other);
    encoding.add(facts, basis, literals.as_slice())?;
    Ok(())
}

// The same with each of the others.
fn add_each<'a>(
    facts: &Facts<'_, '_, '_, 'a>,
    encoding: &mut Encoding<'a>,
    against: Against,
    number: u32,
    others: &[u32],
) -> Result<(), AllocError>
    ensures { OnOk result
        (Grows facts.now encoding.old encoding.new (IsAgainstEach against number others.now)) }
{
    for other in others {
        add_one(facts, encoding, against, number, *other)?;
    }
    Ok(())
}

// Of the numbers those behind a number.
fn those_behind(alloc: Global, numbers: &[u32], number: u32) -> Result<Vec<u32>, AllocError>
    ensures { IfOk result
        (λ others. others.items ≡ filter (λ other. nat_lt number other) numbers.now) }
{
    numbers
        .iter()
        .copied()
        .filter(|other| number < *other)
        .collect(alloc)
}

// The numbers behind a number of pairs of the name.
fn behind(facts: &Facts<'_, '_, '_, '_>, number: u32, name: &[u8]) -> Result<Vec<u32>, AllocError>
    ensures { IfOk result (λ others. (other : ℕ) → Contains others.items other
        ↔ ((number < other) × PairHas facts.now other (λ pkg. pkg.name ≡ name.now))) }
{
    let named = facts.numbers_of(Query::Named(name))?;
    let others = those_behind(facts.alloc(), named.as_slice(), number)?;
    Ok(others)
}

// The numbers of the pairs that a package of a pair is against.
fn others_of(
    facts: &Facts<'_, '_, '_, '_>,
    against: Against,
    number: u32,
    pkg: &Pkg<'_>,
) -> Result<Vec<u32>, AllocError>
    requires { PkgIsAt facts.now number pkg.now }
    ensures { IfOk result (λ others. (other : ℕ) → Contains others.items other
        ↔ IsPremise facts.now (premise_against against number other)) }
{
    match against {
        Against::Same => {
            let others = behind(facts, number, pkg.name())?;
            Ok(others)
        }
        Against::Conflicts => {
            let others = facts.matching_others(pkg.conflicts(), pkg.name())?;
            Ok(others)
        }
        Against::Breaks => {
            let others = facts.matching_others(pkg.breaks(), pkg.name())?;
            Ok(others)
        }
    }
}

fn add_against<'a>(
    facts: &Facts<'_, '_, '_, 'a>,
    encoding: &mut Encoding<'a>,
    against: Against,
    number: u32,
    pkg: &Pkg<'a>,
) -> Result<(), AllocError>
    requires { PkgIsAt facts.now number pkg.now }
    ensures { OnOk result
        (Grows facts.now encoding.old encoding.new
        (λ reason. IsPremise facts.now reason × IsAgainstBy against number reason)) }
{
    let others = others_of(facts, against, number, pkg)?;
    add_each(facts, encoding, against, number, others.as_slice())?;
    Ok(())
}

// What the pair of a number is against whose package this is.
fn add_against_of<'a>(
    facts: &Facts<'_, '_, '_, 'a>,
    encoding: &mut Encoding<'a>,
    number: u32,
    pkg: &Pkg<'a>,
) -> Result<(), AllocError>
    requires { PkgIsAt facts.now number pkg.now }
    ensures { OnOk result
        (Grows facts.now encoding.old encoding.new
        (λ reason. IsPremise facts.now reason × IsAgainstOf number reason)) }
{
    add_against(facts, encoding, Against::Same, number, pkg)?;
    add_against(facts, encoding, Against::Conflicts, number, pkg)?;
    add_against(facts, encoding, Against::Breaks, number, pkg)?;
    Ok(())
}

// What the pair at a place is against, if there is one.
fn add_against_at<'a>(
    facts: &Facts<'_, '_, '_, 'a>,
    encoding: &mut Encoding<'a>,
    place: usize,
) -> Result<(), AllocError>
    ensures { OnOk result
        (Grows facts.now encoding.old encoding.new
        (λ reason. IsPremise facts.now reason × IsAgainstOf (place + 1) reason)) }
{
    match facts.pkg_in(place) {
        None => Ok(()),
        Some(pkg) => {
            let number = number_at(place)?;
            add_against_of(facts, encoding, number, pkg)?;
            Ok(())
        }
    }
}

/// What each pair is against, pair by pair. Memory alone can fail. For each atom it costs what `Facts::matching` says.
pub(crate) fn add_all_against<'a>(
    facts: &Facts<'_, '_, '_, 'a>,
    encoding: &mut Encoding<'a>,
) -> Result<(), AllocError>
    ensures { OnOk result
        (Grows facts.now encoding.old encoding.new
        (λ reason. IsPremise facts.now reason × IsAgainst reason)) }
{
    for place in 0..facts.count() {
        add_against_at(facts, encoding, place)?;
    }
    Ok(())
}
