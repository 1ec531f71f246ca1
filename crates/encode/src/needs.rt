// What a pair needs: the clauses of its Pre-Depends and Depends (Policy 7.2).

ghost use Rattle.std.specs.Prelude.{◌≡◌, ◌+◌, Some, OnOk};
ghost use Rattle.std.specs.List.{slice_get};
ghost use Rattle.refutation.specs.Premise.{IsPremise};
ghost use Rattle.refutation.specs.declared.line.Premise.TheVariants as premise;
ghost use Rattle.universe_parts.specs.Parts.{packages_of};
ghost use Rattle.encode.specs.Growing.{Grows, IsDependsOf, IsNeed, IsNeedOf, IsPreDependsOf, PkgIsAt};

use crate::basis::Basis;
use crate::encoding::Encoding;
use crate::facts::{Facts, number_at};
use crate::literals::out_or_matching;
use relation::{Clause, Pkg};
use std::alloc::AllocError;

// The clause of Pre-Depends at a place, of the pair of a number whose package this is.
fn add_pre_depends_at<'a>(
    facts: &Facts<'_, '_, '_, 'a>,
    encoding: &mut Encoding<'a>,
    number: u32,
    pkg: &Pkg<'a>,
    place: usize,
    clause: &Clause<'a>,
) -> Result<(), AllocError>
    requires pkg { PkgIsAt facts.now number pkg.now }
    requires clause { slice_get pkg.now.relations.pre_depends place ≡ Some clause.now }
    ensures { OnOk result
        (Grows facts.now encoding.old encoding.new
        (λ reason. reason ≡ premise.PreDepends number (place + 1))) }
{
    let _pkg = pkg;
    let atoms = clause.as_slice();
    let literals = out_or_matching(facts, number, atoms)?;
    let clause_number = number_at(place)?;
    let basis = Basis::PreDepends(number, clause_number);
    encoding.add(facts, basis, literals.as_slice())?;
    Ok(())
}

// The clause of Depends at a place, of the pair of a number whose package this is.
fn add_depends_at<'a>(
    facts: &Facts<'_, '_, '_, 'a>,
    encoding: &mut Encoding<'a>,
    number: u32,
    pkg: &Pkg<'a>,
    place: usize,
    clause: &Clause<'a>,
) -> Result<(), AllocError>
    requires pkg { PkgIsAt facts.now number pkg.now }
    requires clause { slice_get pkg.now.relations.depends place ≡ Some clause.now }
    ensures { OnOk result
        (Grows facts.now encoding.old encoding.new
        (λ reason. reason ≡ premise.Depends number (place + 1))) }
{
    let _pkg = pkg;
    let atoms = clause.as_slice();
    let literals = out_or_matching(facts, number, atoms)?;
    let clause_number = number_at(place)?;
    let basis = Basis::Depends(number, clause_number);
    encoding.add(facts, basis, literals.as_slice())?;
    Ok(())
}

fn add_pre_depends<'a>(
    facts: &Facts<'_, '_, '_, 'a>,
    encoding: &mut Encoding<'a>,
    number: u32,
    pkg: &Pkg<'a>,
) -> Result<(), AllocError>
    requires { PkgIsAt facts.now number pkg.now }
    ensures { OnOk result
        (Grows facts.now encoding.old encoding.new
        (λ reason. IsPremise facts.now reason × IsPreDependsOf number reason)) }
{
    for (place, clause) in pkg.pre_depends().iter().enumerate() {
        add_pre_depends_at(facts, encoding, number, pkg, place, clause)?;
    }
    Ok(())
}

fn add_depends<'a>(
    facts: &Facts<'_, '_, '_, 'a>,
    encoding: &mut Encoding<'a>,
    number: u32,
    pkg: &Pkg<'a>,
) -> Result<(), AllocError>
    requires { PkgIsAt facts.now number pkg.now }
    ensures { OnOk result
        (Grows facts.now encoding.old encoding.new
        (λ reason. IsPremise facts.now reason × IsDependsOf number reason)) }
{
    for (place, clause) in pkg.depends().iter().enumerate() {
        add_depends_at(facts, encoding, number, pkg, place, clause)?;
    }
    Ok(())
}

// What the pair of a number needs whose package this is.
fn add_needs_of<'a>(
    facts: &Facts<'_, '_, '_, 'a>,
    encoding: &mut Encoding<'a>,
    number: u32,
    pkg: &Pkg<'a>,
) -> Result<(), AllocError>
    requires { PkgIsAt facts.now number pkg.now }
    ensures { OnOk result
        (Grows facts.now encoding.old encoding.new
        (λ reason. IsPremise facts.now reason × IsNeedOf number reason)) }
{
    let from = encoding.len();
    add_pre_depends(facts, encoding, number, pkg)?;
    add_depends(facts, encoding, number, pkg)?;
    encoding.end_needs(from)?;
    Ok(())
}

// What the pair at a place needs, if there is one.
fn add_needs_at<'a>(
    facts: &Facts<'_, '_, '_, 'a>,
    encoding: &mut Encoding<'a>,
    place: usize,
) -> Result<(), AllocError>
    ensures { OnOk result
        (Grows facts.now encoding.old encoding.new
        (λ reason. IsPremise facts.now reason × IsNeedOf (place + 1) reason)) }
{
    match facts.pkg_in(place) {
        None => Ok(()),
        Some(pkg) => {
            let number = number_at(place)?;
            add_needs_of(facts, encoding, number, pkg)?;
            Ok(())
        }
    }
}

/// What each pair needs, pair by pair. Memory alone can fail. For each atom it costs what `Facts::matching` says.
pub(crate) fn add_needs<'a>(
    facts: &Facts<'_, '_, '_, 'a>,
    encoding: &mut Encoding<'a>,
) -> Result<(), AllocError>
    ensures { OnOk result
        (Grows facts.now encoding.old encoding.new
        (λ reason. IsPremise facts.now reason × IsNeed reason)) }
{
    for place in 0..facts.count() {
        add_needs_at(facts, encoding, place)?;
    }
    Ok(())
}
