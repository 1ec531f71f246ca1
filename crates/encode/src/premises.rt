// All clauses of a universe, in the order in which a search wants them: those without an owner first, then what each pair
// needs, then what it is against.

ghost use Rattle.std.specs.Prelude.{◌≡◌, IfOk, OnOk, length, map};
ghost use Rattle.refutation.specs.Premise.{IsPremise};
ghost use Rattle.universe_parts.specs.Parts.{packages_of};
ghost use Rattle.encode.specs.Encoding.{IsEncoding};
ghost use Rattle.encode.specs.Growing.{Grows};

use crate::against::add_all_against;
use crate::encoding::Encoding;
use crate::facts::Facts;
use crate::goals::add_goals;
use crate::needs::add_needs;
use crate::starts::add_starts;
use crate::wishes::add_wishes;
use reach::Part;
use std::alloc::{AllocError, Global};
use universe::{Universe, lend_packages};

// How many pairs there are.
fn count_of(facts: &Facts<'_, '_, '_, '_>) -> Result<u32, AllocError>
    ensures { IfOk result (λ count. count ≡ length facts.now.pairs) }
{
    match u32::try_from(facts.count()) {
        Ok(count) => Ok(count),
        Err(_) => Err(AllocError),
    }
}

// Every premise, each with its clause.
fn add_premises<'a>(
    facts: &Facts<'_, '_, '_, 'a>,
    encoding: &mut Encoding<'a>,
) -> Result<(), AllocError>
    ensures { OnOk result (Grows facts.now encoding.old encoding.new (IsPremise facts.now)) }
{
    add_goals(facts, encoding)?;
    add_starts(facts, encoding)?;
    encoding.end_unowned();
    add_needs(facts, encoding)?;
    add_all_against(facts, encoding)?;
    Ok(())
}

// Every premise, and what is wished.
fn encoding_of<'a>(facts: &Facts<'_, '_, '_, 'a>) -> Result<Encoding<'a>, AllocError>
    ensures { IfOk result (λ encoding. IsEncoding facts.now encoding) }
{
    let count = count_of(facts)?;
    let mut encoding = Encoding::new(facts.alloc(), count);
    add_premises(facts, &mut encoding)?;
    add_wishes(facts, &mut encoding)?;
    Ok(encoding)
}

/// The clauses of a part of a universe, which is a universe by itself: every premise, each with its clause over the numbers of
/// the part's pairs. An atom that n pairs match costs n log n; n pairs that conflict with each other, as over one name that
/// all provide, have n * n clauses. Memory alone can fail; more than 2,147,483,647 pairs, or 4,294,967,295 goals or clauses of a
/// field, are answered as want of it.
pub fn encode_part<'a>(alloc: Global, part: &Part<'_, '_, 'a>) -> Result<Encoding<'a>, AllocError>
    ensures { IfOk result (λ encoding. IsEncoding part.now encoding) }
{
    let lent = lend_packages(alloc, part.packages())?;
    let facts = Facts::new(alloc, part, lent.as_slice())?;
    let encoding = encoding_of(&facts)?;
    Ok(encoding)
}

/// The clauses of the universe: every premise, each with its clause over the numbers of the pairs. The packages of all
/// pairs are read once, and then it costs what `encode_part` says. Memory alone can fail.
pub fn encode<'a>(alloc: Global, universe: &Universe<'_, 'a>) -> Result<Encoding<'a>, AllocError>
    ensures { IfOk result (λ encoding. IsEncoding universe.now encoding) }
{
    let part = Part::whole(alloc, universe)?;
    let encoding = encode_part(alloc, &part)?;
    Ok(encoding)
}
