// Pairs, and what stands for them, as objects.
ghost use Rattle.std.specs.Prelude.{◌≡◌, IfOk};
ghost use Rattle.std.specs.Option.{option_copied, option_map};
ghost use Rattle.serde_json.specs.View.{view};
ghost use Rattle.json_answers.specs.Pairs as Spec;
ghost use Rattle.json_answers.specs.Premises.{package_at};

use crate::texts::text_or_null;
use refutation::Literal;
use serde_json::{Value, json};
use std::alloc::{AllocError, Global};
use universe::{CountingPkg, Pair, Universe};

// The name of the pair, if it is there.
fn name_of<'a>(pair: Option<&Pair<'_, 'a>>) -> Option<&'a [u8]>
    ensures { option_map (λ name. name.now) result
        ≡ option_map (λ there. there.pkg.name) (option_copied pair.entry) }
{
    match pair {
        None => None,
        Some(pair) => Some(pair.name()),
    }
}

// The text of the version of the pair, if it is there.
fn version_of<'a>(pair: Option<&Pair<'_, 'a>>) -> Option<&'a [u8]>
    ensures { option_map (λ version. version.now) result
        ≡ option_map (λ there. there.pkg.version) (option_copied pair.entry) }
{
    match pair {
        None => None,
        Some(pair) => Some(pair.version().text()),
    }
}

/// The object of the pair of this number: the number, the name and the version, which are `null` where there is no such pair. Memory
/// alone can fail.
pub(crate) fn pair_value(
    alloc: Global,
    universe: &Universe<'_, '_>,
    number: u32,
) -> Result<Value, AllocError>
    ensures { IfOk result (λ value. view value ≡ Spec.pair_data universe.now number) }
{
    let pair = universe.pair(number);
    let name = text_or_null(alloc, name_of(pair))?;
    let version = text_or_null(alloc, version_of(pair))?;
    json!(in alloc; {"number": number, "name": name, "version": version})
}

// The object of a literal that says so of the pair of this number.
fn selected_value(
    alloc: Global,
    universe: &Universe<'_, '_>,
    number: u32,
    selected: bool,
) -> Result<Value, AllocError>
    ensures { IfOk result (λ value. view value ≡ Spec.selected_data universe.now number selected) }
{
    let pair = universe.pair(number);
    let name = text_or_null(alloc, name_of(pair))?;
    let version = text_or_null(alloc, version_of(pair))?;
    json!(in alloc; {"selected": selected, "number": number, "name": name, "version": version})
}

/// The object of a literal: that of its pair, and whether it says that the pair is selected. Memory alone can fail.
pub(crate) fn literal_value(
    alloc: Global,
    universe: &Universe<'_, '_>,
    literal: Literal,
) -> Result<Value, AllocError>
    ensures { IfOk result (λ value. view value ≡ Spec.literal_data universe.now literal) }
{
    match literal {
        Literal::Selected(number) => selected_value(alloc, universe, number, true),
        Literal::Unselected(number) => selected_value(alloc, universe, number, false),
    }
}

/// The package of the pair of this number, if it is there. Memory alone can fail.
pub(crate) fn package_at<'u, 'a>(
    alloc: Global,
    universe: &'u Universe<'_, 'a>,
    number: u32,
) -> Result<Option<CountingPkg<'u, 'a>>, AllocError>
    ensures { IfOk result (λ pkg. pkg ≡ package_at universe.now number) }
{
    match universe.pair(number) {
        None => Ok(None),
        Some(pair) => Ok(Some(CountingPkg::of_pair(alloc, pair)?)),
    }
}
