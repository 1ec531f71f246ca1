// The lines of a refutation as objects.
ghost use Rattle.std.specs.Prelude.{◌≡◌, IfOk, OnOk, filter, length, map, not};
ghost use Rattle.std.specs.Option.{option_map};
ghost use Rattle.serde_json.specs.View.{members_view, view};
ghost use Rattle.json_answers.specs.Lines as Spec;
ghost use Rattle.json_answers.specs.Lines.{AreLineData, AreWithLines, IsLineData};
ghost use Rattle.json_answers.specs.Pairs.{literal_data};

use crate::members::Members;
use crate::pairs::literal_value;
use crate::premise_texts::{put_any_text, text_of};
use crate::premises::put_premise;
use crate::values::push_value;
use refutation::{Line, Literal, Premise, Refutation};
use serde_json::{Value, json};
use std::alloc::{AllocError, Global};
use universe::Universe;

/// Puts the lines of the refutation over this universe, each an object, as `lines`, with the names and versions of pairs and the texts
/// of goals and clauses, and how many lines are premises and how many are derived as `counts`. Memory alone can fail. Linear in the
/// lines and in the packages that premises speak of.
pub fn put_lines(
    alloc: Global,
    members: &mut Members,
    universe: &Universe<'_, '_>,
    refutation: &Refutation,
) -> Result<(), AllocError>
    ensures { OnOk result (AreWithLines universe.now refutation.now
        (members_view members.old.map.entries) (members_view members.new.map.entries)) }
{
    let lines = refutation.as_slice();
    let values = line_values(alloc, universe, lines)?;
    put_objects(alloc, members, lines, values)
}

// Puts these objects of the lines, and how many lines are premises.
fn put_objects(
    alloc: Global,
    members: &mut Members,
    lines: &[Line],
    values: Vec<Value>,
) -> Result<(), AllocError>
    ensures { OnOk result (members_view members.new.map.entries
        ≡ Spec.with_lines lines.now (map view values.items)
        (members_view members.old.map.entries)) }
{
    members.put(alloc, "lines", Value::from(values))?;
    members.put(alloc, "counts", counts_of_lines(alloc, lines)?)
}

// The objects of the lines.
fn line_values(
    alloc: Global,
    universe: &Universe<'_, '_>,
    lines: &[Line],
) -> Result<Vec<Value>, AllocError>
    ensures { IfOk result (λ values. AreLineData universe.now lines.now (map view values.items)) }
{
    let mut values = Vec::new(alloc);
    for line in lines {
        let value = line_value(alloc, universe, values.len() + 1, line)?;
        push_value(&mut values, value)?;
    }
    Ok(values)
}

// The object of a line with its number.
fn line_value(
    alloc: Global,
    universe: &Universe<'_, '_>,
    number: usize,
    line: &Line,
) -> Result<Value, AllocError>
    ensures { IfOk result (λ value. IsLineData universe.now number line.now (view value)) }
{
    match line {
        Line::Premise(premise) => premise_value(alloc, universe, number, premise),
        Line::Derived(literals, hints) => {
            derived_value(
                alloc,
                universe,
                number,
                literals.as_slice(),
                hints.as_slice(),
            )
        }
    }
}

// The object of a premise with its number.
fn premise_value(
    alloc: Global,
    universe: &Universe<'_, '_>,
    number: usize,
    premise: &Premise,
) -> Result<Value, AllocError>
    ensures { IfOk result
        (λ value. Spec.IsPremiseData universe.now number premise.now (view value)) }
{
    let text = text_of(alloc, universe, premise)?;
    premise_with(alloc, universe, number, premise, &text)
}

// The same with its text.
fn premise_with(
    alloc: Global,
    universe: &Universe<'_, '_>,
    number: usize,
    premise: &Premise,
    text: &Option<Vec<u8>>,
) -> Result<Value, AllocError>
    ensures { IfOk result (λ value. view value
        ≡ Spec.premise_data universe.now number premise.now
        (option_map (λ bytes. bytes.items) text.now)) }
{
    let mut members = Members::new(alloc);
    members.put(alloc, "line", Value::from(number))?;
    put_premise(alloc, universe, &mut members, premise)?;
    put_any_text(alloc, &mut members, text)?;
    Ok(members.into_value())
}

// The object of a line that follows, with its number.
fn derived_value(
    alloc: Global,
    universe: &Universe<'_, '_>,
    number: usize,
    literals: &[Literal],
    hints: &[u32],
) -> Result<Value, AllocError>
    ensures { IfOk result
        (λ value. view value ≡ Spec.derived_data universe.now number literals.now hints.now) }
{
    let mut members = Members::new(alloc);
    members.put(alloc, "line", Value::from(number))?;
    members.put(
        alloc,
        "literals",
        Value::from(literal_values(alloc, universe, literals)?),
    )?;
    members.put(alloc, "hints", Value::from(hint_values(alloc, hints)?))?;
    Ok(members.into_value())
}

// The objects of the literals.
fn literal_values(
    alloc: Global,
    universe: &Universe<'_, '_>,
    literals: &[Literal],
) -> Result<Vec<Value>, AllocError>
    ensures { IfOk result
        (λ values. map view values.items ≡ map (literal_data universe.now) literals.now) }
{
    let mut values = Vec::new(alloc);
    for literal in literals {
        push_value(&mut values, literal_value(alloc, universe, *literal)?)?;
    }
    Ok(values)
}

// The numbers of the hints.
fn hint_values(alloc: Global, hints: &[u32]) -> Result<Vec<Value>, AllocError>
    ensures { IfOk result (λ values. map view values.items ≡ map Spec.hint_data hints.now) }
{
    let mut values = Vec::new(alloc);
    for hint in hints {
        push_value(&mut values, Value::from(*hint))?;
    }
    Ok(values)
}

// Whether the line is a premise.
fn is_premise(line: &Line) -> bool
    ensures { result ≡ Spec.is_premise line.now }
{
    matches!(line, Line::Premise(_))
}

// How many lines are premises.
fn count_premises(lines: &[Line]) -> usize
    ensures { result ≡ length (filter Spec.is_premise lines.now) }
{
    lines.iter().filter(|line| is_premise(line)).count()
}

// How many lines are derived.
fn count_derived(lines: &[Line]) -> usize
    ensures { result ≡ length (filter (λ line. not (Spec.is_premise line)) lines.now) }
{
    lines.iter().filter(|line| !is_premise(line)).count()
}

// How many lines are premises and how many are derived, as an object.
fn counts_of_lines(alloc: Global, lines: &[Line]) -> Result<Value, AllocError>
    ensures { IfOk result (λ value. view value ≡ Spec.line_counts_data lines.now) }
{
    json!(in alloc; {"premises": count_premises(lines), "derived": count_derived(lines)})
}
