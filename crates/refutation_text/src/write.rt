// The text of a refutation: each line is the words that it is read from.

ghost use Rattle.std.specs.Prelude.{◌≡◌, ◌∷◌, ◌++◌, [], true, IfOk, OnOk, codes, decimal};
ghost use Rattle.std.specs.List.{flat_map, join_with_byte};
ghost use Rattle.rules.specs.Name.{is_name};
ghost use Rattle.refutation_text.specs.LineText.{is_named, is_premise_named, line_text, premise_words, words_of};
ghost use Rattle.refutation_text.specs.Number.{literal_word};
ghost use Rattle.refutation_text.specs.Text.{refutation_text, IsReadAs};
ghost use Rattle.plantext.specs.declared.cut.TheConstants.{NEWLINE, SPACE};
ghost use Rattle.refutation.specs.declared.line.Line.TheVariants.{Derived};

use itoa::Buffer;
use plantext::{NEWLINE, SPACE};
use refutation::{Line, Literal, Premise, Refutation};
use rules::Name;
use std::alloc::{AllocError, Global};

// Writes the number behind the text.
fn push_decimal(text: &mut Vec<u8>, number: u32) -> Result<(), AllocError>
    ensures { OnOk result (text.new.items ≡ text.old.items ++ decimal number) }
{
    let mut buffer = Buffer::new();
    text.extend_from_slice(buffer.format(number).as_bytes())
}

// Writes a space and the number behind the text.
fn push_number(text: &mut Vec<u8>, number: u32) -> Result<(), AllocError>
    ensures { OnOk result (text.new.items ≡ text.old.items ++ SPACE ∷ decimal number) }
{
    text.push(SPACE)?;
    push_decimal(text, number)
}

// Writes a space and the literal behind the text.
fn push_literal(text: &mut Vec<u8>, literal: Literal) -> Result<(), AllocError>
    ensures { OnOk result (text.new.items ≡ text.old.items ++ SPACE ∷ literal_word literal) }
{
    match literal {
        Literal::Selected(pair) => push_number(text, pair),
        Literal::Unselected(pair) => {
            text.extend_from_slice(b" -")?;
            push_decimal(text, pair)
        }
    }
}

fn push_literals(text: &mut Vec<u8>, literals: &[Literal]) -> Result<(), AllocError>
    ensures { OnOk result
        (text.new.items ≡ text.old.items
        ++ flat_map (λ literal. SPACE ∷ literal_word literal) literals.now) }
{
    for literal in literals {
        push_literal(text, *literal)?;
    }
    Ok(())
}

fn push_hints(text: &mut Vec<u8>, hints: &[u32]) -> Result<(), AllocError>
    ensures { OnOk result
        (text.new.items ≡ text.old.items ++ flat_map (λ hint. SPACE ∷ decimal hint) hints.now) }
{
    for hint in hints {
        push_number(text, *hint)?;
    }
    Ok(())
}

// Writes a kind and its number behind the text.
fn push_single(text: &mut Vec<u8>, kind: &[u8], number: u32) -> Result<(), AllocError>
    ensures { OnOk result
        (text.new.items ≡ text.old.items ++ join_with_byte SPACE (kind.now ∷ decimal number ∷ [])) }
{
    text.extend_from_slice(kind)?;
    push_number(text, number)
}

// Writes a kind and its two numbers behind the text.
fn push_two(text: &mut Vec<u8>, kind: &[u8], number: u32, other: u32) -> Result<(), AllocError>
    ensures { OnOk result
        (text.new.items ≡ text.old.items
        ++ join_with_byte SPACE (kind.now ∷ decimal number ∷ decimal other ∷ [])) }
{
    push_single(text, kind, number)?;
    push_number(text, other)
}

// Writes a kind and its name behind the text.
fn push_named(text: &mut Vec<u8>, kind: &[u8], name: &Name) -> Result<(), AllocError>
    // The two words stand behind the text.
    ensures written { OnOk result
        (text.new.items ≡ text.old.items ++ join_with_byte SPACE (kind.now ∷ name.now ∷ [])) }
    // The name is one.
    ensures named { OnOk result (is_name name.now ≡ true) }
{
    text.extend_from_slice(kind)?;
    text.push(SPACE)?;
    text.extend_from_slice(name.as_bytes())
}

// Writes the words of a premise behind the text.
fn push_premise(text: &mut Vec<u8>, premise: &Premise) -> Result<(), AllocError>
    // The premise's words stand behind the text.
    ensures written { OnOk result
        (text.new.items ≡ text.old.items ++ join_with_byte SPACE (premise_words premise.now)) }
    // What the premise names is a name.
    ensures named { OnOk result (is_premise_named premise.now ≡ true) }
{
    match premise {
        Premise::Same(pair, other) => push_two(text, b"same", *pair, *other),
        Premise::PreDepends(pair, clause) => push_two(text, b"predepends", *pair, *clause),
        Premise::Depends(pair, clause) => push_two(text, b"depends", *pair, *clause),
        Premise::Conflicts(pair, other) => push_two(text, b"conflicts", *pair, *other),
        Premise::Breaks(pair, other) => push_two(text, b"breaks", *pair, *other),
        Premise::Goal(goal) => push_single(text, b"goal", *goal),
        Premise::GoalOn(goal, pair) => push_two(text, b"goal", *goal, *pair),
        Premise::Hold(pair) => push_single(text, b"hold", *pair),
        Premise::Essential(name) => push_named(text, b"essential", name),
        Premise::Keep(name) => push_named(text, b"keep", name),
    }
}

// Writes the words of a derived line behind the text.
fn push_derived(text: &mut Vec<u8>, literals: &[Literal], hints: &[u32]) -> Result<(), AllocError>
    ensures { OnOk result
        (text.new.items ≡ text.old.items
        ++ join_with_byte SPACE (words_of (Derived literals.now hints.now))) }
{
    text.extend_from_slice(b"derive")?;
    push_literals(text, literals)?;
    text.extend_from_slice(b" :")?;
    push_hints(text, hints)
}

fn push_words(text: &mut Vec<u8>, line: &Line) -> Result<(), AllocError>
    // The line's words stand behind the text.
    ensures written { OnOk result
        (text.new.items ≡ text.old.items ++ join_with_byte SPACE (words_of line.now)) }
    // What the line names is a name.
    ensures named { OnOk result (is_named line.now ≡ true) }
{
    match line {
        Line::Premise(premise) => push_premise(text, premise),
        Line::Derived(literals, hints) => push_derived(text, literals.as_slice(), hints.as_slice()),
    }
}

// Writes the line with its newline behind the text.
#[tactic(auto, unfolding(crate::specs::LineText::line_text))]
fn push_line(text: &mut Vec<u8>, line: &Line) -> Result<(), AllocError>
    // The line's text stands behind the text.
    ensures written { OnOk result (text.new.items ≡ text.old.items ++ line_text line.now) }
    // What the line names is a name.
    ensures named { OnOk result (is_named line.now ≡ true) }
{
    push_words(text, line)?;
    text.push(NEWLINE)?;
    Ok(())
}

/// The text of the refutation. It is read again as the refutation by `read_refutation`, if its lines can be written and
/// are within the limits. Memory alone can fail; linear in the refutation.
#[tactic(auto, unfolding(crate::specs::Text::refutation_text))]
pub fn write_refutation(alloc: Global, refutation: &Refutation) -> Result<Vec<u8>, AllocError>
    // The text is that of the lines.
    ensures written { IfOk result (λ text. text.items ≡ refutation_text refutation.now) }
    // It is read as these lines, if they can be written and are within the limits.
    ensures read_again { IfOk result (λ text. IsReadAs refutation.now text.items) }
{
    let mut text = Vec::new(alloc);
    text.extend_from_slice(b"refutation 1\n")?;
    for line in refutation.as_slice() {
        push_line(&mut text, line)?;
    }
    Ok(text)
}
