// The text of a refutation whose pairs are named: each line is the words that it is read from.

ghost use Rattle.std.specs.Prelude.{◌≡◌, ◌∷◌, ◌++◌, [], true, IfOk, OnOk, codes, decimal};
ghost use Rattle.std.specs.List.{flat_map, join_with_byte, list_all};
ghost use Rattle.rules.specs.Name.{is_name};
ghost use Rattle.plantext.specs.Plan.{end_line};
ghost use Rattle.plantext.specs.declared.cut.TheConstants.{NEWLINE, SPACE};
ghost use Rattle.named_refutation.specs.Derived.{literal_words};
ghost use Rattle.named_refutation.specs.Index.{index_text};
ghost use Rattle.named_refutation.specs.LineText.{is_literal, is_named, is_pair, is_premise_named, line_text, premise_words, words_of};
ghost use Rattle.named_refutation.specs.Text.{named_text, IsReadAs};
ghost use Rattle.named_refutation.specs.declared.named.NamedLine.TheVariants.{Derived};

use crate::named::{IndexLine, NamedLine, NamedLiteral, NamedPair, NamedPremise, NamedRefutation};
use itoa::Buffer;
use plantext::{NEWLINE, SPACE};
use rules::Name;
use std::alloc::{AllocError, Global};

// Writes a space and the word behind the text.
fn push_word(text: &mut Vec<u8>, word: &[u8]) -> Result<(), AllocError>
    ensures { OnOk result (text.new.items ≡ text.old.items ++ SPACE ∷ word.now) }
{
    text.push(SPACE)?;
    text.extend_from_slice(word)
}

// Writes a space and the number behind the text.
fn push_number(text: &mut Vec<u8>, number: u32) -> Result<(), AllocError>
    ensures { OnOk result (text.new.items ≡ text.old.items ++ SPACE ∷ decimal number) }
{
    let mut buffer = Buffer::new();
    push_word(text, buffer.format(number).as_bytes())
}

// Writes a space and the version behind the text, and a space and the name before it.
fn push_pair(text: &mut Vec<u8>, pair: &NamedPair) -> Result<(), AllocError>
    ensures written { OnOk result
        (text.new.items ≡ text.old.items ++ SPACE ∷ pair.now.name ++ SPACE ∷ pair.now.version) }
    ensures named { OnOk result (is_pair pair.now ≡ true) }
{
    push_word(text, pair.name.as_bytes())?;
    push_word(text, pair.version.as_bytes())
}

// Writes a kind and a pair behind the text.
fn push_paired(text: &mut Vec<u8>, kind: &[u8], pair: &NamedPair) -> Result<(), AllocError>
    ensures written { OnOk result
        (text.new.items ≡ text.old.items
        ++ join_with_byte SPACE (kind.now ∷ pair.now.name ∷ pair.now.version ∷ [])) }
    ensures named { OnOk result (is_pair pair.now ≡ true) }
{
    text.extend_from_slice(kind)?;
    push_pair(text, pair)
}

// Writes a kind and two pairs behind the text.
fn push_two(
    text: &mut Vec<u8>,
    kind: &[u8],
    pair: &NamedPair,
    other: &NamedPair,
) -> Result<(), AllocError>
    ensures written { OnOk result (text.new.items ≡ text.old.items
        ++ join_with_byte SPACE
        (kind.now ∷ pair.now.name ∷ pair.now.version ∷ other.now.name ∷ other.now.version
        ∷ [])) }
    ensures named { OnOk result (is_pair pair.now ≡ true) }
    ensures other_named { OnOk result (is_pair other.now ≡ true) }
{
    push_paired(text, kind, pair)?;
    push_pair(text, other)
}

// Writes a kind, a pair and a number behind the text.
fn push_clause(
    text: &mut Vec<u8>,
    kind: &[u8],
    pair: &NamedPair,
    clause: u32,
) -> Result<(), AllocError>
    ensures written { OnOk result (text.new.items ≡ text.old.items
        ++ join_with_byte SPACE
        (kind.now ∷ pair.now.name ∷ pair.now.version ∷ decimal clause ∷ [])) }
    ensures named { OnOk result (is_pair pair.now ≡ true) }
{
    push_paired(text, kind, pair)?;
    push_number(text, clause)
}

// Writes a goal's premise behind the text.
fn push_goal(text: &mut Vec<u8>, goal: u32) -> Result<(), AllocError>
    ensures { OnOk result
        (text.new.items ≡ text.old.items
        ++ join_with_byte SPACE (codes "goal" ∷ decimal goal ∷ [])) }
{
    text.extend_from_slice(b"goal")?;
    push_number(text, goal)
}

// Writes the premise of a goal and of a pair behind the text.
fn push_goal_on(text: &mut Vec<u8>, goal: u32, pair: &NamedPair) -> Result<(), AllocError>
    ensures written { OnOk result (text.new.items ≡ text.old.items
        ++ join_with_byte SPACE
        (codes "goal" ∷ decimal goal ∷ pair.now.name ∷ pair.now.version ∷ [])) }
    ensures named { OnOk result (is_pair pair.now ≡ true) }
{
    push_goal(text, goal)?;
    push_pair(text, pair)
}

// Writes a kind and its name behind the text.
fn push_named(text: &mut Vec<u8>, kind: &[u8], name: &Name) -> Result<(), AllocError>
    ensures written { OnOk result
        (text.new.items ≡ text.old.items ++ join_with_byte SPACE (kind.now ∷ name.now ∷ [])) }
    ensures named { OnOk result (is_name name.now ≡ true) }
{
    text.extend_from_slice(kind)?;
    push_word(text, name.as_bytes())
}

// Writes the words of a premise behind the text.
fn push_premise(text: &mut Vec<u8>, premise: &NamedPremise) -> Result<(), AllocError>
    ensures written { OnOk result
        (text.new.items ≡ text.old.items ++ join_with_byte SPACE (premise_words premise.now)) }
    ensures named { OnOk result (is_premise_named premise.now ≡ true) }
{
    match premise {
        NamedPremise::Same(pair, other) => push_two(text, b"same", pair, other),
        NamedPremise::PreDepends(pair, clause) => push_clause(text, b"predepends", pair, *clause),
        NamedPremise::Depends(pair, clause) => push_clause(text, b"depends", pair, *clause),
        NamedPremise::Conflicts(pair, other) => push_two(text, b"conflicts", pair, other),
        NamedPremise::Breaks(pair, other) => push_two(text, b"breaks", pair, other),
        NamedPremise::Goal(goal) => push_goal(text, *goal),
        NamedPremise::GoalOn(goal, pair) => push_goal_on(text, *goal, pair),
        NamedPremise::Hold(pair) => push_paired(text, b"hold", pair),
        NamedPremise::Essential(name) => push_named(text, b"essential", name),
        NamedPremise::Keep(name) => push_named(text, b"keep", name),
    }
}

// Writes a space, a minus and the pair behind the text.
fn push_unselected(text: &mut Vec<u8>, pair: &NamedPair) -> Result<(), AllocError>
    ensures written { OnOk result
        (text.new.items ≡ text.old.items ++ SPACE ∷ 45 ∷ pair.now.name ++ SPACE
        ∷ pair.now.version) }
    ensures named { OnOk result (is_pair pair.now ≡ true) }
{
    text.extend_from_slice(b" -")?;
    text.extend_from_slice(pair.name.as_bytes())?;
    push_word(text, pair.version.as_bytes())
}

// Writes the words of a literal behind the text, a space before each.
fn push_literal(text: &mut Vec<u8>, literal: &NamedLiteral) -> Result<(), AllocError>
    ensures written { OnOk result
        (text.new.items ≡ text.old.items
        ++ flat_map (λ word. SPACE ∷ word) (literal_words literal.now)) }
    ensures named { OnOk result (is_literal literal.now ≡ true) }
{
    match literal {
        NamedLiteral::Selected(pair) => push_pair(text, pair),
        NamedLiteral::Unselected(pair) => push_unselected(text, pair),
    }
}

fn push_literals(text: &mut Vec<u8>, literals: &[NamedLiteral]) -> Result<(), AllocError>
    ensures written { OnOk result (text.new.items ≡ text.old.items
        ++ flat_map (λ literal.
        flat_map (λ word. SPACE ∷ word) (literal_words literal)) literals.now) }
    ensures named { OnOk result (list_all is_literal literals.now ≡ true) }
{
    for literal in literals {
        push_literal(text, literal)?;
    }
    Ok(())
}

fn push_hints(text: &mut Vec<u8>, hints: &[u32]) -> Result<(), AllocError>
    ensures { OnOk result
        (text.new.items ≡ text.old.items ++ flat_map (λ hint. SPACE ∷ decimal hint) hints.now) }
{
    for hint in hints {
        push_number(text, *hint)?;
    }
    Ok(())
}

// Writes the words of a derived line behind the text.
fn push_derived(
    text: &mut Vec<u8>,
    literals: &[NamedLiteral],
    hints: &[u32],
) -> Result<(), AllocError>
    ensures written { OnOk result
        (text.new.items ≡ text.old.items
        ++ join_with_byte SPACE (words_of (Derived literals.now hints.now))) }
    ensures named { OnOk result (list_all is_literal literals.now ≡ true) }
{
    text.extend_from_slice(b"derive")?;
    push_literals(text, literals)?;
    text.extend_from_slice(b" :")?;
    push_hints(text, hints)
}

fn push_words(text: &mut Vec<u8>, line: &NamedLine) -> Result<(), AllocError>
    ensures written { OnOk result
        (text.new.items ≡ text.old.items ++ join_with_byte SPACE (words_of line.now)) }
    ensures named { OnOk result (is_named line.now ≡ true) }
{
    match line {
        NamedLine::Premise(premise) => push_premise(text, premise),
        NamedLine::Derived(literals, hints) => {
            push_derived(text, literals.as_slice(), hints.as_slice())
        }
    }
}

// Writes the line with its newline behind the text.
#[tactic(auto, unfolding(crate::specs::LineText::line_text))]
fn push_line(text: &mut Vec<u8>, line: &NamedLine) -> Result<(), AllocError>
    ensures written { OnOk result (text.new.items ≡ text.old.items ++ line_text line.now) }
    ensures named { OnOk result (is_named line.now ≡ true) }
{
    push_words(text, line)?;
    text.push(NEWLINE)?;
    Ok(())
}

fn push_lines(text: &mut Vec<u8>, lines: &[NamedLine]) -> Result<(), AllocError>
    ensures written { OnOk result
        (text.new.items ≡ text.old.items ++ flat_map line_text lines.now) }
    ensures named { OnOk result (list_all is_named lines.now ≡ true) }
{
    for line in lines {
        push_line(text, line)?;
    }
    Ok(())
}

// Writes the line of the index with its newline behind the text.
#[tactic(auto, unfolding(crate::specs::Index::index_text))]
fn push_index(text: &mut Vec<u8>, index: &IndexLine) -> Result<(), AllocError>
    ensures { OnOk result (text.new.items ≡ text.old.items ++ index_text index.now) }
{
    text.extend_from_slice(b"index ")?;
    text.extend_from_slice(index.sum.as_bytes())?;
    push_word(text, index.path.as_bytes())?;
    text.push(NEWLINE)?;
    Ok(())
}

fn push_indices(text: &mut Vec<u8>, indices: &[IndexLine]) -> Result<(), AllocError>
    ensures { OnOk result (text.new.items ≡ text.old.items ++ flat_map index_text indices.now) }
{
    for index in indices {
        push_index(text, index)?;
    }
    Ok(())
}

// Writes the line that ends so many behind the text.
fn push_end(text: &mut Vec<u8>, count: usize) -> Result<(), AllocError>
    ensures { OnOk result (text.new.items ≡ text.old.items ++ end_line count ++ NEWLINE ∷ []) }
{
    text.extend_from_slice(b"end ")?;
    text.extend_from_slice(Buffer::new().format(count).as_bytes())?;
    text.push(NEWLINE)?;
    Ok(())
}

/// The text of the refutation. It is read again as the refutation by `read_named_refutation`, if its indices and lines can be
/// written and are within the limits. Memory alone can fail; linear in the refutation.
#[tactic(auto, unfolding(crate::specs::Text::named_text))]
pub fn write_named_refutation(
    alloc: Global,
    refutation: &NamedRefutation,
) -> Result<Vec<u8>, AllocError>
    // The text is that of the refutation.
    ensures written { IfOk result (λ text. text.items ≡ named_text refutation.now) }
    // It is read as this refutation, if that can be written and is within the limits.
    ensures read_again { IfOk result (λ text. IsReadAs refutation.now text.items) }
{
    let mut text = Vec::new(alloc);
    text.extend_from_slice(b"refutation 2\n")?;
    push_indices(&mut text, refutation.indices.as_slice())?;
    push_lines(&mut text, refutation.lines.as_slice())?;
    push_end(&mut text, refutation.lines.as_slice().len())?;
    Ok(text)
}
