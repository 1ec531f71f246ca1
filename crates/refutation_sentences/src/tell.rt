// Sentences for the premises of a refutation.

ghost use Rattle.std.specs.Prelude.{◌≡◌, ◌↔◌, ◌⊎◌, ◌++◌, ℕ, IfOk, OnOk, List, map, slice_get};
ghost use Rattle.std.specs.List.{All, Contains, flat_map};
ghost use Rattle.std.specs.Option.{option_copied};
ghost use Rattle.refutation_sentences.specs.Sentences as Spec;

use crate::basis::{Basis, bases_of};
use crate::closing::push_closing;
use crate::context::Context;
use crate::instead::instead_of;
use crate::order::order_of;
use crate::sentence::sentence_of;
use index::Index;
use indexmap::IndexSet;
use pins::Prefs;
use refutation::Refutation;
use refutecheck::Premises;
use std::alloc::{AllocError, Global};

// The sentences of the premises, each at the place of its premise.
fn texts_of(
    context: &Context<'_, '_, '_, '_, '_>,
    refutation: &Refutation,
    bases: &[Basis<'_>],
) -> Result<Vec<Vec<u8>>, AllocError>
    requires { All (Spec.IsBasis context.now.premises.now refutation.now) bases.now }
    ensures truthful { IfOk result
        (λ texts. Spec.AreTruthful context.now.premises.now context.now.indices.now refutation.now
        (map (λ text. text.items) texts.items)) }
    ensures told { IfOk result
        (λ texts. All (λ basis. Spec.HasSentence context.now.premises.now
        context.now.indices.now basis.premise.now
        (map (λ text. text.items) texts.items)) bases.now) }
{
    let mut texts = Vec::new(context.alloc());
    for basis in bases {
        texts.push(sentence_of(context, basis)?)?;
    }
    Ok(texts)
}

// Puts the line behind the others, unless it is among them.
fn insert_line<'t>(lines: &mut IndexSet<&'t [u8]>, line: &'t [u8]) -> Result<(), AllocError>
    ensures { OnOk result ((other : List ℕ)
        → Contains (map (λ key. key.now) lines.new.keys) other
        ↔ (Contains (map (λ key. key.now) lines.old.keys) other ⊎ (other ≡ line.now))) }
{
    lines.insert(line)?;
    Ok(())
}

// The text at the place, if there is one.
fn text_at<'t>(texts: &'t [Vec<u8>], place: usize) -> Option<&'t Vec<u8>>
    ensures { option_copied result ≡ slice_get texts.now place }
{
    texts.get(place)
}

// Puts the text at the place behind the lines, unless it is among them, if there is one.
fn insert_at<'t>(
    lines: &mut IndexSet<&'t [u8]>,
    texts: &'t [Vec<u8>],
    place: usize,
) -> Result<(), AllocError>
    ensures { OnOk result ((other : List ℕ)
        → Contains (map (λ key. key.now) lines.new.keys) other
        → Contains (map (λ key. key.now) lines.old.keys) other
        ⊎ Contains (map (λ text. text.items) texts.now) other) }
{
    match text_at(texts, place) {
        None => Ok(()),
        Some(text) => {
            insert_line(lines, text.as_slice())?;
            Ok(())
        }
    }
}

// The texts at these places.
fn lines_at<'t>(
    alloc: Global,
    texts: &'t [Vec<u8>],
    places: &[usize],
) -> Result<IndexSet<&'t [u8]>, AllocError>
    ensures { IfOk result (λ lines. (other : List ℕ)
        → Contains (map (λ key. key.now) lines.keys) other
        → Contains (map (λ text. text.items) texts.now) other) }
{
    let mut lines = IndexSet::new(alloc);
    for place in places {
        insert_at(&mut lines, texts, *place)?;
    }
    Ok(lines)
}

// Puts the texts behind the lines that aren't among them.
fn insert_all<'t>(lines: &mut IndexSet<&'t [u8]>, texts: &'t [Vec<u8>]) -> Result<(), AllocError>
    ensures { OnOk result ((other : List ℕ)
        → Contains (map (λ key. key.now) lines.new.keys) other
        ↔ (Contains (map (λ key. key.now) lines.old.keys) other
        ⊎ Contains (map (λ text. text.items) texts.now) other)) }
{
    for text in texts {
        insert_line(lines, text.as_slice())?;
    }
    Ok(())
}

// The texts, each once, those at the places first.
fn lines_in_order<'t>(
    alloc: Global,
    texts: &'t [Vec<u8>],
    places: &[usize],
) -> Result<IndexSet<&'t [u8]>, AllocError>
    ensures { IfOk result (λ lines. (other : List ℕ)
        → Contains (map (λ key. key.now) lines.keys) other
        ↔ Contains (map (λ text. text.items) texts.now) other) }
{
    let mut lines = lines_at(alloc, texts, places)?;
    insert_all(&mut lines, texts)?;
    Ok(lines)
}

// The lines behind the text.
fn push_lines(text: &mut Vec<u8>, lines: &[&[u8]]) -> Result<(), AllocError>
    ensures { OnOk result (text.new.items
        ≡ text.old.items ++ flat_map (λ one. one) (map (λ line. line.now) lines.now)) }
{
    for line in lines {
        text.extend_from_slice(*line)?;
    }
    Ok(())
}

// The owned lines behind the text.
fn push_owned(text: &mut Vec<u8>, lines: &[Vec<u8>]) -> Result<(), AllocError>
    ensures { OnOk result (text.new.items
        ≡ text.old.items ++ flat_map (λ one. one) (map (λ line. line.items) lines.now)) }
{
    for line in lines {
        text.extend_from_slice(line.as_slice())?;
    }
    Ok(())
}

// The text of the lines, of those behind them, and of the closing one.
fn text_of(
    alloc: Global,
    lines: &[&[u8]],
    behind: &[Vec<u8>],
    all_versions: bool,
) -> Result<Vec<u8>, AllocError>
    ensures { IfOk result (λ text.
        text.items ≡ flat_map (λ one. one) (map (λ line. line.now) lines.now
        ++ map (λ line. line.items) behind.now) ++ Spec.closing_words all_versions) }
{
    let mut text = Vec::new(alloc);
    push_lines(&mut text, lines)?;
    push_owned(&mut text, behind)?;
    push_closing(&mut text, all_versions)?;
    Ok(text)
}

/// A sentence for each premise of the refutation over the universe of these premises, one a line and none twice, in an order in
/// which each names what those before have named, behind them one for each version that would do for a dependency and isn't admitted, where
/// something speaks against the one that can satisfy it, and a line that says what they are about. The indices say which versions there are
/// that aren't admitted, and the preferences why. Its words aren't promised. It costs what the clauses of the premises cost, n log n in their
/// literals, and is linear in the pairs, in the stanzas with what they provide and in the preferences for each name that no pair
/// satisfies. Memory alone can fail.
pub fn sentences(
    premises: &Premises<'_, '_, '_>,
    indices: &[Index<'_>],
    prefs: &Prefs,
    refutation: &Refutation,
    all_versions: bool,
) -> Result<Vec<u8>, AllocError>
    // each line tells a premise of the refutation, or of a version that would do too, and each premise is told
    ensures { IfOk result
        (λ text. Spec.AreSentences premises.now indices.now refutation.now all_versions
        text.items) }
{
    let bases = bases_of(premises, refutation)?;
    let places = order_of(premises.alloc(), bases.as_slice())?;
    let context = Context {
        premises,
        indices,
        prefs,
        all_versions,
    };
    let texts = texts_of(&context, refutation, bases.as_slice())?;
    let lines = lines_in_order(premises.alloc(), texts.as_slice(), places.as_slice())?;
    let instead = instead_of(&context, bases.as_slice())?;
    let text = text_of(
        premises.alloc(),
        lines.as_slice(),
        instead.as_slice(),
        all_versions,
    )?;
    Ok(text)
}
