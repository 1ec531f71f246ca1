// Lines of items under headings, and the line of counts.

ghost use Rattle.std.specs.Prelude.{◌≡◌, ◌++◌, IfOk, OnOk, length, map};
ghost use Rattle.plan_sentences.specs.Told as Spec;

use crate::further::Further;
use crate::kind::{Kind, is_of};
use crate::told::Told;
use phrases::{push_count, push_joined};
use std::alloc::{AllocError, Global};
use std::marker::Model;

/// Writes the line of the heading, where it has items: `New: a 1, b 2`.
pub(crate) fn push_line(
    text: &mut Vec<u8>,
    heading: &[u8],
    items: &[Vec<u8>],
) -> Result<(), AllocError>
    ensures { OnOk result
        (text.new.items ≡ text.old.items
        ++ Spec.line heading.now (map (λ item. item.items) items.now)) }
{
    if items.is_empty() {
        return Ok(());
    }
    text.extend_from_slice(heading)?;
    text.extend_from_slice(b": ")?;
    push_joined(text, b", ", items)?;
    text.push(b'\n')?;
    Ok(())
}

// Puts the item of the change behind the others, if it is of the kind.
fn push_item(
    alloc: Global,
    items: &mut Vec<Vec<u8>>,
    kind: Kind,
    one: &Told<'_, '_, '_>,
) -> Result<(), AllocError>
    ensures { OnOk result (map (λ item. item.items) items.new.items
        ≡ map (λ item. item.items) items.old.items ++ Spec.item_in kind one.now) }
{
    if is_of(kind, one.kind()) {
        items.push(one.item(alloc)?)?;
    }
    Ok(())
}

// The items of the line of the kind.
fn items_of(
    alloc: Global,
    told: &[Told<'_, '_, '_>],
    kind: Kind,
) -> Result<Vec<Vec<u8>>, AllocError>
    ensures { IfOk result
        (λ items. map (λ item. item.items) items.items ≡ Spec.items_of kind told.now) }
{
    let mut items = Vec::new(alloc);
    for one in told {
        push_item(alloc, &mut items, kind, one)?;
    }
    Ok(items)
}

// The items of each kind.
#[derive(Drop)]
struct Items {
    new: Vec<Vec<u8>>,
    upgraded: Vec<Vec<u8>>,
    downgraded: Vec<Vec<u8>>,
    removed: Vec<Vec<u8>>,
    purged: Vec<Vec<u8>>,
}

impl Model for Items {
    ghost use Rattle.std.specs.Prelude.{map};
    ghost use Rattle.plan_sentences.specs.Told.{Items as ItemsValue};

    ghost Value = { ItemsValue };

    ghost view = { λ i. record {
      new = map (λ item. item.items) i.new.items;
      upgraded = map (λ item. item.items) i.upgraded.items;
      downgraded = map (λ item. item.items) i.downgraded.items;
      removed = map (λ item. item.items) i.removed.items;
      purged = map (λ item. item.items) i.purged.items;
    } };
}

// Writes how many are downgraded, where some are.
fn push_downgraded(text: &mut Vec<u8>, count: usize) -> Result<(), AllocError>
    ensures { OnOk result (text.new.items ≡ text.old.items ++ Spec.downgraded_words count) }
{
    if count == 0 {
        return Ok(());
    }
    push_count(text, count)?;
    text.extend_from_slice(b" downgraded, ")
}

// Writes how many are purged, where some are.
fn push_purged(text: &mut Vec<u8>, count: usize) -> Result<(), AllocError>
    ensures { OnOk result (text.new.items ≡ text.old.items ++ Spec.purged_words count) }
{
    if count == 0 {
        return Ok(());
    }
    text.extend_from_slice(b", ")?;
    push_count(text, count)?;
    text.extend_from_slice(b" purged")
}

// Writes how many are upgraded and downgraded.
fn push_kept(text: &mut Vec<u8>, upgraded: usize, downgraded: usize) -> Result<(), AllocError>
    ensures { OnOk result
        (text.new.items ≡ text.old.items ++ Spec.kept_words upgraded downgraded) }
{
    push_count(text, upgraded)?;
    text.extend_from_slice(b" upgraded, ")?;
    push_downgraded(text, downgraded)
}

// Writes how many are removed and purged.
fn push_gone(text: &mut Vec<u8>, removed: usize, purged: usize) -> Result<(), AllocError>
    ensures { OnOk result (text.new.items ≡ text.old.items ++ Spec.gone_words removed purged) }
{
    push_count(text, removed)?;
    text.extend_from_slice(b" removed")?;
    push_purged(text, purged)?;
    text.push(b'\n')?;
    Ok(())
}

// Writes how many are new, upgraded, downgraded, removed and purged.
fn push_counts(
    text: &mut Vec<u8>,
    new: usize,
    upgraded: usize,
    downgraded: usize,
    removed: usize,
    purged: usize,
) -> Result<(), AllocError>
    ensures { OnOk result
        (text.new.items ≡ text.old.items
        ++ Spec.counts_words new upgraded downgraded removed purged) }
{
    push_count(text, new)?;
    text.extend_from_slice(b" new, ")?;
    push_kept(text, upgraded, downgraded)?;
    push_gone(text, removed, purged)
}

// How many items there are.
fn count_of(items: &[Vec<u8>]) -> usize
    ensures { result ≡ length (map (λ item. item.items) items.now) }
{
    items.len()
}

impl Items {
    // The items of these changes.
    fn of(alloc: Global, told: &[Told<'_, '_, '_>]) -> Result<Items, AllocError>
        ensures { IfOk result (λ items. items ≡ Spec.items_in told.now) }
    {
        let new = items_of(alloc, told, Kind::New)?;
        let upgraded = items_of(alloc, told, Kind::Upgraded)?;
        let downgraded = items_of(alloc, told, Kind::Downgraded)?;
        let removed = items_of(alloc, told, Kind::Removed)?;
        let purged = items_of(alloc, told, Kind::Purged)?;
        Ok(Items {
            new,
            upgraded,
            downgraded,
            removed,
            purged,
        })
    }

    // Writes the line of each kind.
    fn write(&self, text: &mut Vec<u8>) -> Result<(), AllocError>
        ensures { OnOk result (text.new.items ≡ text.old.items ++ Spec.item_lines self.now) }
    {
        push_line(text, b"New", self.new.as_slice())?;
        push_line(text, b"Upgraded", self.upgraded.as_slice())?;
        push_line(text, b"Downgraded", self.downgraded.as_slice())?;
        push_line(text, b"Removed", self.removed.as_slice())?;
        push_line(text, b"Purged", self.purged.as_slice())
    }

    // Writes how many items each kind has.
    fn write_counts(&self, text: &mut Vec<u8>) -> Result<(), AllocError>
        ensures { OnOk result (text.new.items ≡ text.old.items ++ Spec.counts_line self.now) }
    {
        let new = count_of(self.new.as_slice());
        let upgraded = count_of(self.upgraded.as_slice());
        let downgraded = count_of(self.downgraded.as_slice());
        let removed = count_of(self.removed.as_slice());
        let purged = count_of(self.purged.as_slice());
        push_counts(text, new, upgraded, downgraded, removed, purged)?;
        Ok(())
    }
}

// Writes the lines of the changes, the further ones and the counts.
fn push_changes(
    alloc: Global,
    text: &mut Vec<u8>,
    told: &[Told<'_, '_, '_>],
    further: &Further,
) -> Result<(), AllocError>
    ensures { OnOk result (text.new.items ≡ text.old.items
        ++ Spec.text_of told.now further.now) }
{
    let items = Items::of(alloc, told)?;
    items.write(text)?;
    further.write(text)?;
    items.write_counts(text)?;
    Ok(())
}

/// The lines of the changes, the further ones and the counts. Memory alone can fail.
pub(crate) fn text_of(
    alloc: Global,
    told: &[Told<'_, '_, '_>],
    further: &Further,
) -> Result<Vec<u8>, AllocError>
    ensures { IfOk result (λ text. text.items ≡ Spec.text_of told.now further.now) }
{
    let mut text = Vec::new(alloc);
    push_changes(alloc, &mut text, told, further)?;
    Ok(text)
}
