//! The texts of the stanzas of the status file, found by the names of their records.
ghost use Rattle.std.specs.Prelude.{◌≡◌, ◌∷◌, ◌++◌, [], false, length, not, map, slice_get, IfOk, MatchOption, None, OnErr, OnOk, Some, if◌then◌else◌, ℕ, List};
ghost use Rattle.std.specs.List.{filter, zip};
ghost use Rattle.std.specs.Map.{lookup};
ghost use Rattle.std.specs.Option.{option_and_then, option_copied, option_map, option_to_list};
ghost use Rattle.std.specs.Arc.{arc_slice_items};
ghost use Rattle.std.specs.Str.{bytes_eq};
ghost use Rattle.rules.specs.FileRecord.{FileRecord};
ghost use Rattle.rules.specs.Step.{is_named};
ghost use Rattle.status_text.specs.Alone.{alone};
ghost use Rattle.status_text.specs.Slot.{FileSlot, Store, entries_of};
ghost use Rattle.status_text.specs.declared.slot.Slot.TheVariants as slot;
ghost use Rattle.status.specs.Change.{IsTextOf};
ghost use Rattle.status.specs.Faithful.{IsSound};
ghost use Rattle.status.specs.Places.{AreDistinct, entry_at, inside, slots_at, slots_read};
ghost use Rattle.status.specs.Stored.{IsStored};
ghost use Rattle.status.specs.Text.{place_text, places_text, slots_text};
ghost use Rattle.status.specs.Slots.{changed_slots, entry_named, has_name, is_slot_named, names_of};

use indexmap::IndexMap;
use status_text::{Slot, StatusRecord, read_alone};
use std::alloc::{AllocError, Global};
use std::marker::Model;
use std::sync::ArcSlice;

/// The text of each stanza in its place, for an architecture. A stanza that is deleted leaves its place empty, so that no other
/// moves; `numbers` has for each name of a record the number of its place, in the order of the places.
#[derive(Drop)]
pub struct Table {
    arch: Vec<u8>,
    places: Vec<Option<ArcSlice<u8>>>,
    numbers: IndexMap<Vec<u8>, usize>,
}

impl Model for Table {
    ghost use Rattle.std.specs.Arc.{arc_slice_items};
    ghost use Rattle.std.specs.Prelude.{map};
    ghost use Rattle.std.specs.Option.{option_map};
    ghost use Rattle.status_text.specs.Slot.{Store};
    ghost use Rattle.status.specs.Places.{AreKept, IsTable, slots_at, slots_read};

    ghost Value = { Store };

    ghost view = { λ t. record {
      arch = t.arch.items;
      slots = slots_at (slots_read t.arch.items (map (λ place. option_map (λ text. arc_slice_items text) place) t.places.items));
    } };

    ghost invariant = { λ t. IsTable (map (λ pair. (pair.0.items, pair.1)) t.numbers.entries)
        (slots_read t.arch.items (map (λ place. option_map (λ text. arc_slice_items text) place) t.places.items))
        × AreKept t.arch.items (map (λ place. option_map (λ text. arc_slice_items text) place) t.places.items) };
}

// The number of the place of the name, if there is one.
fn place_of(numbers: &IndexMap<Vec<u8>, usize>, name: &[u8]) -> Option<usize>
    ensures { result ≡ lookup (λ key. bytes_eq name.now key.items) numbers.now.entries }
{
    numbers.get(name).copied()
}

// The record of the text, if it has one.
fn record_in<'t>(arch: &'t [u8], text: &'t [u8]) -> Option<StatusRecord<'t>>
    ensures { result ≡ entry_at (Some (alone arch.now text.now)) }
{
    match read_alone(text, arch) {
        Some(Slot::Recorded(entry)) => Some(entry),
        _ => None,
    }
}

// The text in the place, if there is one.
fn text_at<'t>(places: &'t [Option<ArcSlice<u8>>], place: usize) -> Option<&'t ArcSlice<u8>>
    ensures { option_copied result ≡ inside (slice_get places.now place) }
{
    match places.get(place) {
        Some(Some(text)) => Some(text),
        _ => None,
    }
}

// The record of the text in the place, if there is one.
fn record_at<'t>(
    arch: &'t [u8],
    places: &'t [Option<ArcSlice<u8>>],
    place: usize,
) -> Option<StatusRecord<'t>>
    ensures { result
        ≡ entry_at (slice_get
        (slots_read arch.now
        (map (λ place.
        option_map (λ text. arc_slice_items text) place) places.now)) place) }
{
    match text_at(places, place) {
        Some(text) => record_in(arch, text.as_slice()),
        None => None,
    }
}

impl Table {
    /// No stanzas, for this architecture.
    pub fn new(alloc: Global, arch: Vec<u8>) -> Table
        ensures { result ≡ record { arch = arch.items; slots = [] } }
    {
        Table {
            arch,
            places: Vec::new(alloc),
            numbers: IndexMap::new(alloc),
        }
    }

    /// The configured architecture.
    pub fn arch(&self) -> &[u8]
        ensures { result.now ≡ self.now.arch }
    {
        self.arch.as_slice()
    }

    /// The names of the records.
    pub fn names(&self) -> &[Vec<u8>]
        ensures { map (λ name. name.items) result.now ≡ names_of self.now.slots }
    {
        self.numbers.keys().as_slice()
    }

    /// The records have distinct names, and each stanza can be written and reads back.
    pub fn is_sound(&self)
        ensures { IsSound self.now }
    {
        let _numbers = &self.numbers;
    }

    /// The record of the name, if there is one. Linear in its stanza.
    pub fn find(&self, name: &[u8]) -> Option<StatusRecord<'_>>
        ensures { result ≡ entry_named name.now self.now.slots }
    {
        match place_of(&self.numbers, name) {
            Some(place) => record_at(self.arch.as_slice(), self.places.as_slice(), place),
            None => None,
        }
    }

    /// Adds the text of a stanza without a record behind the others.
    pub fn push_foreign(&mut self, text: ArcSlice<u8>) -> Result<(), AllocError>
        requires { (stanza : _)
            × IsStored self.old.arch (arc_slice_items text) (slot.Foreign stanza) }
        ensures ok { (kept : FileSlot) → alone self.old.arch (arc_slice_items text) ≡ Some kept
            → OnOk result (self.new ≡ record self.old { slots = self.old.slots ++ kept ∷ [] }) }
    {
        self.places.push(Some(text))?;
        Ok(())
    }

    /// Adds the text of a record of a new name behind the others. Where memory is refused all stays as it was.
    pub fn push_recorded(&mut self, name: Vec<u8>, text: ArcSlice<u8>) -> Result<(), AllocError>
        requires is { (entry : FileRecord) × IsTextOf self.old.arch (arc_slice_items text) entry
            × (entry.status.name ≡ name.items) }
        requires new { has_name name.items self.old.slots ≡ false }
        ensures ok { (entry : FileRecord) → alone self.old.arch (arc_slice_items text)
            ≡ Some (slot.Recorded entry)
            → OnOk result
            (self.new ≡ record self.old {
              slots = self.old.slots ++ slot.Recorded entry
                  ∷ [];
            }) }
        ensures err { OnErr result (self.new ≡ self.old) }
    {
        self.places.reserve(1)?;
        self.numbers.insert(name, self.places.len())?;
        match self.places.push(Some(text)) {
            Ok(()) => Ok(()),
            Err(_) => unreachable!(),
        }
    }

    /// Writes the text of a record over that of its name, if there is one. No memory.
    pub fn write(&mut self, name: &[u8], text: ArcSlice<u8>)
        requires { (entry : FileRecord) × IsTextOf self.old.arch (arc_slice_items text) entry
            × (entry.status.name ≡ name.now) }
        ensures { (entry : FileRecord) → alone self.old.arch (arc_slice_items text)
            ≡ Some (slot.Recorded entry)
            → self.new ≡ record self.old {
              slots = changed_slots (is_named name.now)
                  (λ _. entry) self.old.slots;
            } }
    {
        let Some(place) = place_of(&self.numbers, name) else {
            return;
        };
        self.places[place] = Some(text);
    }

    /// Writes the text of a record over that of its name, or adds it behind the others where there is none. Where memory is
    /// refused all stays as it was.
    pub fn put(&mut self, alloc: Global, name: &[u8], text: ArcSlice<u8>) -> Result<(), AllocError>
        requires { (entry : FileRecord) × IsTextOf self.old.arch (arc_slice_items text) entry
            × (entry.status.name ≡ name.now) }
        ensures ok { (entry : FileRecord) → alone self.old.arch (arc_slice_items text)
            ≡ Some (slot.Recorded entry)
            → OnOk result (self.new ≡ record self.old {
              slots = if has_name name.now self.old.slots
                  then changed_slots (is_named name.now)
                  (λ _. entry) self.old.slots else self.old.slots ++ slot.Recorded entry ∷ [];
            }) }
        ensures err { OnErr result (self.new ≡ self.old) }
    {
        match place_of(&self.numbers, name) {
            Some(_) => {
                self.write(name, text);
                Ok(())
            }
            None => {
                let owned = Vec::from_slice(alloc, name)?;
                self.push_recorded(owned, text)
            }
        }
    }

    /// Deletes the stanza of the record of this name, if there is one. No memory. The numbers of the names behind it move.
    pub fn delete(&mut self, name: &[u8])
        ensures { self.new
            ≡ record self.old {
              slots = filter
                  (λ slot. not (is_slot_named name.now slot)) self.old.slots;
            } }
    {
        let Some(place) = place_of(&self.numbers, name) else {
            return;
        };
        self.numbers.shift_remove(name);
        self.places[place] = None;
    }

    /// An equal table, which shares the texts. Memory alone can fail. Linear in the number of stanzas and in the names.
    pub fn try_copy(&self, alloc: Global) -> Result<Table, AllocError>
        ensures { IfOk result (λ copy. copy ≡ self.now) }
    {
        Ok(Table {
            arch: Vec::from_slice(alloc, self.arch.as_slice())?,
            places: copy_of_places(alloc, self.places.as_slice())?,
            numbers: copy_of_numbers(
                alloc,
                self.numbers.keys().as_slice(),
                self.numbers.values().as_slice(),
            )?,
        })
    }

    /// The records of the stanzas. Memory alone can fail. Linear in the texts.
    pub fn records(&self, alloc: Global) -> Result<Vec<StatusRecord<'_>>, AllocError>
        ensures { IfOk result (λ records. records.items ≡ entries_of self.now.slots) }
    {
        records_in(alloc, self.arch.as_slice(), self.places.as_slice())
    }

    /// The texts, each followed by an empty line. Memory alone can fail. Linear in them.
    pub fn text(&self, alloc: Global) -> Result<Vec<u8>, AllocError>
        ensures { IfOk result (λ text. text.items ≡ slots_text self.now.slots) }
    {
        text_of(alloc, self.places.as_slice())
    }
}

// The text in a place once more, which isn't copied.
fn copy_of_place(place: &Option<ArcSlice<u8>>) -> Result<Option<ArcSlice<u8>>, AllocError>
    ensures { IfOk result
        (λ copy. option_map (λ text. arc_slice_items text) copy
        ≡ option_map (λ text. arc_slice_items text) place.now) }
{
    match place {
        Some(text) => Ok(Some(text.clone()?)),
        None => Ok(None),
    }
}

// The texts in their places once more, which aren't copied.
fn copy_of_places(
    alloc: Global,
    places: &[Option<ArcSlice<u8>>],
) -> Result<Vec<Option<ArcSlice<u8>>>, AllocError>
    ensures { IfOk result
        (λ copy. map (λ place. option_map (λ text. arc_slice_items text) place) copy.items
        ≡ map (λ place. option_map (λ text. arc_slice_items text) place) places.now) }
{
    let mut copy = Vec::with_capacity(alloc, places.len())?;
    for place in places {
        copy.push(copy_of_place(place)?)?;
    }
    Ok(copy)
}

// The distinct names and their numbers once more.
fn copy_of_numbers(
    alloc: Global,
    names: &[Vec<u8>],
    numbers: &[usize],
) -> Result<IndexMap<Vec<u8>, usize>, AllocError>
    requires distinct { AreDistinct (map (λ name. name.items) names.now) }
    requires each { length numbers.now ≡ length names.now }
    ensures { IfOk result
        (λ copy. map {B = List ℕ × ℕ} (λ pair. (pair.0.items, pair.1)) copy.entries
        ≡ zip (map (λ name. name.items) names.now) numbers.now) }
{
    let mut copy = IndexMap::new(alloc);
    for (place, name) in names.iter().enumerate() {
        let owned = Vec::from_slice(alloc, name.as_slice())?;
        copy.insert(owned, numbers[place])?;
    }
    Ok(copy)
}

// Writes the text in the place, if there is one, and an empty line onto the end of a text.
fn write_place(out: &mut Vec<u8>, place: &Option<ArcSlice<u8>>) -> Result<(), AllocError>
    ensures { OnOk result
        (out.new.items ≡ out.old.items
        ++ place_text (option_map (λ text. arc_slice_items text) place.now)) }
{
    match place {
        Some(text) => {
            out.extend_from_slice(text.as_slice())?;
            out.push(b'\n')?;
            Ok(())
        }
        None => Ok(()),
    }
}

// The texts in these places, each followed by an empty line.
fn text_of(alloc: Global, places: &[Option<ArcSlice<u8>>]) -> Result<Vec<u8>, AllocError>
    ensures { IfOk result
        (λ text. text.items
        ≡ places_text
        (map (λ place. option_map (λ text. arc_slice_items text) place) places.now)) }
{
    let mut out = Vec::new(alloc);
    for place in places {
        write_place(&mut out, place)?;
    }
    Ok(out)
}

// Adds the record of the text in the place, if there is one, behind the others.
fn push_record<'t>(
    records: &mut Vec<StatusRecord<'t>>,
    arch: &'t [u8],
    place: &'t Option<ArcSlice<u8>>,
) -> Result<(), AllocError>
    ensures { OnOk result (records.new.items
        ≡ records.old.items
        ++ entries_of
        (option_to_list
        (option_and_then (alone arch.now)
        (option_map (λ text. arc_slice_items text) place.now)))) }
{
    if let Some(text) = place {
        if let Some(entry) = record_in(arch, text.as_slice()) {
            records.push(entry)?;
        }
    }
    Ok(())
}

// The records of the texts in these places.
fn records_in<'t>(
    alloc: Global,
    arch: &'t [u8],
    places: &'t [Option<ArcSlice<u8>>],
) -> Result<Vec<StatusRecord<'t>>, AllocError>
    ensures { IfOk result (λ records. records.items
        ≡ entries_of (slots_at
        (slots_read arch.now
        (map (λ place. option_map (λ text. arc_slice_items text) place) places.now)))) }
{
    let mut records = Vec::new(alloc);
    for place in places {
        push_record(&mut records, arch, place)?;
    }
    Ok(records)
}
