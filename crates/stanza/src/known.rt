//! The names of a stanza's fields: while they are few they are gone over, and once they are many a table has them.
ghost use Rattle.std.specs.Prelude.{◌≡◌, ◌<◌, ◌≤◌, ◌∷◌, ◌++◌, [], ℕ, List, length, take, map, IfOk, OnOk};
ghost use Rattle.std.specs.List.{list_any};
ghost use Rattle.std.specs.Char.{to_ascii_lowercase};
ghost use Rattle.std.specs.Str.{bytes_eq};
ghost use Rattle.indexmap.specs.IndexSet.{insert_key};
ghost use Rattle.stanza.specs.Field.{same_name};
ghost use Rattle.stanza.specs.Known.{AreKnown};
ghost use Rattle.stanza.specs.Starts.{name_at};

use crate::names::same_name;
use crate::seen::NameSlots;
use crate::starts::{FieldStart, part};
use indexmap::IndexSet;
use std::alloc::{AllocError, Global};
use std::marker::Model;

// From how many fields on the table is asked.
const MANY: usize = 64;

/// Names in small letters, each once.
#[derive(Drop)]
pub struct Folded {
    names: IndexSet<Vec<u8>>,
}

impl Model for Folded {
    ghost use Rattle.std.specs.Prelude.{List, ℕ, map};

    ghost Value = { List (List ℕ) };

    ghost view = { λ f. map (λ name. name.items) f.names.keys };
}

impl Folded {
    fn new(alloc: Global) -> Folded
        ensures { result ≡ [] }
    {
        Folded {
            names: IndexSet::new(alloc),
        }
    }

    // Whether the name is there, but for the case of its letters.
    fn has(&self, name: &[u8]) -> Result<bool, AllocError>
        ensures { IfOk result
            (λ has. has ≡ list_any (bytes_eq (map to_ascii_lowercase name.now)) self.now) }
    {
        let folded = name.to_ascii_lowercase(*self.names.allocator())?;
        Ok(self.names.contains(folded.as_slice()))
    }

    // Adds the name, unless it is there.
    fn note(&mut self, name: &[u8]) -> Result<(), AllocError>
        ensures { OnOk result
            (self.new ≡ insert_key bytes_eq self.old (map to_ascii_lowercase name.now)) }
    {
        let folded = name.to_ascii_lowercase(*self.names.allocator())?;
        self.names.insert(folded)?;
        Ok(())
    }
}

// Whether a field that begins there has the name.
fn has_name(done: &[u8], starts: &[FieldStart], name: &[u8]) -> bool
    ensures { result ≡ list_any (λ start. same_name (name_at done.now start) name.now) starts.now }
{
    starts.iter().any(|start| same_name(part(done, start.at, start.name_len), name))
}

/// The names of the fields so far: their slots, and a table of the first of them.
#[derive(Drop)]
pub struct Known {
    pub seen: NameSlots,
    pub folded: Folded,
    pub noted: usize,
}

impl Known {
    /// No names.
    pub fn new(alloc: Global) -> Known
        ensures { AreKnown result [] }
    {
        Known {
            seen: NameSlots::new(),
            folded: Folded::new(alloc),
            noted: 0,
        }
    }

    // Puts the names into the table that aren't there yet.
    fn note_all(&mut self, done: &[u8], starts: &[FieldStart]) -> Result<(), AllocError>
        requires { AreKnown self.old (map (name_at done.now) starts.now) }
        ensures known { OnOk result (AreKnown self.new (map (name_at done.now) starts.now)) }
        ensures all { OnOk result (length starts.now ≤ self.new.noted) }
    {
        while self.noted < starts.len() {
            let start = starts[self.noted];
            self.folded.note(part(done, start.at, start.name_len))?;
            self.noted += 1;
        }
        Ok(())
    }

    /// Whether one of the fields that begin there has the name. Where its slot is free, none has. Each name is put into the
    /// table once.
    pub fn has(
        &mut self,
        done: &[u8],
        starts: &[FieldStart],
        name: &[u8],
    ) -> Result<bool, AllocError>
        requires { AreKnown self.old (map (name_at done.now) starts.now) }
        ensures has { IfOk result
            (λ has. has ≡ list_any (λ earlier. same_name earlier name.now)
            (map (name_at done.now) starts.now)) }
        ensures known { OnOk result (AreKnown self.new (map (name_at done.now) starts.now)) }
    {
        if !self.seen.has_slot_of(name) {
            return Ok(false);
        }
        if starts.len() < MANY {
            return Ok(has_name(done, starts, name));
        }
        self.note_all(done, starts)?;
        self.folded.has(name)
    }

    /// Adds the name of one more field.
    pub fn add(&mut self, name: &[u8])
        ensures { (names : List (List ℕ)) → AreKnown self.old names
            → AreKnown self.new (names ++ name.now ∷ []) }
    {
        self.seen.add(name);
    }
}
