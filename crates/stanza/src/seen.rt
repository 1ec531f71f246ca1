//! A table by which most names of a stanza are known to be new: a name that is there has its slot taken.
ghost use Rattle.std.specs.Prelude.{◌≡◌, ◌<◌, ◌+◌, ◌*◌, ◌%◌, ℕ, true, false, replicate, List, length, slice_set, slice_index_or};
ghost use Rattle.stanza.specs.Seen.{slot_of, is_seen, first_of, last_of};

const SLOTS: usize = 256;

/// Which slots are taken.
#[derive(Drop)]
pub struct NameSlots {
    pub slots: [bool; 256],
}

impl NameSlots {
    /// No slot is taken.
    pub fn new() -> NameSlots
        ensures { result.slots ≡ replicate SLOTS false }
    {
        NameSlots {
            slots: [false; SLOTS],
        }
    }

    /// Whether the slot of the name is taken: where it isn't, the name is new.
    pub fn has_slot_of(&self, name: &[u8]) -> bool
        ensures { result ≡ is_seen self.now.slots name.now }
    {
        self.slots[slot_of(name)]
    }

    /// Takes the slot of the name.
    pub fn add(&mut self, name: &[u8])
        ensures slots { self.new.slots ≡ slice_set self.old.slots (slot_of name.now) true }
        ensures added { is_seen self.new.slots name.now ≡ true }
    {
        self.slots[slot_of(name)] = true;
    }
}

/// A cheap hash of a name, whatever the case of its letters: of its ends and its length. The factors keep
/// the names of Debian's own fields apart but for two or three.
fn slot_of(name: &[u8]) -> usize
    ensures slot { result ≡ slot_of name.now }
    ensures within { result < 256 }
{
    let (first, last) = ends_of(name);
    (first as usize + last as usize * 12 + name.len() % SLOTS * 11) % SLOTS
}

/// The first and the last byte as small letters, or zeros.
fn ends_of(name: &[u8]) -> (u8, u8)
    ensures first { result.0 ≡ first_of name.now }
    ensures last { result.1 ≡ last_of name.now }
{
    match name {
        [] => (0, 0),
        _ => (
            name[0].to_ascii_lowercase(),
            name[name.len() - 1].to_ascii_lowercase(),
        ),
    }
}
