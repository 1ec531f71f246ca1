//! The bytes of a text that were read and wait to be cut into stanzas.
ghost use Rattle.std.specs.Prelude.{◌≡◌, ◌<◌, ◌≤◌, ◌⊎◌, ◌≢◌, ◌+◌, ◌++◌, ◌∷◌, [], ℕ, Bool, true, false, List, length, min, ◌^◌, ◌-◌, drop, take, IfErr, IfOk, OnOk, MatchResult, Err, None, Ok, Some};
ghost use Rattle.std.specs.Io.KnownBytes.{Consumes, IsAtEnd};
ghost use Rattle.stanza.specs.Held.{FillsWith, IsCut, IsHeld, IsRefused, filled_of, pending_of, read_of, total_of};
ghost use Rattle.stanza.specs.Streamed.{BeginsAhead, MayFollow};
ghost use Rattle.stanza.specs.declared.error.ReaderError.TheVariants as read_error;

use crate::ahead::{gap_ahead, stanza_ahead};
use crate::error::ReaderError;
use crate::form::Form;
use crate::source::Source;
use crate::starts::FieldStart;
use std::alloc::{AllocError, Global};

// How many bytes are asked for at a time, unless more are pending.
const BLOCK: usize = 131_072;

/// Bytes, of which those up to `end` were read, where of these those begin that aren't answered yet, how many lines stand before
/// these, and how many bytes may still be read.
#[derive(Drop)]
pub struct Held {
    pub bytes: Vec<u8>,
    pub begin: usize,
    pub end: usize,
    pub before: usize,
    pub room: usize,
}

/// Where a stanza stands in the bytes that are held, how long it is, and the number of its first line.
#[derive(Clone, Copy, Drop)]
pub struct StanzaPlace {
    pub from: usize,
    pub len: usize,
    pub line: usize,
}

/// What is found in the bytes that are held.
#[derive(Drop)]
pub enum Cut {
    /// A stanza.
    Stanza(StanzaPlace),
    /// Nothing, and nothing comes.
    Nothing,
    /// Bytes of which more is needed.
    More,
}

// Reads some of so many bytes, and answers how many: none at the end of the text alone.
fn read_some<S: Source>(source: &mut S, block: &mut [u8], room: usize) -> Result<usize, ReaderError>
    requires { 0 < length block.old }
    ensures bytes { IfOk result
        (λ count. (count ≤ length block.new) × (count ≤ room)
        × Consumes (S.left source.old) (S.left source.new) (take count block.new)) }
    ensures size { length block.new ≡ length block.old }
    ensures end { IfOk result (λ count. count ≡ 0 → IsAtEnd (S.left source.new)) }
    ensures large { (left : List ℕ) → S.left source.old ≡ Some left
        → IfErr result (λ e. (e ≡ read_error.TooLarge) × (room ≡ 0) × (0 < length left)) }
    ensures sure { S.is_sure source.old ≡ true → (S.is_sure source.new ≡ true)
        × IfErr result (λ e. e ≡ read_error.TooLarge) }
    ensures count { IfOk result (λ _. S.faults source.new ≡ S.faults source.old) }
    ensures failed { IfErr result
        (λ e. ((e ≡ read_error.TooLarge) × (S.faults source.new ≡ S.faults source.old))
        ⊎ ((e ≡ read_error.Read)
        × (S.faults source.new ≡ min (S.faults source.old + 1) (2 ^ 64 - 1)))) }
{
    let most = block.len().min(room.max(1));
    let count = source.read(block.split_at_mut(most).0)?;
    if count > room {
        return Err(ReaderError::TooLarge);
    }
    Ok(count)
}

// Reads some of so many bytes behind the first `end` of a buffer, and answers how many: none at the end of the text alone.
fn read_behind<S: Source>(
    source: &mut S,
    bytes: &mut [u8],
    end: usize,
    room: usize,
) -> Result<usize, ReaderError>
    requires { end < length bytes.old }
    ensures size { length bytes.new ≡ length bytes.old }
    ensures front { take end bytes.new ≡ take end bytes.old }
    ensures bytes { IfOk result (λ count. (end + count ≤ length bytes.new) × (count ≤ room)
        × Consumes (S.left source.old) (S.left source.new) (take count (drop end bytes.new))) }
    ensures end { IfOk result (λ count. count ≡ 0 → IsAtEnd (S.left source.new)) }
    ensures large { (left : List ℕ) → S.left source.old ≡ Some left
        → IfErr result (λ e. (e ≡ read_error.TooLarge) × (room ≡ 0) × (0 < length left)) }
    ensures sure { S.is_sure source.old ≡ true → (S.is_sure source.new ≡ true)
        × IfErr result (λ e. e ≡ read_error.TooLarge) }
    ensures count { IfOk result (λ _. S.faults source.new ≡ S.faults source.old) }
    ensures failed { IfErr result
        (λ e. ((e ≡ read_error.TooLarge) × (S.faults source.new ≡ S.faults source.old))
        ⊎ ((e ≡ read_error.Read)
        × (S.faults source.new ≡ min (S.faults source.old + 1) (2 ^ 64 - 1)))) }
{
    let (_, place) = bytes.split_at_mut(end);
    read_some(source, place, room)
}

impl Held {
    /// Nothing is held, and so many bytes may be read.
    pub fn new(alloc: Global, most: usize) -> Held
        ensures bytes { result.bytes.items ≡ [] }
        ensures rest { (result.begin ≡ 0) × (result.end ≡ 0) × (result.before ≡ 0)
            × (result.room ≡ most) }
    {
        Held {
            bytes: Vec::new(alloc),
            begin: 0,
            end: 0,
            before: 0,
            room: most,
        }
    }

    /// The bytes that were read.
    pub fn filled_bytes(&self) -> &[u8]
        ensures { result.now ≡ filled_of self.now }
    {
        self.bytes.split_at(self.end.min(self.bytes.len())).0
    }

    // The bytes that aren't answered yet.
    fn pending(&self) -> &[u8]
        requires { IsHeld self.now }
        ensures { result.now ≡ pending_of self.now }
    {
        self.filled_bytes().split_at(self.begin).1
    }

    // Lets go of the bytes that are answered: the others are moved to the front.
    fn let_go(&mut self)
        requires { IsHeld self.old }
        ensures bytes { filled_of self.new ≡ pending_of self.old }
        ensures end { self.new.end ≤ length self.new.bytes.items }
        ensures rest { (self.new.begin ≡ 0) × (self.new.before ≡ self.old.before)
            × (self.new.room ≡ self.old.room) }
    {
        self.bytes
            .as_mut_slice()
            .copy_within(self.begin..self.end, 0);
        self.end -= self.begin;
        self.begin = 0;
    }

    // Makes place for as many bytes as are held, and for a block where that is more. A length beyond 64 bits is answered as want of
    // memory.
    fn make_place(&mut self) -> Result<(), AllocError>
        requires { self.old.end ≤ length self.old.bytes.items }
        ensures bytes { OnOk result (filled_of self.new ≡ filled_of self.old) }
        ensures place { OnOk result (self.new.end < length self.new.bytes.items) }
        ensures rest { OnOk result
            ((self.new.begin ≡ self.old.begin) × (self.new.end ≡ self.old.end)
            × (self.new.before ≡ self.old.before) × (self.new.room ≡ self.old.room)) }
    {
        let least = self.end.max(1);
        if self.bytes.len() - self.end < least {
            let Some(len) = self.end.checked_add(least.max(BLOCK)) else {
                return Err(AllocError);
            };
            self.bytes.resize(len, 0)?;
        }
        Ok(())
    }

    // Reads some more bytes, and answers how many: none at the end of the text alone.
    fn read_more<S: Source>(&mut self, source: &mut S) -> Result<usize, ReaderError>
        requires held { IsHeld self.old }
        requires place { self.old.end < length self.old.bytes.items }
        ensures more { IfOk result (λ count. (block : List ℕ) × (length block ≡ count)
            × (filled_of self.new ≡ filled_of self.old ++ block)
            × Consumes (S.left source.old) (S.left source.new) block) }
        ensures held { OnOk result (IsHeld self.new) }
        ensures place { length self.new.bytes.items ≡ length self.old.bytes.items }
        ensures rest { IfOk result
            (λ count. (self.new.begin ≡ self.old.begin) × (self.new.end ≡ self.old.end + count)
            × (self.new.before ≡ self.old.before) × (self.new.room + count ≡ self.old.room)) }
        ensures end { IfOk result (λ count. count ≡ 0 → IsAtEnd (S.left source.new)) }
        ensures large { (left : List ℕ) → S.left source.old ≡ Some left
            → IfErr result (λ e. (e ≡ read_error.TooLarge)
            × (self.old.room ≡ 0) × (0 < length left)) }
        ensures sure { S.is_sure source.old ≡ true → (S.is_sure source.new ≡ true)
            × IfErr result (λ e. e ≡ read_error.TooLarge) }
        ensures count { IfOk result (λ _. S.faults source.new ≡ S.faults source.old) }
        ensures failed { IfErr result
            (λ e. ((e ≡ read_error.TooLarge) × (S.faults source.new ≡ S.faults source.old))
            ⊎ ((e ≡ read_error.Read)
            × (S.faults source.new ≡ min (S.faults source.old + 1) (2 ^ 64 - 1)))) }
    {
        let count = read_behind(source, self.bytes.as_mut_slice(), self.end, self.room)?;
        self.end += count;
        self.room -= count;
        Ok(count)
    }

    /// Reads at least as many bytes as are pending, where the text has them, and answers whether it is over.
    pub fn fill<S: Source>(&mut self, source: &mut S) -> Result<bool, ReaderError>
        requires held { IsHeld self.old }
        ensures held { OnOk result (IsHeld self.new) }
        ensures filled { (left : List ℕ) → S.left source.old ≡ Some left → IfOk result (λ is_over.
            (more : List ℕ) × (S.left source.new ≡ Some more)
            × FillsWith self.old self.new left more × MayFollow is_over more) }
        ensures total { OnOk result (total_of self.new ≡ total_of self.old) }
        ensures less { IfOk result
            (λ is_over. (self.new.room ≤ self.old.room)
            × (is_over ≡ false → self.new.room < self.old.room)) }
        ensures large { (left : List ℕ) → S.left source.old ≡ Some left
            → IfErr result (λ e. (e ≡ read_error.OutOfMemory)
            ⊎ ((e ≡ read_error.TooLarge) × (self.old.room ≡ 0) × (0 < length left))) }
        ensures sure { S.is_sure source.old ≡ true → (S.is_sure source.new ≡ true)
            × IfErr result (λ e. e ≢ read_error.Read) }
        ensures count { OnOk result (S.faults source.new ≡ S.faults source.old) }
        ensures failed { IfErr result
            (λ e. e ≡ read_error.Read → S.faults source.new
            ≡ min (S.faults source.old + 1) (2 ^ 64 - 1)) }
    {
        self.let_go();
        self.make_place()?;
        let room = self.room;
        while self.end < self.bytes.len() {
            if self.room < room && self.room == 0 {
                return Ok(false);
            }
            if self.read_more(source)? == 0 {
                return Ok(true);
            }
        }
        Ok(false)
    }

    // Goes past what stands before the next stanza.
    fn skip_gap(&mut self, form: Form, is_over: bool)
        requires { IsHeld self.old }
        ensures held { IsHeld self.new }
        ensures bytes { (filled_of self.new ≡ filled_of self.old)
            × (self.new.room ≡ self.old.room) }
        ensures total { total_of self.new ≤ total_of self.old }
        ensures read { (left : List ℕ) → MayFollow is_over left → read_of form self.old left
            ≡ read_of form self.new left }
        ensures begins { BeginsAhead is_over form (pending_of self.new) }
    {
        let (len, lines) = gap_ahead(form, self.pending(), is_over);
        self.begin += len;
        self.before += lines;
    }

    /// Cuts the next stanza out of what is held, and notes where its fields begin.
    pub fn cut(
        &mut self,
        form: Form,
        is_over: bool,
        starts: &mut Vec<FieldStart>,
    ) -> Result<Cut, ReaderError>
        requires { IsHeld self.old }
        ensures held { IsHeld self.new }
        ensures room { self.new.room ≡ self.old.room }
        ensures total { total_of self.new ≤ total_of self.old }
        ensures cut { IfOk result
            (λ cut. IsCut is_over form self.old self.new starts.new.items cut) }
        ensures fault { IfErr result (λ e. (e ≡ read_error.OutOfMemory)
            ⊎ ((fault : _) × (e ≡ read_error.Refused fault)
            × IsRefused is_over form self.old fault)) }
    {
        self.skip_gap(form, is_over);
        let text = self.pending();
        if text.is_empty() {
            return Ok(if is_over { Cut::Nothing } else { Cut::More });
        }
        let Some(ahead) = stanza_ahead(form, self.before, text, is_over, starts)? else {
            return Ok(Cut::More);
        };
        let place = StanzaPlace {
            from: self.begin,
            len: ahead.end,
            line: self.before + 1,
        };
        self.begin += ahead.len;
        self.before += ahead.lines;
        Ok(Cut::Stanza(place))
    }
}
