//! The bytes of a text that were read and wait to be handed on.
ghost use Rattle.std.specs.Prelude.{◌≡◌, ◌<◌, ◌≤◌, ◌+◌, ◌^◌, ◌-◌, [], nat_eq, ℕ, true, List, None, drop, length, min, take, IfOk, IsOk, MatchResult, OnErr, OnOk};
ghost use Rattle.std.specs.Io.KnownBytes.{Consumes, IsAtEnd};

use stanza::{ReadFailed, Source};
use std::alloc::{AllocError, Global};
use std::marker::Model;

// How many bytes are asked for at a time.
const BLOCK: usize = 65_536;

/// Bytes in a block, of which those before `from` were handed on, and those from `to` on were never read.
#[derive(Drop)]
pub struct Block {
    bytes: Vec<u8>,
    from: usize,
    to: usize,
}

impl Model for Block {
    ghost Value = { List ℕ };

    ghost view = { λ b. drop b.from (take b.to b.bytes.items) };

    ghost invariant = { λ b. (b.from ≤ b.to) × (b.to ≤ length b.bytes.items) × (0 < length b.bytes.items) };
}

impl Block {
    /// A block in which nothing waits.
    pub fn new(alloc: Global) -> Result<Block, AllocError>
        ensures { IfOk result (λ block. block ≡ []) }
    {
        let bytes = vec![in alloc; 0u8; BLOCK]?;
        Ok(Block {
            bytes,
            from: 0,
            to: 0,
        })
    }

    /// The bytes that wait.
    pub fn waiting(&self) -> &[u8]
        ensures { result.now ≡ self.now }
    {
        self.bytes.split_at(self.to).0.split_at(self.from).1
    }

    /// Whether none waits.
    pub fn is_empty(&self) -> bool
        ensures { result ≡ nat_eq (length self.now) 0 }
    {
        self.waiting().is_empty()
    }

    /// Goes past so many of them.
    pub fn go_past(&mut self, count: usize)
        requires { count ≤ length self.old }
        ensures { self.new ≡ drop count self.old }
    {
        self.from += count;
    }

    /// Reads once, as much as the source gives: none at the end of the text alone.
    pub fn fill<S: Source>(&mut self, source: &mut S) -> Result<(), ReadFailed>
        requires { self.old ≡ [] }
        ensures bytes { OnOk result (Consumes (S.left source.old) (S.left source.new) self.new) }
        ensures end { OnOk result (self.new ≡ [] → IsAtEnd (S.left source.new)) }
        ensures failed { OnErr result (S.left source.old ≡ None) }
        ensures sure { S.is_sure source.old ≡ true → IsOk result × (S.is_sure source.new ≡ true) }
        ensures count { MatchResult result
            (λ _. S.faults source.new ≡ S.faults source.old)
            (λ _. S.faults source.new ≡ min (S.faults source.old + 1) (2 ^ 64 - 1)) }
    {
        self.from = 0;
        self.to = 0;
        self.to = source.read(self.bytes.as_mut_slice())?;
        Ok(())
    }
}
