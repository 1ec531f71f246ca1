//! A source of one's own, of which an index is read piece by piece.
ghost use Rattle.std.specs.Prelude.{Some};

use index::KeptIndex;
use stanza::{ReadFailed, Source};
use std::alloc::Global;

/// Bytes of which no reading gives more than so many.
#[derive(Drop)]
struct Few<'a> {
    bytes: &'a [u8],
    most: usize,
}

impl Source for Few<'_> {
    ghost left = { λ few. Some few.bytes.now };

    ghost faults = { λ _. 0 };

    fn failures(&self) -> u64 {
        0
    }

    fn read(&mut self, block: &mut [u8]) -> Result<usize, ReadFailed> {
        let room = block.len().min(self.most.max(1));
        self.bytes.read(block.split_at_mut(room).0)
    }
}

const INDEX: &[u8] = b"Package: foo\nVersion: 1\nArchitecture: all\n";

// Whether the index is read that comes in pieces of this size.
fn is_read(alloc: Global, most: usize) -> bool {
    let mut few = Few { bytes: INDEX, most };
    KeptIndex::read_from(alloc, &mut few, b"amd64", 1, 0).is_ok()
}

#[test]
fn an_index_is_read_in_pieces(rt: HostRuntime) {
    for most in [1, 7] {
        assert!(rt; is_read(rt.alloc(), most), "{most}");
    }
}
