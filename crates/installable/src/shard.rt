//! Every so many-th of the packages that are asked about.
ghost use Rattle.std.specs.Prelude.{IfOk};
ghost use Rattle.installable.specs.Shard.{IsShardOf, ShardsAreTheWhole};

use crate::asked::Stanza;
use std::alloc::{AllocError, Global};

/// Which of the packages in their order are asked about: the first of them behind some, and from then on every so many-th. So the K-th of
/// N shards has K - 1 before its first and N - 1 between two, and the whole has none.
#[derive(Clone, Copy)]
pub struct Shard {
    /// How many packages come before its first.
    pub before: usize,
    /// How many are left out between two of it.
    pub between: usize,
}

/// The packages of the shard, in their order. Linear in all of them. Memory alone can fail.
pub(crate) fn part_of<'p, 'a>(
    alloc: Global,
    all: &[Stanza<'p, 'a>],
    shard: Shard,
) -> Result<Vec<Stanza<'p, 'a>>, AllocError>
    ensures { IfOk result (λ part. IsShardOf shard all.now part.items) }
{
    let mut part = Vec::new(alloc);
    let mut left = shard.before;
    for stanza in all {
        if left == 0 {
            part.push(stanza.again())?;
            left = shard.between;
        } else {
            left -= 1;
        }
    }
    Ok(part)
}

/// The shards of a list put together in order are the list.
pub fn shards_are_the_whole()
    ensures { ShardsAreTheWhole }
{}
