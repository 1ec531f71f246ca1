// Ranks of names that wait to be configured, so that a name asks for names of lesser ranks alone, or is in a ring with those of its
// own (Policy 7.2). A walk in depth over what names ask for tells in which order it leaves them; another one against that, from the
// name that was left last on, comes to one ring after another (Kosaraju). Whether ranks are right is asked elsewhere, so nothing is
// proved of them here.

use crate::askers::Askers;
use crate::ranks::Ranks;
use indexmap::IndexSet;
use rules::Name;
use std::alloc::{AllocError, Global};

// Names, each with the places of those for which it asks and of those that ask for it.
#[derive(Drop)]
struct Asking<'n> {
    names: IndexSet<&'n [u8]>,
    asked: Vec<Vec<usize>>,
    asking: Vec<Vec<usize>>,
}

// Adds the place to the list at the other.
fn push_at(lists: &mut Vec<Vec<usize>>, at: usize, place: usize) -> Result<(), AllocError> {
    if let Some(list) = lists.get_mut(at) {
        list.push(place)?;
    }
    Ok(())
}

impl<'n> Asking<'n> {
    // The names, of which nothing is known yet.
    fn bare(alloc: Global, names: &'n [Name]) -> Result<Asking<'n>, AllocError> {
        let mut bare = Asking {
            names: IndexSet::new(alloc),
            asked: Vec::new(alloc),
            asking: Vec::new(alloc),
        };
        for name in names {
            bare.names.insert(name.as_bytes())?;
            bare.asked.push(Vec::new(alloc))?;
            bare.asking.push(Vec::new(alloc))?;
        }
        Ok(bare)
    }

    // Notes that the name at the one place asks for the one at the other.
    fn note(&mut self, asking: usize, asked: usize) -> Result<(), AllocError> {
        if asking != asked {
            push_at(&mut self.asked, asking, asked)?;
            push_at(&mut self.asking, asked, asking)?;
        }
        Ok(())
    }

    // Notes those that ask for the name at the place.
    fn read_of(&mut self, asked: usize, asking: &[usize]) -> Result<(), AllocError> {
        for place in asking {
            self.note(*place, asked)?;
        }
        Ok(())
    }

    // What these names ask of each other.
    fn read(
        alloc: Global,
        askers: &Askers<'_>,
        names: &'n [Name],
    ) -> Result<Asking<'n>, AllocError> {
        let mut asking = Asking::bare(alloc, names)?;
        for (place, name) in names.iter().enumerate() {
            asking.read_of(place, askers.of(name.as_bytes()))?;
        }
        Ok(asking)
    }
}

// A walk: for each place those to which it leads, whether it was seen, the places on the way, and those that were left.
#[derive(Drop)]
struct Walk {
    next: Vec<Vec<usize>>,
    seen: Vec<bool>,
    path: Vec<usize>,
    left: Vec<usize>,
}

impl Walk {
    fn over(alloc: Global, next: Vec<Vec<usize>>) -> Result<Walk, AllocError> {
        let mut seen = Vec::new(alloc);
        for _ in 0..next.len() {
            seen.push(false)?;
        }
        Ok(Walk {
            next,
            seen,
            path: Vec::new(alloc),
            left: Vec::new(alloc),
        })
    }

    // Goes to the place, unless it was seen.
    fn enter(&mut self, place: usize) -> Result<(), AllocError> {
        if self.seen.get(place) == Some(&false) {
            self.seen[place] = true;
            self.path.push(place)?;
        }
        Ok(())
    }

    // The next to which the place leads, if one is left.
    fn next_of(&mut self, place: usize) -> Option<usize> {
        match self.next.get_mut(place) {
            Some(next) => next.pop(),
            None => None,
        }
    }

    // Goes on by one, or leaves a place. Answers whether some place was on the way.
    fn go_on(&mut self) -> Result<bool, AllocError> {
        let Some(place) = self.path.pop() else {
            return Ok(false);
        };
        match self.next_of(place) {
            Some(next) => {
                self.path.push(place)?;
                self.enter(next)?;
            }
            None => self.left.push(place)?,
        }
        Ok(true)
    }

    // Walks over the place and all to which it leads.
    fn visit(&mut self, place: usize) -> Result<(), AllocError> {
        self.enter(place)?;
        for _ in 0..u64::MAX {
            if !self.go_on()? {
                return Ok(());
            }
        }
        Ok(())
    }
}

// The places in the order in which a walk over all of them leaves them.
fn left_of(alloc: Global, next: Vec<Vec<usize>>) -> Result<Vec<usize>, AllocError> {
    let places = next.len();
    let mut walk = Walk::over(alloc, next)?;
    for place in 0..places {
        walk.visit(place)?;
    }
    Ok(walk.left)
}

// The rank of the names of a ring, if there are so many of them, where so many names were ranked above them.
fn rank_of(names: usize, above: usize, members: usize) -> usize {
    let even = names.saturating_sub(above).saturating_mul(2);
    if members > 1 {
        return even.saturating_add(1);
    }
    even
}

// Sets the rank of the names at these places.
fn rank_each<'n>(
    names: &IndexSet<&'n [u8]>,
    places: &[usize],
    rank: usize,
    ranks: &mut Ranks<'n>,
) -> Result<(), AllocError> {
    for place in places {
        if let Some(name) = names.get_index(*place).copied() {
            ranks.insert(name, rank)?;
        }
    }
    Ok(())
}

// Ranks of the names, by those that ask for each, and the places from the greatest rank down, but for those of one ring.
fn ranks_by<'n>(
    alloc: Global,
    names: &IndexSet<&'n [u8]>,
    asking: Vec<Vec<usize>>,
    down: &[usize],
) -> Result<Ranks<'n>, AllocError> {
    let mut walk = Walk::over(alloc, asking)?;
    let mut ranks = Ranks::new(alloc);
    let mut above = 0;
    for place in down {
        walk.visit(*place)?;
        let members = walk.left.len();
        let rank = rank_of(names.len(), above, members);
        rank_each(names, walk.left.as_slice(), rank, &mut ranks)?;
        ranks.widen(members);
        above = above.saturating_add(members);
        walk.left.clear();
    }
    Ok(ranks)
}

/// Ranks of the names, of which the table says who asks for whom. Linear in the table. Memory alone can fail.
pub(crate) fn ranks_of<'n>(
    alloc: Global,
    askers: &Askers<'_>,
    names: &'n [Name],
) -> Result<Ranks<'n>, AllocError> {
    let Asking {
        names,
        asked,
        asking,
    } = Asking::read(alloc, askers, names)?;
    let mut down = left_of(alloc, asked)?;
    down.reverse();
    let ranks = ranks_by(alloc, &names, asking, down.as_slice())?;
    Ok(ranks)
}
