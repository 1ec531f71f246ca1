// Which premises were lines before. What is found here is looked at once more where it is used, so nothing is promised of
// it but that it is safe and ends.

use refutation::{Line, Premise};
use std::alloc::{AllocError, Global};
use std::collections::HashMap;

// A premise, by its kind and its numbers or its name.
#[derive(Clone, Copy, Debug, Eq, Hash, PartialEq)]
enum Key<'l> {
    Same(u32, u32),
    PreDepends(u32, u32),
    Depends(u32, u32),
    Conflicts(u32, u32),
    Breaks(u32, u32),
    Goal(u32),
    GoalOn(u32, u32),
    Hold(u32),
    Essential(&'l [u8]),
    Keep(&'l [u8]),
}

fn key_of(premise: &Premise) -> Key<'_> {
    match premise {
        Premise::Same(number, other) => Key::Same(*number, *other),
        Premise::PreDepends(number, clause) => Key::PreDepends(*number, *clause),
        Premise::Depends(number, clause) => Key::Depends(*number, *clause),
        Premise::Conflicts(number, other) => Key::Conflicts(*number, *other),
        Premise::Breaks(number, other) => Key::Breaks(*number, *other),
        Premise::Goal(number) => Key::Goal(*number),
        Premise::GoalOn(number, pair) => Key::GoalOn(*number, *pair),
        Premise::Hold(number) => Key::Hold(*number),
        Premise::Essential(name) => Key::Essential(name.as_bytes()),
        Premise::Keep(name) => Key::Keep(name.as_bytes()),
    }
}

/// The place of the first line with each premise.
#[derive(Drop)]
pub struct PremisePlaces<'l> {
    places: HashMap<Key<'l>, usize>,
}

impl<'l> PremisePlaces<'l> {
    /// None.
    pub fn new(alloc: Global) -> PremisePlaces<'l> {
        PremisePlaces {
            places: HashMap::new(alloc),
        }
    }

    /// The place of the line with this premise.
    pub fn place_of(&self, premise: &Premise) -> Option<usize> {
        self.places.get(&key_of(premise)).copied()
    }

    /// Notes the place of the line, if it is a premise. Memory alone can fail.
    pub fn note(&mut self, line: &'l Line, place: usize) -> Result<(), AllocError> {
        match line {
            Line::Premise(premise) => {
                self.places.insert(key_of(premise), place)?;
                Ok(())
            }
            Line::Derived(_, _) => Ok(()),
        }
    }
}
