//! A count of comparisons, and versions that are compared through it alone.
ghost use Rattle.std.specs.Prelude.{◌≡◌, ◌+◌, ◌<◌, ◌≤◌};
ghost use Rattle.rules.specs.Version.{version_cmp};

use debversion::Version;
use std::cmp::Ordering;
use std::marker::Model;

/// How many versions were compared. It stops at 18,446,744,073,709,551,615, and takes no memory.
#[derive(Drop)]
pub struct Ticks {
    count: u64,
}

impl Model for Ticks {
    ghost use Rattle.std.specs.Prelude.{ℕ};

    ghost Value = { ℕ };

    ghost view = { λ t. t.count };
}

impl Ticks {
    /// None so far.
    pub fn new() -> Ticks
        ensures { result ≡ 0 }
    {
        Ticks { count: 0 }
    }

    /// How many there were.
    pub fn count(&self) -> u64
        ensures { result ≡ self.now }
    {
        self.count
    }

    /// The order of the versions (deb-version(7)), which counts as one comparison.
    pub fn compare(&mut self, version: &Version<'_>, other: &Version<'_>) -> Ordering
        ensures ordering { result ≡ version_cmp version.now other.now }
        ensures counted { self.old < 18446744073709551615 → self.new ≡ self.old + 1 }
        ensures at_most_one { self.new ≤ self.old + 1 }
        ensures no_fewer { self.old ≤ self.new }
    {
        self.count = self.count.saturating_add(1);
        version.cmp(other)
    }
}

/// A version that has no order of its own: it is compared through a count, and through nothing else.
#[derive(Drop)]
pub(crate) struct Ticked<'a> {
    version: Version<'a>,
}

impl<'a> Model for Ticked<'a> {
    ghost use Rattle.std.specs.Prelude.{ℕ, List};

    ghost Value = { List ℕ };

    ghost view = { λ t. t.version };
}

impl<'a> Ticked<'a> {
    /// This version.
    pub(crate) fn of(version: Version<'a>) -> Ticked<'a>
        ensures { result ≡ version.entry }
    {
        Ticked { version }
    }

    /// Its order to another version, which counts as one comparison.
    pub(crate) fn compare(&self, other: &Version<'_>, ticks: &mut Ticks) -> Ordering
        ensures ordering { result ≡ version_cmp self.now other.now }
        ensures counted { ticks.old < 18446744073709551615 → ticks.new ≡ ticks.old + 1 }
        ensures at_most_one { ticks.new ≤ ticks.old + 1 }
        ensures no_fewer { ticks.old ≤ ticks.new }
    {
        ticks.compare(&self.version, other)
    }
}
