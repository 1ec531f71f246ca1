// The priority of a version.

ghost use Rattle.std.specs.Prelude.{◌≡◌, [], map, MatchOption};
ghost use Rattle.rules.specs.Priority as Priority;
ghost use Rattle.rules.specs.Priority.{HasPriorityAmong, IsGreatest};
ghost use Rattle.pins.specs.Priority.{greater, priority_by};

use crate::matching::{deciding_among, general_among};
use crate::origin::Origin;
use crate::prefs::Prefs;
use debversion::Version;

// The priority that the target release gives.
const TARGET: i32 = 990;

// The greater of a priority, if there is one, and another.
fn greater(greatest: Option<i32>, priority: i32) -> i32
    ensures { result ≡ greater greatest priority }
{
    match greatest {
        None => priority,
        Some(greatest) => greatest.max(priority),
    }
}

impl Prefs {
    fn priority_in(&self, version: &Version<'_>, origin: &Origin<'_>) -> i32
        ensures { result ≡ priority_by self.now version.now origin.now }
    {
        if origin.is_target(self.target()) {
            return TARGET;
        }
        match general_among(self.records(), version, origin) {
            None => origin.by_default(),
            Some(preference) => preference.priority,
        }
    }

    // The greatest priority that an origin gives, unless there is none.
    fn greatest(&self, version: &Version<'_>, origins: &[Origin<'_>]) -> Option<i32>
        ensures { MatchOption result (origins.now ≡ [])
            (λ priority. IsGreatest priority (map (priority_by self.now version.now) origins.now)) }
    {
        let mut greatest = None;
        for origin in origins {
            greatest = Some(greater(greatest, self.priority_in(version, origin)));
        }
        greatest
    }

    /// The priority of a version of the name that comes from these origins, or none where there is no origin: that of the
    /// first record that names the package and matches in one of the origins, or else the greatest that an origin gives.
    /// An origin of the target release gives 990, another the first record for every name that matches in it, or else
    /// its default. Linear in the records, each time with the origins.
    pub fn priority(
        &self,
        name: &[u8],
        version: &Version<'_>,
        origins: &[Origin<'_>],
    ) -> Option<i32>
        ensures { MatchOption result (origins.now ≡ [])
            (λ priority. HasPriorityAmong self.now.preferences self.now.target
            name.now version.now origins.now priority) }
    {
        match deciding_among(self.records(), name, version, origins) {
            None => self.greatest(version, origins),
            Some(preference) => Some(preference.priority),
        }
    }
}
