//! The records at the places of a name.
ghost use Rattle.std.specs.Prelude.{◌≡◌};
ghost use Rattle.std.specs.Iterator.{YieldsFirstRef, item_count};
ghost use Rattle.plancheck_state.specs.Holders.{records_at};

use crate::package_record::StateRecord;
use std::marker::Model;

/// Records of a database, each holder of a name among them.
#[derive(Drop)]
pub struct Holders<'v, 'p, 'a> {
    records: &'v [StateRecord<'p, 'a>],
    places: &'v [usize],
}

impl<'v, 'p, 'a> Model for Holders<'v, 'p, 'a> {
    ghost use Rattle.std.specs.Prelude.{List};
    ghost use Rattle.rules.specs.Database.{Record};
    ghost use Rattle.plancheck_state.specs.Holders.{records_at};

    ghost Value = { List Record };

    ghost view = { λ h. records_at h.records.now h.places.now };
}

impl<'v, 'p, 'a> Holders<'v, 'p, 'a> {
    // The records at these places.
    pub(crate) fn new(
        records: &'v [StateRecord<'p, 'a>],
        places: &'v [usize],
    ) -> Holders<'v, 'p, 'a>
        ensures { result ≡ records_at records.now places.now }
    {
        Holders { records, places }
    }
}

impl<'v, 'p, 'a> Iterator for Holders<'v, 'p, 'a> {
    type Item = &'v StateRecord<'p, 'a>;

    ghost next_gives = { YieldsFirstRef (λ h. h) };

    ghost remaining = { item_count (λ h. h) };

    // A place behind the last record has none.
    fn next(&mut self) -> Option<&'v StateRecord<'p, 'a>> {
        while let Some((place, others)) = self.places.split_first() {
            self.places = others;
            if let Some(entry) = self.records.get(*place) {
                return Some(entry);
            }
        }
        None
    }
}
