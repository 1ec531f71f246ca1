// What the package of a pair provides.

ghost use Rattle.std.specs.Prelude.{◌≡◌, IfOk};

use crate::pair::Pair;
use relation::Provided;
use std::alloc::{AllocError, Global};
use std::marker::Model;

/// What the package of a pair that counts provides: lent where the package stands, and else read from its stanza in an
/// index, of which no other field is read.
#[derive(Drop)]
pub struct CountingProvides<'u, 'a> {
    lent: Option<&'u [Provided<'a>]>,
    read: Vec<Provided<'a>>,
}

impl<'u, 'a> Model for CountingProvides<'u, 'a> {
    ghost use Rattle.std.specs.Prelude.{List};
    ghost use Rattle.std.specs.Option.{option_copied, option_map_or};
    ghost use Rattle.rules.specs.Package.{Provided as ProvidedValue};

    ghost Value = { List ProvidedValue };

    ghost view = { λ p. option_map_or (λ lent. lent) (option_copied p.lent) p.read.items };
}

impl<'u, 'a> CountingProvides<'u, 'a> {
    /// What the package of the pair provides. Memory alone can fail. Linear in the field Provides of a stanza.
    pub fn of_pair(
        alloc: Global,
        pair: &'u Pair<'_, 'a>,
    ) -> Result<CountingProvides<'u, 'a>, AllocError>
        ensures { IfOk result (λ provides. provides ≡ pair.now.pkg.relations.provides) }
    {
        match pair.standing_pkg() {
            Some(pkg) => Ok(CountingProvides {
                lent: Some(pkg.provides()),
                read: Vec::new(alloc),
            }),
            None => match pair.index_entry() {
                Some(listed) => Ok(CountingProvides {
                    lent: None,
                    read: listed.provides(alloc)?,
                }),
                None => unreachable!(),
            },
        }
    }

    /// The items.
    pub fn items(&self) -> &[Provided<'a>]
        ensures { result.now ≡ self.now }
    {
        match self.lent {
            Some(items) => items,
            None => self.read.as_slice(),
        }
    }
}
