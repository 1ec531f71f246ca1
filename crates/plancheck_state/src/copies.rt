// A copy of a database's records.

ghost use Rattle.std.specs.Prelude.{◌≡◌, IfOk};

use crate::package_record::StateRecord;
use std::alloc::{AllocError, Global};

/// The same records once more. Linear in them. Memory alone can fail.
pub fn try_copy<'p, 'a>(
    alloc: Global,
    records: &[StateRecord<'p, 'a>],
) -> Result<Vec<StateRecord<'p, 'a>>, AllocError>
    ensures { IfOk result (λ copies. copies.items ≡ records.now) }
{
    let mut copies = Vec::new(alloc);
    for record in records {
        copies.push(record.again())?;
    }
    Ok(copies)
}
