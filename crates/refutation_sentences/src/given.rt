// The clauses of premises as a search takes them.

use crate::basis::Basis;
use crate::table::Table;
use clauses::Clauses;
use refutation::Literal;
use std::alloc::{AllocError, Global};

/// The numbers of the pairs of which the premises at these places speak. Memory alone can fail.
pub(crate) fn table_of(
    alloc: Global,
    bases: &[Basis<'_>],
    places: &[usize],
) -> Result<Table, AllocError> {
    let mut table = Table::new(alloc);
    for place in places {
        if let Some(basis) = bases.get(*place) {
            table.add(basis.clause.as_slice())?;
        }
    }
    Ok(table)
}

// Puts the clause behind the others, over the numbers of the table.
fn push_clause(given: &mut Clauses, table: &Table, clause: &[Literal]) -> Result<(), AllocError> {
    for literal in clause {
        if let Some(number) = table.number_in(*literal) {
            given.push(number)?;
        }
    }
    given.end_clause()
}

/// The clauses of the premises at these places, over the numbers of the table, one for each place. Memory alone can fail.
pub(crate) fn given_of(
    alloc: Global,
    bases: &[Basis<'_>],
    places: &[usize],
    table: &Table,
) -> Result<Clauses, AllocError> {
    let greatest = table.greatest()?;
    let mut given = Clauses::new(alloc, greatest.unsigned_abs());
    for place in places {
        if let Some(basis) = bases.get(*place) {
            push_clause(&mut given, table, basis.clause.as_slice())?;
        }
    }
    given.end_unowned();
    Ok(given)
}
