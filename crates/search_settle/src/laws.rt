// Laws that follow from the definitions: each function has an empty body, and its contract is the law.

ghost use Rattle.search_settle.specs.Laws.{AcceptableWhereClausesAreTrue, ClosedPartsAreTrue, SettledIsMinimal, StandingOfInputsArePresent, StandingRecordsArePresent};

/// A selection is acceptable exactly where it makes all clauses of the universe true.
pub fn acceptable_where_clauses_are_true()
    ensures { AcceptableWhereClausesAreTrue }
{}

/// What is reached of a selection that makes all clauses true makes them true.
pub fn closed_parts_are_true()
    ensures { ClosedPartsAreTrue }
{}

/// A settled selection that makes all clauses true is acceptable and locally minimal.
pub fn settled_is_minimal()
    ensures { SettledIsMinimal }
{}

/// Where the facts of the start are those of records, each name that stands was present.
pub fn standing_records_are_present()
    ensures { StandingRecordsArePresent }
{}

/// In the universe of inputs each name that stands at the start was present.
pub fn standing_of_inputs_are_present()
    ensures { StandingOfInputsArePresent }
{}
