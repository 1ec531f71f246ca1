// Laws that follow from the definitions: each function has an empty body, and its contract is the law.

ghost use Rattle.closed_part.specs.Laws.{PartSelectsTheSame, PartIsAcceptable, PartIsMinimal, PartHasNeededPairs, ListIsLifted, AcceptablePartIsAcceptable, PremisesOfPart, ClausesOfPart, ChoiceOfPart};

/// A selection of the part selects the packages that it selects as one of the universe.
pub fn part_selects_the_same()
    ensures { PartSelectsTheSame }
{}

/// A selection of the part is acceptable exactly where it is so as one of the universe.
pub fn part_is_acceptable()
    ensures { PartIsAcceptable }
{}

/// A selection of a closed part that is locally minimal is so as one of the universe.
pub fn part_is_minimal()
    ensures { PartIsMinimal }
{}

/// The pairs of a closed part ascend, and those that must be selected are there, as in the universe.
pub fn part_has_needed_pairs()
    ensures { PartHasNeededPairs }
{}

/// The numbers that the selected pairs of the part have in the universe are its selection as one of the universe.
pub fn list_is_lifted()
    ensures { ListIsLifted }
{}

/// What an acceptable selection has of a closed part is an acceptable selection of the part.
pub fn acceptable_part_is_acceptable()
    ensures { AcceptablePartIsAcceptable }
{}

/// A premise of the part is one of the universe.
pub fn premises_of_part()
    ensures { PremisesOfPart }
{}

/// Over a closed part the clause of a premise has the same literals in the universe.
pub fn clauses_of_part()
    ensures { ClausesOfPart }
{}

/// Where a clause of the part leaves a choice, one of the universe does so.
pub fn choice_of_part()
    ensures { ChoiceOfPart }
{}
