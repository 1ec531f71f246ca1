//! The laws of what is read of a relation field's value: it is what the grammar says that the value spells.
ghost use Rattle.relation_text.specs.Laws as Spec;

/// What is read of a value is spelled by it, in the grammar of the field (Policy 7.1), and has at most 65,535 atoms.
pub fn what_is_read_is_spelled()
    ensures clauses { Spec.ClausesReadAreSpelled }
    ensures atoms { Spec.AtomsReadAreSpelled }
    ensures provides { Spec.ProvidesReadAreSpelled }
{}

/// What a value spells is read of it, where it has at most 65,535 atoms: so a value spells nothing else.
pub fn what_is_spelled_is_read()
    ensures clauses { Spec.ClausesSpelledAreRead }
    ensures atoms { Spec.AtomsSpelledAreRead }
    ensures provides { Spec.ProvidesSpelledAreRead }
{}
