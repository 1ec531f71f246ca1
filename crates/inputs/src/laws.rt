//! What follows from what texts denote: each function's contract is the law.
ghost use Rattle.inputs.specs.Refused.{HasOneMeaning, MeaningIsNotRefused};

/// Texts have one meaning: the universe and the start that they denote.
pub fn texts_have_one_meaning()
    ensures { HasOneMeaning }
{}

/// Texts that have a meaning aren't refused: where they are beside it, memory was wanting.
pub fn a_meaning_is_not_refused()
    ensures { MeaningIsNotRefused }
{}
