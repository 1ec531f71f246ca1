// The laws of verdicts on refutations, however they are written.

ghost use Rattle.written_refutation.specs.Judged.{HasOneVerdict, NamedIsAccepted};

/// A refutation has one verdict over a universe.
pub fn a_written_refutation_has_one_verdict()
    ensures { HasOneVerdict }
{}

/// Lines that are accepted are accepted where their pairs are named, over pairs that ascend, as those of a universe do.
pub fn named_lines_are_accepted()
    ensures { NamedIsAccepted }
{}
