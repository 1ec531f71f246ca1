// The law of lines that are named and numbered again.

ghost use Rattle.std.specs.Prelude.{◌≡◌, List, None, Some};
ghost use Rattle.std.specs.List.Sorted.{IsStrictlySortedBy};
ghost use Rattle.rules.specs.Universe.{Pair, pair_cmp};
ghost use Rattle.refutation.specs.declared.line.Line.{Line};
ghost use Rattle.named_refutation.specs.declared.named.NamedRefutation.{NamedRefutation};
ghost use Rattle.named_lines.specs.Naming.{refutation_named};
ghost use Rattle.named_lines.specs.Numbering.{numbered_lines};

/// Over pairs that ascend, as those of a universe do, a refutation whose pairs are named in place of numbers has its lines again
/// where they are numbered, and no pair is missing: so the verdict on it is that on the lines by numbers.
pub fn named_lines_are_numbered_again()
    ensures { (pairs : List Pair) (lines : List Line) (refutation : NamedRefutation)
        → IsStrictlySortedBy pair_cmp pairs
        → refutation_named pairs lines ≡ Some refutation
        → numbered_lines pairs refutation.lines ≡ record { lines = lines; missing = None } }
{}
