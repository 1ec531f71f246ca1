// The law of what is accepted as a version.

ghost use Rattle.std.specs.Prelude.{List, ℕ};
ghost use Rattle.debversion.specs.Spelling.{FaultlessIsSpelled};

/// A text has no fault, so that `Version::parse` accepts it, exactly where it is spelled
/// `[epoch:]upstream[-revision]` (Policy 5.6.12).
pub fn faultless_texts_are_spelled()
    ensures { (text : List ℕ) → FaultlessIsSpelled text }
{}
