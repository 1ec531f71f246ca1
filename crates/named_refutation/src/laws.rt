// The law of what is read as a refutation whose pairs are named.

ghost use Rattle.std.specs.Prelude.{◌≡◌, ℕ, List, Ok};
ghost use Rattle.named_refutation.specs.Text.{named_text, read_named};
ghost use Rattle.named_refutation.specs.declared.named.NamedRefutation.{NamedRefutation};

/// A text that is read as a refutation is the text of the refutation that it is read as: no two texts are read as the same
/// refutation.
pub fn a_named_refutation_is_the_text_of_its_lines()
    ensures { (text : List ℕ) (refutation : NamedRefutation) → read_named text ≡ Ok refutation
        → text ≡ named_text refutation }
{}
