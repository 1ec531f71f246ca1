// The law of what is read as a refutation.

ghost use Rattle.std.specs.Prelude.{◌≡◌, ℕ, List, Ok};
ghost use Rattle.refutation.specs.declared.line.Line.{Line};
ghost use Rattle.refutation_text.specs.Text.{read_refutation, refutation_text};

/// A text that is read as a refutation is the text of the lines that it is read as: no two texts are read as the same
/// refutation.
pub fn a_refutation_is_the_text_of_its_lines()
    ensures { (text : List ℕ) (lines : List Line) → read_refutation text ≡ Ok lines → text
        ≡ refutation_text lines }
{}
