// Cutting a text at a byte, from its front.

ghost use Rattle.std.specs.Prelude.{◌≡◌, ◌==◌, ◌∷◌, [], MatchOption};
ghost use Rattle.std.specs.List.{position};
ghost use Rattle.plantext.specs.Cut.{CutsPart, SplitsPart, parts_at};

/// The byte that ends a line.
pub const NEWLINE: u8 = b'\n';

/// The byte between two words.
pub const SPACE: u8 = b' ';

fn first_at(separator: u8, text: &[u8]) -> Option<usize>
    ensures { result ≡ position (λ b. b == separator) text.now }
{
    text.iter().position(|byte| *byte == separator)
}

/// The text up to the first such byte and what follows the byte, if there is one. Linear in the text up to it.
pub fn split_part(separator: u8, text: &[u8]) -> Option<(&[u8], &[u8])>
    // None only where the text has no such byte; else the text is its first part, the byte, and the rest.
    ensures { MatchOption result (parts_at separator text.now ≡ text.now ∷ [])
        (λ cut. SplitsPart separator text.now cut.0.now cut.1.now) }
{
    match first_at(separator, text) {
        None => None,
        Some(at) => Some((text.split_at(at).0, text.split_at(at + 1).1)),
    }
}

/// The text up to the first such byte, or all of it where there is none, and what is left behind the byte. Linear in
/// the text up to it.
pub fn cut_part(separator: u8, text: &[u8]) -> (&[u8], Option<&[u8]>)
    // The text is its first part and what is left.
    ensures { CutsPart separator text.now result.0.now result.1 }
{
    match split_part(separator, text) {
        None => (text, None),
        Some((part, rest)) => (part, Some(rest)),
    }
}
