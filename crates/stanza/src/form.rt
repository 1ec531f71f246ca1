//! The forms of control text.
ghost use Rattle.std.specs.Prelude.{◌≡◌};
ghost use Rattle.stanza.specs.Line.{has_comments};

/// A form of control text.
#[derive(Clone, Copy, PartialEq, Eq)]
pub enum Form {
    /// No line is a comment: packages, status and their like.
    Plain,
    /// A line that begins with `#` is a comment, and `Explanation` may be repeated: sources and preferences.
    Commented,
}

/// Whether a line that begins with `#` is a comment.
pub fn has_comments(form: Form) -> bool
    ensures { result ≡ has_comments form }
{
    match form {
        Form::Plain => false,
        Form::Commented => true,
    }
}
