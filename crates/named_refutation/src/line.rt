// The line of a refutation in its text.

ghost use Rattle.std.specs.Prelude.{◌≡◌, IfOk, codes};
ghost use Rattle.std.specs.Str.{bytes_eq};
ghost use Rattle.plantext.specs.Cut.{parts_left};
ghost use Rattle.plantext.specs.declared.cut.TheConstants.{SPACE};
ghost use Rattle.named_refutation.specs.LineText.{line_by, line_of};

use crate::derived::derived_of;
use crate::named::NamedLine;
use crate::premise::premise_by;
use plantext::{SPACE, cut_part};
use std::alloc::{AllocError, Global};

fn is_derive(kind: &[u8]) -> bool
    ensures { result ≡ bytes_eq kind.now (codes "derive") }
{
    kind == b"derive".as_slice()
}

// The line of this kind about the words that are left.
fn line_by(
    alloc: Global,
    kind: &[u8],
    words: Option<&[u8]>,
) -> Result<Option<NamedLine>, AllocError>
    ensures { IfOk result (λ line. line ≡ line_by kind.now (parts_left SPACE words.entry)) }
{
    if is_derive(kind) {
        derived_of(alloc, words)
    } else {
        Ok(premise_by(alloc, kind, words)?.map(|premise| NamedLine::Premise(premise)))
    }
}

/// The line in a text without its newline, if it has one. Linear in the text.
#[tactic(auto, unfolding(crate::specs::LineText::line_of))]
pub(crate) fn line_of(alloc: Global, text: &[u8]) -> Result<Option<NamedLine>, AllocError>
    ensures { IfOk result (λ line. line ≡ line_of text.now) }
{
    let (kind, words) = cut_part(SPACE, text);
    line_by(alloc, kind, words)
}
