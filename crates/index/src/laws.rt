//! An index that is read from a source is what it is as a text: the body is empty, and the contract is the law.
ghost use Rattle.std.specs.Prelude.{◌≡◌, ◌≤◌, List, ℕ, length};
ghost use Rattle.rules.specs.declared.limits.TheConstants.{TEXT_BYTES};
ghost use Rattle.rules.specs.declared.release.Release.{Release};
ghost use Rattle.index.specs.Index.{read_index, with_release};
ghost use Rattle.index.specs.Streamed.{read_stream};

use stanza::laws::what_is_read_of_a_text_is_its_items;

/// What is read of a text piece by piece is what is read of it whole, where it isn't too long.
pub fn an_index_in_pieces_is_its_text()
    ensures { (arch : List ℕ) (number before : ℕ) (release : Release) (text : List ℕ) → length text
        ≤ TEXT_BYTES
        → with_release release (read_stream arch number before text)
        ≡ read_index arch number release before text }
{
    what_is_read_of_a_text_is_its_items();
}
