// Laws of encodings: each function has an empty body, and its contract is the law.

ghost use Rattle.encode.specs.Selection.{TrueSelectionIsAcceptable};

use refutation::acceptable_where_premises_are_true;

/// A selection that makes every clause of a universe true is acceptable.
pub fn true_selection_is_acceptable()
    ensures { TrueSelectionIsAcceptable }
{
    acceptable_where_premises_are_true();
}
