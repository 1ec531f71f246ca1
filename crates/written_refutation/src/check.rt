// The verdict on a refutation, however it is written.

ghost use Rattle.std.specs.Prelude.{◌≡◌, ◌<◌, ◌^◌, IfOk, length};
ghost use Rattle.universe_parts.specs.Parts.{HaveDistinctNames};
ghost use Rattle.refutecheck.specs.Answer.{Refutes};
ghost use Rattle.written_refutation.specs.Judged as Spec;

use crate::written::WrittenRefutation;
use named_lines::{NumberedLines, check_named, number_pairs};
use refutecheck::{Verdict, check_refutation};
use std::alloc::{AllocError, Global};
use universe::Universe;

/// The verdict on a refutation, and its lines.
#[derive(Drop)]
pub struct JudgedLines {
    /// The verdict.
    pub verdict: Verdict,
    /// The lines by numbers, up to the first that names a missing pair, and which that is.
    pub numbered: NumberedLines,
}

/// The verdict on the refutation: yes exactly where each pair that it names is one of the universe and its lines by numbers are accepted;
/// else the number of the first line that names a missing pair or isn't good (docs/FORMATS.md). A yes means that no selection of the
/// pairs is acceptable. It costs what `named_lines::check_named` or `refutecheck::check_refutation` does. Memory alone can fail.
pub fn check_written(
    alloc: Global,
    universe: &Universe<'_, '_>,
    written: WrittenRefutation,
) -> Result<JudgedLines, AllocError>
    // pairs have numbers of 32 bits, as those of a request have (`rules::PAIRS`)
    requires few { length universe.now.pairs < 2 ^ 32 }
    // no two facts of the start are about one name, as of a status file
    requires distinct { HaveDistinctNames universe.now.starts }
    // yes exactly where the refutation is accepted, and else the number of the first bad line
    ensures exact { IfOk result
        (λ judged. Spec.IsWrittenVerdict universe.now written judged.verdict) }
    // where the answer is yes, no selection is acceptable
    ensures refutes { IfOk result (λ judged. Refutes universe.now judged.verdict) }
    // the lines are those by numbers
    ensures lines { IfOk result
        (λ judged. judged.numbered ≡ Spec.lines_of universe.now.pairs written) }
{
    match written {
        WrittenRefutation::Numbered(lines) => {
            let verdict = check_refutation(alloc, universe, &lines)?;
            Ok(JudgedLines {
                verdict,
                numbered: NumberedLines {
                    lines,
                    missing: None,
                },
            })
        }
        WrittenRefutation::Named(refutation) => {
            let verdict = check_named(alloc, universe, &refutation)?;
            let numbered = number_pairs(alloc, universe, &refutation)?;
            Ok(JudgedLines { verdict, numbered })
        }
    }
}
