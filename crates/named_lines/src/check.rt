// The verdict on a refutation whose pairs are named.

ghost use Rattle.std.specs.Prelude.{◌≡◌, ◌<◌, ◌^◌, IfOk, length};
ghost use Rattle.universe_parts.specs.Parts.{HaveDistinctNames};
ghost use Rattle.refutecheck.specs.Answer.{Refutes};
ghost use Rattle.refutecheck.specs.declared.verdict.Verdict.TheVariants.{Yes};
ghost use Rattle.named_lines.specs.Judged.{AreAccepted, IsNamedVerdict, verdict_at};
ghost use Rattle.named_lines.specs.Numbering.{numbered_lines};

use crate::numbering::number_pairs;
use named_refutation::NamedRefutation;
use refutation::one_answer;
use refutecheck::{Verdict, check_refutation};
use std::alloc::{AllocError, Global};
use universe::Universe;

// The verdict where the line of this number, behind those that were judged, names a missing pair.
fn verdict_at(line: usize, judged: Verdict) -> Verdict
    ensures { result ≡ verdict_at line judged }
{
    match judged {
        Verdict::Yes => Verdict::No(line),
        Verdict::No(number) => Verdict::No(number),
    }
}

/// The verdict on the refutation: yes exactly where each pair that it names is one of the universe, and its lines by numbers are
/// accepted; else the number of the first line that names a missing pair or isn't good (docs/FORMATS.md). A yes means that no
/// selection of the pairs is acceptable. It costs what `number_pairs` and `refutecheck::check_refutation` do. Memory alone can fail.
pub fn check_named(
    alloc: Global,
    universe: &Universe<'_, '_>,
    refutation: &NamedRefutation,
) -> Result<Verdict, AllocError>
    // pairs have numbers of 32 bits, as those of a request have (`rules::PAIRS`)
    requires few { length universe.now.pairs < 2 ^ 32 }
    // no two facts of the start are about one name, as of a status file
    requires distinct { HaveDistinctNames universe.now.starts }
    // yes exactly where the refutation is accepted, and else the number of the first bad line
    ensures exact { IfOk result (IsNamedVerdict universe.now refutation.now.lines) }
    // where the answer is yes, no selection is acceptable
    ensures refutes { IfOk result (Refutes universe.now) }
    // where the lines can be numbered and are accepted, the answer is yes
    ensures complete { IfOk result (λ verdict.
        AreAccepted universe.now (numbered_lines universe.now.pairs refutation.now.lines) → verdict
        ≡ Yes) }
{
    one_answer();
    let by_number = number_pairs(alloc, universe, refutation)?;
    let judged = check_refutation(alloc, universe, &by_number.lines)?;
    match &by_number.missing {
        None => Ok(judged),
        Some(missing) => Ok(verdict_at(missing.line, judged)),
    }
}
