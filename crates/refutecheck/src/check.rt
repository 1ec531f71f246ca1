// Whether a refutation is accepted, line by line.

ghost use Rattle.std.specs.Prelude.{◌≡◌, ◌^◌, ◌<◌, ◌++◌, ◌∷◌, [], List, false, IfOk, IsTrue, length};
ghost use Rattle.std.specs.List.{AllZip, Contains};
ghost use Rattle.refutation.specs.Following.{EndsFalse};
ghost use Rattle.refutation.specs.Refutation.{IsGoodLine};
ghost use Rattle.refutation.specs.declared.line.Line.{Line as LineValue};
ghost use Rattle.universe_parts.specs.Parts.{HaveDistinctNames};
ghost use Rattle.refutecheck.specs.Answer.{AreJudged, IsClauseOf, IsClauseWhere, IsLineAnswer, IsVerdict, Refutes};

use crate::follow::follows;
use crate::kept::Kept;
use crate::premise::clause_of;
use crate::premises::Premises;
use crate::repeated::earlier_place;
use crate::seen::PremisePlaces;
use crate::verdict::Verdict;
use refutation::{
    Line, Literal, Refutation, empty_list_is_good, follows_from_lists, good_lines_grow,
    none_is_acceptable,
};
use rules::Items;
use std::alloc::{AllocError, Global};
use universe::Universe;

// The same literals.
fn copy_of(alloc: Global, literals: &[Literal]) -> Result<Items<Literal>, AllocError>
    ensures { IfOk result (λ copy. copy ≡ literals.now) }
{
    let mut copy = Vec::new(alloc);
    for literal in literals {
        copy.push(*literal)?;
    }
    Ok(Items::new(copy))
}

// The clause of a derived line, if it follows from these clauses.
fn derived_clause(
    alloc: Global,
    clauses: &Kept,
    literals: &[Literal],
    hints: &[u32],
) -> Result<Option<Items<Literal>>, AllocError>
    ensures { IfOk result
        (IsClauseWhere (EndsFalse Contains clauses.now (Contains literals.now) hints.now)
        (Contains literals.now)) }
{
    if !follows(alloc, clauses, literals, hints)? {
        return Ok(None);
    }
    let copy = copy_of(alloc, literals)?;
    Ok(Some(copy))
}

// The clause of a line, if it is good behind the lines of these clauses.
fn clause_of_line(
    premises: &Premises<'_, '_, '_>,
    clauses: &Kept,
    line: &Line,
) -> Result<Option<Items<Literal>>, AllocError>
    ensures { IfOk result
        (λ answer. (earlier : List LineValue) → AllZip (IsClauseOf premises.now) earlier clauses.now
        → IsLineAnswer premises.now earlier line.now answer) }
{
    follows_from_lists();
    match line {
        Line::Premise(premise) => {
            let answer = clause_of(premises, premise)?;
            Ok(answer)
        }
        Line::Derived(literals, hints) => {
            let answer = derived_clause(
                premises.alloc(),
                clauses,
                literals.as_slice(),
                hints.as_slice(),
            )?;
            Ok(answer)
        }
    }
}

// Keeps the clause of a line behind the lines of these clauses, and answers whether it is good. The clause of a premise
// that was a line before is shared with it.
fn keep_line<'l>(
    premises: &Premises<'_, '_, '_>,
    earlier: &[Line],
    line: &'l Line,
    kept: &mut Kept,
    seen: &mut PremisePlaces<'l>,
) -> Result<bool, AllocError>
    requires { AreJudged premises.now earlier.now kept.old }
    ensures good { IfOk result
        (λ is_good. IsTrue is_good
        → AreJudged premises.now (earlier.now ++ line.now ∷ []) kept.new) }
    ensures bad { IfOk result
        (λ is_good. is_good ≡ false → ¬ IsGoodLine premises.now earlier.now line.now) }
{
    good_lines_grow();
    if let Some(place) = earlier_place(seen, earlier, line) {
        kept.push_again(place)?;
        return Ok(true);
    }
    match clause_of_line(premises, kept, line)? {
        None => Ok(false),
        Some(clause) => {
            kept.push(clause)?;
            seen.note(line, earlier.len())?;
            Ok(true)
        }
    }
}

// The verdict on the lines. Their clauses are kept until the end.
fn judge(premises: &Premises<'_, '_, '_>, lines: &[Line]) -> Result<Verdict, AllocError>
    ensures { IfOk result (IsVerdict premises.now lines.now) }
{
    empty_list_is_good();
    let mut kept = Kept::new(premises.alloc());
    let mut seen = PremisePlaces::new(premises.alloc());
    for (place, line) in lines.iter().enumerate() {
        if !keep_line(premises, &lines[..place], line, &mut kept, &mut seen)? {
            return Ok(Verdict::No(place + 1));
        }
    }
    if kept.ends_with_none() {
        Ok(Verdict::Yes)
    } else {
        Ok(Verdict::No(lines.len() + 1))
    }
}

/// The verdict on the refutation by premises that were made before, as `check_refutation` gives it: so several refutations over
/// one universe are judged by one table of what its packages offer. Costs what its lines cost there. Memory alone can fail.
pub fn check_refutation_by(
    premises: &Premises<'_, '_, '_>,
    refutation: &Refutation,
) -> Result<Verdict, AllocError>
    // yes exactly where the refutation is accepted, and else the number of the first bad line
    ensures exact { IfOk result (IsVerdict premises.now refutation.now) }
    // where the answer is yes, no selection is acceptable
    ensures refutes { IfOk result (Refutes premises.now) }
{
    none_is_acceptable();
    let verdict = judge(premises, refutation.as_slice())?;
    // That the pairs ascend is known from here on.
    let _ascending = premises.universe().pairs();
    Ok(verdict)
}

/// The verdict on the refutation: yes exactly where every line is a premise of the universe or follows from the earlier
/// lines that it hints at, and the last one's clause is empty (docs/FORMATS.md). A yes means that no selection of the
/// pairs is acceptable. What matches is found by the providers of the universe, and no package stays parsed; each line costs what
/// its clause, or the clauses of its hints, have, and for a premise the packages that it names and those that have or
/// provide its names, or a look-up where it was a line before. Memory alone can fail.
pub fn check_refutation(
    alloc: Global,
    universe: &Universe<'_, '_>,
    refutation: &Refutation,
) -> Result<Verdict, AllocError>
    // pairs have numbers of 32 bits, as those of a request have (`rules::PAIRS`)
    requires few { length universe.now.pairs < 2 ^ 32 }
    // no two facts of the start are about one name, as of a status file
    requires distinct { HaveDistinctNames universe.now.starts }
    // yes exactly where the refutation is accepted, and else the number of the first bad line
    ensures exact { IfOk result (IsVerdict universe.now refutation.now) }
    // where the answer is yes, no selection is acceptable
    ensures refutes { IfOk result (Refutes universe.now) }
{
    let premises = Premises::new(alloc, universe);
    check_refutation_by(&premises, refutation)
}
