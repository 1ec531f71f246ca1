// Why a clause holds without others.

ghost use Rattle.std.specs.Prelude.{◌≡◌, false, IfOk, MatchOption};
ghost use Rattle.rules.specs.Name.{is_name};
ghost use Rattle.encode.specs.Basis.{IsNameless, premise_of};

use refutation::Premise;
use rules::{Name, is_name};
use std::alloc::{AllocError, Global};

/// What of the universe says a clause, as `refutation::Premise` has it: pairs, goals and clauses of a field are told by
/// their numbers, counted from 1. It borrows the names of the start.
#[derive(Clone, Copy)]
pub enum Basis<'a> {
    /// Two pairs of one name, the lower number first.
    Same(u32, u32),
    /// A pair and a clause of its Pre-Depends.
    PreDepends(u32, u32),
    /// A pair and a clause of its Depends.
    Depends(u32, u32),
    /// A pair and one that it conflicts with.
    Conflicts(u32, u32),
    /// A pair and one that it breaks.
    Breaks(u32, u32),
    /// An install or upgrade goal.
    Goal(u32),
    /// A remove, purge or upgrade-all goal and a pair that it speaks of.
    GoalOn(u32, u32),
    /// The pair in whose version a held name stands.
    Hold(u32),
    /// An essential name that was present at the start.
    Essential(&'a [u8]),
    /// A name that stands at the start, where nothing is to be removed.
    Keep(&'a [u8]),
}

// A copy of a name; none of bytes that are no name.
fn name_of(alloc: Global, bytes: &[u8]) -> Result<Option<Name>, AllocError>
    ensures { IfOk result
        (λ answer. MatchOption answer (is_name bytes.now ≡ false) (λ name. name ≡ bytes.now)) }
{
    if is_name(bytes) {
        Ok(Some(Name::copied_from(alloc, bytes)?))
    } else {
        Ok(None)
    }
}

impl Basis<'_> {
    /// The premise of a refutation; none exactly where it speaks of a name that is none (Policy 5.6.1), which no status file
    /// has. Memory alone can fail.
    pub fn premise(&self, alloc: Global) -> Result<Option<Premise>, AllocError>
        ensures { IfOk result
            (λ answer. MatchOption answer (IsNameless self.now)
            (λ premise. premise ≡ premise_of self.now)) }
    {
        match self {
            Basis::Same(number, other) => Ok(Some(Premise::Same(*number, *other))),
            Basis::PreDepends(number, clause) => Ok(Some(Premise::PreDepends(*number, *clause))),
            Basis::Depends(number, clause) => Ok(Some(Premise::Depends(*number, *clause))),
            Basis::Conflicts(number, other) => Ok(Some(Premise::Conflicts(*number, *other))),
            Basis::Breaks(number, other) => Ok(Some(Premise::Breaks(*number, *other))),
            Basis::Goal(number) => Ok(Some(Premise::Goal(*number))),
            Basis::GoalOn(number, pair) => Ok(Some(Premise::GoalOn(*number, *pair))),
            Basis::Hold(number) => Ok(Some(Premise::Hold(*number))),
            Basis::Essential(name) => Ok(name_of(alloc, name)?.map(|name| Premise::Essential(
                name,
            ))),
            Basis::Keep(name) => Ok(name_of(alloc, name)?.map(|name| Premise::Keep(name))),
        }
    }
}
