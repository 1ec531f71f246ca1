// A whole plan: its start, its steps one after another, and its end (Policy 7).

ghost use Rattle.std.specs.Prelude.{◌≡◌, IfOk, MatchOption, map};
ghost use Rattle.rules.specs.Database.{HasDistinctNames, IsQuiet};
ghost use Rattle.rules.specs.Run.{Run, StopsAt};
ghost use Rattle.rules.specs.Universe.{listed_for};
ghost use Rattle.rules.specs.Verdict.{IsBuiltOn, IsVerdict};
ghost use Rattle.plancheck.specs.End.{IsEndVerdict};

use crate::quiet::is_quiet;
use crate::stanzas::{stanza_at, stanzas_for};
use crate::step::{apply, legal};
use index::IndexPackage;
use plancheck_end::first_against;
use plancheck_state::{Records, try_copy};
use rules::{Rule, Step, Verdict, good_where_nothing_is_against};
use std::alloc::{AllocError, Global};
use universe::Universe;

// The number of the step that isn't allowed when its turn comes, and the first rule that it fails. Where every
// step is allowed, the records are left as the steps leave them.
fn run<'p, 'a>(
    alloc: Global,
    db: &mut Records<'p, 'a>,
    universe: &Universe<'_, 'a>,
    steps: &[Step],
    stanzas: &'p [Option<IndexPackage<'a>>],
) -> Result<Option<(usize, Rule)>, AllocError>
    requires distinct { HasDistinctNames db.old }
    requires stanzas { stanzas.now ≡ map (listed_for universe.now) steps.now }
    ensures { IfOk result (λ stop. MatchOption stop
        (Run universe.now db.old steps.now db.new)
        (λ failing. StopsAt universe.now db.old steps.now failing.0 failing.1)) }
{
    let mut number = 0;
    for step in steps {
        let listed = stanza_at(stanzas, number);
        number += 1;
        if let Some(rule) = legal(alloc, db, universe, listed, step)? {
            return Ok(Some((number, rule)));
        }
        apply(db, universe, listed, step)?;
    }
    Ok(None)
}

// What is answered of the end of the run.
fn end_verdict(
    alloc: Global,
    universe: &Universe<'_, '_>,
    db: &Records<'_, '_>,
) -> Result<Verdict, AllocError>
    ensures { IfOk result (λ verdict. IsEndVerdict universe.now db.now verdict) }
{
    match first_against(alloc, universe, db)? {
        None => Ok(Verdict::Yes),
        Some(reason) => Ok(Verdict::End(reason)),
    }
}

// What is answered of the run from a quiet start, with the stanzas that the steps unpack.
fn run_verdict<'p, 'a>(
    alloc: Global,
    start: &Records<'p, 'a>,
    universe: &Universe<'_, 'a>,
    steps: &[Step],
    stanzas: &'p [Option<IndexPackage<'a>>],
) -> Result<Verdict, AllocError>
    requires built { IsBuiltOn start.now universe.now }
    requires quiet { IsQuiet start.now }
    requires stanzas { stanzas.now ≡ map (listed_for universe.now) steps.now }
    ensures { IfOk result (λ verdict. IsVerdict universe.now start.now steps.now verdict) }
{
    good_where_nothing_is_against();
    let mut db = Records::new(alloc, try_copy(alloc, start.as_slice())?)?;
    let stop = run(alloc, &mut db, universe, steps, stanzas)?;
    match stop {
        Some((number, rule)) => Ok(Verdict::Step(number, rule)),
        None => {
            let verdict = end_verdict(alloc, universe, &db)?;
            Ok(verdict)
        }
    }
}

// What is answered of the run from a quiet start, for which the stanzas that the steps unpack are read.
fn quiet_verdict<'p, 'a>(
    alloc: Global,
    start: &Records<'p, 'a>,
    universe: &Universe<'_, 'a>,
    steps: &[Step],
) -> Result<Verdict, AllocError>
    requires built { IsBuiltOn start.now universe.now }
    requires quiet { IsQuiet start.now }
    ensures { IfOk result (λ verdict. IsVerdict universe.now start.now steps.now verdict) }
{
    let stanzas = stanzas_for(alloc, universe, steps)?;
    run_verdict(alloc, start, universe, steps, stanzas.as_slice())
}

/// Judges a plan from this start, on which the universe is built: whether each step is legal when its turn comes
/// and the end is good, and else what is first against it. Memory alone can fail. Of the stanzas of the universe those that
/// the steps unpack are read, each once for each step. The start is copied once. For each step the cost is that of its
/// rules, and of the end that of `plancheck_end::first_against`.
pub fn check_plan<'p, 'a>(
    alloc: Global,
    start: &Records<'p, 'a>,
    universe: &Universe<'_, 'a>,
    steps: &[Step],
) -> Result<Verdict, AllocError>
    requires built { IsBuiltOn start.now universe.now }
    ensures { IfOk result (λ verdict. IsVerdict universe.now start.now steps.now verdict) }
{
    if is_quiet(start) {
        quiet_verdict(alloc, start, universe, steps)
    } else {
        Ok(Verdict::Start)
    }
}
