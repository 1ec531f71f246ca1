// The universe of a request over the records of the start, the indices and the preferences.

ghost use Rattle.std.specs.Prelude.{◌≡◌, ◌<◌, ◌≤◌, IfOk, IfErr, List, length, map};
ghost use Rattle.std.specs.List.Sorted.{IsStrictlySortedBy};
ghost use Rattle.std.specs.Option.{option_copied};
ghost use Rattle.rules.specs.Available.{Index as IndexValue};
ghost use Rattle.rules.specs.Database.{HasDistinctNames, Record as RecordValue};
ghost use Rattle.rules.specs.FileRecord.{records_of};
ghost use Rattle.rules.specs.Universe.{pair_cmp, starts_of};
ghost use Rattle.candidates.specs.Names.{AreNames};
ghost use Rattle.universe_build.specs.Build.{first_unknown, goals_of, indices_of, is_unknown, named_by, universe_with};
ghost use Rattle.universe_build.specs.Error.{IsBuilt, IsUniverseFault, most_pairs};
ghost use Rattle.universe_build.specs.declared.error.UniverseError.TheVariants as error;

use crate::asked::exacts_of;
use crate::error::UniverseError;
use crate::walk::pairs_and_candidates;
use candidates::{NameTable, Recorded, records_in};
use index::Index;
use pins::Prefs;
use rules::{Goal, GoalLine, PAIRS};
use status_text::StatusRecord;
use std::alloc::{AllocError, Global};
use std::rc::Rc;
use universe::{Admitted, Candidates, Pair, Pairs, Start, Starts, Universe};

fn named_by(goal: &Goal) -> Option<&[u8]>
    ensures { option_copied result ≡ named_by goal.now }
{
    match goal {
        Goal::Install(name, _) | Goal::Remove(name) | Goal::Purge(name) | Goal::Upgrade(name) => {
            Some(name.as_bytes())
        }
        Goal::UpgradeAll | Goal::NoRemove => None,
    }
}

fn is_unknown(names: &NameTable<'_, '_, '_>, goal: &Goal) -> bool
    ensures { result ≡ is_unknown names.now.known names.now.ordered goal.now }
{
    match named_by(goal) {
        None => false,
        Some(name) => !names.has_stanza(name) && !names.is_recorded(name),
    }
}

/// The line of the first goal that names a package that nothing has.
pub(crate) fn first_unknown(names: &NameTable<'_, '_, '_>, lines: &[GoalLine]) -> Option<usize>
    ensures { result ≡ first_unknown names.now.known names.now.ordered lines.now }
{
    lines
        .iter()
        .find(|asked| is_unknown(names, &asked.goal))
        .map(|asked| asked.line)
}

/// The goals of the lines.
pub(crate) fn goals_of(alloc: Global, lines: Vec<GoalLine>) -> Result<Vec<Goal>, AllocError>
    ensures { IfOk result (λ goals. goals.items ≡ goals_of lines.items) }
{
    lines.into_iter().map(|asked| asked.goal).collect(alloc)
}

fn starts_of<'a>(alloc: Global, start: &[Recorded<'_, 'a>]) -> Result<Vec<Start<'a>>, AllocError>
    ensures { IfOk result (λ starts. starts.items ≡ starts_of start.now) }
{
    start.iter().map(|entry| entry.start()).collect(alloc)
}

/// The facts of the records, with a table of their names.
pub(crate) fn facts_of<'a>(
    alloc: Global,
    start: &[Recorded<'_, 'a>],
) -> Result<Starts<'a>, AllocError>
    requires { HasDistinctNames start.now }
    ensures { IfOk result (λ facts. facts ≡ starts_of start.now) }
{
    Starts::new(alloc, starts_of(alloc, start)?)
}

/// The parts of universes, with the providers of the pairs, to be shared.
pub(crate) fn share<'p, 'a>(
    alloc: Global,
    pairs: Pairs<'p, 'a>,
    starts: Starts<'a>,
    candidates: Candidates<'a>,
) -> Result<Rc<Admitted<'p, 'a>>, AllocError>
    ensures { IfOk result (λ admitted.
        admitted.value
        ≡ record { pairs = pairs.entry; starts = starts.entry; candidates = candidates.entry }) }
{
    let admitted = Admitted::new(alloc, pairs, starts, candidates)?;
    Ok(Rc::new(alloc, admitted)?)
}

// The pairs, unless they are more than are admitted.
fn bounded_pairs<'p, 'a>(pairs: Vec<Pair<'p, 'a>>) -> Result<Pairs<'p, 'a>, UniverseError>
    requires { IsStrictlySortedBy pair_cmp pairs.items }
    ensures ok { IfOk result
        (λ kept. (kept ≡ pairs.entry.items) × (length pairs.entry.items ≤ most_pairs)) }
    ensures err { IfErr result
        (λ e. (e ≡ error.TooLarge) × (most_pairs < length pairs.entry.items)) }
{
    if pairs.len() > PAIRS {
        return Err(UniverseError::TooLarge);
    }
    Ok(Pairs::new(pairs))
}

// The pairs and the candidates of the goals of these lines over these names, for all versions or not.
fn choice<'p, 'a>(
    alloc: Global,
    names: &NameTable<'_, 'p, 'a>,
    prefs: &Prefs,
    lines: &[GoalLine],
    asks_all_versions: bool,
) -> Result<(Pairs<'p, 'a>, Candidates<'a>), UniverseError>
    ensures ok { (start : List RecordValue) (indices : List IndexValue) → HasDistinctNames start
        → AreNames start indices names.now
        → IfOk result
        (λ choice. IsBuilt start indices prefs.now lines.now asks_all_versions
        (universe_with start lines.now choice.0 choice.1)) }
    ensures err { (start : List RecordValue) (indices : List IndexValue) → HasDistinctNames start
        → AreNames start indices names.now
        → IfErr result
        (λ e. IsUniverseFault start indices prefs.now lines.now asks_all_versions e) }
{
    if let Some(line) = first_unknown(names, lines) {
        return Err(UniverseError::UnknownName(line));
    }
    let asked = exacts_of(alloc, lines)?;
    let (pairs, candidates) = pairs_and_candidates(
        alloc,
        names,
        prefs,
        asked.as_slice(),
        asks_all_versions,
    )?;
    let pairs = bounded_pairs(pairs)?;
    Ok((pairs, Candidates::new(candidates)))
}

/// The universe of the goals over the records of the start and the indices, where these preferences hold
/// (apt_preferences(5)). Of equal versions the one that stands counts, then the stanza of the earlier index, and then the
/// earlier stanza. The universe lends the stanzas of the indices, and of no stanza the relations are read here.
///
/// Where all versions are asked for, each version that may be chosen is admitted for names that aren't held: those with a
/// priority above 0 that aren't lower than the one that stands with a priority below 1000.
///
/// It refuses the first goal that names a package that no stanza has and that is in no state but not-installed, then more
/// than 1,000,000 admitted pairs, and growths that are refused. About n log n comparisons of n stanzas and records, for
/// each version what `Prefs::priority` costs, and for m goals about m log n and n log m comparisons more.
pub fn build<'p, 'a>(
    alloc: Global,
    start: &[&StatusRecord<'a>],
    indices: &'p [Index<'a>],
    prefs: &Prefs,
    goals: Vec<GoalLine>,
    asks_all_versions: bool,
) -> Result<Universe<'p, 'a>, UniverseError>
    requires { HasDistinctNames (records_of (map (λ r. r.now) start.now)) }
    ensures ok { IfOk result
        (λ u. IsBuilt (records_of (map (λ r. r.now) start.now))
        (indices_of indices.now) prefs.now goals.items asks_all_versions u) }
    ensures err { IfErr result
        (λ e. IsUniverseFault (records_of (map (λ r. r.now) start.now))
        (indices_of indices.now) prefs.now goals.items asks_all_versions e) }
{
    let recorded = records_in(alloc, start)?;
    let starts = facts_of(alloc, recorded.as_slice())?;
    let names = NameTable::new(alloc, recorded, indices)?;
    let (pairs, candidates) = choice(alloc, &names, prefs, goals.as_slice(), asks_all_versions)?;
    let goals = goals_of(alloc, goals)?;
    // What is found by names isn't wanted any more, and the table of providers is made without it.
    drop(names);
    let admitted = share(alloc, pairs, starts, candidates)?;
    Ok(Universe::new(admitted, goals))
}
