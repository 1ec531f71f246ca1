// The versions of names that install goals ask for with `=`.

ghost use Rattle.std.specs.Prelude.{◌≡◌, IfOk, refl};
ghost use Rattle.std.specs.Cmp.{eq_by_cmp_equiv, partial_equiv_from_equiv, po};
ghost use Rattle.std.specs.List.{filter_map, list_any};
ghost use Rattle.std.specs.List.Sorted.{IsSorted};
ghost use Rattle.std.specs.Ordering.{as_partial_cmp, eq_by_cmp};
ghost use Rattle.rules.specs.Available.{is_of};
ghost use Rattle.universe_build.specs.Build.{goals_of};
ghost use Rattle.universe_build.specs.Choice.{AreExacts, exact_at, exact_by, exact_cmp, exact_of, exacts_of, is_asked, is_exactly};
ghost use Rattle.universe_build.specs.ChoiceLaws.{exact_cmp_total};

use candidates::OrderedEntry;
use debversion::Version;
use rules::{Goal, GoalLine, Name, Op, Restriction, name_cmp};
use std::alloc::{AllocError, Global};
use std::cmp::Ordering;
use std::marker::Model;
use universe::Pairs;

/// A version of a name that a goal asks for with `=`, over the text of the goal.
#[derive(Drop)]
pub struct Exact<'g> {
    name: &'g [u8],
    version: Version<'g>,
}

impl<'g> Model for Exact<'g> {
    ghost use Rattle.universe_build.specs.Choice.{Exact as ExactValue};

    ghost Value = { ExactValue };

    ghost view = { λ e. record { name = e.name.now; version = e.version } };
}

impl Exact<'_> {
    /// Whether it is the version of a pair. A binary search.
    pub fn is_among(&self, pairs: &Pairs<'_, '_>) -> bool
        ensures { result
            ≡ list_any (λ pair. is_of self.now.name self.now.version pair.pkg) pairs.now }
    {
        pairs.has(self.name, &self.version)
    }
}

fn is_exactly(op: Op) -> bool
    ensures { result ≡ is_exactly op }
{
    match op {
        Op::ExactlyEqual => true,
        Op::StrictlyEarlier | Op::EarlierOrEqual | Op::LaterOrEqual | Op::StrictlyLater => false,
    }
}

fn version_of(restriction: &Restriction) -> Version<'_>
    ensures { result ≡ restriction.now.version }
{
    match Version::parse(restriction.version.as_bytes()) {
        Ok(version) => version,
        Err(_) => unreachable!(),
    }
}

fn exact_by<'g>(name: &'g Name, restriction: &'g Restriction) -> Option<Exact<'g>>
    ensures { result ≡ exact_by name.now restriction.now }
{
    if is_exactly(restriction.op) {
        Some(Exact {
            name: name.as_bytes(),
            version: version_of(restriction),
        })
    } else {
        None
    }
}

/// What the goal asks for with `=`, if it does.
pub fn exact_of(goal: &Goal) -> Option<Exact<'_>>
    ensures { result ≡ exact_of goal.now }
{
    match goal {
        Goal::Install(name, Some(restriction)) => exact_by(name, restriction),
        Goal::Install(_, None)
        | Goal::Remove(_)
        | Goal::Purge(_)
        | Goal::Upgrade(_)
        | Goal::UpgradeAll
        | Goal::NoRemove => None,
    }
}

// What the goals ask for with `=`, in their order.
fn asked_by<'g>(alloc: Global, lines: &'g [GoalLine]) -> Result<Vec<Exact<'g>>, AllocError>
    ensures { IfOk result
        (λ exacts. exacts.items ≡ filter_map (λ asked. exact_of asked.goal) lines.now) }
{
    lines
        .iter()
        .filter_map(|asked| exact_of(&asked.goal))
        .collect(alloc)
}

/// What the goals ask for with `=`, in order. About n log n comparisons of the n goals that do.
pub fn exacts_of<'g>(alloc: Global, lines: &'g [GoalLine]) -> Result<Vec<Exact<'g>>, AllocError>
    ensures { IfOk result (λ exacts. AreExacts (exacts_of (goals_of lines.now)) exacts.items) }
{
    let mut exacts = asked_by(alloc, lines)?;
    exacts.sort()?;
    Ok(exacts)
}

// How what is asked for compares with a stanza.
fn order_to(exact: &Exact<'_>, stanza: &OrderedEntry<'_, '_>) -> Ordering
    ensures { result ≡ exact_cmp exact.now (exact_at stanza.now) }
{
    match name_cmp(exact.name, stanza.name()) {
        Ordering::Equal => exact.version.cmp(&stanza.version()),
        decided => decided,
    }
}

/// Whether the stanza is of a version that is asked for. A binary search.
pub fn is_asked(exacts: &[Exact<'_>], stanza: &OrderedEntry<'_, '_>) -> bool
    requires { IsSorted exact_cmp exacts.now }
    ensures { result ≡ is_asked exacts.now stanza.now }
{
    exacts
        .binary_search_by(|exact| order_to(exact, stanza))
        .is_ok()
}

impl PartialEq for Exact<'_> {
    ghost eq = { eq_by_cmp exact_cmp };

    ghost laws = { partial_equiv_from_equiv (eq_by_cmp_equiv exact_cmp_total) };

    fn eq(&self, other: &Self) -> bool {
        self.cmp(other) == Ordering::Equal
    }
}

impl Eq for Exact<'_> {
    ghost laws = { eq_by_cmp_equiv exact_cmp_total };
}

impl PartialOrd for Exact<'_> {
    ghost partial_cmp = { as_partial_cmp exact_cmp };

    ghost laws = { po exact_cmp_total (λ exact other. refl) };

    fn partial_cmp(&self, other: &Self) -> Option<Ordering> {
        Some(self.cmp(other))
    }
}

impl Ord for Exact<'_> {
    ghost cmp = { exact_cmp };

    ghost total = { exact_cmp_total };

    ghost matches_partial_cmp = { λ exact other. refl };

    ghost matches_eq = { λ exact other. refl };

    fn cmp(&self, other: &Self) -> Ordering {
        match name_cmp(self.name, other.name) {
            Ordering::Equal => self.version.cmp(&other.version),
            decided => decided,
        }
    }
}
