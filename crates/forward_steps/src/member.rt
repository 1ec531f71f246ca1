//! The members of a selection, with what unpacking them takes.

ghost use Rattle.std.specs.Prelude.{◌≡◌, IfOk, IfSome, map};
ghost use Rattle.std.specs.List.{Contains, filter_map};
ghost use Rattle.std.specs.Option.{option_copied};
ghost use Rattle.forward_steps.specs.Selection.{IsOneEach, chosen, is_member_version, member_at, member_of, with_stanza};
ghost use Rattle.universe_parts.specs.Parts.{packages_of};

use crate::rank::ranks_of;
use debversion::Version;
use index::IndexPackage;
use indexmap::IndexSet;
use std::alloc::{AllocError, Global};
use std::cmp::Ordering;
use std::marker::Model;
use universe::{Pair, Universe};

/// A selected pair: its name and version, and its stanza in the indices, read already, if it has one. A contract sees it as a
/// pair without relations.
#[derive(Drop)]
pub struct Member<'a> {
    name: &'a [u8],
    version: Version<'a>,
    listed: Option<IndexPackage<'a>>,
}

impl<'a> Model for Member<'a> {
    ghost use Rattle.rules.specs.Universe.{Pair as PairValue};
    ghost use Rattle.rules.specs.Step.{no_relations};

    ghost Value = { PairValue };

    ghost view = { λ m. record {
      pkg = record { name = m.name.now; version = m.version; relations = no_relations };
      listed = m.listed;
    } };
}

impl<'a> Member<'a> {
    // The pair with its stanza.
    fn read(
        alloc: Global,
        universe: &Universe<'_, 'a>,
        pair: &Pair<'_, 'a>,
    ) -> Result<Member<'a>, AllocError>
        ensures { IfOk result (λ member. member ≡ with_stanza universe.now pair.now) }
    {
        let listed = match universe.listed_of(pair.name(), &pair.version()) {
            None => None,
            Some(entry) => Some(entry.package(alloc)?),
        };
        Ok(Member {
            name: pair.name(),
            version: pair.version(),
            listed,
        })
    }

    /// The name.
    pub fn name(&self) -> &'a [u8]
        ensures { result.now ≡ self.now.pkg.name }
    {
        self.name
    }

    /// The version.
    pub fn version(&self) -> &Version<'a>
        ensures { result.now ≡ self.now.pkg.version }
    {
        &self.version
    }

    /// The stanza in the indices, if there is one.
    pub fn stanza(&self) -> Option<&IndexPackage<'a>>
        ensures { option_copied result ≡ self.now.listed }
    {
        self.listed.as_ref()
    }
}

/// The members of a selection, no two of which are of one name, with a table of the names, and the order in which they are
/// tried.
#[derive(Drop)]
pub struct MemberTable<'a> {
    members: Vec<Member<'a>>,
    names: IndexSet<&'a [u8]>,
    ranks: Vec<usize>,
}

impl<'a> Model for MemberTable<'a> {
    ghost use Rattle.std.specs.Prelude.{◌≡◌, List, map};
    ghost use Rattle.rules.specs.Universe.{Pair as PairValue};

    ghost Value = { List PairValue };

    ghost view = { λ m. m.members.items };

    ghost invariant = { λ m. map (λ name. name.now) m.names.keys ≡ map (λ pair. pair.pkg.name) m.members.items };
}

// The members of these numbers.
fn members_at<'a>(
    alloc: Global,
    universe: &Universe<'_, 'a>,
    selection: &[u32],
) -> Result<Vec<Member<'a>>, AllocError>
    ensures { IfOk result
        (λ members. members.items ≡ filter_map (member_at universe.now) selection.now) }
{
    let mut members = Vec::new(alloc);
    for number in selection {
        if let Some(pair) = universe.pair(*number) {
            members.push(Member::read(alloc, universe, pair)?)?;
        }
    }
    Ok(members)
}

// The names of the members, in their order.
fn names_of<'a>(alloc: Global, members: &[Member<'a>]) -> Result<IndexSet<&'a [u8]>, AllocError>
    requires { IsOneEach (packages_of members.now) }
    ensures { IfOk result
        (λ names. map (λ name. name.now) names.keys ≡ map (λ pair. pair.pkg.name) members.now) }
{
    let mut names = IndexSet::new(alloc);
    for member in members {
        names.insert(member.name())?;
    }
    Ok(names)
}

impl<'a> MemberTable<'a> {
    /// The members of these numbers: numbers of no pair are passed over. The stanza of each is read. Memory alone can fail.
    pub fn read(
        alloc: Global,
        universe: &Universe<'_, 'a>,
        selection: &[u32],
    ) -> Result<MemberTable<'a>, AllocError>
        requires { IsOneEach (chosen universe.now selection.now) }
        ensures { IfOk result
            (λ members. members ≡ filter_map (member_at universe.now) selection.now) }
    {
        let members = members_at(alloc, universe, selection)?;
        let names = names_of(alloc, members.as_slice())?;
        let ranks = ranks_of(alloc, members.as_slice())?;
        Ok(MemberTable {
            members,
            names,
            ranks,
        })
    }

    /// The members, lent.
    pub fn lend(&self) -> &MemberTable<'a>
        ensures { result.now ≡ self.now }
    {
        self
    }

    /// The members in the order of the selection.
    pub fn as_slice(&self) -> &[Member<'a>]
        ensures { result.now ≡ self.now }
    {
        self.members.as_slice()
    }

    /// How many members are tried.
    pub fn rank_count(&self) -> usize {
        self.ranks.len()
    }

    /// The member that is tried when so many were before.
    pub fn at_rank(&self, rank: usize) -> Option<&Member<'a>>
        ensures { IfSome result (λ member. Contains self.now member.now) }
    {
        let place = self.ranks.get(rank)?;
        self.members.get(*place)
    }

    /// The member of the name, if there is one. Linear in the name alone.
    pub fn of(&self, name: &[u8]) -> Option<&Member<'a>>
        ensures member { option_copied result ≡ member_of self.now name.now }
        ensures within { IfSome result (λ member. Contains self.now member.now) }
    {
        match self.names.get_index_of(name) {
            Some(place) => self.members.get(place),
            None => None,
        }
    }

    /// Whether the version of the name is a member.
    pub fn has_version(&self, name: &[u8], version: &Version<'_>) -> bool
        ensures { result ≡ is_member_version self.now name.now version.now }
    {
        match self.of(name) {
            Some(member) => member.name() == name
                && member.version().cmp(version) == Ordering::Equal,
            None => false,
        }
    }
}
