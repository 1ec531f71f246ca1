// In which order members are tried: what a member needs comes before it, and where needs go in a ring it is cut somewhere
// (a walk in depth over the needs, in the order in which it leaves the members).

ghost use Rattle.std.specs.Prelude.{IfOk};

use crate::member::Member;
use providers::Providers;
use relation::{Atom, Clause, Pkg};
use std::alloc::{AllocError, Global};

// The packages of the members that have a stanza, and the place of each among the members.
#[derive(Drop)]
struct Listed<'m, 'a> {
    packages: Vec<&'m Pkg<'a>>,
    places: Vec<usize>,
}

impl<'m, 'a> Listed<'m, 'a> {
    fn of(alloc: Global, members: &'m [Member<'a>]) -> Result<Listed<'m, 'a>, AllocError> {
        let mut packages = Vec::new(alloc);
        let mut places = Vec::new(alloc);
        for (place, member) in members.iter().enumerate() {
            if let Some(listed) = member.stanza() {
                packages.push(listed.pkg())?;
                places.push(place)?;
            }
        }
        Ok(Listed { packages, places })
    }

    // The place among the members of the package at this place, if it matches the atom.
    fn matching(&self, atom: &Atom<'_>, index: usize) -> Option<usize> {
        let pkg = self.packages.get(index)?;
        if atom.matched_by(pkg) {
            return self.places.get(index).copied();
        }
        None
    }
}

// Puts the places of the members that match the clauses behind the others.
fn push_needs(
    alloc: Global,
    listed: &Listed<'_, '_>,
    providers: &Providers<'_>,
    clauses: &[Clause<'_>],
    needs: &mut Vec<usize>,
) -> Result<(), AllocError> {
    for clause in clauses {
        for atom in clause.as_slice() {
            let places = providers.of(alloc, atom.name())?;
            for index in places.as_slice() {
                if let Some(place) = listed.matching(atom, *index) {
                    needs.push(place)?;
                }
            }
        }
    }
    Ok(())
}

// The places of the members that the member needs, from the last on: Pre-Depends come first, and then Depends.
fn needs_of(
    alloc: Global,
    listed: &Listed<'_, '_>,
    providers: &Providers<'_>,
    member: &Member<'_>,
) -> Result<Vec<usize>, AllocError> {
    let mut needs = Vec::new(alloc);
    if let Some(own) = member.stanza() {
        push_needs(
            alloc,
            listed,
            providers,
            own.pkg().pre_depends(),
            &mut needs,
        )?;
        push_needs(alloc, listed, providers, own.pkg().depends(), &mut needs)?;
    }
    needs.reverse();
    Ok(needs)
}

// The walk: the members seen, those on the way, and those that were left.
#[derive(Drop)]
struct Walk {
    needs: Vec<Vec<usize>>,
    seen: Vec<bool>,
    path: Vec<usize>,
    left: Vec<usize>,
}

impl Walk {
    fn over(alloc: Global, members: &[Member<'_>]) -> Result<Walk, AllocError> {
        let listed = Listed::of(alloc, members)?;
        let providers = Providers::of_packages(alloc, listed.packages.as_slice())?;
        let mut needs = Vec::new(alloc);
        let mut seen = Vec::new(alloc);
        for member in members {
            needs.push(needs_of(alloc, &listed, &providers, member)?)?;
            seen.push(false)?;
        }
        Ok(Walk {
            needs,
            seen,
            path: Vec::new(alloc),
            left: Vec::new(alloc),
        })
    }

    // Goes to the member, unless it was seen.
    fn enter(&mut self, place: usize) -> Result<(), AllocError> {
        if self.seen.get(place) == Some(&false) {
            self.seen[place] = true;
            self.path.push(place)?;
        }
        Ok(())
    }

    // The next need of the member, if one is left.
    fn next_need(&mut self, place: usize) -> Option<usize> {
        match self.needs.get_mut(place) {
            Some(needs) => needs.pop(),
            None => None,
        }
    }

    // Goes on by one need, or leaves a member. Answers whether some member was on the way.
    fn go_on(&mut self) -> Result<bool, AllocError> {
        let Some(place) = self.path.pop() else {
            return Ok(false);
        };
        match self.next_need(place) {
            Some(need) => {
                self.path.push(place)?;
                self.enter(need)?;
            }
            None => self.left.push(place)?,
        }
        Ok(true)
    }

    // Walks over the member and all that it needs.
    fn visit(&mut self, place: usize) -> Result<(), AllocError> {
        self.enter(place)?;
        for _ in 0..u64::MAX {
            if !self.go_on()? {
                return Ok(());
            }
        }
        Ok(())
    }
}

/// The places of the members in the order in which they are tried. It begins with the essential ones and what they need.
/// About n log n in the names that the members have and provide, and linear in their needs. Memory alone can fail.
pub fn ranks_of(alloc: Global, members: &[Member<'_>]) -> Result<Vec<usize>, AllocError> {
    let mut walk = Walk::over(alloc, members)?;
    for (place, member) in members.iter().enumerate() {
        if member.stanza().is_some_and(|listed| listed.is_essential()) {
            walk.visit(place)?;
        }
    }
    for place in 0..members.len() {
        walk.visit(place)?;
    }
    Ok(walk.left)
}
