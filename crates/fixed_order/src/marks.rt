// Which of the names that wait may pass alone: each has a mark, which is set where the name has what it asks for.

ghost use Rattle.std.specs.Prelude.{◌≡◌, ◌≢◌, ◌↔◌, ◌<◌, ℕ, true, IfOk, IsTrue, length};
ghost use Rattle.std.specs.List.{Contains};
ghost use Rattle.rules.specs.Configure.{AreConfigurable, AreDependsInstalled, ArePreDependsInstalled};
ghost use Rattle.fixed_order.specs.Askers.{AreMarked, AreMarkedAnew, HasWhatItAsks};
ghost use Rattle.fixed_order.specs.Selection.{marked};

use plancheck_group::{are_configurable, are_depends_installed, are_pre_depends_installed};
use plancheck_state::Records;
use rules::Name;
use std::alloc::{AllocError, Global};
use std::slice::from_ref;

/// Whether the names of a group may be configured and what they ask for is installed, or theirs.
pub(crate) fn have_what_they_ask(db: &Records<'_, '_>, group: &[Name]) -> bool
    ensures { IsTrue result
        ↔ (AreConfigurable db.now group.now × AreDependsInstalled db.now group.now
        × ArePreDependsInstalled db.now group.now) }
{
    are_configurable(db, group)
        && are_depends_installed(db, group)
        && are_pre_depends_installed(db, group)
}

// Whether the name may be configured and what it asks for is installed.
fn has_what_it_asks(db: &Records<'_, '_>, name: &Name) -> bool
    ensures { IsTrue result ↔ HasWhatItAsks db.now name.now }
{
    have_what_they_ask(db, from_ref(name))
}

/// The marks of the names. Memory alone can fail.
pub(crate) fn marks_of(
    alloc: Global,
    db: &Records<'_, '_>,
    names: &[Name],
) -> Result<Vec<bool>, AllocError>
    ensures long { IfOk result (λ marks. length marks.items ≡ length names.now) }
    ensures marked { IfOk result (λ marks. AreMarked db.now names.now marks.items) }
{
    let mut marks = Vec::new(alloc);
    for name in names {
        marks.push(has_what_it_asks(db, name))?;
    }
    Ok(marks)
}

// Sets the mark at the place.
fn set(marks: &mut Vec<bool>, place: usize, value: bool)
    requires { place < length marks.old.items }
    ensures long { length marks.new.items ≡ length marks.old.items }
    ensures kept { (other : ℕ) → other ≢ place → marked marks.new.items other
        ≡ marked marks.old.items other }
    ensures written { marked marks.new.items place ≡ value }
{
    marks[place] = value;
}

// Marks the name at the place anew, if there is one.
fn mark(db: &Records<'_, '_>, names: &[Name], marks: &mut Vec<bool>, place: usize)
    requires { length marks.old.items ≡ length names.now }
    ensures long { length marks.new.items ≡ length names.now }
    ensures anew { AreMarkedAnew
        (λ other. other ≡ place) db.now names.now marks.old.items marks.new.items }
{
    if place < names.len() {
        let value = has_what_it_asks(db, &names[place]);
        set(marks, place, value);
    }
}

/// Marks the names at these places anew. A test of each.
pub(crate) fn mark_each(
    db: &Records<'_, '_>,
    names: &[Name],
    marks: &mut Vec<bool>,
    places: &[usize],
)
    requires { length marks.old.items ≡ length names.now }
    ensures long { length marks.new.items ≡ length names.now }
    ensures anew { AreMarkedAnew
        (Contains places.now) db.now names.now marks.old.items marks.new.items }
{
    for place in places {
        mark(db, names, marks, *place);
    }
}

/// Whether the name at the place is marked.
pub(crate) fn is_marked(marks: &[bool], place: usize) -> bool
    ensures { result ≡ marked marks.now place }
{
    match marks.get(place) {
        Some(mark) => *mark,
        None => false,
    }
}
