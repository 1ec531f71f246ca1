//! The refusal of a value, found without taking memory.
ghost use Rattle.std.specs.Prelude.{◌≡◌, ◌≤◌, ℕ, List, Some, None, length, IfSome, MatchResult};
ghost use Rattle.relation_text.specs.Refusal as Spec;
ghost use Rattle.relation_text.specs.Refusal.{atom_start, bad_version_of, excess_from, fault_of, more_after, most_atoms, shape_refusal_from, version_refusal_from};
ghost use Rattle.relation_text.specs.Shape.{HasShape, IsFirstStop};
ghost use Rattle.relation_text.specs.Spelling.{parts_of};
ghost use Rattle.relation_text.specs.declared.refusal.RelationRefusal.{RelationRefusal as RelationRefusalOf};
ghost use Rattle.relation_text.specs.declared.shape.RelationForm.{RelationForm as FormOf};
ghost use Rattle.relation_text.specs.declared.shape.ShapePlace.TheVariants.{Between};

use crate::cut::{
    Separator, after_white, cut_part, inside_of, is_blank, is_version, split_operator,
    version_front,
};
use crate::error::RelationFault;
use crate::shape::{RelationForm, ShapePlace, awaits_name, is_dead, is_end, next};

/// A refusal, with the offset by which the least is found.
#[derive(Clone, Copy, PartialEq, Eq)]
pub struct RelationRefusal {
    pub offset: usize,
    pub fault: RelationFault,
}

pub const MOST_ATOMS: usize = 65535;

fn stop_at(place: ShapePlace, offset: usize) -> RelationRefusal
    ensures { result ≡ Spec.stop_at place offset }
{
    let fault = if awaits_name(place) {
        RelationFault::BadName(offset)
    } else {
        RelationFault::BadRelation(offset)
    };
    RelationRefusal { offset, fault }
}

// The first byte with which no text of the form goes on, or the end where it comes too early.
fn shape_refusal(form: RelationForm, value: &[u8]) -> Option<RelationRefusal>
    ensures { result ≡ shape_refusal_from form Between 0 value.now }
{
    let mut place = ShapePlace::Between;
    for (offset, byte) in value.iter().enumerate() {
        let after = next(form, place, *byte);
        if is_dead(after) {
            return Some(stop_at(place, offset));
        }
        place = after;
    }
    if is_end(place) {
        None
    } else {
        Some(stop_at(place, value.len()))
    }
}

// Where the version of an atom's text begins, if there is one and it is refused.
#[tactic(auto, unfolding(crate::specs::Refusal::bad_version_of))]
fn bad_version_of(text: &[u8]) -> Option<usize>
    ensures value { result ≡ bad_version_of text.now }
    ensures within { IfSome result (λ at. at ≤ length text.now) }
{
    let inside = inside_of(text)?;
    let (_, rest) = split_operator(inside);
    if is_version(version_front(rest)) {
        None
    } else {
        Some(text.len() - rest.len())
    }
}

fn bad_version_at(offset: usize) -> RelationRefusal
    ensures { result ≡ Spec.bad_version_at offset }
{
    RelationRefusal {
        offset,
        fault: RelationFault::BadRelation(offset),
    }
}

fn too_large_at(offset: usize) -> RelationRefusal
    ensures { result ≡ Spec.too_large_at offset }
{
    RelationRefusal {
        offset,
        fault: RelationFault::TooLarge,
    }
}

// The first version that is refused.
fn version_refusal(separator: Separator, value: &[u8]) -> Option<RelationRefusal>
    ensures { result ≡ version_refusal_from 0 (parts_of separator value.now) }
{
    let mut left = Some(value);
    while let Some(rest) = left {
        let (part, after) = cut_part(separator, rest);
        if let Some(at) = bad_version_of(part) {
            return Some(bad_version_at(value.len() - rest.len() + at));
        }
        left = after;
    }
    None
}

// How many atoms more may stand behind the part, or none where the part is an atom too many.
fn more_after(more: usize, part: &[u8]) -> Option<usize>
    ensures { result ≡ more_after more part.now }
{
    if is_blank(part) {
        Some(more)
    } else {
        more.checked_sub(1)
    }
}

// Where an atom begins in its text.
fn atom_start(part: &[u8]) -> usize
    ensures value { result ≡ atom_start part.now }
    ensures within { result ≤ length part.now }
{
    part.len() - after_white(part).len()
}

// The first atom too many among the parts.
fn excess_among(separator: Separator, value: &[u8]) -> Option<RelationRefusal>
    ensures { result ≡ excess_from most_atoms 0 (parts_of separator value.now) }
{
    let mut more = MOST_ATOMS;
    let mut left = Some(value);
    while let Some(rest) = left {
        let (part, after) = cut_part(separator, rest);
        let Some(behind) = more_after(more, part) else {
            return Some(too_large_at(value.len() - rest.len() + atom_start(part)));
        };
        more = behind;
        left = after;
    }
    None
}

// The first atom too many: a value of fewer bytes has none.
fn excess(separator: Separator, value: &[u8]) -> Option<RelationRefusal>
    ensures { result ≡ excess_from most_atoms 0 (parts_of separator value.now) }
{
    if value.len() < MOST_ATOMS {
        None
    } else {
        excess_among(separator, value)
    }
}

fn sooner(
    refusal: Option<RelationRefusal>,
    other: Option<RelationRefusal>,
) -> Option<RelationRefusal>
    ensures { result ≡ Spec.sooner refusal other }
{
    match (refusal, other) {
        (None, _) => other,
        (Some(_), None) => refusal,
        (Some(first), Some(second)) => {
            if second.offset < first.offset {
                other
            } else {
                refusal
            }
        }
    }
}

fn separator_of(form: RelationForm) -> Separator
    ensures { result ≡ Spec.separator_of form }
{
    match form {
        RelationForm::Clauses => Separator::CommaOrBar,
        RelationForm::Atoms | RelationForm::Provides => Separator::Comma,
    }
}

fn least_refusal(form: RelationForm, value: &[u8]) -> Option<RelationRefusal>
    ensures { result ≡ Spec.least_refusal form value.now }
{
    let separator = separator_of(form);
    sooner(
        shape_refusal(form, value),
        sooner(version_refusal(separator, value), excess(separator, value)),
    )
}

/// Tests the value of a relation field (Policy 7.1) and takes no memory: the answer is the refusal that the
/// parser of this form gives. Two passes over the value, and a third where it is long enough to have an atom too many.
#[tactic(auto, unfolding(crate::specs::Refusal::fault_of))]
pub fn check(form: RelationForm, value: &[u8]) -> Result<(), RelationFault>
    ensures { MatchResult result (λ _. fault_of form value.now ≡ None)
        (λ fault. fault_of form value.now ≡ Some fault) }
{
    match least_refusal(form, value) {
        None => Ok(()),
        Some(refusal) => Err(refusal.fault),
    }
}

/// A value has the shape of the form, or its shape is refused at the first byte with which no text of the form
/// goes on: up to it some text does. At the end it is refused where it ends too early.
pub fn a_shape_is_refused_at_the_first_byte_that_goes_on_with_no_text()
    ensures accepted { (form : FormOf) (value : List ℕ) → shape_refusal_from form Between 0 value
        ≡ None → HasShape form value }
    ensures refused { (form : FormOf) (value : List ℕ) (refusal : RelationRefusalOf) →
        shape_refusal_from form Between 0 value ≡ Some refusal
        → IsFirstStop form value refusal.offset }
{}
