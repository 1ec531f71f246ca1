//! A quick reading of a value: the automaton of its shape, which also remembers what stands before the next byte of a version.
ghost use Rattle.std.specs.Prelude.{◌≡◌, ◌<◌};
ghost use Rattle.relation_text.specs.Quick as Spec;
ghost use Rattle.relation_text.specs.declared.quick.QuickState.TheVariants as state;

use crate::shape::{RelationForm, ShapePlace, next};

/// What the bytes of a value that have been read end in.
#[derive(Clone, Copy, PartialEq, Eq)]
pub enum QuickState {
    /// At this place, and in a version behind a byte that none of the other states speaks of.
    At(ShapePlace),
    /// Behind the first byte of a version, which is a digit.
    OneDigit,
    /// Behind an epoch of one digit and its colon.
    BehindEpoch,
    /// Behind a hyphen of a version.
    BehindHyphen,
}

/// The place of a state.
pub fn place_of(state: QuickState) -> ShapePlace
    ensures { result ≡ Spec.place_of state }
{
    match state {
        QuickState::At(place) => place,
        QuickState::OneDigit | QuickState::BehindEpoch | QuickState::BehindHyphen =>
            ShapePlace::InVersion,
    }
}

fn upstream_begins(byte: u8) -> QuickState
    ensures { result ≡ Spec.upstream_begins byte }
{
    if byte == b':' || byte == b'-' {
        QuickState::At(ShapePlace::Dead)
    } else {
        QuickState::At(ShapePlace::InVersion)
    }
}

fn version_begins(byte: u8) -> QuickState
    ensures { result ≡ Spec.version_begins byte }
{
    if byte.is_ascii_digit() {
        QuickState::OneDigit
    } else {
        upstream_begins(byte)
    }
}

fn version_goes_on(byte: u8) -> QuickState
    ensures { result ≡ Spec.version_goes_on byte }
{
    if byte == b'-' {
        QuickState::BehindHyphen
    } else if byte == b':' {
        QuickState::At(ShapePlace::Dead)
    } else {
        QuickState::At(ShapePlace::InVersion)
    }
}

fn behind_digit(byte: u8) -> QuickState
    ensures { result ≡ Spec.in_version state.OneDigit byte }
{
    if byte == b':' {
        QuickState::BehindEpoch
    } else {
        version_goes_on(byte)
    }
}

fn in_version(state: QuickState, byte: u8) -> QuickState
    ensures { result ≡ Spec.in_version state byte }
{
    match state {
        QuickState::At(ShapePlace::InVersion) | QuickState::BehindHyphen => version_goes_on(byte),
        QuickState::At(_) => version_begins(byte),
        QuickState::OneDigit => behind_digit(byte),
        QuickState::BehindEpoch => upstream_begins(byte),
    }
}

fn outside(state: QuickState, place: ShapePlace) -> QuickState
    ensures { result ≡ Spec.outside state place }
{
    match state {
        QuickState::At(_) | QuickState::OneDigit => QuickState::At(place),
        QuickState::BehindEpoch | QuickState::BehindHyphen => QuickState::At(ShapePlace::Dead),
    }
}

/// Where the next byte leads.
pub fn quick_next(form: RelationForm, state: QuickState, byte: u8) -> QuickState
    ensures { result ≡ Spec.quick_next form state byte }
{
    match next(form, place_of(state), byte) {
        ShapePlace::InVersion => in_version(state, byte),
        place => outside(state, place),
    }
}

/// The state of this number.
pub fn state_of(number: u8) -> QuickState
    ensures { result ≡ Spec.state_of number }
{
    match number {
        0 => QuickState::At(ShapePlace::Between),
        1 => QuickState::At(ShapePlace::Alternative),
        2 => QuickState::At(ShapePlace::InName),
        3 => QuickState::At(ShapePlace::AfterName),
        4 => QuickState::At(ShapePlace::BeforeQualifier),
        5 => QuickState::At(ShapePlace::InQualifier),
        6 => QuickState::At(ShapePlace::Opened),
        7 => QuickState::At(ShapePlace::Less),
        8 => QuickState::At(ShapePlace::Greater),
        9 => QuickState::At(ShapePlace::AfterOperator),
        10 => QuickState::At(ShapePlace::InVersion),
        11 => QuickState::At(ShapePlace::AfterVersion),
        12 => QuickState::At(ShapePlace::Closed),
        14 => QuickState::OneDigit,
        15 => QuickState::BehindEpoch,
        16 => QuickState::BehindHyphen,
        _ => QuickState::At(ShapePlace::Dead),
    }
}

fn place_number(place: ShapePlace) -> u8
    ensures { result ≡ Spec.place_number place }
{
    match place {
        ShapePlace::Between => 0,
        ShapePlace::Alternative => 1,
        ShapePlace::InName => 2,
        ShapePlace::AfterName => 3,
        ShapePlace::BeforeQualifier => 4,
        ShapePlace::InQualifier => 5,
        ShapePlace::Opened => 6,
        ShapePlace::Less => 7,
        ShapePlace::Greater => 8,
        ShapePlace::AfterOperator => 9,
        ShapePlace::InVersion => 10,
        ShapePlace::AfterVersion => 11,
        ShapePlace::Closed => 12,
        ShapePlace::Dead => 13,
    }
}

/// The number of the state.
pub fn number_of(state: QuickState) -> u8
    ensures { result ≡ Spec.number_of state }
{
    match state {
        QuickState::At(place) => place_number(place),
        QuickState::OneDigit => 14,
        QuickState::BehindEpoch => 15,
        QuickState::BehindHyphen => 16,
    }
}
