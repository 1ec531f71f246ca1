//! The shape of a relation field's value: an automaton that reads it byte by byte.
ghost use Rattle.std.specs.Prelude.{◌≡◌, ◌≢◌, ℕ, List, ◌++◌};
ghost use Rattle.relation_text.specs.Bytes.{is_white, is_qualifier_byte, is_version_byte};
ghost use Rattle.relation_text.specs.Place as Tests;
ghost use Rattle.relation_text.specs.Shape as Spec;
ghost use Rattle.relation_text.specs.Shape.{HasShape, place_after};
ghost use Rattle.relation_text.specs.declared.shape.RelationForm.{RelationForm as FormOf};
ghost use Rattle.relation_text.specs.declared.shape.ShapePlace.TheVariants.{Between, Dead};

use rules::is_name_byte;

/// The kind of a relation field.
#[derive(Clone, Copy, PartialEq, Eq)]
pub enum RelationForm {
    /// Clauses separated by commas, each of alternatives separated by `|`: Pre-Depends and Depends.
    Clauses,
    /// Atoms separated by commas: Conflicts and Breaks.
    Atoms,
    /// Atoms separated by commas, with `=` as the one operator: Provides.
    Provides,
}

/// What the bytes of a value that have been read end in.
#[derive(Clone, Copy, PartialEq, Eq)]
pub enum ShapePlace {
    /// At the value's beginning or behind a comma, and white space behind these.
    Between,
    /// Behind a bar and white space behind it.
    Alternative,
    /// In a name.
    InName,
    /// In white space behind a name and its qualifier.
    AfterName,
    /// Behind the colon of a qualifier.
    BeforeQualifier,
    /// In a qualifier.
    InQualifier,
    /// Behind an opening parenthesis and white space behind it.
    Opened,
    /// Behind a `<` that begins an operator.
    Less,
    /// Behind a `>` that begins an operator.
    Greater,
    /// Behind an operator and white space behind it.
    AfterOperator,
    /// In a version.
    InVersion,
    /// In white space behind a version.
    AfterVersion,
    /// Behind a closing parenthesis and white space behind it.
    Closed,
    /// Behind a byte that goes on with no text of the form.
    Dead,
}

pub fn is_white(byte: u8) -> bool
    ensures { result ≡ is_white byte }
{
    matches!(byte, b' ' | b'\t' | b'\n')
}

pub fn is_qualifier_byte(byte: u8) -> bool
    ensures { result ≡ is_qualifier_byte byte }
{
    byte.is_ascii_alphanumeric() || byte == b'-'
}

pub fn is_version_byte(byte: u8) -> bool
    ensures { result ≡ is_version_byte byte }
{
    byte.is_ascii_alphanumeric() || matches!(byte, b'.' | b'+' | b'-' | b':' | b'~')
}

fn before_atom(place: ShapePlace, byte: u8) -> ShapePlace
    ensures { result ≡ Spec.before_atom place byte }
{
    if is_white(byte) {
        place
    } else if byte.is_ascii_alphanumeric() {
        ShapePlace::InName
    } else {
        ShapePlace::Dead
    }
}

fn after_bar(form: RelationForm) -> ShapePlace
    ensures { result ≡ Spec.after_bar form }
{
    match form {
        RelationForm::Clauses => ShapePlace::Alternative,
        RelationForm::Atoms | RelationForm::Provides => ShapePlace::Dead,
    }
}

fn after_atom(form: RelationForm, place: ShapePlace, byte: u8) -> ShapePlace
    ensures { result ≡ Spec.after_atom form place byte }
{
    if is_white(byte) {
        place
    } else if byte == b',' {
        ShapePlace::Between
    } else if byte == b'|' {
        after_bar(form)
    } else {
        ShapePlace::Dead
    }
}

fn after_name(form: RelationForm, byte: u8) -> ShapePlace
    ensures { result ≡ Spec.after_name form byte }
{
    if byte == b'(' {
        ShapePlace::Opened
    } else {
        after_atom(form, ShapePlace::AfterName, byte)
    }
}

fn unless_provides(form: RelationForm, place: ShapePlace) -> ShapePlace
    ensures { result ≡ Spec.unless_provides form place }
{
    match form {
        RelationForm::Clauses | RelationForm::Atoms => place,
        RelationForm::Provides => ShapePlace::Dead,
    }
}

fn before_operator(form: RelationForm, byte: u8) -> ShapePlace
    ensures { result ≡ Spec.before_operator form byte }
{
    if is_white(byte) {
        ShapePlace::Opened
    } else if byte == b'=' {
        ShapePlace::AfterOperator
    } else if byte == b'<' {
        unless_provides(form, ShapePlace::Less)
    } else if byte == b'>' {
        unless_provides(form, ShapePlace::Greater)
    } else {
        ShapePlace::Dead
    }
}

fn before_version(byte: u8) -> ShapePlace
    ensures { result ≡ Spec.before_version byte }
{
    if is_white(byte) {
        ShapePlace::AfterOperator
    } else if is_version_byte(byte) {
        ShapePlace::InVersion
    } else {
        ShapePlace::Dead
    }
}

fn after_version(byte: u8) -> ShapePlace
    ensures { result ≡ Spec.after_version byte }
{
    if is_white(byte) {
        ShapePlace::AfterVersion
    } else if byte == b')' {
        ShapePlace::Closed
    } else {
        ShapePlace::Dead
    }
}

// Where the next byte leads from the places of a name and its qualifier.
fn next_in_name(form: RelationForm, byte: u8) -> ShapePlace
    ensures { result ≡ Spec.next form ShapePlace.InName byte }
{
    if is_name_byte(byte) {
        ShapePlace::InName
    } else if byte == b':' {
        ShapePlace::BeforeQualifier
    } else {
        after_name(form, byte)
    }
}

fn next_in_qualifier(form: RelationForm, byte: u8) -> ShapePlace
    ensures { result ≡ Spec.next form ShapePlace.InQualifier byte }
{
    if is_qualifier_byte(byte) {
        ShapePlace::InQualifier
    } else {
        after_name(form, byte)
    }
}

fn next_between(byte: u8) -> ShapePlace
    ensures { result ≡ Spec.next_between byte }
{
    if byte == b',' {
        ShapePlace::Between
    } else {
        before_atom(ShapePlace::Between, byte)
    }
}

fn next_before_qualifier(byte: u8) -> ShapePlace
    ensures { result ≡ Spec.next_before_qualifier byte }
{
    if byte.is_ascii_alphanumeric() {
        ShapePlace::InQualifier
    } else {
        ShapePlace::Dead
    }
}

// Where the next byte leads behind the first byte of an operator, which `second` may follow.
fn next_in_operator(second: u8, byte: u8) -> ShapePlace
    ensures { result ≡ Spec.next_in_operator second byte }
{
    if byte == second || byte == b'=' {
        ShapePlace::AfterOperator
    } else {
        before_version(byte)
    }
}

fn next_in_version(byte: u8) -> ShapePlace
    ensures { result ≡ Spec.next_in_version byte }
{
    if is_version_byte(byte) {
        ShapePlace::InVersion
    } else {
        after_version(byte)
    }
}

/// Where the next byte leads.
pub fn next(form: RelationForm, place: ShapePlace, byte: u8) -> ShapePlace
    ensures { result ≡ Spec.next form place byte }
{
    match place {
        ShapePlace::Between => next_between(byte),
        ShapePlace::Alternative => before_atom(place, byte),
        ShapePlace::InName => next_in_name(form, byte),
        ShapePlace::AfterName => after_name(form, byte),
        ShapePlace::BeforeQualifier => next_before_qualifier(byte),
        ShapePlace::InQualifier => next_in_qualifier(form, byte),
        ShapePlace::Opened => before_operator(form, byte),
        ShapePlace::Less => next_in_operator(b'<', byte),
        ShapePlace::Greater => next_in_operator(b'>', byte),
        ShapePlace::AfterOperator => before_version(byte),
        ShapePlace::InVersion => next_in_version(byte),
        ShapePlace::AfterVersion => after_version(byte),
        ShapePlace::Closed => after_atom(form, place, byte),
        ShapePlace::Dead => ShapePlace::Dead,
    }
}

/// Whether a value may end here.
pub fn is_end(place: ShapePlace) -> bool
    ensures { result ≡ Tests.is_end place }
{
    matches!(
        place,
        ShapePlace::Between
            | ShapePlace::InName
            | ShapePlace::AfterName
            | ShapePlace::InQualifier
            | ShapePlace::Closed
    )
}

pub fn is_dead(place: ShapePlace) -> bool
    ensures { result ≡ Tests.is_dead place }
{
    matches!(place, ShapePlace::Dead)
}

/// Whether a name or a qualifier could begin here.
pub fn awaits_name(place: ShapePlace) -> bool
    ensures { result ≡ Tests.awaits_name place }
{
    matches!(
        place,
        ShapePlace::Between | ShapePlace::Alternative | ShapePlace::BeforeQualifier
    )
}

/// Nothing that goes on with bytes that lead to the dead place has the shape.
pub fn no_text_goes_on_from_the_dead_place()
    ensures { (form : FormOf) (front more : List ℕ) → place_after form Between front ≡ Dead
        → HasShape form (front ++ more) → ⊥ }
{}

/// Bytes that don't lead to the dead place go on to a whole value.
pub fn every_other_place_has_a_completion()
    ensures { (form : FormOf) (front : List ℕ) → place_after form Between front ≢ Dead
        → (more : List ℕ) × HasShape form (front ++ more) }
{}
