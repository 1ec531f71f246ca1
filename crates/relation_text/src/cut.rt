//! The parts of a value, and the parts of an atom's text, found from its front.
ghost use Rattle.std.specs.Prelude.{◌≡◌, ◌≤◌, ◌∷◌, ◌+◌, Bool, List, length, not, IfSome, MatchOption, None};
ghost use Rattle.std.specs.List.{prefix_len, list_all, take_while, position};
ghost use Rattle.std.specs.Option.{option_copied, is_some};
ghost use Rattle.rules.specs.VersionFault.{first_fault};
ghost use Rattle.relation_text.specs.Bytes.{is_white, is_operator_byte, is_qualifier_byte, is_version_byte};
ghost use Rattle.relation_text.specs.Cut.{CutsPart};
ghost use Rattle.relation_text.specs.Spelling as Spec;
ghost use Rattle.relation_text.specs.Spelling.{after_run, separates};
ghost use Rattle.rules.specs.Name.{is_name_byte};
ghost use Rattle.std.specs.Str.{bytes_eq};

use crate::shape::{is_qualifier_byte, is_version_byte, is_white};
use debversion::Version;
use rules::{Op, is_name_byte};

/// The bytes that part a value.
#[derive(Clone, Copy, PartialEq, Eq)]
pub enum Separator {
    /// `,`
    Comma,
    /// `|`
    Bar,
    /// Both of these.
    CommaOrBar,
}

fn separates(separator: Separator, byte: u8) -> bool
    ensures { result ≡ separates separator byte }
{
    match separator {
        Separator::Comma => byte == b',',
        Separator::Bar => byte == b'|',
        Separator::CommaOrBar => byte == b',' || byte == b'|',
    }
}

fn first_separator(separator: Separator, text: &[u8]) -> Option<usize>
    ensures { result ≡ position (separates separator) text.now }
{
    text.iter().position(|byte| separates(separator, *byte))
}

/// The text up to its first separator, and what follows the separator, if there is one.
pub fn cut_part(separator: Separator, text: &[u8]) -> (&[u8], Option<&[u8]>)
    ensures { CutsPart separator text.now result.0.now result.1 }
{
    match first_separator(separator, text) {
        None => (text, None),
        Some(at) => (text.split_at(at).0, Some(text.split_at(at + 1).1)),
    }
}

fn is_operator_byte(byte: u8) -> bool
    ensures { result ≡ is_operator_byte byte }
{
    matches!(byte, b'<' | b'=' | b'>')
}

fn white_len(text: &[u8]) -> usize
    ensures value { result ≡ prefix_len is_white text.now }
    ensures within { result ≤ length text.now }
{
    text.iter().take_while(|byte| is_white(**byte)).count()
}

/// How many bytes of the front are bytes of a name.
pub fn name_len(text: &[u8]) -> usize
    ensures value { result ≡ prefix_len is_name_byte text.now }
    ensures within { result ≤ length text.now }
{
    text.iter().take_while(|byte| is_name_byte(**byte)).count()
}

fn qualifier_len(text: &[u8]) -> usize
    ensures value { result ≡ prefix_len is_qualifier_byte text.now }
    ensures within { result ≤ length text.now }
{
    text.iter()
        .take_while(|byte| is_qualifier_byte(**byte))
        .count()
}

fn operator_len(text: &[u8]) -> usize
    ensures value { result ≡ prefix_len is_operator_byte text.now }
    ensures within { result ≤ length text.now }
{
    text.iter()
        .take_while(|byte| is_operator_byte(**byte))
        .count()
}

fn version_len(text: &[u8]) -> usize
    ensures value { result ≡ prefix_len is_version_byte text.now }
    ensures within { result ≤ length text.now }
{
    text.iter()
        .take_while(|byte| is_version_byte(**byte))
        .count()
}

/// Whether the text is white space alone: between commas such a part is no atom.
pub fn is_blank(text: &[u8]) -> bool
    ensures { result ≡ Spec.is_blank text.now }
{
    text.iter().all(|byte| is_white(*byte))
}

/// What follows the white space at the front.
pub fn after_white(text: &[u8]) -> &[u8]
    ensures value { result.now ≡ after_run is_white text.now }
    ensures within { length result.now ≤ length text.now }
{
    text.split_at(white_len(text)).1
}

/// The name of an atom, and what follows it.
pub fn split_name(text: &[u8]) -> (&[u8], &[u8])
    ensures name { result.0.now ≡ Spec.name_of text.now }
    ensures rest { result.1.now ≡ Spec.after_name text.now }
    ensures within { length result.1.now ≤ length text.now }
{
    let text = after_white(text);
    text.split_at(name_len(text))
}

/// The qualifier at the front, and what follows it.
pub fn split_qualifier(text: &[u8]) -> (Option<&[u8]>, &[u8])
    ensures qualifier { option_copied result.0 ≡ Spec.qualifier_at text.now }
    ensures rest { result.1.now ≡ Spec.after_qualifier text.now }
    ensures within { length result.1.now ≤ length text.now }
{
    match text {
        [b':', rest @ ..] => {
            let (qualifier, rest) = rest.split_at(qualifier_len(rest));
            (Some(qualifier), rest)
        }
        _ => (None, text),
    }
}

/// What the parenthesis at the front encloses, and all that follows.
pub fn opened_at(text: &[u8]) -> Option<&[u8]>
    ensures value { option_copied result ≡ Spec.opened_at text.now }
    ensures within { IfSome result (λ inside. length inside.now ≤ length text.now) }
{
    match text {
        [b'(', rest @ ..] => Some(after_white(rest)),
        _ => None,
    }
}

/// The restriction of an atom, from its operator on.
pub fn inside_of(text: &[u8]) -> Option<&[u8]>
    ensures value { option_copied result ≡ Spec.inside_of text.now }
    ensures within { IfSome result (λ inside. length inside.now ≤ length text.now) }
{
    let (_, rest) = split_name(text);
    let (_, rest) = split_qualifier(rest);
    opened_at(after_white(rest))
}

/// The operator of these bytes.
pub fn op_of(bytes: &[u8]) -> Op
    ensures { result ≡ Spec.op_of bytes.now }
{
    match bytes {
        [b'<', b'<', ..] => Op::StrictlyEarlier,
        [b'<', ..] => Op::EarlierOrEqual,
        [b'>', b'>', ..] => Op::StrictlyLater,
        [b'>', ..] => Op::LaterOrEqual,
        _ => Op::ExactlyEqual,
    }
}

/// A restriction as its operator and what follows that and white space.
pub fn split_operator(inside: &[u8]) -> (Op, &[u8])
    ensures op { result.0 ≡ Spec.op_of (take_while is_operator_byte inside.now) }
    ensures rest { result.1.now ≡ Spec.from_version inside.now }
    ensures within { length result.1.now ≤ length inside.now }
{
    let (operator, rest) = inside.split_at(operator_len(inside));
    (op_of(operator), after_white(rest))
}

/// The version at the front of what follows an operator.
pub fn version_front(text: &[u8]) -> &[u8]
    ensures { result.now ≡ take_while is_version_byte text.now }
{
    text.split_at(version_len(text)).0
}

fn same_text(text: &[u8], other: &[u8]) -> bool
    ensures { result ≡ bytes_eq text.now other.now }
{
    text == other
}

/// Whether the qualifier is of another architecture than the configured one.
pub fn is_foreign(arch: &[u8], qualifier: Option<&[u8]>) -> bool
    ensures { result ≡ Spec.is_foreign arch.now (option_copied qualifier.entry) }
{
    match qualifier {
        None => false,
        Some(qualifier) => {
            !(same_text(qualifier, b"any")
                || same_text(qualifier, b"native")
                || same_text(qualifier, arch))
        }
    }
}

/// Whether the bytes are a version.
pub fn is_version(bytes: &[u8]) -> bool
    ensures { is_some (first_fault bytes.now) ≡ not result }
{
    Version::parse(bytes).is_ok()
}
