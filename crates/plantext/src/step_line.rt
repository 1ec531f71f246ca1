// The step in a line, which is its action and the words that it is about.

ghost use Rattle.std.specs.Prelude.{◌≡◌, IfOk, IfSome, None};
ghost use Rattle.std.specs.Option.{is_none, option_copied, option_map};
ghost use Rattle.std.specs.Str.{bytes_eq};
ghost use Rattle.rules.specs.VersionFault.{first_fault};
ghost use Rattle.plantext.specs.Cut.{parts_left};
ghost use Rattle.plantext.specs.StepLine as Spec;
ghost use Rattle.plantext.specs.StepLine.{configure_of, only_version, step_by, step_of, unpack_of};
ghost use Rattle.plantext.specs.declared.cut.TheConstants.{SPACE};

use crate::cut::{SPACE, cut_part};
use crate::group::{is_group, names_of};
use crate::word::{name_in, only_name, only_word};
use debversion::Version;
use rules::{Name, Step, VersionText};
use std::alloc::{AllocError, Global};

fn version_in(word: &[u8]) -> Option<&[u8]>
    ensures version { option_copied result ≡ Spec.version_in word.now }
    ensures valid { IfSome result (λ version. first_fault version.now ≡ None) }
{
    match Version::parse(word) {
        Ok(_) => Some(word),
        Err(_) => None,
    }
}

// The version that is all that is left.
fn only_version(alloc: Global, words: Option<&[u8]>) -> Result<Option<VersionText>, AllocError>
    ensures { IfOk result (λ version. version ≡ only_version (parts_left SPACE words.entry)) }
{
    let Some(word) = only_word(words) else {
        return Ok(None);
    };
    match version_in(word) {
        None => Ok(None),
        Some(version) => Ok(Some(VersionText::copied_from(alloc, version)?)),
    }
}

// The unpacking of the name and the version that are left.
fn unpack_of(alloc: Global, words: Option<&[u8]>) -> Result<Option<Step>, AllocError>
    ensures { IfOk result (λ step. step ≡ unpack_of (parts_left SPACE words.entry)) }
{
    let Some(rest) = words else {
        return Ok(None);
    };
    let (word, after) = cut_part(SPACE, rest);
    let Some(name) = name_in(word) else {
        return Ok(None);
    };
    match only_version(alloc, after)? {
        None => Ok(None),
        Some(version) => Ok(Some(Step::Unpack(Name::copied_from(alloc, name)?, version))),
    }
}

// The configuring of the group that is left.
fn configure_of(alloc: Global, words: Option<&[u8]>) -> Result<Option<Step>, AllocError>
    ensures { IfOk result (λ step. step ≡ configure_of (parts_left SPACE words.entry)) }
{
    if is_group(words) {
        Ok(Some(Step::Configure(names_of(alloc, words)?)))
    } else {
        Ok(None)
    }
}

fn same_text(text: &[u8], other: &[u8]) -> bool
    ensures { result ≡ bytes_eq text.now other.now }
{
    text == other
}

// The step of an action that is about the words that are left.
fn step_by(alloc: Global, action: &[u8], words: Option<&[u8]>) -> Result<Option<Step>, AllocError>
    ensures { IfOk result (λ step. step ≡ step_by action.now (parts_left SPACE words.entry)) }
{
    if same_text(action, b"unpack") {
        unpack_of(alloc, words)
    } else if same_text(action, b"deconfigure") {
        Ok(only_name(alloc, words)?.map(|name| Step::Deconfigure(name)))
    } else if same_text(action, b"configure") {
        configure_of(alloc, words)
    } else if same_text(action, b"remove") {
        Ok(only_name(alloc, words)?.map(|name| Step::Remove(name)))
    } else if same_text(action, b"purge") {
        Ok(only_name(alloc, words)?.map(|name| Step::Purge(name)))
    } else {
        Ok(None)
    }
}

/// The step in a line without its newline, if it has one. Linear in the line.
#[tactic(auto, unfolding(crate::specs::StepLine::step_of))]
pub fn step_of(alloc: Global, line: &[u8]) -> Result<Option<Step>, AllocError>
    ensures { IfOk result (λ step. step ≡ step_of line.now) }
{
    let (action, words) = cut_part(SPACE, line);
    step_by(alloc, action, words)
}
