//! What a document has of the candidates of names beside its text, where one is asked for.
ghost use Rattle.std.specs.Prelude.{◌≡◌, IfOk, OnOk, is_some, map};
ghost use Rattle.std.specs.List.{list_all};
ghost use Rattle.std.specs.Option.{option_copied};
ghost use Rattle.cli.specs.Members as Spec;
ghost use Rattle.cli.specs.Members.{AreMembersIn};
ghost use Rattle.serde_json.specs.View.{members_view, view};

use crate::members::put_told;
use cli_engine::CandidateAnswer;
use command_line::Format;
use json_answers::{Members, candidate_value, no_candidate_value, push_value, put_text};
use rules::Items;
use serde_json::Value;
use std::alloc::{AllocError, Global};

/// The members of the answer about names, where it is written as a document: the sentences, their candidates, and whether each has one.
/// Memory alone can fail.
pub(crate) fn members_of_names(
    alloc: Global,
    format: Format,
    names: &[&str],
    candidates: &[Option<CandidateAnswer>],
    sentences: &[u8],
) -> Result<Members, AllocError>
    ensures { IfOk result (λ members. AreMembersIn format
        (Spec.AreOfCandidates (map (λ name. name.now) names.now) candidates.now)
        (members_view members.map.entries)) }
{
    match format {
        Format::Text => Ok(Members::new(alloc)),
        Format::Json => names_members(alloc, names, candidates, sentences),
    }
}

// Nothing but hints is told of candidates.
fn no_reasons(alloc: Global) -> Option<Items<u8>> {
    Some(Items::new(Vec::new(alloc)))
}

// Those of a document.
fn names_members(
    alloc: Global,
    names: &[&str],
    candidates: &[Option<CandidateAnswer>],
    sentences: &[u8],
) -> Result<Members, AllocError>
    ensures { IfOk result (λ members. Spec.AreOfCandidates
        (map (λ name. name.now) names.now) candidates.now (members_view members.map.entries)) }
{
    let mut members = Members::new(alloc);
    put_told(alloc, &mut members, &no_reasons(alloc), sentences)?;
    put_candidates(alloc, names, candidates, &mut members)?;
    Ok(members)
}

// Puts the candidates of names, each in the place of its name, and whether each has one.
fn put_candidates(
    alloc: Global,
    names: &[&str],
    candidates: &[Option<CandidateAnswer>],
    members: &mut Members,
) -> Result<(), AllocError>
    ensures { OnOk result (members_view members.new.map.entries
        ≡ Spec.with_candidates (map (λ name. name.now) names.now) candidates.now
        (members_view members.old.map.entries)) }
{
    let values = name_values(alloc, names, candidates)?;
    members.put(alloc, "candidates", Value::from(values))?;
    put_text(
        alloc,
        members,
        "answer",
        yes_or_no(are_all_there(candidates)),
    )
}

// The objects of names, each with the candidate in its place.
fn name_values(
    alloc: Global,
    names: &[&str],
    candidates: &[Option<CandidateAnswer>],
) -> Result<Vec<Value>, AllocError>
    ensures { IfOk result (λ values.
        map view values.items ≡ Spec.names_data (map (λ name. name.now) names.now) candidates.now) }
{
    let mut values = Vec::new(alloc);
    let mut rest = candidates;
    for name in names {
        let Some((candidate, behind)) = rest.split_first() else {
            return Ok(values);
        };
        let value = name_value(alloc, name.as_bytes(), candidate.as_ref())?;
        push_value(&mut values, value)?;
        rest = behind;
    }
    Ok(values)
}

// The object of a name, with its candidate, if it has one.
fn name_value(
    alloc: Global,
    name: &[u8],
    candidate: Option<&CandidateAnswer>,
) -> Result<Value, AllocError>
    ensures { IfOk result (λ value.
        view value ≡ Spec.name_data name.now (option_copied candidate.entry)) }
{
    match candidate {
        None => no_candidate_value(alloc, name),
        Some(candidate) => {
            candidate_value(alloc, name, candidate.version(), candidate.priority())
        }
    }
}

// Whether each name has a candidate.
fn are_all_there(candidates: &[Option<CandidateAnswer>]) -> bool
    ensures { result ≡ list_all is_some candidates.now }
{
    candidates.iter().all(|candidate| candidate.is_some())
}

fn yes_or_no(answer: bool) -> &'static str
    ensures { result.now ≡ Spec.yes_or_no answer }
{
    if answer { "yes" } else { "no" }
}
