//! The candidates of names, found by the files of a host.
ghost use Rattle.std.specs.Prelude.{◌≡◌, IfOk, Some, map};
ghost use Rattle.cli.specs.Calls.{IsOutcomeOfNames, texts_at};
ghost use Rattle.cli.specs.Files.{Files};
ghost use Rattle.cli.specs.Members.{AreMembersOf, AreOfCandidates};
ghost use Rattle.serde_json.specs.View.{members_view};

use crate::arguments::Arguments;
use crate::asking::{context_if, show, unless_refused, want};
use crate::candidate_members::members_of_names;
use crate::files::{HostShelf, Openings, ask_files};
use crate::host::Host;
use crate::told::tell_refusal;
use cli_engine::{CandidateAnswer, FindCandidates, Notes, Refusal};
use command_line::Format;
use json_answers::Members;
use outcomes::{Outcome, outcome_in, outcome_of_candidates};
use rules::Items;
use std::alloc::{AllocError, Global};

// What a document has of the candidates.
fn members_of(
    alloc: Global,
    format: Format,
    names: &[&str],
    answer: &Result<Items<Option<CandidateAnswer>>, Refusal>,
    sentences: &[u8],
) -> Result<Members, AllocError>
    ensures { IfOk result (λ members. AreMembersOf
        (AreOfCandidates (map (λ name. name.now) names.now)) format answer.now
        (members_view members.map.entries)) }
{
    match answer {
        Ok(candidates) => {
            members_of_names(alloc, format, names, candidates.as_slice(), sentences)
        }
        Err(_) => Ok(Members::new(alloc)),
    }
}

/// What is printed of the candidates of these names. Memory alone can fail.
pub(crate) fn outcome_of_names<H: Host>(
    alloc: Global,
    host: &mut H,
    arguments: &Arguments<'_>,
    names: &[&str],
    notes: &mut Notes,
) -> Result<Outcome, AllocError>
    ensures printed { (at : Files) → H.files host.old ≡ Some at → IfOk result (λ outcome.
        IsOutcomeOfNames (texts_at at arguments.now)
        (map (λ name. name.now) names.now) arguments.now.format outcome) }
    ensures same { H.files host.new ≡ H.files host.old }
    ensures keeps { H.kept host.new ≡ H.kept host.old }
{
    want(arguments, notes);
    let Arguments {
        settings,
        explains,
        format,
        ..
    } = *arguments;
    let mut context = context_if(alloc, explains);
    let mut shelf = HostShelf {
        host,
        paths: &arguments.paths,
        context: &mut context,
        openings: Openings::none(),
    };
    let question = FindCandidates {
        names,
        tells_versions: explains,
    };
    let answer = ask_files(alloc, &mut shelf, &settings, &question, notes);
    unless_refused(tell_refusal(alloc, &answer, &shelf, notes), notes);
    let members = members_of(alloc, format, names, &answer, notes.text.as_slice())?;
    show(explains, notes);
    let plain = outcome_of_candidates(alloc, names, &answer)?;
    outcome_in(alloc, format, plain, members)
}
