//! The reply to a question which packages can be installed: a line of JSON.
ghost use Rattle.std.specs.Prelude.{◌≡◌, IfOk, map, string_bytes};
ghost use Rattle.std.specs.Option.{unwrap_or};
ghost use Rattle.cli.specs.Batch.{IsReplyOf, IsReplyWhere, survey_of};
ghost use Rattle.cli.specs.Packages.{IsSaidOfSurvey};
ghost use Rattle.command_line.specs.Asked.{survey_by};
ghost use Rattle.inputs.specs.ReadAs.{AreReadAs};
ghost use Rattle.inputs.specs.Texts.{Texts};
ghost use Rattle.outcomes.specs.Survey as Lines;
ghost use Rattle.serde_json.specs.View.{view};

use crate::packages::question_of;
use crate::reply::{no_texts, reply_of, reply_of_refusal, words_of};
use command_line::{ShardNumber, Survey};
use inputs::Before;
use installable::Surveyed;
use outcomes::{members_of_survey, survey_text};
use serde_json::Value;
use std::alloc::{AllocError, Global};

// The reply of what is answered of packages.
fn reply_of_surveyed(alloc: Global, id: Value, surveyed: &Surveyed) -> Result<Vec<u8>, AllocError>
    ensures { IfOk result (λ reply.
        IsReplyOf (view id) (Lines.survey_text surveyed.now)
        (Lines.AreOfSurvey surveyed.now) reply.items) }
{
    let text = survey_text(alloc, surveyed)?;
    let members = members_of_survey(alloc, surveyed)?;
    reply_of(alloc, id, text.as_slice(), members)
}

// All packages of these names, or all packages where there are none.
fn survey_of<'n>(
    names: Vec<&'n str>,
    all_versions: bool,
    without_essential: bool,
    limit: u32,
) -> Survey<'n>
    ensures { survey_by result
        ≡ survey_of (map
        (λ name. name.now) names.entry.items) all_versions without_essential limit }
{
    Survey {
        names,
        asks_all_versions: all_versions,
        without_essential,
        shard: ShardNumber { number: 1, of: 1 },
        limit,
    }
}

// The reply to what is asked about these packages.
fn reply_to_survey(
    alloc: Global,
    before: &Before<'_, '_, '_, '_, '_, '_, '_, '_>,
    id: Value,
    survey: &Survey<'_>,
) -> Result<Vec<u8>, AllocError>
    ensures { (texts : Texts) → AreReadAs texts before.now
        → IfOk result (λ reply. IsReplyWhere (view id)
        (IsSaidOfSurvey texts (survey_by survey.now))
        Lines.survey_text Lines.AreOfSurvey reply.items) }
{
    let question = question_of(survey, true);
    let mut shelf = no_texts();
    match question.over(alloc, &mut shelf, before) {
        Ok(surveyed) => reply_of_surveyed(alloc, id, &surveyed),
        Err(refusal) => reply_of_refusal(alloc, id, &refusal),
    }
}

/// The reply to packages of these names, of which each is asked about, or to all where there are none. Memory alone can fail. It costs what
/// `installable::Installable` says. Where no limit of its own is asked for, each search has the other one.
pub(crate) fn reply_to_installable(
    alloc: Global,
    before: &Before<'_, '_, '_, '_, '_, '_, '_, '_>,
    id: Value,
    names: &[String],
    all_versions: bool,
    without_essential: bool,
    own_limit: Option<u32>,
    limit: u32,
) -> Result<Vec<u8>, AllocError>
    ensures { (texts : Texts) → AreReadAs texts before.now
        → IfOk result (λ reply. IsReplyWhere (view id)
        (IsSaidOfSurvey texts
        (survey_of (map string_bytes names.now) all_versions without_essential
        (unwrap_or own_limit limit)))
        Lines.survey_text Lines.AreOfSurvey reply.items) }
{
    let words = words_of(alloc, names)?;
    let limit = own_limit.unwrap_or(limit);
    let survey = survey_of(words, all_versions, without_essential, limit);
    reply_to_survey(alloc, before, id, &survey)
}
