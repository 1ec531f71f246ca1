// Verdicts, and why a request is undecided, as members.
ghost use Rattle.std.specs.Prelude.{◌≡◌, IfOk, OnOk, codes};
ghost use Rattle.serde_json.specs.View.{members_view, view};
ghost use Rattle.json_answers.specs.Objects as Spec;

use crate::members::Members;
use crate::texts::{put_text, text_value};
use rules::{Reason, Rule, Verdict};
use serde_json::{Value, json};
use std::alloc::{AllocError, Global};

/// Puts the verdict on a plan: `answer`, and of a no `place`, `rule`, and `step` or `reason`. Memory alone can fail.
pub fn put_verdict(
    alloc: Global,
    members: &mut Members,
    verdict: &Verdict,
) -> Result<(), AllocError>
    ensures { OnOk result
        (members_view members.new.map.entries
        ≡ Spec.with_verdict verdict.now (members_view members.old.map.entries)) }
{
    match verdict {
        Verdict::Yes => put_text(alloc, members, "answer", "yes"),
        Verdict::Start => put_no(alloc, members, "start", Rule::StartConflict),
        Verdict::Step(number, rule) => {
            put_no(alloc, members, "step", *rule)?;
            members.put(alloc, "step", Value::from(*number))
        }
        Verdict::End(reason) => {
            put_no(alloc, members, "end", Rule::End)?;
            members.put(alloc, "reason", reason_value(alloc, reason)?)
        }
    }
}

/// Puts the verdict on a refutation, of which the line of this number, if there is one, is the first bad one: `answer`, and of a no
/// `line`. Memory alone can fail.
pub fn put_bad_line(
    alloc: Global,
    members: &mut Members,
    line: Option<usize>,
) -> Result<(), AllocError>
    ensures { OnOk result
        (members_view members.new.map.entries
        ≡ Spec.with_bad_line line (members_view members.old.map.entries)) }
{
    match line {
        None => put_text(alloc, members, "answer", "yes"),
        Some(number) => {
            put_text(alloc, members, "answer", "no")?;
            members.put(alloc, "line", Value::from(number))
        }
    }
}

/// Puts that a request is undecided, and the word for why: `answer` and `why`. Memory alone can fail.
pub fn put_undecided(alloc: Global, members: &mut Members, why: &str) -> Result<(), AllocError>
    ensures { OnOk result (members_view members.new.map.entries
        ≡ Spec.with_text (codes "why") why.now
        (Spec.with_text (codes "answer") (codes "undecided")
        (members_view members.old.map.entries))) }
{
    put_text(alloc, members, "answer", "undecided")?;
    put_text(alloc, members, "why", why)
}

// Puts a no with its place and its rule.
fn put_no(alloc: Global, members: &mut Members, place: &str, rule: Rule) -> Result<(), AllocError>
    ensures { OnOk result
        (members_view members.new.map.entries
        ≡ Spec.with_no place.now rule (members_view members.old.map.entries)) }
{
    put_text(alloc, members, "answer", "no")?;
    put_text(alloc, members, "place", place)?;
    members.put(alloc, "rule", rule_value(alloc, rule)?)
}

// The code and the name of a rule as an object.
fn rule_value(alloc: Global, rule: Rule) -> Result<Value, AllocError>
    ensures { IfOk result (λ value. view value ≡ Spec.rule_data rule) }
{
    json!(in alloc; {"code": rule_code(rule), "name": rule_name(rule)})
}

// The code of a rule, as in the printed form.
fn rule_code(rule: Rule) -> &'static str
    ensures { result.now ≡ Spec.rule_code rule }
{
    match rule {
        Rule::StartConflict => "F0",
        Rule::PreDepends => "F1",
        Rule::Conflict => "F2",
        Rule::Breaks => "F3",
        Rule::Depends => "F4",
        Rule::Group => "F5",
        Rule::NeededBy => "F6",
        Rule::Essential => "F7",
        Rule::Held => "F8",
        Rule::WrongState => "F9",
        Rule::NotAdmitted => "F10",
        Rule::End => "F11",
    }
}

// The name of a rule, as in the printed form.
fn rule_name(rule: Rule) -> &'static str
    ensures { result.now ≡ Spec.rule_name rule }
{
    match rule {
        Rule::StartConflict => "StartConflict",
        Rule::PreDepends => "PreDepends",
        Rule::Conflict => "Conflict",
        Rule::Breaks => "Breaks",
        Rule::Depends => "Depends",
        Rule::Group => "Group",
        Rule::NeededBy => "NeededBy",
        Rule::Essential => "Essential",
        Rule::Held => "Held",
        Rule::WrongState => "WrongState",
        Rule::NotAdmitted => "NotAdmitted",
        Rule::End => "End",
    }
}

// A reason against the end as an object.
fn reason_value(alloc: Global, reason: &Reason) -> Result<Value, AllocError>
    ensures { IfOk result (λ value. view value ≡ Spec.reason_data reason.now) }
{
    match reason {
        Reason::Unfinished(name) => named_reason(alloc, "Unfinished", name.as_bytes()),
        Reason::Relation(name) => named_reason(alloc, "Relation", name.as_bytes()),
        Reason::Essential(name) => named_reason(alloc, "Essential", name.as_bytes()),
        Reason::Goal(number) => json!(in alloc; {"kind": "Goal", "goal": *number}),
    }
}

// A reason that names a package.
fn named_reason(alloc: Global, kind: &str, name: &[u8]) -> Result<Value, AllocError>
    ensures { IfOk result (λ value. view value ≡ Spec.named_reason kind.now name.now) }
{
    let name = text_value(alloc, name)?;
    json!(in alloc; {"kind": kind, "name": name})
}
