// What an object asks, by its kind.
ghost use Rattle.std.specs.Prelude.{◌≡◌, IfErr, IfOk, map};
ghost use Rattle.questions.specs.Asked.{asks_by};
ghost use Rattle.questions.specs.Question as Spec;
ghost use Rattle.questions.specs.Refused.{IsRefusalOf};
ghost use Rattle.serde_json.specs.View.{view};

use crate::member::{
    copy_texts, flag_of, limit_of, names_pairs_by, strings_of, strings_or_none, text_at,
};
use crate::mistake::{Mistake, Refused};
use crate::posed::Ask;
use crate::request::request_in;
use crate::stray::only;
use serde_json::Value;
use std::alloc::Global;

// What an object asks.
pub(crate) fn asks_in(alloc: Global, object: &Value) -> Result<Ask, Refused>
    ensures ok { IfOk result (λ ask. Spec.asks_in (view object.now) ≡ Some (asks_by ask)) }
    ensures err { IfErr result (IsRefusalOf (Spec.asks_in (view object.now))) }
{
    match text_at(object, "ask") {
        Some(kind) => asked_as(alloc, kind, object),
        None => Err(Refused::Mistake(no_ask(object))),
    }
}

// Why a value doesn't say what it asks.
fn no_ask(value: &Value) -> Mistake {
    if value.is_object() {
        Mistake::NoAsk
    } else {
        Mistake::NoObject
    }
}

// What the kind with this name asks.
fn asked_as(alloc: Global, kind: &str, object: &Value) -> Result<Ask, Refused>
    ensures ok { IfOk result
        (λ ask. Spec.asked_as kind.now (view object.now) ≡ Some (asks_by ask)) }
    ensures err { IfErr result (IsRefusalOf (Spec.asked_as kind.now (view object.now))) }
{
    if kind == "solve" {
        return solve_asked(alloc, object);
    }
    if kind == "check-plan" {
        return check_plan_asked(alloc, object);
    }
    if kind == "check-refutation" {
        return check_refutation_asked(alloc, object);
    }
    if kind == "candidate" {
        return candidate_asked(alloc, object);
    }
    if kind == "installable" {
        return installable_asked(alloc, object);
    }
    Err(Refused::Mistake(Mistake::NoAsk))
}

// A plan or a refutation, or as much as can be.
fn solve_asked(alloc: Global, object: &Value) -> Result<Ask, Refused>
    ensures ok { IfOk result (λ ask. Spec.solve_asked (view object.now) ≡ Some (asks_by ask)) }
    ensures err { IfErr result (IsRefusalOf (Spec.solve_asked (view object.now))) }
{
    match flag_of(object.get("keep_back")) {
        None => Err(Refused::Mistake(Mistake::NoFlag("keep_back"))),
        Some(true) => keep_back_asked(alloc, object),
        Some(false) => plan_asked(alloc, object),
    }
}

// A plan or a refutation.
fn plan_asked(alloc: Global, object: &Value) -> Result<Ask, Refused>
    ensures ok { IfOk result (λ ask. Spec.plan_asked (view object.now) ≡ Some (asks_by ask)) }
    ensures err { IfErr result (IsRefusalOf (Spec.plan_asked (view object.now))) }
{
    only(
        alloc,
        object,
        &[
            "id",
            "ask",
            "goals",
            "all_versions",
            "keep_back",
            "limit",
            "refutation_format",
        ],
    )?;
    let request = request_in(alloc, object)?;
    let Some(limit) = limit_of(object.get("limit")) else {
        return Err(Refused::Mistake(Mistake::NoLimit));
    };
    let Some(names_pairs) = names_pairs_by(object.get("refutation_format")) else {
        return Err(Refused::Mistake(Mistake::NoFormat));
    };
    Ok(Ask::Solve {
        request,
        limit,
        names_pairs,
    })
}

// As much as can be.
fn keep_back_asked(alloc: Global, object: &Value) -> Result<Ask, Refused>
    ensures ok { IfOk result (λ ask. Spec.keep_back_asked (view object.now) ≡ Some (asks_by ask)) }
    ensures err { IfErr result (IsRefusalOf (Spec.keep_back_asked (view object.now))) }
{
    only(
        alloc,
        object,
        &["id", "ask", "goals", "all_versions", "keep_back", "limit"],
    )?;
    let request = request_in(alloc, object)?;
    let Some(limit) = limit_of(object.get("limit")) else {
        return Err(Refused::Mistake(Mistake::NoLimit));
    };
    Ok(Ask::KeepBack { request, limit })
}

// The verdict on a plan.
fn check_plan_asked(alloc: Global, object: &Value) -> Result<Ask, Refused>
    ensures ok { IfOk result (λ ask. Spec.check_plan_asked (view object.now) ≡ Some (asks_by ask)) }
    ensures err { IfErr result (IsRefusalOf (Spec.check_plan_asked (view object.now))) }
{
    only(
        alloc,
        object,
        &["id", "ask", "goals", "all_versions", "plan"],
    )?;
    let request = request_in(alloc, object)?;
    let Some(plan) = text_at(object, "plan") else {
        return Err(Refused::Mistake(Mistake::NoString("plan")));
    };
    let plan = plan.as_bytes().to_vec(alloc)?;
    Ok(Ask::CheckPlan { request, plan })
}

// The verdict on a refutation.
fn check_refutation_asked(alloc: Global, object: &Value) -> Result<Ask, Refused>
    ensures ok { IfOk result
        (λ ask. Spec.check_refutation_asked (view object.now) ≡ Some (asks_by ask)) }
    ensures err { IfErr result (IsRefusalOf (Spec.check_refutation_asked (view object.now))) }
{
    only(
        alloc,
        object,
        &["id", "ask", "goals", "all_versions", "refutation"],
    )?;
    let request = request_in(alloc, object)?;
    let Some(refutation) = text_at(object, "refutation") else {
        return Err(Refused::Mistake(Mistake::NoString("refutation")));
    };
    let refutation = refutation.as_bytes().to_vec(alloc)?;
    Ok(Ask::CheckRefutation {
        request,
        refutation,
    })
}

// The candidates of names.
fn candidate_asked(alloc: Global, object: &Value) -> Result<Ask, Refused>
    ensures ok { IfOk result (λ ask. Spec.candidate_asked (view object.now) ≡ Some (asks_by ask)) }
    ensures err { IfErr result (IsRefusalOf (Spec.candidate_asked (view object.now))) }
{
    only(alloc, object, &["id", "ask", "names"])?;
    let Some(value) = object.get("names") else {
        return Err(Refused::Mistake(Mistake::NoStrings("names")));
    };
    let Some(names) = strings_of(alloc, value)? else {
        return Err(Refused::Mistake(Mistake::NoStrings("names")));
    };
    candidate_of(alloc, names.as_slice())
}

// The candidates of these names, of which there is at least one.
fn candidate_of(alloc: Global, names: &[&str]) -> Result<Ask, Refused>
    ensures ok { IfOk result
        (λ ask. Spec.candidate_of (map (λ name. name.now) names.now) ≡ Some (asks_by ask)) }
    ensures err { IfErr result
        (IsRefusalOf (Spec.candidate_of (map (λ name. name.now) names.now))) }
{
    if names.is_empty() {
        return Err(Refused::Mistake(Mistake::NoName));
    }
    Ok(Ask::Candidate {
        names: copy_texts(alloc, names)?,
    })
}

// Which packages can be installed.
fn installable_asked(alloc: Global, object: &Value) -> Result<Ask, Refused>
    ensures ok { IfOk result
        (λ ask. Spec.installable_asked (view object.now) ≡ Some (asks_by ask)) }
    ensures err { IfErr result (IsRefusalOf (Spec.installable_asked (view object.now))) }
{
    only(
        alloc,
        object,
        &[
            "id",
            "ask",
            "names",
            "all_versions",
            "without_essential",
            "limit",
        ],
    )?;
    let Some(names) = strings_or_none(alloc, object.get("names"))? else {
        return Err(Refused::Mistake(Mistake::NoStrings("names")));
    };
    let Some(all_versions) = flag_of(object.get("all_versions")) else {
        return Err(Refused::Mistake(Mistake::NoFlag("all_versions")));
    };
    let Some(without_essential) = flag_of(object.get("without_essential")) else {
        return Err(Refused::Mistake(Mistake::NoFlag("without_essential")));
    };
    let Some(limit) = limit_of(object.get("limit")) else {
        return Err(Refused::Mistake(Mistake::NoLimit));
    };
    Ok(Ask::Installable {
        names: copy_texts(alloc, names.as_slice())?,
        all_versions,
        without_essential,
        limit,
    })
}
