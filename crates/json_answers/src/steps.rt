// The steps of a plan as objects.
ghost use Rattle.std.specs.Prelude.{◌≡◌, IfOk, OnOk, map};
ghost use Rattle.std.specs.Option.{option_copied};
ghost use Rattle.serde_json.specs.View.{members_view, view};
ghost use Rattle.json_answers.specs.Document.{text_data};
ghost use Rattle.json_answers.specs.Steps as Spec;

use crate::archives::{Archive, Archives};
use crate::members::Members;
use crate::texts::{text_or_null, text_value};
use crate::values::push_value;
use rules::{Name, Step, Text, VersionText};
use serde_json::{Value, json};
use std::alloc::{AllocError, Global};

/// Puts the steps, each an object, as `steps`, with what was found of the archives that they unpack, and how many there are of each
/// action as `counts`. Memory alone can fail. Linear in the steps.
pub fn put_steps(
    alloc: Global,
    members: &mut Members,
    archives: &Archives<'_>,
) -> Result<(), AllocError>
    ensures { OnOk result (members_view members.new.map.entries
        ≡ Spec.with_steps archives.now.steps archives.now.archives
        (members_view members.old.map.entries)) }
{
    let steps = archives.steps();
    let values = step_values(alloc, steps, archives.as_slice())?;
    members.put(alloc, "steps", Value::from(values))?;
    members.put(alloc, "counts", counts_of_steps(alloc, steps)?)
}

// The objects of the steps, each with what was found of its archive.
fn step_values(
    alloc: Global,
    steps: &[Step],
    archives: &[Option<Archive>],
) -> Result<Vec<Value>, AllocError>
    ensures { IfOk result
        (λ values. map view values.items ≡ Spec.steps_data steps.now archives.now) }
{
    let mut values = Vec::new(alloc);
    let mut rest = archives;
    for step in steps {
        let Some((archive, behind)) = rest.split_first() else {
            return Ok(values);
        };
        let value = step_value(alloc, step, archive)?;
        push_value(&mut values, value)?;
        rest = behind;
    }
    Ok(values)
}

// The word for what a step does.
fn action_of(step: &Step) -> &'static str
    ensures { result.now ≡ Spec.action_of step.now }
{
    match step {
        Step::Unpack(_, _) => "unpack",
        Step::Deconfigure(_) => "deconfigure",
        Step::Configure(_) => "configure",
        Step::Remove(_) => "remove",
        Step::Purge(_) => "purge",
    }
}

// The object of a step, with what was found of the archive that it unpacks.
fn step_value(alloc: Global, step: &Step, archive: &Option<Archive>) -> Result<Value, AllocError>
    ensures { IfOk result (λ value. view value ≡ Spec.step_data step.now archive.now) }
{
    match step {
        Step::Unpack(name, version) => unpack_value(alloc, name, version, archive),
        Step::Deconfigure(name) => named_value(alloc, "deconfigure", name),
        Step::Configure(names) => configure_value(alloc, names.as_slice()),
        Step::Remove(name) => named_value(alloc, "remove", name),
        Step::Purge(name) => named_value(alloc, "purge", name),
    }
}

// The object of a step on the package of this name.
fn named_value(alloc: Global, action: &str, name: &Name) -> Result<Value, AllocError>
    ensures { IfOk result (λ value. view value ≡ Spec.named_data action.now name.now) }
{
    let name = text_value(alloc, name.as_bytes())?;
    json!(in alloc; {"action": action, "name": name})
}

// The names as strings.
fn name_values(alloc: Global, names: &[Name]) -> Result<Vec<Value>, AllocError>
    ensures { IfOk result (λ values. map view values.items ≡ map text_data names.now) }
{
    let mut values = Vec::new(alloc);
    for name in names {
        push_value(&mut values, text_value(alloc, name.as_bytes())?)?;
    }
    Ok(values)
}

// The object of a step that configures the packages of these names.
fn configure_value(alloc: Global, names: &[Name]) -> Result<Value, AllocError>
    ensures { IfOk result (λ value. view value ≡ Spec.configure_data names.now) }
{
    let names = Value::from(name_values(alloc, names)?);
    json!(in alloc; {"action": "configure", "names": names})
}

// The object of a step that unpacks this version of the package, with what was found of its archive.
fn unpack_value(
    alloc: Global,
    name: &Name,
    version: &VersionText,
    archive: &Option<Archive>,
) -> Result<Value, AllocError>
    ensures { IfOk result (λ value. view value
        ≡ Spec.unpack_with name.now version.now archive.now) }
{
    match archive {
        None => unpack_of(alloc, name, version, None, None, None),
        Some(archive) => unpack_of(
            alloc,
            name,
            version,
            bytes_of(&archive.filename),
            archive.size,
            bytes_of(&archive.sha256),
        ),
    }
}

// The same with these fields of its stanza.
fn unpack_of(
    alloc: Global,
    name: &Name,
    version: &VersionText,
    filename: Option<&[u8]>,
    size: Option<u64>,
    sha256: Option<&[u8]>,
) -> Result<Value, AllocError>
    ensures { IfOk result (λ value. view value ≡ Spec.unpack_data name.now version.now
        (option_copied filename.entry) size (option_copied sha256.entry)) }
{
    let name = text_value(alloc, name.as_bytes())?;
    let version = text_value(alloc, version.as_bytes())?;
    let filename = text_or_null(alloc, filename)?;
    let size = number_or_null(size);
    let sha256 = text_or_null(alloc, sha256)?;
    json!(in alloc; {
        "action": "unpack", "name": name, "version": version,
        "filename": filename, "size": size, "sha256": sha256
    })
}

// The number, or `null` where there is none.
fn number_or_null(number: Option<u64>) -> Value
    ensures { view result ≡ Spec.number_or_null number }
{
    match number {
        None => Value::Null,
        Some(number) => Value::from(number),
    }
}

// The bytes of the text, if there is one.
fn bytes_of(text: &Option<Text>) -> Option<&[u8]>
    ensures { option_copied result ≡ text.now }
{
    match text {
        None => None,
        Some(text) => Some(text.as_bytes()),
    }
}

// How many of the steps do this.
fn count_of(steps: &[Step], action: &str) -> usize
    ensures { result ≡ Spec.count_of action.now steps.now }
{
    steps
        .iter()
        .filter(|step| action_of(step) == action)
        .count()
}

// How many steps of each action there are, as an object.
fn counts_of_steps(alloc: Global, steps: &[Step]) -> Result<Value, AllocError>
    ensures { IfOk result (λ value. view value ≡ Spec.counts_data steps.now) }
{
    json!(in alloc; {
        "unpack": count_of(steps, "unpack"), "deconfigure": count_of(steps, "deconfigure"),
        "configure": count_of(steps, "configure"), "remove": count_of(steps, "remove"),
        "purge": count_of(steps, "purge")
    })
}
