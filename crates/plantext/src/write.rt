// The text of a plan and of one step: each step is the line that it is read from.

ghost use Rattle.std.specs.Prelude.{◌≡◌, ◌∷◌, ◌++◌, [], true, IfOk, OnOk};
ghost use Rattle.std.specs.List.{flat_map, join_with_byte, list_all};
ghost use Rattle.rules.specs.Name.{is_name};
ghost use Rattle.plantext.specs.Plan.{end_line, header, header_2, plan_text, plan_text_2, IsReadAsPlan, IsReadAsStep};
ghost use Rattle.rules.specs.declared.step.Step.TheVariants.{Configure};
ghost use Rattle.plantext.specs.Group.{is_group};
ghost use Rattle.plantext.specs.StepLine.{is_spelled, step_line, words_of};
ghost use Rattle.plantext.specs.declared.cut.TheConstants.{NEWLINE, SPACE};

use crate::cut::{NEWLINE, SPACE};
use itoa::Buffer;
use rules::{Name, Names, Step};
use std::alloc::{AllocError, Global};

// Writes a space and the word behind the text.
fn push_word(text: &mut Vec<u8>, word: &[u8]) -> Result<(), AllocError>
    ensures { OnOk result (text.new.items ≡ text.old.items ++ SPACE ∷ word.now) }
{
    text.push(SPACE)?;
    text.extend_from_slice(word)
}

// Writes each of the names behind the text, a space before it.
fn push_names(text: &mut Vec<u8>, names: &[Name]) -> Result<(), AllocError>
    ensures written { OnOk result
        (text.new.items ≡ text.old.items ++ flat_map (λ name. SPACE ∷ name) names.now) }
    ensures valid { OnOk result (list_all is_name names.now ≡ true) }
{
    for name in names {
        push_word(text, name.as_bytes())?;
    }
    Ok(())
}

// Writes an action and the name that it is about behind the text.
fn push_named(text: &mut Vec<u8>, action: &[u8], name: &Name) -> Result<(), AllocError>
    ensures written { OnOk result
        (text.new.items ≡ text.old.items ++ join_with_byte SPACE (action.now ∷ name.now ∷ [])) }
    ensures valid { OnOk result (is_name name.now ≡ true) }
{
    text.extend_from_slice(action)?;
    push_word(text, name.as_bytes())
}

// Writes the configuring of a group behind the text.
#[tactic(auto, using(crate::proofs::GroupLemmas::ascending_group))]
fn push_group(text: &mut Vec<u8>, group: &Names) -> Result<(), AllocError>
    ensures written { OnOk result
        (text.new.items ≡ text.old.items ++ join_with_byte SPACE (words_of (Configure group.now))) }
    ensures valid { OnOk result (is_group group.now ≡ true) }
{
    text.extend_from_slice(b"configure")?;
    push_names(text, group.as_slice())?;
    Ok(())
}

// Writes the words of a step behind the text.
fn push_words(text: &mut Vec<u8>, step: &Step) -> Result<(), AllocError>
    ensures written { OnOk result
        (text.new.items ≡ text.old.items ++ join_with_byte SPACE (words_of step.now)) }
    ensures valid { OnOk result (is_spelled step.now ≡ true) }
{
    match step {
        Step::Unpack(name, version) => {
            push_named(text, b"unpack", name)?;
            push_word(text, version.as_bytes())
        }
        Step::Deconfigure(name) => push_named(text, b"deconfigure", name),
        Step::Configure(names) => push_group(text, names),
        Step::Remove(name) => push_named(text, b"remove", name),
        Step::Purge(name) => push_named(text, b"purge", name),
    }
}

// Writes the line of a step behind the text.
#[tactic(auto, unfolding(crate::specs::StepLine::step_line))]
fn push_step(text: &mut Vec<u8>, step: &Step) -> Result<(), AllocError>
    ensures written { OnOk result (text.new.items ≡ text.old.items ++ step_line step.now) }
    ensures valid { OnOk result (is_spelled step.now ≡ true) }
{
    push_words(text, step)?;
    text.push(NEWLINE)?;
    Ok(())
}

/// The line of a step, with its newline. It is read again as the step by `read_step`. Memory alone can fail; linear
/// in the step.
pub fn write_step(alloc: Global, step: &Step) -> Result<Vec<u8>, AllocError>
    ensures written { IfOk result (λ text. text.items ≡ step_line step.now) }
    ensures read_again { IfOk result (λ text. IsReadAsStep step.now text.items) }
{
    let mut text = Vec::new(alloc);
    push_step(&mut text, step)?;
    Ok(text)
}

// Writes the lines of the steps behind the text.
fn push_steps(text: &mut Vec<u8>, steps: &[Step]) -> Result<(), AllocError>
    ensures written { OnOk result
        (text.new.items ≡ text.old.items ++ flat_map step_line steps.now) }
    ensures valid { OnOk result (list_all is_spelled steps.now ≡ true) }
{
    for step in steps {
        push_step(text, step)?;
    }
    Ok(())
}

/// The version 1 text of a plan with these steps. It is read again as them by `read_plan`. Memory alone can fail; linear
/// in the steps.
#[tactic(auto, unfolding(crate::specs::Plan::plan_text))]
pub fn write_plan(alloc: Global, steps: &[Step]) -> Result<Vec<u8>, AllocError>
    ensures written { IfOk result (λ text. text.items ≡ plan_text steps.now) }
    ensures read_again { IfOk result (λ text. IsReadAsPlan steps.now text.items) }
{
    let mut text = Vec::new(alloc);
    text.extend_from_slice(b"plan 1\n")?;
    push_steps(&mut text, steps)?;
    Ok(text)
}

// Writes the line that ends a plan of this many steps behind the text.
fn push_end(text: &mut Vec<u8>, count: usize) -> Result<(), AllocError>
    ensures { OnOk result (text.new.items ≡ text.old.items ++ end_line count ++ NEWLINE ∷ []) }
{
    text.extend_from_slice(b"end ")?;
    text.extend_from_slice(Buffer::new().format(count).as_bytes())?;
    text.push(NEWLINE)?;
    Ok(())
}

/// The version 2 text of a plan with these steps. It is read again as them by `read_plan`. Memory alone can fail; linear
/// in the steps.
#[tactic(auto, unfolding(crate::specs::Plan::plan_text_2))]
pub fn write_plan_2(alloc: Global, steps: &[Step]) -> Result<Vec<u8>, AllocError>
    ensures written { IfOk result (λ text. text.items ≡ plan_text_2 steps.now) }
    ensures read_again { IfOk result (λ text. IsReadAsPlan steps.now text.items) }
{
    let mut text = Vec::new(alloc);
    text.extend_from_slice(b"plan 2\n")?;
    push_steps(&mut text, steps)?;
    push_end(&mut text, steps.len())?;
    Ok(text)
}
