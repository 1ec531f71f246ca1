// The code and the name of a refusal with its values, by their kinds.
ghost use Rattle.std.specs.Prelude.{◌≡◌, IfOk, decimal};
ghost use Rattle.refusal_lines.specs.Texts as Spec;

use std::alloc::{AllocError, Global};

/// The code and the name alone.
pub(crate) fn bare(alloc: Global, code: &str) -> Result<Vec<u8>, AllocError>
    ensures { IfOk result (λ words. words.items ≡ code.now) }
{
    code.as_bytes().to_vec(alloc)
}

/// A value behind them, as a name.
pub(crate) fn with_value(alloc: Global, code: &str, value: &[u8]) -> Result<Vec<u8>, AllocError>
    ensures { IfOk result (λ words. words.items ≡ Spec.with_value code.now value.now) }
{
    let mut words = code.as_bytes().to_vec(alloc)?;
    words.extend_from_slice(b" ")?;
    words.extend_from_slice(value)?;
    Ok(words)
}

/// A number behind them, as a line.
pub(crate) fn with_number(alloc: Global, code: &str, number: usize) -> Result<Vec<u8>, AllocError>
    ensures { IfOk result (λ words. words.items ≡ Spec.with_number code.now number) }
{
    Ok(format!(in alloc; "{code} {number}")?.into_bytes())
}

/// A number and a word behind them, as a line and a field.
pub(crate) fn with_number_and_value(
    alloc: Global,
    code: &str,
    number: usize,
    value: &str,
) -> Result<Vec<u8>, AllocError>
    ensures { IfOk result (λ words. words.items
        ≡ Spec.with_number_and_value code.now number value.now) }
{
    Ok(format!(in alloc; "{code} {number} {value}")?.into_bytes())
}

/// Two numbers behind them, as a line and an offset.
pub(crate) fn numbered_twice(
    alloc: Global,
    code: &str,
    number: usize,
    other: usize,
) -> Result<Vec<u8>, AllocError>
    ensures { IfOk result
        (λ words. words.items ≡ Spec.with_number_and_value code.now number (decimal other)) }
{
    Ok(format!(in alloc; "{code} {number} {other}")?.into_bytes())
}
