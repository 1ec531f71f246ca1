//! Writing onto the end of a text: a field, and the bytes of a stanza that no action has touched.
ghost use Rattle.std.specs.Prelude.{◌≡◌, ◌++◌, List, ℕ, OnErr, OnOk, take, length};
ghost use Rattle.stanza.specs.Field.{without_newline};
ghost use Rattle.status_text.specs.Spelling.{gap_before, field_text, closed};

use std::alloc::AllocError;

/// The space between the colon of a field and its value, which is left out where nothing follows on the line.
fn gap_before(value: &[u8]) -> &'static [u8]
    ensures { result.now ≡ gap_before value.now }
{
    match value {
        [] => b"",
        [b'\n', ..] => b"",
        _ => b" ",
    }
}

// The text of the field behind the bytes that are there; where memory is refused some of it may be there too.
fn push_field(out: &mut Vec<u8>, name: &[u8], value: &[u8]) -> Result<(), AllocError>
    ensures written { OnOk result
        (out.new.items ≡ out.old.items
        ++ field_text (record { name = name.now; value = value.now })) }
    ensures behind { take (length out.old.items) out.new.items ≡ out.old.items }
{
    out.extend_from_slice(name)?;
    out.extend_from_slice(b":")?;
    out.extend_from_slice(gap_before(value))?;
    out.extend_from_slice(value)?;
    out.extend_from_slice(b"\n")
}

/// Writes a field onto the end of a text. Where memory is refused the text stays as it was.
pub fn write_field(out: &mut Vec<u8>, name: &[u8], value: &[u8]) -> Result<(), AllocError>
    ensures written { OnOk result
        (out.new.items ≡ out.old.items
        ++ field_text (record { name = name.now; value = value.now })) }
    ensures unchanged { OnErr result (out.new.items ≡ out.old.items) }
{
    let start = out.len();
    match push_field(out, name, value) {
        Ok(()) => Ok(()),
        Err(refused) => {
            out.truncate(start);
            Err(refused)
        }
    }
}

// The bytes without the newline at their end.
#[tactic(auto, using(stanza::proofs::FieldLemmas::newline_lemmas))]
fn without_newline(bytes: &[u8]) -> &[u8]
    ensures { result.now ≡ without_newline bytes.now }
{
    match bytes {
        [front @ .., b'\n'] => front,
        _ => bytes,
    }
}

// The bytes, closed, behind those that are there; where memory is refused some of them may be there too.
fn push_bytes(out: &mut Vec<u8>, raw: &[u8]) -> Result<(), AllocError>
    ensures written { OnOk result (out.new.items ≡ out.old.items ++ closed raw.now) }
    ensures behind { take (length out.old.items) out.new.items ≡ out.old.items }
{
    out.extend_from_slice(without_newline(raw))?;
    out.extend_from_slice(b"\n")
}

/// Writes the bytes of a stanza onto the end of a text, with a newline where their last one is missing.
/// Where memory is refused the text stays as it was.
pub fn write_bytes(out: &mut Vec<u8>, raw: &[u8]) -> Result<(), AllocError>
    ensures written { OnOk result (out.new.items ≡ out.old.items ++ closed raw.now) }
    ensures unchanged { OnErr result (out.new.items ≡ out.old.items) }
{
    let start = out.len();
    match push_bytes(out, raw) {
        Ok(()) => Ok(()),
        Err(refused) => {
            out.truncate(start);
            Err(refused)
        }
    }
}
