//! A caller that stands on the public contracts alone, as the crates above do.
ghost use Rattle.std.specs.Prelude.{◌≡◌, map, IfOk, Ok, Err, false};
ghost use Rattle.stanza.specs.declared.form.Form.TheVariants.{Plain};
ghost use Rattle.stanza.specs.Stanza.{items_of};
ghost use Rattle.stanza.specs.Collect.{values_in};

use stanza::{StanzaError, Stanzas};
use std::alloc::{AllocError, AllocFailed, Global};

#[derive(Drop)]
enum CollectError {
    Memory,
    Fault(StanzaError),
}

// The values of the field of this name in all stanzas of a text.
fn values_of<'a>(alloc: Global, text: &'a [u8], name: &[u8]) -> Result<Vec<&'a [u8]>, CollectError>
    ensures ok { IfOk result (λ values. values_in name.now (items_of Plain text.now) ≡ Ok (map (λ value. value.now) values.items)) }
    ensures fault { (fault : StanzaError) → result ≡ Err (CollectError.Fault fault) → values_in name.now (items_of Plain text.now) ≡ Err fault }
{
    let mut values = Vec::new(alloc);
    for item in Stanzas::new(text) {
        let stanza = match item {
            Ok(stanza) => stanza,
            Err(fault) => return Err(CollectError::Fault(fault)),
        };
        if let Some(value) = stanza.get(name) {
            if values.push(value).is_err() {
                return Err(CollectError::Memory);
            }
        }
    }
    Ok(values)
}

fn are_three(collected: Result<Vec<&[u8]>, CollectError>) -> bool {
    match collected {
        Ok(values) => values.len() == 3,
        Err(_) => false,
    }
}

#[test]
fn values_are_collected(rt: HostRuntime) {
    let text = "Package: a\nSize: 1\n\nPackage: b\n\npackage: c\n";
    assert!(rt; are_three(values_of(rt.alloc(), text.as_bytes(), b"PACKAGE")));
    assert!(rt; values_of(rt.alloc(), b"A", b"A").is_err());
}
