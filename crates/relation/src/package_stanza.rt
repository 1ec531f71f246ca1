// What a stanza says of its package beside its relations.

ghost use Rattle.std.specs.Prelude.{◌≡◌};
ghost use Rattle.relation.specs.PackageStanza as Spec;
ghost use Rattle.relation.specs.PackageStanza.{field_of};
ghost use Rattle.rules.specs.Stanza.{is_called, marks_essential, says_essential};

use stanza::{Field, Stanza};

fn is_called(name: &[u8], field: &Field<'_>) -> bool
    ensures { result ≡ is_called name.now (field_of field.now) }
{
    field.name().eq_ignore_ascii_case(name)
}

/// Whether the field marks the package of its stanza essential: `Essential: yes` or `Protected: yes`, these very bytes (Debian
/// Policy 5.6.9).
pub fn marks_essential(field: &Field<'_>) -> bool
    ensures { result ≡ marks_essential (field_of field.now) }
{
    (is_called(b"Essential", field) || is_called(b"Protected", field))
        && field.value() == b"yes".as_slice()
}

/// Whether the field is `Essential: yes`, these very bytes: every package may take that of its stanza for granted (Debian
/// Policy 3.8 and 5.6.9), which `Protected: yes` doesn't say.
pub fn says_essential(field: &Field<'_>) -> bool
    ensures { result ≡ says_essential (field_of field.now) }
{
    is_called(b"Essential", field) && field.value() == b"yes".as_slice()
}

/// Whether a field of the stanza marks the package essential. It walks over the stanza's lines.
pub fn is_essential(stanza: &Stanza<'_>) -> bool
    ensures { result ≡ Spec.is_essential stanza.now.fields }
{
    for field in stanza.fields() {
        if marks_essential(&field) {
            return true;
        }
    }
    false
}

/// Whether a package of this architecture counts for the configured one, `arch`: it is that one, or `all` (Debian Policy
/// 5.6.8).
pub fn counts_for(arch: &[u8], value: &[u8]) -> bool
    ensures { result ≡ Spec.counts_for arch.now value.now }
{
    value == b"all".as_slice() || value == arch
}
