//! What the field Status of a stanza says of its package, and whether the stanza counts.
ghost use Rattle.std.specs.Prelude.{◌≡◌};
ghost use Rattle.std.specs.Option.{option_map};
ghost use Rattle.status_text.specs.Mark as Spec;
ghost use Rattle.status_text.specs.Mark.{name_in};

use crate::error::{StatusFault, StatusField};
use crate::name::PackageName;
use crate::words::{Mark, read_words};
use relation::counts_for;
use rules::State;
use stanza::{Field, Stanza};

/// What the stanza says of its package in this field Status.
pub fn mark_in<'a>(stanza: &Stanza<'a>, status: &Option<Field<'a>>) -> Result<Mark, StatusFault<'a>>
    ensures { result ≡ Spec.mark_in stanza.now status.now }
{
    match status {
        None => Err(StatusFault::MissingField(stanza.line(), StatusField::Status)),
        Some(field) => match read_words(field.value()) {
            None => Err(StatusFault::BadStatus(field.line())),
            Some(mark) => Ok(mark),
        },
    }
}

/// Whether the stanza of the package of this name, which is in this state and has this field Architecture, has a record.
pub fn counts_by<'a>(
    arch: &[u8],
    name: &'a [u8],
    stanza: &Stanza<'a>,
    architecture: &Option<Field<'a>>,
    state: State,
) -> Result<bool, StatusFault<'a>>
    requires { name.now ≡ name_in stanza.now }
    ensures { result
        ≡ Spec.counts_by arch.now stanza.now state
        (option_map (λ field. field.value) architecture.now) }
{
    match architecture {
        None if state.is_present() => Err(StatusFault::MissingField(
            stanza.line(),
            StatusField::Architecture,
        )),
        None => Ok(true),
        Some(field) if counts_for(arch, field.value()) => Ok(true),
        Some(_) if state.is_not_installed() => Ok(false),
        Some(_) => Err(StatusFault::ForeignArchitecture(PackageName::new(name))),
    }
}
