// With which status the program ends behind a conversation (this project's own).
ghost use Rattle.std.specs.Prelude.{◌≡◌};
ghost use Rattle.outcomes.specs.Exit as Spec;

use crate::exit::Exit;
use conversation::Ended;

/// How the program ends behind a conversation that ends so.
pub fn exit_of_ended(ended: Ended) -> Exit
    ensures { result ≡ Spec.exit_of_ended ended }
{
    match ended {
        Ended::Answered => Exit::Success,
        Ended::TooLong => Exit::Refused,
        Ended::Unread | Ended::Unwritten | Ended::OutOfMemory => Exit::Device,
    }
}
