//! The candidate of a name, which is kept when the texts are gone.
ghost use Rattle.std.specs.Prelude.{◌≡◌, IfOk};

use candidates::Offer;
use rules::Text;
use std::alloc::{AllocError, Global};
use std::marker::Model;

/// The candidate of a name: a version, and its priority (apt_preferences(5)). It owns its texts.
#[derive(Drop)]
pub struct CandidateAnswer {
    name: Text,
    version: Text,
    priority: i32,
}

impl Model for CandidateAnswer {
    ghost use Rattle.candidates.specs.Offer.{Offer as OfferValue};

    ghost Value = { OfferValue };

    ghost view = { λ c. record { name = c.name; version = c.version; priority = c.priority } };
}

impl CandidateAnswer {
    /// A copy of what is offered. Memory alone can fail.
    pub fn copied_from(alloc: Global, offer: &Offer<'_>) -> Result<CandidateAnswer, AllocError>
        ensures { IfOk result (λ candidate. candidate ≡ offer.now) }
    {
        Ok(CandidateAnswer {
            name: Text::copied_from(alloc, offer.name())?,
            version: Text::copied_from(alloc, offer.version().text())?,
            priority: offer.priority(),
        })
    }

    /// The text of the version.
    pub fn version(&self) -> &[u8]
        ensures { result.now ≡ self.now.version }
    {
        self.version.as_bytes()
    }

    /// The priority.
    pub fn priority(&self) -> i32
        ensures { result ≡ self.now.priority }
    {
        self.priority
    }
}
