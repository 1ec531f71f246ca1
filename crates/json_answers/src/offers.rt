// What a stanza offers: a version of the package of a name, for an architecture.
ghost use Rattle.std.specs.Prelude.{◌≡◌, ◌&&◌, ℕ, List, MatchOption, None, bytes_eq, codes, false};
ghost use Rattle.std.specs.Ordering.{is_eq};
ghost use Rattle.json_answers.specs.Archives.{has_value, is_same_version, is_stanza_of};
ghost use Rattle.json_answers.specs.Unpacked.{unpacks_same};
ghost use Rattle.relation.specs.PackageStanza.{counts_for};
ghost use Rattle.rules.specs.Version.{version_cmp};
ghost use Rattle.rules.specs.VersionFault.{first_fault};

use debversion::Version;
use relation::counts_for;
use rules::Step;
use stanza::ReadStanza;

/// The package of a stanza.
#[derive(Drop)]
pub(crate) struct Offer<'t> {
    /// Its name.
    pub(crate) name: &'t [u8],
    /// Its version.
    pub(crate) version: Version<'t>,
}

impl<'t> Offer<'t> {
    /// Whether the step unpacks it.
    pub(crate) fn is_unpacked_by(&self, step: &Step) -> bool
        ensures { result ≡ unpacks_same self.now.name.now self.now.version step.now }
    {
        match step {
            Step::Unpack(name, version) => {
                self.name == name.as_bytes() && is_version(&self.version, version.as_bytes())
            }
            Step::Deconfigure(_) | Step::Configure(_) | Step::Remove(_) | Step::Purge(_) => false,
        }
    }
}

// Whether the version is equal to that of the text.
fn is_version(version: &Version<'_>, text: &[u8]) -> bool
    requires { first_fault text.now ≡ None }
    ensures { result ≡ is_eq (version_cmp version.now text.now) }
{
    match Version::parse(text) {
        Ok(other) => *version == other,
        Err(_) => false,
    }
}

// Whether the stanza is of this architecture, or of `all`.
fn counts(stanza: &ReadStanza<'_>, arch: &[u8]) -> bool
    ensures { result ≡ has_value (codes "Architecture") (counts_for arch.now) stanza.now }
{
    match stanza.get(b"Architecture") {
        Some(value) => counts_for(arch, value),
        None => false,
    }
}

// The version of the stanza, if it has one.
fn version_of<'t>(stanza: &ReadStanza<'t>) -> Option<Version<'t>>
    ensures { MatchOption result
        ((version : List ℕ)
        → has_value (codes "Version") (is_same_version version) stanza.now ≡ false)
        (λ own. (version : List ℕ)
        → has_value (codes "Version") (is_same_version version) stanza.now
        ≡ is_eq (version_cmp own version)) }
{
    let Some(text) = stanza.get(b"Version") else {
        return None;
    };
    match Version::parse(text) {
        Ok(version) => Some(version),
        Err(_) => None,
    }
}

/// What the stanza offers, if it counts for the architecture.
pub(crate) fn offer_of<'t>(stanza: &ReadStanza<'t>, arch: &[u8]) -> Option<Offer<'t>>
    ensures { MatchOption result
        ((name version : List ℕ) → is_stanza_of arch.now name version stanza.now ≡ false)
        (λ offer. (name version : List ℕ) → is_stanza_of arch.now name version stanza.now
        ≡ (bytes_eq offer.name.now name && is_eq (version_cmp offer.version version))) }
{
    if !counts(stanza, arch) {
        return None;
    }
    let Some(name) = stanza.get(b"Package") else {
        return None;
    };
    match version_of(stanza) {
        Some(version) => Some(Offer { name, version }),
        None => None,
    }
}
