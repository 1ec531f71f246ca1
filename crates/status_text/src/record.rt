//! A record of the status file with its stanza.
ghost use Rattle.std.specs.Prelude.{◌≡◌, [], false, unwrap_or, IfOk, IsTrue};
ghost use Rattle.relation.specs.PackageStanza.{read_stanza};
ghost use Rattle.rules.specs.Database.{IsPresent, pkg_of, stands};
ghost use Rattle.rules.specs.Name.{is_name};
ghost use Rattle.rules.specs.State.{is_hold, is_installed_state, is_present_state};
ghost use Rattle.rules.specs.Step.{no_relations};
ghost use Rattle.status_text.specs.Kept.{IsKept, IsTested, kept_record};
ghost use Rattle.status_text.specs.Record.{relations_at};

use crate::package::TestedPkg;
use crate::words::Mark;
use debversion::Version;
use relation::Pkg;
use rules::{Flag, State, Want};
use stanza::Stanza;
use std::alloc::{AllocError, Global};
use std::marker::Model;

/// What the status file says of a name. It borrows the text; its relations are read anew by each call of `pkg`.
#[derive(Drop)]
pub struct StatusRecord<'a> {
    arch: &'a [u8],
    stanza: Stanza<'a>,
    name: &'a [u8],
    mark: Mark,
    version: Option<Version<'a>>,
    config_version: Option<Version<'a>>,
    tested: Option<TestedPkg<'a>>,
    is_essential: bool,
}

impl<'a> Model for StatusRecord<'a> {
    ghost use Rattle.relation.specs.PackageStanza.{read_stanza};
    ghost use Rattle.rules.specs.FileRecord.{FileRecord as FileRecordValue};
    ghost use Rattle.status_text.specs.Kept.{IsKept, IsTested, kept_record};

    ghost Value = { FileRecordValue };

    ghost view = { λ r. record {
      status = kept_record r.arch.now r.stanza r.name.now r.mark r.version r.config_version r.is_essential;
      stanza = read_stanza r.stanza;
    } };

    ghost invariant = { λ r. IsKept r.arch.now r.stanza
        (kept_record r.arch.now r.stanza r.name.now r.mark r.version r.config_version r.is_essential)
        × IsTested (kept_record r.arch.now r.stanza r.name.now r.mark r.version r.config_version r.is_essential) r.tested };
}

impl<'a> StatusRecord<'a> {
    // The record with these parts.
    pub(crate) fn new(
        arch: &'a [u8],
        stanza: Stanza<'a>,
        name: &'a [u8],
        mark: Mark,
        version: Option<Version<'a>>,
        config_version: Option<Version<'a>>,
        tested: Option<TestedPkg<'a>>,
        is_essential: bool,
    ) -> StatusRecord<'a>
        requires kept { IsKept arch.now stanza
            (kept_record arch.now stanza name.now mark version config_version is_essential) }
        requires tested { IsTested
            (kept_record arch.now stanza name.now mark version config_version is_essential) tested }
        ensures { result ≡ record {
          status = kept_record arch.now stanza.entry name.now mark version.entry
              config_version.entry is_essential;
          stanza = read_stanza stanza.entry;
        } }
    {
        StatusRecord {
            arch,
            stanza,
            name,
            mark,
            version,
            config_version,
            tested,
            is_essential,
        }
    }

    /// The name.
    pub fn name(&self) -> &'a [u8]
        ensures value { result.now ≡ self.now.status.name }
        ensures valid { IsTrue (is_name self.now.status.name) }
    {
        self.name
    }

    /// What is wanted of the package.
    pub fn want(&self) -> Want
        ensures { result ≡ self.now.status.want }
    {
        self.mark.want
    }

    /// Whether it is to be installed again.
    pub fn flag(&self) -> Flag
        ensures { result ≡ self.now.status.flag }
    {
        self.mark.flag
    }

    /// How far it is.
    pub fn state(&self) -> State
        ensures { result ≡ self.now.status.state }
    {
        self.mark.state
    }

    /// The version of its stanza, which a present package has.
    pub fn version(&self) -> &Option<Version<'a>>
        ensures { unwrap_or result.now [] ≡ self.now.status.version }
    {
        &self.version
    }

    /// The version that was configured last, if there is one.
    pub fn config_version(&self) -> &Option<Version<'a>>
        ensures { result.now ≡ self.now.status.config_version }
    {
        &self.config_version
    }

    /// Whether the stanza marks it essential.
    pub fn is_essential(&self) -> bool
        ensures { result ≡ self.now.status.is_essential }
    {
        self.is_essential
    }

    /// Its stanza.
    pub fn stanza(&self) -> &Stanza<'a>
        ensures { read_stanza result.now ≡ self.now.stanza }
    {
        &self.stanza
    }

    /// Its stanza, and the configured architecture for which it was read: the package of a present record is read from
    /// these alone.
    pub fn origin(&self) -> (&Stanza<'a>, &'a [u8])
        ensures stanza { read_stanza result.0.now ≡ self.now.stanza }
        ensures relations { self.now.status.relations
            ≡ relations_at self.now.status.state result.1.now result.0.now }
        ensures kept { IsKept result.1.now result.0.now self.now.status }
    {
        (&self.stanza, self.arch)
    }

    /// Whether files of the package are there. The record has no relations where they aren't.
    pub fn is_present(&self) -> bool
        ensures value { result ≡ is_present_state self.now.status.state }
        ensures bare { result ≡ false → self.now.status.relations ≡ no_relations }
    {
        let Mark { state, .. } = self.mark;
        state.is_present()
    }

    /// Whether the package is installed.
    pub fn is_installed(&self) -> bool
        ensures { result ≡ is_installed_state self.now.status.state }
    {
        self.state().is_installed()
    }

    /// Whether the package is held.
    pub fn is_held(&self) -> bool
        ensures { result ≡ is_hold self.now.status.want }
    {
        self.want().is_hold()
    }

    /// Whether the package stands: its files are all there, and the flag is ok.
    pub fn stands(&self) -> bool
        ensures { result ≡ stands self.now.status }
    {
        (self.state().is_unconfigured() || self.state().is_installed()) && self.flag().is_sound()
    }

    /// The package of a present record, whose relation fields have been tested.
    pub fn tested_pkg(&self) -> Option<TestedPkg<'a>>
        ensures { IsTested self.now.status result }
    {
        match &self.tested {
            Some(tested) => Some(tested.again()),
            None => None,
        }
    }

    /// The package of a present record. Memory alone can fail. Linear in the relation fields.
    pub fn pkg(&self, alloc: Global) -> Result<Pkg<'a>, AllocError>
        requires { IsPresent self.now.status }
        ensures { IfOk result (λ pkg. pkg ≡ pkg_of self.now.status) }
    {
        match &self.tested {
            Some(tested) => tested.pkg(alloc),
            None => unreachable!(),
        }
    }
}
