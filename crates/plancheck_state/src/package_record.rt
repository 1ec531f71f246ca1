// A record of the database with its package.

ghost use Rattle.std.specs.Prelude.{◌≡◌, [], true, false, unwrap_or, IfSome, is_some};
ghost use Rattle.rules.specs.Database.{is_unfinished, pkg_of, stands};
ghost use Rattle.rules.specs.State.{is_present_state};
ghost use Rattle.rules.specs.Step.{no_relations};

use debversion::Version;
use relation::{Clause, Pkg, Provided};
use rules::{Flag, State, Want};
use std::marker::Model;

/// What the database knows of a name, with the package of a present one, which was parsed before. It borrows
/// the texts (`'a`) and the package (`'p`).
#[derive(Drop)]
pub struct StateRecord<'p, 'a> {
    name: &'a [u8],
    state: State,
    want: Want,
    flag: Flag,
    version: Option<Version<'a>>,
    config_version: Option<Version<'a>>,
    pkg: Option<&'p Pkg<'a>>,
    is_essential: bool,
}

impl<'p, 'a> Model for StateRecord<'p, 'a> {
    ghost use Rattle.std.specs.Prelude.{[], unwrap_or};
    ghost use Rattle.std.specs.Option.{option_copied, option_map_or};
    ghost use Rattle.rules.specs.Database.{Record};
    ghost use Rattle.rules.specs.Step.{no_relations};
    ghost use Rattle.plancheck_state.specs.StateRecord.{HasItsPkg};

    ghost Value = { Record };

    ghost view = { λ r. record {
      name = r.name.now;
      state = r.state;
      want = r.want;
      flag = r.flag;
      version = unwrap_or r.version [];
      config_version = r.config_version;
      relations = option_map_or (λ p. p.now.relations) r.pkg no_relations;
      is_essential = r.is_essential;
    } };

    ghost invariant = { λ r. HasItsPkg r.state r.name.now r.version (option_copied r.pkg) };
}

fn version_again<'a>(version: &Option<Version<'a>>) -> Option<Version<'a>>
    ensures { result ≡ version.now }
{
    match version {
        Some(version) => Some(version.again()),
        None => None,
    }
}

impl<'p, 'a> StateRecord<'p, 'a> {
    /// The record of a present package.
    pub fn present(
        pkg: &'p Pkg<'a>,
        state: State,
        want: Want,
        flag: Flag,
        config_version: Option<Version<'a>>,
        is_essential: bool,
    ) -> StateRecord<'p, 'a>
        requires { is_present_state state ≡ true }
        ensures { result ≡ record {
          name = pkg.now.name;
          state = state;
          want = want;
          flag = flag;
          version = pkg.now.version;
          config_version = config_version.entry;
          relations = pkg.now.relations;
          is_essential = is_essential;
        } }
    {
        StateRecord {
            name: pkg.name(),
            state,
            want,
            flag,
            version: Some(pkg.version().again()),
            config_version,
            pkg: Some(pkg),
            is_essential,
        }
    }

    /// The record of a package of which no files are there; its stanza may have a version.
    pub fn absent(
        name: &'a [u8],
        state: State,
        want: Want,
        flag: Flag,
        version: Option<Version<'a>>,
        config_version: Option<Version<'a>>,
        is_essential: bool,
    ) -> StateRecord<'p, 'a>
        requires { is_present_state state ≡ false }
        ensures { result ≡ record {
          name = name.now;
          state = state;
          want = want;
          flag = flag;
          version = unwrap_or version.entry [];
          config_version = config_version.entry;
          relations = no_relations;
          is_essential = is_essential;
        } }
    {
        StateRecord {
            name,
            state,
            want,
            flag,
            version,
            config_version,
            pkg: None,
            is_essential,
        }
    }

    /// The same record once more.
    pub fn again(&self) -> StateRecord<'p, 'a>
        ensures { result ≡ self.now }
    {
        StateRecord {
            name: self.name,
            state: self.state,
            want: self.want,
            flag: self.flag,
            version: version_again(&self.version),
            config_version: version_again(&self.config_version),
            pkg: self.pkg,
            is_essential: self.is_essential,
        }
    }

    /// The name.
    pub fn name(&self) -> &'a [u8]
        ensures { result.now ≡ self.now.name }
    {
        self.name
    }

    /// How far the package is.
    pub fn state(&self) -> State
        ensures { result ≡ self.now.state }
    {
        self.state
    }

    /// What is wanted of it.
    pub fn want(&self) -> Want
        ensures { result ≡ self.now.want }
    {
        self.want
    }

    /// Whether it is to be installed again.
    pub fn flag(&self) -> Flag
        ensures { result ≡ self.now.flag }
    {
        self.flag
    }

    /// The version that was configured last, if there is one.
    pub fn config_version(&self) -> &Option<Version<'a>>
        ensures { result.now ≡ self.now.config_version }
    {
        &self.config_version
    }

    /// Whether the stanza marks it essential.
    pub fn is_essential(&self) -> bool
        ensures { result ≡ self.now.is_essential }
    {
        self.is_essential
    }

    /// The package, if it is present.
    pub fn present_pkg(&self) -> Option<&'p Pkg<'a>>
        ensures there { is_some result ≡ is_present_state self.now.state }
        ensures same { IfSome result (λ pkg. pkg.now ≡ pkg_of self.now) }
    {
        self.pkg
    }

    /// The clauses of Pre-Depends of a present package; none of another.
    pub fn pre_depends(&self) -> &[Clause<'a>]
        ensures { result.now ≡ self.now.relations.pre_depends }
    {
        match self.pkg {
            Some(there) => there.pre_depends(),
            None => &[],
        }
    }

    /// The clauses of Depends of a present package; none of another.
    pub fn depends(&self) -> &[Clause<'a>]
        ensures { result.now ≡ self.now.relations.depends }
    {
        match self.pkg {
            Some(there) => there.depends(),
            None => &[],
        }
    }

    /// The items of Provides of a present package; none of another.
    pub fn provides(&self) -> &[Provided<'a>]
        ensures { result.now ≡ self.now.relations.provides }
    {
        match self.pkg {
            Some(there) => there.provides(),
            None => &[],
        }
    }

    /// Whether the package stands: its files are all there, and the flag is ok.
    pub fn stands(&self) -> bool
        ensures { result ≡ stands self.now }
    {
        (self.state().is_unconfigured() || self.state().is_installed()) && self.flag().is_sound()
    }

    /// Whether something of the package is left to be done, or it is to be installed again.
    pub fn is_unfinished(&self) -> bool
        ensures { result ≡ is_unfinished self.now }
    {
        (!self.flag().is_sound() && !self.state().is_not_installed())
            || self.state().is_unfinished()
    }
}
