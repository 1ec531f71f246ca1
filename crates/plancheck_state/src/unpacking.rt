// What an unpacking leaves of the record of its package (dpkg(1)).

ghost use Rattle.std.specs.Prelude.{◌≡◌};
ghost use Rattle.rules.specs.Step.{unpacked_over, unpacked_with};

use crate::package_record::StateRecord;
use debversion::Version;
use index::IndexPackage;
use rules::{Flag, State, Want};

impl<'p, 'a> StateRecord<'p, 'a> {
    /// The record of a package of an index once it is unpacked, with this config version.
    pub(crate) fn unpacked_with(
        listed: &'p IndexPackage<'a>,
        config_version: Option<Version<'a>>,
    ) -> StateRecord<'p, 'a>
        ensures { result ≡ unpacked_with listed.now config_version.entry }
    {
        StateRecord::present(
            listed.pkg(),
            State::Unpacked,
            Want::Install,
            Flag::Ok,
            config_version,
            listed.is_essential(),
        )
    }

    /// The record once a package of an index is unpacked over it.
    pub(crate) fn unpacked_over(&self, listed: &'p IndexPackage<'a>) -> StateRecord<'p, 'a>
        ensures { result ≡ unpacked_over listed.now self.now }
    {
        StateRecord::unpacked_with(listed, self.kept_config_version())
    }
}
