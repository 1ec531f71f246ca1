// A step of any action: the first rule that it fails, and what it leaves (Policy 7.2 to 7.4, dpkg(1)).

ghost use Rattle.std.specs.Prelude.{◌≡◌, IfOk, MatchOption, None, OnErr};
ghost use Rattle.std.specs.Option.{option_copied, option_map_or};
ghost use Rattle.rules.specs.Database.{HasDistinctNames};
ghost use Rattle.rules.specs.Legal.{Allowed, IsFirstFailing};
ghost use Rattle.rules.specs.LegalLaws.{ActsOnPresent};
ghost use Rattle.rules.specs.Run.{after};
ghost use Rattle.rules.specs.Step.{after_unpack};
ghost use Rattle.rules.specs.Universe.{listed_for, listed_of};
ghost use Rattle.rules.specs.declared.step.Step.TheVariants.{Remove, Unpack};

use crate::stanzas::version_of;
use crate::table::{
    configure_failing, deconfigure_failing, purge_failing, remove_failing, unpack_failing,
};
use index::IndexPackage;
use plancheck_state::Records;
use rules::{Name, Rule, Step, VersionText, allowed_acts_on_present, distinct_names_kept};
use std::alloc::{AllocError, Global};
use universe::Universe;

// The first rule that an unpacking of the version fails.
#[tactic(auto, unfolding(rules::specs::Legal::Allowed, rules::specs::Legal::IsFirstFailing))]
fn unpack_stop(
    db: &Records<'_, '_>,
    universe: &Universe<'_, '_>,
    listed: Option<&IndexPackage<'_>>,
    name: &Name,
    version: &VersionText,
) -> Option<Rule>
    requires { option_copied listed ≡ listed_of universe.now name.now version.now }
    ensures { MatchOption result (Allowed universe.now db.now (Unpack name.now version.now))
        (λ rule. IsFirstFailing universe.now db.now (Unpack name.now version.now) rule) }
{
    let version = version_of(version);
    unpack_failing(db, listed, name.as_bytes(), &version)
}

// The first rule that a removal of the name fails.
#[tactic(auto, unfolding(rules::specs::Legal::Allowed, rules::specs::Legal::IsFirstFailing))]
fn remove_stop(db: &Records<'_, '_>, universe: &Universe<'_, '_>, name: &Name) -> Option<Rule>
    ensures { MatchOption result (Allowed universe.now db.now (Remove name.now))
        (λ rule. IsFirstFailing universe.now db.now (Remove name.now) rule) }
{
    remove_failing(db, name.as_bytes())
}

/// The first rule that the step fails, if there is one. Of a step that unpacks, `listed` is the stanza, read already. The
/// cost is that of the action's rules. Memory alone can fail, of a step that configures a group.
#[tactic(auto, unfolding(rules::specs::Legal::Allowed, rules::specs::Legal::IsFirstFailing))]
pub fn legal(
    alloc: Global,
    db: &Records<'_, '_>,
    universe: &Universe<'_, '_>,
    listed: Option<&IndexPackage<'_>>,
    step: &Step,
) -> Result<Option<Rule>, AllocError>
    requires { option_copied listed ≡ listed_for universe.now step.now }
    ensures { IfOk result (λ failing. MatchOption failing (Allowed universe.now db.now step.now)
        (λ rule. IsFirstFailing universe.now db.now step.now rule)) }
{
    match step {
        Step::Unpack(name, version) => Ok(unpack_stop(db, universe, listed, name, version)),
        Step::Deconfigure(name) => Ok(deconfigure_failing(db, name.as_bytes())),
        Step::Configure(names) => configure_failing(alloc, db, names.as_slice()),
        Step::Remove(name) => Ok(remove_stop(db, universe, name)),
        Step::Purge(name) => Ok(purge_failing(db, name.as_bytes())),
    }
}

// Unpacks the package, if it is there.
fn unpack_listed<'p, 'a>(
    db: &mut Records<'p, 'a>,
    listed: Option<&'p IndexPackage<'a>>,
) -> Result<(), AllocError>
    requires { HasDistinctNames db.old }
    ensures unchanged { OnErr result (db.new ≡ db.old) }
    ensures unpacked { IfOk result
        (λ _. db.new ≡ option_map_or (λ listed. after_unpack listed db.old)
        (option_copied listed.entry) db.old) }
{
    if let Some(listed) = listed {
        db.unpack(listed)?;
    }
    Ok(())
}

// What the step leaves, if what it configures, deconfigures or removes is present.
#[tactic(auto, unfolding(rules::specs::LegalLaws::ActsOnPresent))]
fn leave<'p, 'a>(
    db: &mut Records<'p, 'a>,
    universe: &Universe<'_, 'a>,
    listed: Option<&'p IndexPackage<'a>>,
    step: &Step,
) -> Result<(), AllocError>
    requires listed { option_copied listed ≡ listed_for universe.now step.now }
    requires distinct { HasDistinctNames db.old }
    requires present { ActsOnPresent step.now db.old }
    ensures unchanged { OnErr result (db.new ≡ db.old) }
    ensures after { IfOk result (λ _. db.new ≡ after universe.now db.old step.now) }
{
    match step {
        Step::Unpack(_, _) => unpack_listed(db, listed)?,
        Step::Deconfigure(name) => db.deconfigure(name.as_bytes()),
        Step::Configure(names) => db.configure(names.as_slice()),
        Step::Remove(name) => db.remove(name.as_bytes()),
        Step::Purge(name) => db.purge(name.as_bytes()),
    }
    Ok(())
}

/// Takes an allowed step. Of a step that unpacks, `listed` is the stanza, whose package the record then lends. It costs
/// what the action of `Records` does. Memory alone can fail, and then nothing is changed.
pub fn apply<'p, 'a>(
    db: &mut Records<'p, 'a>,
    universe: &Universe<'_, 'a>,
    listed: Option<&'p IndexPackage<'a>>,
    step: &Step,
) -> Result<(), AllocError>
    requires listed { option_copied listed ≡ listed_for universe.now step.now }
    requires distinct { HasDistinctNames db.old }
    requires allowed { Allowed universe.now db.old step.now }
    ensures after { IfOk result (λ _. db.new ≡ after universe.now db.old step.now) }
    ensures distinct { IfOk result (λ _. HasDistinctNames db.new) }
    ensures unchanged { OnErr result (db.new ≡ db.old) }
{
    allowed_acts_on_present();
    distinct_names_kept();
    leave(db, universe, listed, step)
}
