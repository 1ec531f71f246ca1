// The archives of the packages that a plan unpacks.
ghost use Rattle.std.specs.Prelude.{◌≡◌, ◌∷◌, ◌<◌, [], IfOk, None, OnOk, length, replicate, slice_index_or, slice_set};
ghost use Rattle.std.specs.Option.{option_and_then, option_copied, option_or};
ghost use Rattle.json_answers.specs.Archives as Spec;
ghost use Rattle.json_answers.specs.Archives.{found_also, found_or, none_found};
ghost use Rattle.json_answers.specs.Unpacked.{archive_where, unpacked_in};

use crate::offers::{Offer, offer_of};
use crate::sizes::number_in;
use crate::unpacked::UnpackedNames;
use rules::{Step, Text};
use stanza::ReadStanza;
use std::alloc::{AllocError, Global};
use std::marker::Model;

/// What the stanza of an index says of the archive of its package (deb-src-control(5), repository format): each field as far as it is
/// there.
#[derive(Drop)]
pub struct Archive {
    /// The path in the archive, `Filename`.
    pub filename: Option<Text>,
    /// The bytes of the file, `Size`.
    pub size: Option<u64>,
    /// The digits of its checksum, `SHA256`.
    pub sha256: Option<Text>,
}

/// Steps, and what was found of the archive of each that unpacks a package.
#[derive(Drop)]
pub struct Archives<'s> {
    steps: &'s [Step],
    archives: Vec<Option<Archive>>,
}

impl<'s> Model for Archives<'s> {
    ghost use Rattle.std.specs.Prelude.{◌≡◌, length};
    ghost use Rattle.json_answers.specs.Archives.{StepArchives};

    ghost Value = { StepArchives };

    ghost view = { λ a. record { steps = a.steps.now; archives = a.archives.items } };

    ghost invariant = { λ a. length a.archives.items ≡ length a.steps.now };
}

// Whether nothing is left to be found of the step.
fn is_settled(step: &Step, archive: &Option<Archive>) -> bool
    ensures { result ≡ Spec.is_settled step.now archive.now }
{
    match step {
        Step::Unpack(_, _) => archive.is_some(),
        Step::Deconfigure(_) | Step::Configure(_) | Step::Remove(_) | Step::Purge(_) => true,
    }
}

// Whether nothing is left to be found of any of the steps.
fn are_settled(steps: &[Step], archives: &[Option<Archive>]) -> bool
    ensures { result ≡ Spec.are_settled steps.now archives.now }
{
    let mut rest = archives;
    for step in steps {
        let Some((first, behind)) = rest.split_first() else {
            return true;
        };
        if !is_settled(step, first) {
            return false;
        }
        rest = behind;
    }
    true
}

// So many places at which nothing is found. Memory alone can fail.
fn nothing_found(alloc: Global, count: usize) -> Result<Vec<Option<Archive>>, AllocError>
    ensures items { IfOk result (λ archives. archives.items ≡ replicate count None) }
    ensures size { IfOk result (λ archives. length archives.items ≡ count) }
{
    let mut archives = Vec::new(alloc);
    for _ in 0..count {
        archives.push(None)?;
    }
    Ok(archives)
}

// Puts what the stanza says of its archive at the place of the step, where that unpacks what is offered and nothing was found of it.
fn note_at(
    alloc: Global,
    stanza: &ReadStanza<'_>,
    offer: &Offer<'_>,
    step: &Step,
    place: usize,
    archives: &mut Vec<Option<Archive>>,
) -> Result<(), AllocError>
    requires { place < length archives.old.items }
    ensures size { length archives.new.items ≡ length archives.old.items }
    ensures archives { OnOk result (archives.new.items ≡ slice_set archives.old.items place
        (option_or (slice_index_or archives.old.items place None)
        (archive_where offer.now.name.now offer.now.version stanza.now step.now))) }
{
    if archives[place].is_some() {
        return Ok(());
    }
    if !offer.is_unpacked_by(step) {
        return Ok(());
    }
    archives[place] = Some(archive_in(alloc, stanza)?);
    Ok(())
}

// The same at each of the steps.
fn note_at_steps(
    alloc: Global,
    stanza: &ReadStanza<'_>,
    offer: &Offer<'_>,
    steps: &[Step],
    archives: &mut Vec<Option<Archive>>,
) -> Result<(), AllocError>
    requires { length archives.old.items ≡ length steps.now }
    ensures size { length archives.new.items ≡ length archives.old.items }
    ensures archives { OnOk result (archives.new.items ≡ found_or
        (archive_where offer.now.name.now offer.now.version stanza.now)
        steps.now archives.old.items) }
{
    let mut place = 0;
    for step in steps {
        note_at(alloc, stanza, offer, step, place, archives)?;
        place += 1;
    }
    Ok(())
}

impl<'s> Archives<'s> {
    /// The steps, of which no archive is found yet. Memory alone can fail. Linear in the steps.
    pub fn of_steps(alloc: Global, steps: &'s [Step]) -> Result<Archives<'s>, AllocError>
        ensures { IfOk result (λ archives. archives ≡ none_found steps.now) }
    {
        let archives = nothing_found(alloc, steps.len())?;
        Ok(Archives { steps, archives })
    }

    /// The steps.
    pub fn steps(&self) -> &'s [Step]
        ensures { result.now ≡ self.now.steps }
    {
        self.steps
    }

    /// What was found of the archive of each step, in their order.
    pub fn as_slice(&self) -> &[Option<Archive>]
        ensures { result.now ≡ self.now.archives }
    {
        self.archives.as_slice()
    }

    /// Whether the archive of each package that is unpacked was found. Linear in the steps.
    pub fn is_complete(&self) -> bool
        ensures { result ≡ Spec.are_settled self.now.steps self.now.archives }
    {
        are_settled(self.steps, self.archives.as_slice())
    }

    /// Notes what the stanza says of the archive of its package, at each step that unpacks that and of which nothing was found.
    pub(crate) fn note(
        &mut self,
        alloc: Global,
        stanza: &ReadStanza<'_>,
        arch: &[u8],
        names: &UnpackedNames<'_>,
    ) -> Result<(), AllocError>
        requires { names.now ≡ unpacked_in self.old.steps }
        ensures steps { self.new.steps ≡ self.old.steps }
        ensures archives { OnOk result
            (self.new ≡ found_also arch.now (stanza.now ∷ []) self.old) }
    {
        let Some(offer) = offer_of(stanza, arch) else {
            return Ok(());
        };
        if !names.has(offer.name) {
            return Ok(());
        }
        note_at_steps(alloc, stanza, &offer, self.steps, &mut self.archives)
    }
}

// What the stanza says of the archive of its package.
fn archive_in(alloc: Global, stanza: &ReadStanza<'_>) -> Result<Archive, AllocError>
    ensures { IfOk result (λ archive. archive ≡ Spec.archive_in stanza.now) }
{
    Ok(Archive {
        filename: copy_of(alloc, stanza.get(b"Filename"))?,
        size: size_in(stanza.get(b"Size")),
        sha256: copy_of(alloc, stanza.get(b"SHA256"))?,
    })
}

fn copy_of(alloc: Global, value: Option<&[u8]>) -> Result<Option<Text>, AllocError>
    ensures { IfOk result (λ copy. copy ≡ option_copied value.entry) }
{
    match value {
        None => Ok(None),
        Some(value) => Ok(Some(Text::copied_from(alloc, value)?)),
    }
}

fn size_in(value: Option<&[u8]>) -> Option<u64>
    ensures { result ≡ option_and_then Spec.number_in (option_copied value.entry) }
{
    match value {
        None => None,
        Some(digits) => number_in(digits),
    }
}
