//! The files of refutations, each beside its request.
ghost use Rattle.std.specs.Prelude.{◌≡◌, ◌++◌, IfErr, IfOk, OnOk, Some, map};
ghost use Rattle.std.specs.List.{flat_map};
ghost use Rattle.cli.specs.Files.{Files};
ghost use Rattle.cli.specs.Kept.{Kept};
ghost use Rattle.cli.specs.Packages as Spec;

use crate::host::{Host, PutError};
use cli_engine::Notes;
use installable::{Installability, PackageAnswer, Surveyed};
use rules::Items;
use sha2::{Digest, Sha256};
use std::alloc::{AllocError, Global};

/// A file that is to be written.
#[derive(Drop)]
pub(crate) struct Placed {
    /// Its path.
    pub(crate) path: Items<u8>,
    /// Its text.
    pub(crate) text: Items<u8>,
}

// The file in the folder, with this name and ending, and this text.
fn placed_in(
    alloc: Global,
    folder: &str,
    stem: &[u8],
    ending: &[u8],
    text: &[u8],
) -> Result<Placed, AllocError>
    ensures { IfOk result
        (λ placed. placed ≡ Spec.placed_in folder.now stem.now ending.now text.now) }
{
    let mut path = folder.as_bytes().to_vec(alloc)?;
    path.extend_from_slice(b"/")?;
    path.extend_from_slice(stem)?;
    path.extend_from_slice(ending)?;
    Ok(Placed {
        path: Items::new(path),
        text: Items::new(text.to_vec(alloc)?),
    })
}

// Puts the files of a request behind the others: it and its refutation, where it is broken.
fn push_files(
    alloc: Global,
    files: &mut Vec<Placed>,
    folder: &str,
    stem: &[u8],
    installability: &Installability,
) -> Result<(), AllocError>
    ensures { OnOk result
        (files.new.items ≡ files.old.items
        ++ Spec.files_of folder.now stem.now installability.now) }
{
    match installability {
        Installability::Broken(refuted) => {
            let request = refuted.request.as_slice();
            let refutation = refuted.refutation.as_slice();
            files.push(placed_in(alloc, folder, stem, b".request", request)?)?;
            files.push(placed_in(alloc, folder, stem, b".refutation", refutation)?)?;
            Ok(())
        }
        _ => Ok(()),
    }
}

// How many bytes a package has at most as its files are named. With an ending, and with what is behind that while the file is written, they
// are within the 255 that Linux lets a name have.
const STEM_BYTES: usize = 200;

// The name of files without their endings: this, or its sum if it is too long.
fn file_stem(alloc: Global, stem: Vec<u8>) -> Result<Vec<u8>, AllocError>
    ensures { IfOk result (λ named. named.items ≡ Spec.file_stem stem.items) }
{
    if stem.len() <= STEM_BYTES {
        return Ok(stem);
    }
    let sum = hex::encode(alloc, Sha256::digest(stem.as_slice()))?;
    let mut named = b"sha256-".to_vec(alloc)?;
    named.extend_from_slice(sum.as_bytes())?;
    Ok(named)
}

// A package, as its files are named.
fn stem_of(alloc: Global, answer: &PackageAnswer) -> Result<Vec<u8>, AllocError>
    ensures { IfOk result (λ stem. stem.items ≡ Spec.stem_of answer.now) }
{
    let mut stem = answer.name.as_bytes().to_vec(alloc)?;
    stem.extend_from_slice(b"_")?;
    stem.extend_from_slice(answer.version.as_bytes())?;
    file_stem(alloc, stem)
}

// Puts the files of a package behind the others.
fn push_package(
    alloc: Global,
    files: &mut Vec<Placed>,
    folder: &str,
    answer: &PackageAnswer,
) -> Result<(), AllocError>
    ensures { OnOk result
        (files.new.items ≡ files.old.items ++ Spec.files_of_package folder.now answer.now) }
{
    let stem = stem_of(alloc, answer)?;
    push_files(
        alloc,
        files,
        folder,
        stem.as_slice(),
        &answer.installability,
    )
}

// Puts the files of packages behind the others.
fn push_packages(
    alloc: Global,
    files: &mut Vec<Placed>,
    folder: &str,
    answers: &[PackageAnswer],
) -> Result<(), AllocError>
    ensures { OnOk result
        (files.new.items ≡ files.old.items
        ++ flat_map (Spec.files_of_package folder.now) answers.now) }
{
    for answer in answers {
        push_package(alloc, files, folder, answer)?;
    }
    Ok(())
}

/// The files of what is answered, in the folder: `NAME_VERSION.request` and `NAME_VERSION.refutation` of each package that is broken, and
/// before them `base.request` and `base.refutation` where what stands beside each is. Memory alone can fail.
pub(crate) fn files_of_survey(
    alloc: Global,
    folder: &str,
    surveyed: &Surveyed,
) -> Result<Vec<Placed>, AllocError>
    ensures { IfOk result (λ files. files.items ≡ Spec.files_of_survey folder.now surveyed.now) }
{
    let mut files = Vec::new(alloc);
    push_files(alloc, &mut files, folder, b"base", &surveyed.base)?;
    push_packages(alloc, &mut files, folder, surveyed.packages.as_slice())?;
    Ok(files)
}

// Whether the file was put. Memory alone can fail.
fn is_put(put: Result<(), PutError>) -> Result<bool, AllocError>
    ensures { Spec.IsPutAnswer put result }
{
    match put {
        Ok(()) => Ok(true),
        Err(PutError::Unwritten) => Ok(false),
        Err(PutError::OutOfMemory) => Err(AllocError),
    }
}

// Puts the file, under its very name. Says whether that was done.
fn put_file<H: Host>(alloc: Global, host: &mut H, file: &Placed) -> Result<bool, AllocError>
    ensures { (at : Files) (was : Kept H.Journal) → H.files host.old ≡ Some at
        → H.kept host.old ≡ Some was
        → Spec.IsLeftOfFile file.now at was result (H.files host.new) (H.kept host.new) }
{
    is_put(host.put_named(alloc, file.path.as_slice(), file.text.as_slice()))
}

// Puts the file behind those that are lost, unless it was put.
fn push_lost<'f>(
    lost: &mut Vec<&'f Placed>,
    file: &'f Placed,
    is_put: bool,
) -> Result<(), AllocError>
    ensures { OnOk result (map (λ one. one.now) lost.new.items
        ≡ map (λ one. one.now) lost.old.items ++ Spec.lost_unless is_put file.now) }
{
    if !is_put {
        lost.push(file)?;
    }
    Ok(())
}

/// Puts the files, one after the other, and gives those that couldn't be written. Memory alone can fail.
pub(crate) fn put_files<'f, H: Host>(
    alloc: Global,
    host: &mut H,
    files: &'f [Placed],
) -> Result<Vec<&'f Placed>, AllocError>
    ensures put { (at : Files) (was : Kept H.Journal) → H.files host.old ≡ Some at
        → H.kept host.old ≡ Some was → IfOk result
        (λ lost. Spec.ArePut files.now (map (λ one. one.now) lost.items) at was
        (H.files host.new) (H.kept host.new)) }
    ensures stopped { (at : Files) (was : Kept H.Journal) → H.files host.old ≡ Some at
        → H.kept host.old ≡ Some was
        → IfErr result (λ _. Spec.IsStopped files.now at was (H.files host.new) (H.kept host.new)) }
{
    let mut lost = Vec::new(alloc);
    for file in files {
        let is_put = put_file(alloc, host, file)?;
        push_lost(&mut lost, file, is_put)?;
    }
    Ok(lost)
}

// Tells that the file couldn't be written, below what is told.
fn tell_lost(text: &mut Vec<u8>, file: &Placed) -> Result<(), AllocError> {
    text.extend_from_slice(b"debplan: ")?;
    text.extend_from_slice(file.path.as_slice())?;
    text.extend_from_slice(b": E26 Write\n")
}

/// Tells which files couldn't be written, a line for each, as far as memory isn't refused for it.
pub(crate) fn tell_all_lost(lost: &[&Placed], notes: &mut Notes) {
    for file in lost {
        if tell_lost(&mut notes.text, *file).is_err() {
            return;
        }
    }
}
