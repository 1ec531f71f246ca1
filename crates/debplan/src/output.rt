// A text that is put in the place of a file: written beside it, brought to the disk and renamed, so that under the file's name
// there is at each moment what there was, or all of the text.
use crate::folder::{open_folder, sync_folder};
use crate::leftovers::{MARK, remove_all_left, remove_left};
use crate::places::{Place, STANDARD_ERROR, STANDARD_OUTPUT, is_same, place_of, text_of};
use cli::PutError;
use std::fs::{File, Metadata, OpenOptions};
use std::io::{ErrorKind, Write};
use std::os::unix::fs::{MetadataExt, OpenOptionsExt, fchown};
use std::{fs, io, process};

/// Puts the text in the place of the file at the path, or makes the file. A link stays, and the file that it leads to is replaced or
/// made. What is no plain file, as a device or a pipe, is written as it stands, and so is what a process has open.
pub(crate) fn put_text(rt: &HostRuntime, path: &[u8], text: &[u8]) -> Result<(), PutError> {
    put_of(put_at(rt, path, text))
}

/// Puts the text in the place of what stands under this very name, or makes a file of this name. A link isn't followed, and what is no
/// plain file isn't opened: both are replaced by a file. A folder isn't.
pub(crate) fn put_under(rt: &HostRuntime, path: &[u8], text: &[u8]) -> Result<(), PutError> {
    put_of(put_under_name(rt, path, text))
}

/// Tries whether files can be made in the folder, by making one and removing it. What runs that were stopped left there is removed.
pub(crate) fn try_folder(rt: &HostRuntime, folder: &[u8]) -> Result<(), PutError> {
    put_of(try_making(rt, folder))
}

fn put_of(put: io::Result<()>) -> Result<(), PutError> {
    match put {
        Ok(()) => Ok(()),
        Err(error) if error.kind() == ErrorKind::OutOfMemory => Err(PutError::OutOfMemory),
        Err(_) => Err(PutError::Unwritten),
    }
}

fn put_under_name(rt: &HostRuntime, path: &[u8], text: &[u8]) -> io::Result<()> {
    let place = text_of(path)?;
    match fs::symlink_metadata(rt, place) {
        Ok(metadata) if metadata.is_file() => put_beside(rt, place, text, Some(metadata)),
        Ok(_) => put_beside(rt, place, text, None),
        Err(error) if error.kind() == ErrorKind::NotFound => put_beside(rt, place, text, None),
        Err(error) => Err(error),
    }
}

fn try_making(rt: &HostRuntime, folder: &[u8]) -> io::Result<()> {
    let folder = text_of(folder)?;
    remove_all_left(rt, folder);
    let place = format!(in rt.alloc(); "{folder}/refutations")?;
    let Beside { path, .. } = make_beside(rt, place.as_str(), &options_for(&None))?;
    fs::remove_file(rt, path.as_str())
}

fn put_at(rt: &HostRuntime, path: &[u8], text: &[u8]) -> io::Result<()> {
    match place_of(rt, text_of(path)?)? {
        Place::Open(path) => write_on_open(rt, path.as_str(), text),
        Place::Named(path) => put_named(rt, path.as_str(), text),
    }
}

// Writes the text on an open file: on what is a standard stream of this process by that, and at the end of any other.
fn write_on_open(rt: &HostRuntime, path: &str, text: &[u8]) -> io::Result<()> {
    if is_same(rt, path, STANDARD_OUTPUT) {
        return rt.stdout().write_all(text);
    }
    if is_same(rt, path, STANDARD_ERROR) {
        return rt.stderr().write_all(text);
    }
    let mut file = OpenOptions::new().append(true).open(rt, path)?;
    file.write_all(text)
}

fn put_named(rt: &HostRuntime, place: &str, text: &[u8]) -> io::Result<()> {
    remove_left(rt, place);
    match fs::symlink_metadata(rt, place) {
        Ok(metadata) if metadata.is_file() => put_beside(rt, place, text, Some(metadata)),
        Ok(_) => write_through(rt, place, text),
        Err(error) if error.kind() == ErrorKind::NotFound => put_beside(rt, place, text, None),
        Err(error) => Err(error),
    }
}

// Writes the text on what stands at the path.
fn write_through(rt: &HostRuntime, path: &str, text: &[u8]) -> io::Result<()> {
    let mut file = OpenOptions::new().write(true).open(rt, path)?;
    file.write_all(text)
}

// Writes the text beside the place and renames it. A folder that can't be brought to the disk is found before that.
fn put_beside(
    rt: &HostRuntime,
    place: &str,
    text: &[u8],
    metadata: Option<Metadata>,
) -> io::Result<()> {
    let folder = open_folder(rt, place)?;
    let Beside { path, file } = make_beside(rt, place, &options_for(&metadata))?;
    let put = match write_file(file, text, metadata) {
        Ok(()) => fs::rename(rt, path.as_str(), place),
        Err(error) => Err(error),
    };
    match put {
        Ok(()) => sync_folder(&folder),
        Err(error) => {
            let _left = fs::remove_file(rt, path.as_str());
            Err(error)
        }
    }
}

// A new file, and its path.
#[derive(Drop)]
struct Beside {
    path: String,
    file: File,
}

// How a new file is made: one that will replace another so that nobody else can read it before it has that one's permissions.
fn options_for(metadata: &Option<Metadata>) -> OpenOptions {
    let mut options = OpenOptions::new();
    options.write(true).create_new(true);
    if metadata.is_some() {
        options.mode(0o600);
    }
    options
}

// How many names are tried.
const NAMES: u32 = 100;

// Makes a new file beside the place, whose name has the number of this process, and behind it another one where that is there.
fn make_beside(rt: &HostRuntime, place: &str, options: &OpenOptions) -> io::Result<Beside> {
    for number in 0..NAMES {
        let path = path_beside(rt, place, number)?;
        match options.open(rt, path.as_str()) {
            Ok(file) => return Ok(Beside { path, file }),
            Err(error) if error.kind() == ErrorKind::AlreadyExists => {}
            Err(error) => return Err(error),
        }
    }
    Err(io::Error::from(ErrorKind::AlreadyExists))
}

fn path_beside(rt: &HostRuntime, place: &str, number: u32) -> io::Result<String> {
    let process = process::id(rt.process());
    match number {
        0 => Ok(format!(in rt.alloc(); "{place}{MARK}{process}")?),
        _ => Ok(format!(in rt.alloc(); "{place}{MARK}{process}-{number}")?),
    }
}

// Writes a new file and brings it to the disk, with the owner and the permissions of what it will replace.
fn write_file(file: File, text: &[u8], metadata: Option<Metadata>) -> io::Result<()> {
    let mut file = file;
    if let Some(metadata) = metadata {
        keep_owner(&file, &metadata);
        file.set_permissions(metadata.permissions())?;
    }
    file.write_all(text)?;
    file.sync_all()
}

// Gives the file this owner and this group, or this group alone, as far as the system lets it.
fn keep_owner(file: &File, metadata: &Metadata) {
    if fchown(file, Some(metadata.uid()), Some(metadata.gid())).is_err() {
        let _refused = fchown(file, None, Some(metadata.gid()));
    }
}
