// Where paths lead.
use std::fs::Metadata;
use std::io::ErrorKind;
use std::os::unix::fs::MetadataExt;
use std::{fs, io};

/// Where a path leads behind the links at its end.
#[derive(Drop)]
pub(crate) enum Place {
    /// To an open file of a process, as `/dev/stdout` does, by this path of the folder `/proc`.
    Open(String),
    /// To what is at this path and is no link, or to nothing yet.
    Named(String),
}

// How many links are followed: as many as the system does.
const LINKS: usize = 40;

/// Where the path leads: a relative link from its own folder on, and a link that leads to nothing to where that would be.
pub(crate) fn place_of(rt: &HostRuntime, path: &str) -> io::Result<Place> {
    let mut path = String::from_str(rt.alloc(), path)?;
    for _ in 0..=LINKS {
        if is_of_process(rt, path.as_str())? {
            return Ok(Place::Open(path));
        }
        match target_of(rt, path.as_str())? {
            Some(target) => path = target,
            None => return Ok(Place::Named(path)),
        }
    }
    Err(io::Error::from(ErrorKind::FilesystemLoop))
}

// Whether the path is in the folder of processes, where names lead to open files. A folder whose own path is no text is none of those.
fn is_of_process(rt: &HostRuntime, path: &str) -> io::Result<bool> {
    match fs::canonicalize(rt, folder_of(path)) {
        Ok(folder) => Ok(folder.as_str() == "/proc" || folder.as_str().starts_with("/proc/")),
        Err(error) if error.kind() == ErrorKind::InvalidFilename => Ok(false),
        Err(error) => Err(error),
    }
}

// The path behind the link at this one; none where no link is there.
fn target_of(rt: &HostRuntime, path: &str) -> io::Result<Option<String>> {
    match fs::symlink_metadata(rt, path) {
        Ok(metadata) if metadata.is_symlink() => Ok(Some(behind_link(rt, path)?)),
        Ok(_) => Ok(None),
        Err(error) if error.kind() == ErrorKind::NotFound => Ok(None),
        Err(error) => Err(error),
    }
}

fn behind_link(rt: &HostRuntime, path: &str) -> io::Result<String> {
    let target = fs::read_link(rt, path)?;
    match path.rsplit_once('/') {
        Some((folder, _)) if !target.as_str().starts_with('/') => {
            let target = target.as_str();
            Ok(format!(in rt.alloc(); "{folder}/{target}")?)
        }
        _ => Ok(target.into_string()),
    }
}

/// The folder in which the path names something.
pub(crate) fn folder_of(path: &str) -> &str {
    match path.rsplit_once('/') {
        None => ".",
        Some(("", _)) => "/",
        Some((folder, _)) => folder,
    }
}

/// What the path names in its folder.
pub(crate) fn name_of(path: &str) -> &str {
    match path.rsplit_once('/') {
        None => path,
        Some((_, name)) => name,
    }
}

/// The path as text, which it has to be.
pub(crate) fn text_of(path: &[u8]) -> io::Result<&str> {
    match str::from_utf8(path) {
        Ok(path) => Ok(path),
        Err(_) => Err(io::Error::from(ErrorKind::InvalidInput)),
    }
}

/// Whether both paths lead to one and the same thing that is there, of whatever kind.
pub(crate) fn is_same(rt: &HostRuntime, left: &str, right: &str) -> bool {
    match (fs::metadata(rt, left), fs::metadata(rt, right)) {
        (Ok(left), Ok(right)) => is_one(&left, &right),
        _ => false,
    }
}

fn is_one(left: &Metadata, right: &Metadata) -> bool {
    left.dev() == right.dev() && left.ino() == right.ino()
}

/// Whether the path leads to a plain file, which can be read again.
pub(crate) fn is_plain(rt: &HostRuntime, path: &[u8]) -> bool {
    match text_of(path) {
        Ok(path) => is_plain_at(rt, path),
        Err(_) => false,
    }
}

fn is_plain_at(rt: &HostRuntime, path: &str) -> bool {
    fs::metadata(rt, path).is_ok_and(|metadata| metadata.is_file())
}

// The standard streams of this process.
pub(crate) const STANDARD_INPUT: &str = "/proc/self/fd/0";

pub(crate) const STANDARD_OUTPUT: &str = "/proc/self/fd/1";

pub(crate) const STANDARD_ERROR: &str = "/proc/self/fd/2";

/// Which standard stream, of those that are read or answered on, the plain file at the path is, unless the path names it as an open file.
pub(crate) fn stream_at(rt: &HostRuntime, path: &[u8]) -> Option<&'static str> {
    let Ok(path) = text_of(path) else {
        return None;
    };
    if !is_plain_at(rt, path) || matches!(place_of(rt, path), Ok(Place::Open(_))) {
        return None;
    }
    if is_same(rt, path, STANDARD_OUTPUT) {
        return Some("standard output");
    }
    if is_same(rt, path, STANDARD_INPUT) {
        return Some("standard input");
    }
    None
}

/// Whether the name at the path, or what it leads to by links, is in the folder.
pub(crate) fn is_in_folder(rt: &HostRuntime, folder: &[u8], path: &[u8]) -> bool {
    let (Ok(folder), Ok(path)) = (text_of(folder), text_of(path)) else {
        return false;
    };
    match place_of(rt, path) {
        Ok(Place::Named(place)) => {
            is_same(rt, folder_of(path), folder) || is_same(rt, folder_of(place.as_str()), folder)
        }
        _ => false,
    }
}

// The path at which a file is that is read: at `-` standard input.
fn read_at(path: &str) -> &str {
    if path == "-" { STANDARD_INPUT } else { path }
}

/// Whether both paths lead to one plain file, which neither has to be there: then they lead to one name in one folder. If only the second
/// one is `-`, it is standard input.
pub(crate) fn is_same_file(rt: &HostRuntime, left: &[u8], right: &[u8]) -> bool {
    let (Ok(left), Ok(right)) = (text_of(left), text_of(right)) else {
        return false;
    };
    let right = if left == right { right } else { read_at(right) };
    match (fs::metadata(rt, left), fs::metadata(rt, right)) {
        (Ok(left), Ok(right)) => left.is_file() && is_one(&left, &right),
        (Err(_), Err(_)) => left == right || is_same_name(rt, left, right),
        _ => false,
    }
}

// Whether both paths, at which nothing is, lead to one name in one folder.
fn is_same_name(rt: &HostRuntime, left: &str, right: &str) -> bool {
    match (place_of(rt, left), place_of(rt, right)) {
        (Ok(Place::Named(left)), Ok(Place::Named(right))) => {
            let (left, right) = (left.as_str(), right.as_str());
            name_of(left) == name_of(right) && is_same(rt, folder_of(left), folder_of(right))
        }
        _ => false,
    }
}
