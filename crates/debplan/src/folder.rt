// Folders, brought to the disk.
use crate::places::{Place, folder_of, place_of};
use std::fs::File;
use std::io::ErrorKind;
use std::{fs, io};

/// Brings to the disk that the file to which the path leads is in its folder. An open file that has no name is in none.
pub(crate) fn sync_name(rt: &HostRuntime, path: &str) -> io::Result<()> {
    match place_of(rt, path)? {
        Place::Named(path) => sync_folder(&open_folder(rt, path.as_str())?),
        Place::Open(path) => match fs::canonicalize(rt, path.as_str()) {
            Ok(path) => sync_folder(&open_folder(rt, path.as_str())?),
            Err(error) if error.kind() == ErrorKind::NotFound => Ok(()),
            Err(error) => Err(error),
        },
    }
}

/// Opens the folder in which the path names something.
pub(crate) fn open_folder(rt: &HostRuntime, path: &str) -> io::Result<File> {
    File::open(rt, folder_of(path))
}

/// Brings to the disk which files the folder has. One that its system brings there by itself is left alone.
pub(crate) fn sync_folder(folder: &File) -> io::Result<()> {
    match folder.sync_all() {
        Err(error) if error.kind() == ErrorKind::InvalidInput => Ok(()),
        answer => answer,
    }
}
