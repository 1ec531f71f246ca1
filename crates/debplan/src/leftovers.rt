// Files that a run which was stopped has left beside the places of its outputs.
use crate::places::{folder_of, name_of};
use std::io::ErrorKind;
use std::{fs, io};

/// What stands between the name of a place and the number of the process that writes a file beside it.
pub(crate) const MARK: &str = ".debplan-";

/// Removes what runs that were stopped have left beside the place, as far as that can be done.
pub(crate) fn remove_left(rt: &HostRuntime, place: &str) {
    let _removed = remove_in(rt, folder_of(place), Some(name_of(place)));
}

/// Removes what runs that were stopped have left in the folder beside whatever places, as far as that can be done.
pub(crate) fn remove_all_left(rt: &HostRuntime, folder: &str) {
    let _removed = remove_in(rt, folder, None);
}

fn remove_in(rt: &HostRuntime, folder: &str, of: Option<&str>) -> io::Result<()> {
    for entry in fs::read_dir(rt, folder)? {
        let entry = entry?;
        let name = entry.file_name();
        if is_left(rt, name, of) {
            let path = format!(in rt.alloc(); "{folder}/{name}")?;
            fs::remove_file(rt, path.as_str())?;
        }
    }
    Ok(())
}

// Whether a file of this name was left beside the place of that name, or beside any: its process is no more.
fn is_left(rt: &HostRuntime, name: &str, of: Option<&str>) -> bool {
    match name.rsplit_once(MARK) {
        Some((place, number)) => of.is_none_or(|of| of == place) && is_gone(rt, number),
        None => false,
    }
}

// Whether there is no process of this number, behind which a dash and another number may be.
fn is_gone(rt: &HostRuntime, number: &str) -> bool {
    let process = number
        .split_once('-')
        .map_or(number, |(process, _)| process);
    is_number(process) && !has_process(rt, process).unwrap_or(true)
}

fn is_number(word: &str) -> bool {
    !word.is_empty() && word.bytes().all(|byte| byte.is_ascii_digit())
}

fn has_process(rt: &HostRuntime, process: &str) -> io::Result<bool> {
    let folder = format!(in rt.alloc(); "/proc/{process}")?;
    match fs::metadata(rt, folder.as_str()) {
        Ok(_) => Ok(true),
        Err(error) if error.kind() == ErrorKind::NotFound => {
            // without a folder of processes none is known
            Ok(fs::metadata(rt, "/proc/self").is_err())
        }
        Err(error) => Err(error),
    }
}
