//! Tells whether a store's file is missing.

use office_core::KeeperStop;
use std::fs;
use std::io::ErrorKind;
use std::path::Path;

/// True if nothing is at the path, and there is the folder for a file of this name. At any other path it is for `open` to fail.
///
/// # Errors
///
/// Want of memory.
pub(crate) fn is_missing(rt: &HostRuntime, path: &str) -> Result<bool, KeeperStop> {
    match fs::metadata(rt, path) {
        Err(error) if error.kind() == ErrorKind::NotFound => Ok(has_folder(rt, path)),
        Err(error) if error.kind() == ErrorKind::OutOfMemory => Err(KeeperStop::OutOfMemory),
        _ => Ok(false),
    }
}

/// True if a path names a file in a folder that is there.
fn has_folder(rt: &HostRuntime, path: &str) -> bool {
    if path.ends_with('/') {
        return false;
    }
    match Path::new(path).parent() {
        Some(folder) => is_folder(rt, folder.as_os_str()),
        None => false,
    }
}

/// True if there is this folder. The empty name is the folder that the program runs in.
fn is_folder(rt: &HostRuntime, name: &str) -> bool {
    let name = if name.is_empty() { "." } else { name };
    match fs::metadata(rt, name) {
        Ok(found) => found.is_dir(),
        Err(_) => false,
    }
}
