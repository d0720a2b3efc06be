//! Files by their paths.

use std::alloc::Global;
use std::fs::{File, OpenFile, OpenOptions, Permissions};
use std::io::ErrorKind;
use std::os::unix::fs::MetadataExt;
use std::path::Path;
use std::rt::Files;
use std::{fs, io};

/// What stands behind the name of a file that is to take another's place.
const BESIDE: &str = ".new";

/// The path of the file itself, where the one given is that of a link to it.
pub fn followed<R: Files>(rt: &R, alloc: Global, path: &str) -> io::Result<String> {
    match fs::symlink_metadata(rt, path) {
        Ok(found) if found.is_symlink() => Ok(rt.canonicalize(alloc, path)?.into_string()),
        _ => Ok(String::from_str(alloc, path)?),
    }
}

/// The permissions of the file at a path, none where there is no file. What is no file is an error.
pub fn permissions_at<R: Files>(rt: &R, path: &str) -> io::Result<Option<Permissions>> {
    match fs::metadata(rt, path) {
        Ok(found) if found.is_file() => Ok(Some(found.permissions())),
        Ok(_) => Err(io::Error::from(ErrorKind::InvalidInput)),
        Err(error) if error.kind() == ErrorKind::NotFound => Ok(None),
        Err(error) => Err(error),
    }
}

/// Whether the file is the one at a path, which isn't a link.
pub fn is_at<R: Files>(rt: &R, file: &File, path: &str) -> io::Result<bool> {
    let (own, there) = (file.metadata()?, fs::symlink_metadata(rt, path)?);
    Ok(own.ino() == there.ino() && own.dev() == there.dev())
}

/// The file at a path, emptied, to which is appended, and which is made where there is none. It is locked until it is closed;
/// `WouldBlock` where another run has locked it. What is no plain file is an error.
fn locked<R: Files<File = File>>(rt: &R, path: &str) -> io::Result<File> {
    match fs::symlink_metadata(rt, path) {
        Ok(found) if !found.is_file() => return Err(io::Error::from(ErrorKind::InvalidInput)),
        _ => {}
    }
    let file = OpenOptions::new()
        .read(true)
        .append(true)
        .create(true)
        .open(rt, path)?;
    file.try_lock()?;
    // Another run may have renamed or removed it since it was opened, before it let go of it.
    if !is_at(rt, &file, path).unwrap_or(false) {
        return Err(io::Error::from(ErrorKind::WouldBlock));
    }
    file.set_len(0)?;
    Ok(file)
}

/// Begins a file that is to take the place of the one at a path, under that one's name with `.new` behind it, which it gives.
pub fn begin<R: Files<File = File>>(
    rt: &R,
    alloc: Global,
    path: &str,
) -> io::Result<(File, String)> {
    let beside = format!(in alloc; "{path}{BESIDE}")?;
    let file = locked(rt, beside.as_str())?;
    Ok((file, beside))
}

/// Asks the system that the folder of a path tells what was put there after a loss of power too. Not each file system lets a
/// folder be synced.
pub fn sync_folder<R: Files>(rt: &R, path: &str) {
    let folder = match Path::new(path).parent() {
        Some(folder) if !folder.as_str().is_empty() => folder.as_str(),
        _ => ".",
    };
    if let Ok(folder) = fs::open(rt, folder) {
        let _ = folder.sync_all();
    }
}

/// Renames a file to a path. Where the folder can't be synced, the file has its place all the same.
pub fn take_place<R: Files>(rt: &R, beside: &str, path: &str) -> io::Result<()> {
    fs::rename(rt, beside, path)?;
    sync_folder(rt, path);
    Ok(())
}
