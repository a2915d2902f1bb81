//! Files that are replaced as a whole, or stay as they are.

use std::alloc::{AllocError, Global};
use std::fs::{self, File, Metadata, OpenFile, OpenOptions};
use std::io::{self, ErrorKind, Write};
use std::os::unix::fs::{MetadataExt, chown};
use std::path::{Path, PathBuf};
use std::rt::Files;

// How many names are tried for a new file. Those that are taken belong to programs that write at
// the same time, or that a signal ended.
const MOST_NAMES: u32 = 1000;

// The path of a new file in the folder of another one, which has a short name whatever that is
// called.
fn path_beside(alloc: Global, path: &str, number: u32) -> Result<PathBuf, AllocError> {
    let name = format!(in alloc; ".prefixes-{number}.tmp")?;
    Path::new(path).with_file_name(alloc, name.as_str())
}

// Creates a new file in the folder of another one.
fn create_beside<R: Files>(rt: &R, alloc: Global, path: &str) -> io::Result<(PathBuf, R::File)> {
    for number in 0..MOST_NAMES {
        let beside = path_beside(alloc, path, number)?;
        match File::create_new(rt, &beside) {
            Ok(file) => return Ok((beside, file)),
            Err(error) if error.kind() == ErrorKind::AlreadyExists => {}
            Err(error) => return Err(error),
        }
    }
    Err(io::Error::from(ErrorKind::AlreadyExists))
}

// Gives a new file the owner and the permissions of the one that it is to replace. Only root may
// give files away, so that a file of another owner may become the user's.
fn own<R: Files>(rt: &R, path: &str, file: &R::File, old: &Metadata) -> io::Result<()> {
    let _ = chown(rt, path, Some(old.uid()), Some(old.gid()));
    file.set_permissions(old.permissions())
}

// Writes a new file, and waits until it is on the disk.
fn fill<F: Write + OpenFile>(file: &mut F, bytes: &[u8]) -> io::Result<()> {
    file.write_all(bytes)?;
    file.sync_all()
}

// Writes a new file in the folder of another one, and gives it that one's name. If that fails, the
// new file is removed.
fn replace<R: Files>(
    rt: &R,
    alloc: Global,
    path: &str,
    old: Option<&Metadata>,
    bytes: &[u8],
) -> io::Result<()> {
    let (beside, mut file) = create_beside(rt, alloc, path)?;
    let mut done = match old {
        Some(old) => own(rt, beside.as_str(), &file, old),
        None => Ok(()),
    };
    if done.is_ok() {
        done = fill(&mut file, bytes);
    }
    drop(file);
    if done.is_ok() {
        done = fs::rename(rt, &beside, path);
    }
    if done.is_err() {
        let _ = fs::remove_file(rt, &beside);
    }
    done
}

// Replaces a file, which has to be one that the user may write.
fn replace_old<R: Files>(
    rt: &R,
    alloc: Global,
    path: &str,
    old: &Metadata,
    bytes: &[u8],
) -> io::Result<()> {
    drop(OpenOptions::new().write(true).open(rt, path)?);
    let real = rt.canonicalize(alloc, path)?;
    replace(rt, alloc, real.as_str(), Some(old), bytes)
}

/// Writes a file.
///
/// If there is one at the path, it stays as it is until the new one is whole and on the disk. The
/// new one is written beside it, gets its permissions, and then takes its name. A symbolic link
/// leads to the new file; a hard link keeps the old one. A device or a pipe is written as it is.
///
/// # Errors
///
/// A failure to write, or out of memory: the file at the path is the old one. A signal that ends
/// the program may leave a file whose name is `.prefixes-` with a number and `.tmp`.
pub fn save<R: Files>(rt: &R, alloc: Global, path: &str, bytes: &[u8]) -> io::Result<()> {
    match fs::metadata(rt, path) {
        Ok(old) if old.is_file() => replace_old(rt, alloc, path, &old, bytes),
        Ok(_) => fs::write(rt, path, bytes),
        Err(error) if error.kind() == ErrorKind::NotFound => replace(rt, alloc, path, None, bytes),
        Err(error) => Err(error),
    }
}
