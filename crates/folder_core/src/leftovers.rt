//! New files that are written in the folder of their target, as `.NAME.dsdarc-PROCESS-N`.

use std::alloc::AllocError;
use std::fmt::Write;
use std::fs::{Metadata, OpenFile, OpenOptions, Permissions};
use std::io::{Error, ErrorKind, Read};
use std::os::fd::AsFd;
use std::os::unix::fs::{MetadataExt, OpenOptionsExt, PermissionsExt, fchown};
use std::rt::Files;
use std::{fs, io};

// How many names are tried at most.
const MOST_LEFTOVERS: u32 = 1000;

// A leftover's name doesn't contain longer names, because a name has at most 255 bytes.
const MOST_NAME_BYTES: usize = 200;

/// By how many bytes a leftover's path is at most longer than the file's own: `.`, `.dsdarc-`, ten digits, `-`, three
/// digits.
pub(crate) const MOST_ADDED_BYTES: usize = 23;

// How many bytes of a folder are read at once, and how many times at most.
const BLOCK: usize = 8192;

const MOST_BLOCKS: u64 = 1 << 40;

/// The folder of a path, with its last slash; `./` if the path names none.
pub(crate) fn folder_of(path: &str) -> &str {
    match path.strip_suffix(name_of(path)) {
        Some("") | None => "./",
        Some(folder) => folder,
    }
}

/// The name of a path's file.
pub(crate) fn name_of(path: &str) -> &str {
    match path.rsplit_once('/') {
        Some((_, name)) => name,
        None => path,
    }
}

// A file's name as a leftover's name contains it.
fn named(path: &str) -> &str {
    let name = name_of(path);
    if name.len() > MOST_NAME_BYTES {
        ""
    } else {
        name
    }
}

/// Makes a new file in the folder of a path. Others may read it as they may read the old file there. `leftover` becomes
/// its path.
pub(crate) fn create_beside<R: Files>(
    rt: &R,
    path: &str,
    old: Option<&Metadata>,
    process: u32,
    leftover: &mut String,
) -> io::Result<R::File>
where
    R::File: AsFd,
{
    let mut how = OpenOptions::new();
    how.write(true).create_new(true);
    if old.is_some() {
        how.mode(0o600);
    }
    for number in 0..MOST_LEFTOVERS {
        write_leftover(leftover, path, process, number)?;
        match how.open(rt, leftover.as_str()) {
            Ok(file) => {
                if let Some(old) = old {
                    hand_down(old, &file);
                }
                return Ok(file);
            }
            Err(error) if error.kind() == ErrorKind::AlreadyExists => {}
            Err(error) => return Err(error),
        }
    }
    Err(Error::from(ErrorKind::AlreadyExists))
}

// Makes the text the path of a leftover. It allocates only if the text has no room.
fn write_leftover(
    leftover: &mut String,
    path: &str,
    process: u32,
    number: u32,
) -> Result<(), AllocError> {
    let (folder, name) = (folder_of(path), named(path));
    let folder = if folder == "./" { "" } else { folder };
    leftover.clear();
    write!(leftover, "{folder}.{name}.dsdarc-{process}-{number}")
}

// Gives a new file the owner and the group of an old one, as far as the system allows, and its permissions.
fn hand_down<F: OpenFile + AsFd>(old: &Metadata, file: &F) {
    if let Ok(new) = file.metadata() {
        if new.gid() != old.gid() {
            let _ = fchown(file, None, Some(old.gid()));
        }
        if new.uid() != old.uid() {
            let _ = fchown(file, Some(old.uid()), None);
        }
    }
    let _ = file.set_permissions(Permissions::from_mode(old.mode() & 0o777));
}

/// Removes what processes that no longer exist left in the folder of a path for the same name. If the system doesn't
/// say which exist, nothing is removed. The text is used for paths.
pub(crate) fn remove_abandoned<R: Files>(rt: &R, path: &str, text: &mut String) {
    let Ok(mine) = fs::metadata(rt, "/proc/self") else {
        return;
    };
    let Ok(mut names) = rt.open_dir(folder_of(path)) else {
        return;
    };
    let mut block = [0u8; BLOCK];
    for _block in 0..MOST_BLOCKS {
        let Ok(count) = names.read(&mut block) else {
            return;
        };
        if count == 0 {
            return;
        }
        for name in block[..count].split(|byte| *byte == 0) {
            if let Some(numbers) = numbers_in(name, named(path)) {
                let _ = remove_if_abandoned(rt, path, numbers, &mine, text);
            }
        }
    }
}

// The process and the number in a leftover's name.
fn numbers_in(leftover: &[u8], name: &str) -> Option<(u32, u32)> {
    let leftover = str::from_utf8(leftover).ok()?;
    let numbers = leftover
        .strip_prefix('.')?
        .strip_prefix(name)?
        .strip_prefix(".dsdarc-")?;
    let (process, number) = numbers.split_once('-')?;
    let number: u32 = number.parse().ok()?;
    if number < MOST_LEFTOVERS {
        Some((process.parse().ok()?, number))
    } else {
        None
    }
}

// Removes a leftover whose process no longer exists. A process of another user may be hidden, so only root removes
// files of other users.
fn remove_if_abandoned<R: Files>(
    rt: &R,
    path: &str,
    (process, number): (u32, u32),
    mine: &Metadata,
    text: &mut String,
) -> io::Result<()> {
    if is_running(rt, process, text)? {
        return Ok(());
    }
    write_leftover(text, path, process, number)?;
    let found = fs::symlink_metadata(rt, text.as_str())?;
    if found.is_file() && (mine.uid() == 0 || found.uid() == mine.uid()) {
        fs::remove_file(rt, text.as_str())?;
    }
    Ok(())
}

fn is_running<R: Files>(rt: &R, process: u32, text: &mut String) -> Result<bool, AllocError> {
    text.clear();
    write!(text, "/proc/{process}")?;
    match fs::metadata(rt, text.as_str()) {
        Err(error) => Ok(error.kind() != ErrorKind::NotFound),
        Ok(_) => Ok(true),
    }
}
