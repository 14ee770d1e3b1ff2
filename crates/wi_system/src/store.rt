//! A file is stored whole or not at all: its bytes go into a new file beside it, are brought to the disk, and take its place in
//! one step. So a full disk or a kill leaves what was there. A new file that a kill left is in nobody's way, since each store
//! makes one of its own.
ghost use Rattle.std.specs.Prelude.{◌≡◌, ◌≢◌, ◌++◌, codes, string_bytes, IfOk, IsTrue};
ghost use Rattle.std.specs.Fmt.{decimal};

use crate::transfer::{write_synced, write_whole};
use std::alloc::{AllocError, Global};
use std::fs::{self, File, OpenFile, Permissions};
use std::io::{self, ErrorKind};
use std::os::unix::fs::{self as unix, MetadataExt, OpenOptionsExt, PermissionsExt};
use std::rt::Files;
use wi_base::StoreRefused;

// What a file has besides its bytes and its name: what is allowed with it, and whose it is.
#[derive(Clone, Copy)]
struct Attributes {
    mode: u32,
    user: u32,
    group: u32,
}

/// Puts bytes under a name, in a file that takes the place of the one that is there. What can't be replaced is emptied and
/// written where it stands: there alone a part may stand after a failure. Where memory runs out nothing has changed.
pub(crate) fn store_file<R: Files>(
    alloc: Global,
    files: &R,
    name: &str,
    bytes: &[u8],
) -> Result<(), StoreRefused> {
    match replace(alloc, files, name, bytes) {
        Ok(()) => Ok(()),
        Err(error) => match error.kind() {
            ErrorKind::OutOfMemory => Err(StoreRefused::Memory),
            kind if is_written_in_place(kind) => write_in_place(files, name, bytes),
            _ => Err(StoreRefused::Failed),
        },
    }
}

// Whether what can't be replaced for this cause is written where it stands: it is no regular file, or a link to nothing;
// nothing may be made beside it or put in its place; or the new file's name is too long. Want of room is no such cause.
fn is_written_in_place(cause: ErrorKind) -> bool
    ensures { IsTrue result → (cause ≢ ErrorKind.StorageFull) × (cause ≢ ErrorKind.QuotaExceeded) × (cause ≢ ErrorKind.FileTooLarge) }
{
    matches!(
        cause,
        ErrorKind::Unsupported
            | ErrorKind::NotFound
            | ErrorKind::PermissionDenied
            | ErrorKind::ReadOnlyFilesystem
            | ErrorKind::ResourceBusy
            | ErrorKind::InvalidFilename
    )
}

// Empties what stands under a name, or makes it, and writes the bytes.
fn write_in_place<R: Files>(files: &R, name: &str, bytes: &[u8]) -> Result<(), StoreRefused> {
    let Ok(mut file) = fs::create(files, name) else {
        return Err(StoreRefused::Failed);
    };
    match write_whole(&mut file, bytes) {
        Ok(()) => Ok(()),
        Err(_) => Err(StoreRefused::Failed),
    }
}

// Replaces the file of a name, or makes it. If that fails nothing has changed.
fn replace<R: Files>(alloc: Global, files: &R, name: &str, bytes: &[u8]) -> io::Result<()> {
    let path = path_of(alloc, files, name)?;
    let replaced = replace_file(alloc, files, path.as_str(), bytes);
    drop(path);
    replaced
}

// The path of the file that a name stands for. A link stays, and the file that it leads to is replaced.
fn path_of<R: Files>(alloc: Global, files: &R, name: &str) -> io::Result<String> {
    match fs::symlink_metadata(files, name) {
        Ok(found) if found.is_symlink() => linked(alloc, files, name),
        _ => Ok(String::from_str(alloc, name)?),
    }
}

// The path that a link leads to. The links of these two folders stand for files that are open, as standard output, and
// who has one open would go on with the old file.
fn linked<R: Files>(alloc: Global, files: &R, name: &str) -> io::Result<String> {
    if name.starts_with("/dev/") || name.starts_with("/proc/") {
        return Err(io::Error::from(ErrorKind::Unsupported));
    }
    Ok(files.canonicalize(alloc, name)?.into_string())
}

// Writes a new file beside the one of a path, and puts it in its place. If that fails the new file is gone.
fn replace_file<R: Files>(alloc: Global, files: &R, path: &str, bytes: &[u8]) -> io::Result<()> {
    let older = older_file(files, path)?;
    let (part, file) = new_part(alloc, files, path, older)?;
    let replaced = fill_and_rename(files, file, part.as_str(), path, older, bytes);
    if replaced.is_err() {
        // It may stay where even this fails. What counts is the first failure.
        let _ = fs::remove_file(files, part.as_str());
    }
    drop(part);
    replaced
}

// The attributes of the file of a path, if there is one. Who may not write it may not replace it.
fn older_file<R: Files>(files: &R, path: &str) -> io::Result<Option<Attributes>> {
    match fs::metadata(files, path) {
        Ok(found) if found.is_file() => {
            File::options().write(true).open(files, path)?;
            Ok(Some(Attributes {
                mode: found.mode() & 0o7777,
                user: found.uid(),
                group: found.gid(),
            }))
        }
        Ok(_) => Err(io::Error::from(ErrorKind::Unsupported)),
        Err(error) if error.kind() == ErrorKind::NotFound => Ok(None),
        Err(error) => Err(error),
    }
}

// A new file beside the one of a path, and its path. Names that are taken are passed over: another store may be at work
// there, or was killed.
fn new_part<R: Files>(
    alloc: Global,
    files: &R,
    path: &str,
    older: Option<Attributes>,
) -> io::Result<(String, R::File)> {
    for number in 0..u64::MAX {
        match part_of(alloc, files, path, number, older) {
            Err(error) if error.kind() == ErrorKind::AlreadyExists => {}
            made => return made,
        }
    }
    Err(io::Error::from(ErrorKind::AlreadyExists))
}

// Makes the new file of a number. It is never open to more users than the older one.
fn part_of<R: Files>(
    alloc: Global,
    files: &R,
    path: &str,
    number: u64,
    older: Option<Attributes>,
) -> io::Result<(String, R::File)> {
    let mode = older.map_or(0o666, |older| older.mode & 0o777);
    let part = part_name(alloc, path, number)?;
    let file = File::options()
        .write(true)
        .create_new(true)
        .mode(mode)
        .open(files, part.as_str())?;
    Ok((part, file))
}

// The path of a new file, which is in the same folder.
fn part_name(alloc: Global, path: &str, number: u64) -> Result<String, AllocError>
    ensures { IfOk result (λ part. string_bytes part ≡ path.now ++ codes ".part" ++ decimal number) }
{
    format!(in alloc; "{path}.part{number}")
}

// Writes the bytes into a new file, brings them to the disk, and puts the file in the place of the older one.
fn fill_and_rename<R: Files>(
    files: &R,
    file: R::File,
    part: &str,
    path: &str,
    older: Option<Attributes>,
    bytes: &[u8],
) -> io::Result<()> {
    fill(files, file, part, older, bytes)?;
    fs::rename(files, part, path)
}

// Writes the bytes into a new file and closes it.
fn fill<R: Files>(
    files: &R,
    mut file: R::File,
    part: &str,
    older: Option<Attributes>,
    bytes: &[u8],
) -> io::Result<()> {
    if let Some(older) = older {
        take_after(files, &file, part, older)?;
    }
    write_synced(&mut file, bytes)
}

// Gives a new file the attributes of the older one. Who may not give it to the other's owner may not replace it.
fn take_after<R: Files>(
    files: &R,
    file: &R::File,
    part: &str,
    older: Attributes,
) -> io::Result<()> {
    let made = file.metadata()?;
    if (made.uid(), made.gid()) != (older.user, older.group) {
        unix::lchown(files, part, Some(older.user), Some(older.group))?;
    }
    file.set_permissions(Permissions::from_mode(older.mode))
}
