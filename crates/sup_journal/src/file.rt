//! The file of a journal: its lock, its name on the disk, and a new file in its place.

use crate::fault::OpenFault;
use crate::synced::Synced;
use std::alloc::Allocator;
use std::fs::{File, Files, OpenFile, OpenOptions, TryLockError};
use std::io::{ErrorKind, Write};
use std::path::Path;
use std::{fs, io};
use sup_format::append_header;
use sup_types::Template;

/// Can be locked: by one opening of the file at a time, until it is closed or its process ends.
pub trait LockFile {
    /// Takes the lock, unless another opening of the file has it.
    fn try_lock(&self) -> Result<(), TryLockError>;
}

impl LockFile for File {
    fn try_lock(&self) -> Result<(), TryLockError> {
        File::try_lock(self)
    }
}

/// Locks the journal at this path until the result is dropped, or answers `WouldBlock` if another opening has the lock.
fn lock_journal<R: Files, A: Allocator>(files: &R, alloc: A, path: &str) -> io::Result<R::File>
where
    R::File: LockFile,
{
    let name = format!(in alloc; "{path}.lock")?;
    let mut how = OpenOptions::new();
    let file = how.append(true).create(true).open(files, name.as_str())?;
    file.try_lock()?;
    Ok(file)
}

/// Locks the journal at a path by the file FILE.lock, which is made if there is none, and stays. Then opens its file to read and to
/// append, or makes it, as `how` says. Its name and what it holds are on the disk then.
///
/// # Errors
/// `InUse` if another program has the lock: then no more is opened or made. `OutOfMemory`, and `File`.
pub fn open_file<R: Files, A: Allocator>(
    files: &R,
    alloc: A,
    path: &str,
    how: &mut OpenOptions,
) -> Result<Synced<R::File>, OpenFault>
where
    R::File: LockFile,
{
    let lock = Some(lock_journal(files, alloc, path)?);
    // In append mode each write goes to the end, wherever the reading stopped.
    let file = how.read(true).append(true).open(files, path)?;
    file.sync_all().and(sync_folder(files, path))?;
    Ok(Synced { file, lock })
}

/// Waits until the names of the files in the folder of this path are on the disk.
fn sync_folder<R: Files>(files: &R, path: &str) -> io::Result<()> {
    let folder = match Path::new(path).parent() {
        Some(folder) if !folder.as_str().is_empty() => folder.as_str(),
        _ => ".",
    };
    File::open(files, folder)?.sync_all()
}

/// Begins a new history of this template in the journal at a path. The old file stays under the first of the names FILE.1, FILE.2 and
/// so on that is free, and the number is returned; `None` if there was no file. Whenever the process ends or the power is cut, FILE is
/// the old file or the new one, and whole, and the old history is under one of the names; FILE.new may be left then.
///
/// # Errors
/// `InUse` if another program has the journal, `OutOfMemory`, and `File`. FILE is the old one, or at the last step the new one.
pub fn begin_anew<R: Files, A: Allocator + Copy>(
    files: &R,
    alloc: A,
    path: &str,
    template: &Template,
) -> Result<Option<u64>, OpenFault>
where
    R::File: LockFile,
{
    let _lock = lock_journal(files, alloc, path)?;
    let mut first = Vec::new(alloc);
    append_header(template, &mut first).map_err(io::Error::from)?;
    let new = format!(in alloc; "{path}.new").map_err(io::Error::from)?;
    let mut file = File::create(files, new.as_str())?;
    file.write_all(first.as_slice())?;
    file.sync_all()?;
    let number = keep_old(files, alloc, path)?;
    // The old file's second name is on the disk before its first one is given away.
    sync_folder(files, new.as_str())?;
    fs::rename(files, new.as_str(), path)?;
    sync_folder(files, path)?;
    Ok(number)
}

/// Gives the file at this path a second name: the first that is free.
fn keep_old<R: Files, A: Allocator + Copy>(
    files: &R,
    alloc: A,
    path: &str,
) -> io::Result<Option<u64>> {
    for number in 1..u64::MAX {
        let name = format!(in alloc; "{path}.{number}")?;
        match fs::hard_link(files, path, name.as_str()) {
            Ok(()) => return Ok(Some(number)),
            Err(error) if error.kind() == ErrorKind::AlreadyExists => {}
            Err(error) if error.kind() == ErrorKind::NotFound => return Ok(None),
            Err(error) => return Err(error),
        }
    }
    Err(io::Error::from(ErrorKind::AlreadyExists))
}
