//! A file that is written beside its place, and put there whole.

use crate::trouble::Trouble;
use std::fs::{File, Metadata, OpenOptions, TryLockError};
use std::io::Write;
use std::os::unix::fs::{MetadataExt, OpenOptionsExt, PermissionsExt, fchown};
use std::{fs, io};

/// The most bytes of an archive that wait to be written.
const MOST_WAITING: usize = 65_536;

/// The mode of a file that is being written.
const MODE: u32 = 0o600;

/// The bits of a mode that a new file gets.
const MODE_BITS: u32 = 0o777;

/// A file that is written beside its place, under the place's name with `.part` behind it. The lock
/// on it is this process's own, as long as it is open.
#[derive(Drop)]
pub(crate) struct Part {
    file: File,
    /// Where it is written.
    path: String,
    /// Where it goes.
    place: String,
    waiting: Vec<u8>,
}

/// Whether something is at the path, be it a link to nothing.
fn is_there(rt: &HostRuntime, path: &str) -> Result<bool, Trouble> {
    match fs::symlink_metadata(rt, path) {
        Ok(_) => Ok(true),
        Err(error) if error.kind() == io::ErrorKind::NotFound => Ok(false),
        Err(error) => Err(Trouble::of_system(rt.alloc(), path, error)),
    }
}

/// Refuses a place where something is.
pub(crate) fn refuse_there(rt: &HostRuntime, path: &str) -> Result<(), Trouble> {
    if is_there(rt, path)? {
        return Err(Trouble::There(String::from_str(rt.alloc(), path)?));
    }
    Ok(())
}

/// Refuses a path at which something other than a regular file is.
fn refuse_odd(rt: &HostRuntime, path: &str) -> Result<(), Trouble> {
    match fs::symlink_metadata(rt, path) {
        Ok(found) if !found.is_file() => Err(Trouble::at(rt.alloc(), path, &"not a regular file")),
        Ok(_) => Ok(()),
        Err(error) if error.kind() == io::ErrorKind::NotFound => Ok(()),
        Err(error) => Err(Trouble::of_system(rt.alloc(), path, error)),
    }
}

/// The file at the path, which is made if it is not there.
fn opened(rt: &HostRuntime, path: &str) -> Result<File, Trouble> {
    refuse_odd(rt, path)?;
    let mut options = OpenOptions::new();
    options.write(true).create(true).mode(MODE);
    match options.open(rt, path) {
        Ok(file) => Ok(file),
        Err(error) => Err(Trouble::of_system(rt.alloc(), path, error)),
    }
}

/// Whether both are what the system says of one file.
fn is_same(one: &Metadata, other: &Metadata) -> bool {
    one.dev() == other.dev() && one.ino() == other.ino()
}

/// What the system says of the file at the path, which is open, or nothing if it is there no more,
/// but maybe another one: the cut that had it until now took it away.
fn still_there(rt: &HostRuntime, path: &str, file: &File) -> io::Result<Option<Metadata>> {
    let own = file.metadata()?;
    match fs::symlink_metadata(rt, path) {
        Ok(found) if is_same(&found, &own) => Ok(Some(own)),
        Ok(_) => Ok(None),
        Err(error) if error.kind() == io::ErrorKind::NotFound => Ok(None),
        Err(error) => Err(error),
    }
}

/// Locks the file at the path for this process alone, or refuses where another cut has it, or just
/// had it. The answer is what the system says of the file.
fn lock(rt: &HostRuntime, file: &File, path: &str) -> Result<Metadata, Trouble> {
    match file.try_lock() {
        Ok(()) => match still_there(rt, path, file) {
            Ok(Some(found)) => Ok(found),
            Ok(None) => Err(Trouble::Running(String::from_str(rt.alloc(), path)?)),
            Err(error) => Err(Trouble::of_system(rt.alloc(), path, error)),
        },
        Err(TryLockError::WouldBlock) => {
            Err(Trouble::Running(String::from_str(rt.alloc(), path)?))
        }
        Err(TryLockError::Error(error)) => Err(Trouble::of_system(rt.alloc(), path, error)),
    }
}

/// Empties a file that a cut which was killed may have left, and gives it the mode of the store
/// that is cut, and its owner where the system lets this process.
fn prepare(file: &File, found: &Metadata, old: &Metadata) -> io::Result<()> {
    file.set_len(0)?;
    let mut permissions = old.permissions();
    permissions.set_mode(old.mode() & MODE_BITS);
    file.set_permissions(permissions)?;
    if found.uid() != old.uid() || found.gid() != old.gid() {
        let _ = fchown(file, Some(old.uid()), Some(old.gid()));
    }
    Ok(())
}

/// The folder of a path.
fn folder_of(path: &str) -> &str {
    match path.rsplit_once('/') {
        Some(("", _)) => "/",
        Some((folder, _)) => folder,
        None => ".",
    }
}

impl Part {
    /// Begins a file that is to go to the place, where nothing may be, with the mode of the store
    /// that is cut. What a cut that was killed left beside the place is written over.
    pub(crate) fn begin(rt: &HostRuntime, place: &str, old: &Metadata) -> Result<Part, Trouble> {
        refuse_there(rt, place)?;
        let alloc = rt.alloc();
        let path = format!(in alloc; "{place}.part")?;
        let file = opened(rt, path.as_str())?;
        let found = lock(rt, &file, path.as_str())?;
        // The cut that was here before may just have put its file in its place.
        refuse_there(rt, place)?;
        if is_same(&found, old) {
            return Err(Trouble::at(alloc, path.as_str(), &"it is the store that is to be cut"));
        }
        if let Err(error) = prepare(&file, &found, old) {
            let _ = fs::remove_file(rt, path.as_str());
            return Err(Trouble::of_system(alloc, path.as_str(), error));
        }
        Ok(Part {
            file,
            path,
            place: String::from_str(alloc, place)?,
            waiting: Vec::new(alloc),
        })
    }

    /// What the system says of the file.
    fn failed(&self, rt: &HostRuntime, error: io::Error) -> Trouble {
        Trouble::of_system(rt.alloc(), self.path.as_str(), error)
    }

    /// Writes the bytes.
    pub(crate) fn write(&mut self, rt: &HostRuntime, bytes: &[u8]) -> Result<(), Trouble> {
        match self.file.write_all(bytes) {
            Ok(()) => Ok(()),
            Err(error) => Err(self.failed(rt, error)),
        }
    }

    /// Writes the bytes that wait.
    fn flush(&mut self, rt: &HostRuntime) -> Result<(), Trouble> {
        let written = self.file.write_all(self.waiting.as_slice());
        self.waiting.clear();
        match written {
            Ok(()) => Ok(()),
            Err(error) => Err(self.failed(rt, error)),
        }
    }

    /// Writes a line, once enough lines wait.
    pub(crate) fn write_line(&mut self, rt: &HostRuntime, line: &str) -> Result<(), Trouble> {
        self.waiting.extend_from_slice(line.as_bytes())?;
        self.waiting.push(b'\n')?;
        if self.waiting.len() >= MOST_WAITING {
            self.flush(rt)?;
        }
        Ok(())
    }

    /// Writes what waits, and syncs the file.
    pub(crate) fn sync(&mut self, rt: &HostRuntime) -> Result<(), Trouble> {
        self.flush(rt)?;
        match self.file.sync_all() {
            Ok(()) => Ok(()),
            Err(error) => Err(self.failed(rt, error)),
        }
    }

    /// Puts the file, which was synced, into its place, and syncs the folder.
    pub(crate) fn put(&self, rt: &HostRuntime) -> Result<(), Trouble> {
        let place = self.place.as_str();
        refuse_there(rt, place)?;
        if let Err(error) = fs::rename(rt, self.path.as_str(), place) {
            return Err(Trouble::of_system(rt.alloc(), place, error));
        }
        let synced = match File::open(rt, folder_of(place)) {
            Ok(folder) => folder.sync_all(),
            Err(error) => Err(error),
        };
        match synced {
            Ok(()) => Ok(()),
            Err(error) => {
                self.take_back(rt);
                Err(Trouble::of_system(rt.alloc(), place, error))
            }
        }
    }

    /// Removes the file from its place again, where this put it.
    pub(crate) fn take_back(&self, rt: &HostRuntime) {
        let _ = fs::remove_file(rt, self.place.as_str());
    }

    /// Removes the file that was not put into its place.
    pub(crate) fn remove(&self, rt: &HostRuntime) {
        let _ = fs::remove_file(rt, self.path.as_str());
    }
}
