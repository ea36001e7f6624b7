//! Files of stores that are made under another name, and take their own when they are whole.

use crate::files::{holds_no_commit, identity_of, length_of, log_name, open_made, remove_log};
use crate::stores::{LeftFile, StoreFile};
use book_desk_app::{Failure, StoreFailure};
use std::fs::{self, File, OpenOptions};
use std::os::unix::fs::{MetadataExt, chown};
use std::path::Path;

/// A store's file that is made under another name.
#[derive(Drop)]
pub struct Draft {
    /// The name that it is to have.
    name: String,
    /// The name under which it is made.
    made: String,
    /// The device and the number of the file that was made.
    identity: Option<(u64, u64)>,
}

const FAILED: Failure = Failure::Store(StoreFailure::Store);

const NO_MEMORY: Failure = Failure::Store(StoreFailure::Memory);

/// Whether a store may be made at a name where none may be: its file has no byte, and its log holds no commit.
///
/// # Errors
///
/// `Store` where a file can't be looked at.
pub fn is_free(rt: &HostRuntime, name: &str) -> Result<bool, Failure> {
    if length_of(rt, name).unwrap_or(0) > 0 {
        return Ok(false);
    }
    holds_no_commit(rt, name)
}

/// Whether nothing is at a name, and what is beside it holds no commit.
///
/// # Errors
///
/// `Store` where a file can't be looked at.
pub fn is_unused(rt: &HostRuntime, name: &str) -> Result<bool, Failure> {
    if length_of(rt, name).is_some() {
        return Ok(false);
    }
    holds_no_commit(rt, name)
}

/// Empties the log of a store that was folded in, and syncs it; whether it is empty. What was removed may stand in it.
pub fn empty_log(rt: &HostRuntime, name: &str) -> bool {
    let Ok(log) = log_name(rt.alloc(), name) else {
        return false;
    };
    if length_of(rt, log.as_str()).is_none() {
        return true;
    }
    match OpenOptions::new().write(true).open(rt, log.as_str()) {
        Ok(log) => log.set_len(0).is_ok() && log.sync_all().is_ok(),
        Err(_) => false,
    }
}

/// Removes a store's file and its log, where they are there.
pub fn remove(rt: &HostRuntime, name: &str) {
    remove_log(rt, name);
    let _ = fs::remove_file(rt, name);
}

/// Syncs the folder in which a file is, so that its name stays after the machine stops.
fn sync_folder(rt: &HostRuntime, name: &str) -> bool {
    let folder = match Path::new(name).parent() {
        Some(folder) if !folder.as_str().is_empty() => folder.as_str(),
        _ => ".",
    };
    match File::open(rt, folder) {
        Ok(folder) => folder.sync_all().is_ok(),
        Err(_) => false,
    }
}

/// Gives a file the mode and the owner of the one that it is to replace, if there is one; whether it has them.
fn take_access(rt: &HostRuntime, made: &str, replaced: &str) -> bool {
    let Ok(old) = fs::metadata(rt, replaced) else {
        return true;
    };
    let Ok(new) = fs::metadata(rt, made) else {
        return false;
    };
    if (new.uid(), new.gid()) != (old.uid(), old.gid())
        && chown(rt, made, Some(old.uid()), Some(old.gid())).is_err()
    {
        return false;
    }
    fs::set_permissions(rt, made, old.permissions()).is_ok()
}

impl Draft {
    /// Begins a store that is to have a name, under that name and `.new`. What another run left there is removed.
    ///
    /// # Errors
    ///
    /// `Store` where the file can't be made.
    pub fn begin(rt: &HostRuntime, name: &str) -> Result<(Draft, StoreFile), Failure> {
        let alloc = rt.alloc();
        let Ok(made) = format!(in alloc; "{name}.new") else {
            return Err(NO_MEMORY);
        };
        let Ok(name) = String::from_str(alloc, name) else {
            return Err(NO_MEMORY);
        };
        remove(rt, made.as_str());
        let file = open_made(rt, made.as_str())?;
        let identity = identity_of(rt, made.as_str());
        Ok((
            Draft {
                name,
                made,
                identity,
            },
            file,
        ))
    }

    /// The name that it is to have.
    pub fn name(&self) -> &str {
        self.name.as_str()
    }

    /// Gives the store its name, in the place of a file that has it, with the mode and the owner of that one: its log is
    /// folded in first, and all of it synced. Where another run took its place meanwhile, nothing is done.
    ///
    /// # Errors
    ///
    /// `Store` where that fails: the file that had the name has it still, but where the folder alone could not be synced.
    pub fn keep(&self, rt: &HostRuntime, file: LeftFile) -> Result<(), Failure> {
        let Some(folded) = file.fold() else {
            self.discard(rt);
            return Err(FAILED);
        };
        // It stays locked until it has its name.
        let kept = self.rename(rt);
        drop(folded);
        kept
    }

    /// Whether the file that was made still has the name under which it was.
    fn is_there(&self, rt: &HostRuntime) -> bool {
        self.identity.is_some() && identity_of(rt, self.made.as_str()) == self.identity
    }

    /// Gives the closed store its name. Its log holds no commit then.
    fn rename(&self, rt: &HostRuntime) -> Result<(), Failure> {
        if !self.is_there(rt) {
            return Err(FAILED);
        }
        remove_log(rt, self.made.as_str());
        if !take_access(rt, self.made.as_str(), self.name.as_str())
            || fs::rename(rt, self.made.as_str(), self.name.as_str()).is_err()
        {
            self.discard(rt);
            return Err(FAILED);
        }
        if sync_folder(rt, self.name.as_str()) {
            Ok(())
        } else {
            Err(FAILED)
        }
    }

    /// Removes what was made.
    pub fn discard(&self, rt: &HostRuntime) {
        if self.is_there(rt) {
            remove(rt, self.made.as_str());
        }
    }
}
