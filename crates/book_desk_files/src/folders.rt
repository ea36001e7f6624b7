//! The folder in which files to begin with are made.

use book_desk_app::{Folder, InitFault};
use std::alloc::AllocError;
use std::fs::{self, DirBuilder, Files, OpenOptions};
use std::io::{self, Write};
use std::os::unix::fs::{DirBuilderExt, OpenOptionsExt};

/// Who may read, write and enter a folder that is made: its owner alone.
const PRIVATE_FOLDER: u32 = 0o700;

/// Who may read and write a file that is made: its owner alone.
const PRIVATE_FILE: u32 = 0o600;

/// A folder of the system, by its path.
#[derive(Drop)]
pub struct DiskFolder<'r, R> {
    rt: &'r R,
    path: &'r str,
}

/// Makes a folder where it is missing, and says whether it was.
///
/// # Errors
///
/// `Write` where it could not be made.
pub fn make_folder(files: &impl Files, path: &str) -> Result<bool, InitFault> {
    match DirBuilder::new().mode(PRIVATE_FOLDER).create(files, path) {
        Ok(()) => Ok(true),
        Err(error) if error.kind() == io::ErrorKind::AlreadyExists => Ok(false),
        Err(_) => Err(InitFault::Write),
    }
}

/// Removes a folder, if it is empty.
pub fn remove_folder(files: &impl Files, path: &str) {
    let _ = fs::remove_dir(files, path);
}

impl<'r, R: Files + AllocGlobal> DiskFolder<'r, R> {
    /// The folder at a path.
    pub fn new(rt: &'r R, path: &'r str) -> DiskFolder<'r, R> {
        DiskFolder { rt, path }
    }

    /// The path of a file in it.
    fn path_of(&self, name: &str) -> Result<String, AllocError> {
        format!(in self.rt.alloc(); "{}/{name}", self.path)
    }
}

impl<R: Files + AllocGlobal> Folder for DiskFolder<'_, R> {
    ghost use Rattle.std.specs.Prelude.{None};

    ghost files = { λ folder. None };

    fn has(&self, name: &str) -> bool {
        match self.path_of(name) {
            Ok(path) => fs::metadata(self.rt, path.as_str()).is_ok(),
            // Then it can't be made either.
            Err(_) => false,
        }
    }

    fn make(&mut self, name: &str, text: &str) -> Result<(), InitFault> {
        let Ok(path) = self.path_of(name) else {
            return Err(InitFault::Write);
        };
        let opened = OpenOptions::new()
            .write(true)
            .create_new(true)
            .mode(PRIVATE_FILE)
            .open(self.rt, path.as_str());
        let mut file = match opened {
            Ok(file) => file,
            Err(error) if error.kind() == io::ErrorKind::AlreadyExists => {
                return Err(InitFault::Exists);
            }
            Err(_) => return Err(InitFault::Write),
        };
        if file.write_all(text.as_bytes()).is_err() {
            let _ = fs::remove_file(self.rt, path.as_str());
            return Err(InitFault::Write);
        }
        Ok(())
    }

    fn remove(&mut self, name: &str) {
        if let Ok(path) = self.path_of(name) {
            let _ = fs::remove_file(self.rt, path.as_str());
        }
    }
}
