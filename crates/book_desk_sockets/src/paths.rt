//! The path of a socket in the system's files.

use crate::doors::LocalDoor;
use crate::making::{Found, Ground};
use mio::net::UnixStream;
use std::alloc::{AllocError, Global};
use std::fs::{self, DirBuilder, Files, Metadata, Permissions};
use std::io::{self, ErrorKind};
use std::net::Net;
use std::os::unix::fs::{DirBuilderExt, FileTypeExt, MetadataExt, PermissionsExt};
use std::os::unix::net::UnixListener;

/// Who may enter the folder in which it is made: its owner alone.
const PRIVATE: u32 = 0o700;

/// The device and the number of a file.
#[derive(Clone, Copy, Debug, PartialEq, Eq)]
pub struct Identity {
    device: u64,
    number: u64,
}

/// The path of a socket. The folder in which it is made is beside it, `PATH.new`.
#[derive(Drop)]
pub struct SocketPath<'r, R> {
    rt: &'r R,
    path: &'r str,
    folder: String,
    inside: String,
}

/// What is at a path, no link followed; none where nothing is.
fn look_at(rt: &impl Files, path: &str) -> io::Result<Option<Metadata>> {
    match fs::symlink_metadata(rt, path) {
        Ok(metadata) => Ok(Some(metadata)),
        Err(error) if error.kind() == ErrorKind::NotFound => Ok(None),
        Err(error) => Err(error),
    }
}

/// Whether somebody listens at a socket. It does not wait.
fn is_answered(rt: &impl Net, path: &str) -> io::Result<bool> {
    match UnixStream::connect(rt, path) {
        Ok(_) => Ok(true),
        Err(error) => match error.kind() {
            // It has no room for one more.
            ErrorKind::WouldBlock => Ok(true),
            ErrorKind::ConnectionRefused => Ok(false),
            _ => Err(error),
        },
    }
}

/// Removes a socket, and nothing else.
fn remove_socket(rt: &impl Files, path: &str) {
    if let Ok(Some(metadata)) = look_at(rt, path) {
        if metadata.file_type().is_socket() {
            let _ = fs::remove_file(rt, path);
        }
    }
}

impl<'r, R: Files + Net> SocketPath<'r, R> {
    /// The path of a socket.
    ///
    /// # Errors
    ///
    /// Want of memory.
    pub fn new(rt: &'r R, alloc: Global, path: &'r str) -> Result<SocketPath<'r, R>, AllocError> {
        let folder = format!(in alloc; "{path}.new")?;
        let inside = format!(in alloc; "{path}.new/s")?;
        Ok(SocketPath {
            rt,
            path,
            folder,
            inside,
        })
    }

    /// What tells the file at the path from others; none where there is none.
    pub fn identity(&self) -> Option<Identity> {
        match look_at(self.rt, self.path) {
            Ok(Some(metadata)) => Some(Identity {
                device: metadata.dev(),
                number: metadata.ino(),
            }),
            Ok(None) | Err(_) => None,
        }
    }

    /// Removes the file at the path, if it is that one.
    pub fn remove(&self, made: Option<Identity>) {
        if made.is_some() && self.identity() == made {
            let _ = fs::remove_file(self.rt, self.path);
        }
    }

    /// Makes the folder.
    fn make_new_folder(&self) -> io::Result<()> {
        DirBuilder::new()
            .mode(PRIVATE)
            .create(self.rt, self.folder.as_str())
    }

    /// Removes the folder, and the socket in it. Nothing else that is in it is removed, and then it stays.
    fn clear_folder(&self) {
        remove_socket(self.rt, self.inside.as_str());
        let _ = fs::remove_dir(self.rt, self.folder.as_str());
    }
}

impl<R: Files + Net> Ground for SocketPath<'_, R> {
    ghost use Rattle.std.specs.Prelude.{None};

    type Listener = LocalDoor;

    ghost names = { λ _. None };

    fn look(&self) -> io::Result<Found> {
        let Some(metadata) = look_at(self.rt, self.path)? else {
            return Ok(Found::Missing);
        };
        if !metadata.file_type().is_socket() {
            return Ok(Found::Other);
        }
        Ok(if is_answered(self.rt, self.path)? {
            Found::Answers
        } else {
            Found::Left
        })
    }

    fn make_folder(&mut self) -> io::Result<()> {
        match self.make_new_folder() {
            Ok(()) => Ok(()),
            // A server that was killed left it.
            Err(error) if error.kind() == ErrorKind::AlreadyExists => {
                self.clear_folder();
                self.make_new_folder()
            }
            Err(error) => Err(error),
        }
    }

    fn bind(&mut self) -> io::Result<LocalDoor> {
        Ok(LocalDoor(UnixListener::bind(self.rt, self.inside.as_str())?))
    }

    fn permit(&mut self, mode: u16) -> io::Result<()> {
        let permissions = Permissions::from_mode(u32::from(mode));
        fs::set_permissions(self.rt, self.inside.as_str(), permissions)
    }

    fn rename(&mut self) -> io::Result<()> {
        fs::rename(self.rt, self.inside.as_str(), self.path)
    }

    fn remove_folder(&mut self) {
        self.clear_folder();
    }
}
