//! The file to which a log is written.

use std::alloc::Global;
use std::fs::{self, Files, OpenFile, OpenOptions};
use std::io::{self, Read, Seek, SeekFrom, Write};
use std::os::unix::fs::{MetadataExt, OpenOptionsExt};
use std::time::{Clock, Duration, Instant};

/// Who may read and write the file of a new log: its owner alone.
const PRIVATE: u32 = 0o600;

/// For how many seconds a file is written without a look at its name, where that is not looked at before each line.
const UNSEEN: u64 = 1;

/// When the name of a log is looked at.
#[derive(Clone, Copy, Debug, PartialEq, Eq)]
pub enum Pace {
    /// Before each line.
    EachLine,
    /// Before a line, where the last look was a second ago or more.
    EachSecond,
}

/// The log could not be opened. It is told as `log: open`.
#[derive(Clone, Copy, Debug, PartialEq, Eq)]
pub struct NotOpened;

/// The device of a file, and its number there.
#[derive(Clone, Copy, Debug, PartialEq, Eq)]
struct Identity {
    device: u64,
    number: u64,
}

/// A file to which lines are added, by its name. Before a line the name is looked at (`Pace`): where it is gone, or is
/// that of another file, that one is opened, and made where it is missing. So a log that was renamed ends with a whole
/// line, and the next line is in the new file.
#[derive(Drop)]
pub struct LogFile<'r, R: Files> {
    rt: &'r R,
    name: String,
    pace: Pace,
    file: R::File,
    /// The file that is open.
    identity: Identity,
    /// When the name was looked at last; none where the clock can't be read.
    looked: Option<Instant>,
    /// Whether a line begins with the next byte.
    at_line: bool,
}

/// Whether the file ends within a line: it has a byte, and the last is no line feed. What is no file on a disk has no
/// end.
fn ends_within_line<F: Read + Seek + OpenFile>(file: &mut F) -> io::Result<bool> {
    let found = file.metadata()?;
    if !found.is_file() || found.len() == 0 {
        return Ok(false);
    }
    file.seek(SeekFrom::End(-1))?;
    let mut last = [0; 1];
    file.read_exact(&mut last)?;
    Ok(last[0] != b'\n')
}

/// Opens the file of a log, at whose end lines are added; makes it where it is missing. A last line that has no end
/// gets one.
fn open_file<R: Files>(rt: &R, name: &str) -> io::Result<(R::File, Identity)> {
    let mut file = OpenOptions::new()
        .read(true)
        .append(true)
        .create(true)
        .mode(PRIVATE)
        .open(rt, name)?;
    if ends_within_line(&mut file)? {
        file.write_all(b"\n")?;
    }
    let found = file.metadata()?;
    let identity = Identity {
        device: found.dev(),
        number: found.ino(),
    };
    Ok((file, identity))
}

/// The file that has a name now; none where there is none.
fn identity_at<R: Files>(rt: &R, name: &str) -> Option<Identity> {
    match fs::metadata(rt, name) {
        Ok(found) => Some(Identity {
            device: found.dev(),
            number: found.ino(),
        }),
        Err(_) => None,
    }
}

impl<'r, R: Files + Clock> LogFile<'r, R> {
    /// Opens the log with this name; makes it where it is missing, so that its owner alone may read and write it.
    ///
    /// # Errors
    ///
    /// The file can't be opened or made, or a last line that has no end can't get one; or memory was refused.
    pub fn open(
        rt: &'r R,
        alloc: Global,
        name: &str,
        pace: Pace,
    ) -> Result<LogFile<'r, R>, NotOpened> {
        let Ok(copy) = String::from_str(alloc, name) else {
            return Err(NotOpened);
        };
        let Ok((file, identity)) = open_file(rt, name) else {
            return Err(NotOpened);
        };
        let looked = Instant::now(rt).ok();
        Ok(LogFile {
            rt,
            name: copy,
            pace,
            file,
            identity,
            looked,
            at_line: true,
        })
    }

    /// Whether the name is to be looked at now.
    fn is_due(&self, now: Option<Instant>) -> bool {
        match (self.pace, self.looked, now) {
            (Pace::EachSecond, Some(looked), Some(now)) => {
                now.saturating_duration_since(looked) >= Duration::from_secs(UNSEEN)
            }
            _ => true,
        }
    }

    /// Looks at the name, and opens the file anew where it is gone or is that of another file.
    ///
    /// # Errors
    ///
    /// The file can't be opened or made.
    fn look(&mut self) -> io::Result<()> {
        let now = Instant::now(self.rt).ok();
        if !self.is_due(now) {
            return Ok(());
        }
        self.looked = now;
        if identity_at(self.rt, self.name.as_str()) != Some(self.identity) {
            let (file, identity) = open_file(self.rt, self.name.as_str())?;
            self.file = file;
            self.identity = identity;
        }
        Ok(())
    }
}

/// Lines are added at the end of the file. What it holds then is not known, since others may write to it.
impl<R: Files + Clock> Write for LogFile<'_, R> {
    ghost use Rattle.std.specs.Prelude.{None};

    ghost contents = { λ _. None };

    fn write(&mut self, buf: &[u8]) -> io::Result<usize> {
        if self.at_line {
            self.look()?;
        }
        let count = self.file.write(buf)?;
        if count > 0 {
            self.at_line = buf[count - 1] == b'\n';
        }
        Ok(count)
    }

    fn flush(&mut self) -> io::Result<()> {
        self.file.flush()
    }
}
