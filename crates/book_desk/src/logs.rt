//! The log that `serve` and `pipe` write, and the command that tells the denials of one.

use crate::refuse;
use book_desk_app::{BROKEN, Failure, InputFault, Lines, tell_line};
use book_desk_denials::run_denials;
use book_desk_files::{Stage, tell_stage};
use book_desk_logs::{LogFile, NotOpened, Pace};
use book_desk_words::{WordsFault, words_not_time};
use book_log_denials::Form;
use book_log_lines::Time;
use std::alloc::Global;
use std::fs::File;
use std::io::{BufReader, Write};

/// The line that tells that the log can't be opened.
const NOT_OPENED: &str = "log: open\n";

/// Opens the log, if one is named. Where connections are served at once its name is looked at each second, and else
/// before each line.
///
/// # Errors
///
/// It can't be opened or made.
pub fn open_log<'r>(
    rt: &'r HostRuntime,
    name: Option<&str>,
    pace: Pace,
) -> Result<Option<LogFile<'r, HostRuntime>>, NotOpened> {
    match name {
        Some(name) => Ok(Some(LogFile::open(rt, rt.alloc(), name, pace)?)),
        None => Ok(None),
    }
}

/// Tells that the log can't be opened, and gives the status.
pub fn refuse_log<E: Lines>(errors: &mut E) -> u8 {
    errors.put(NOT_OPENED.as_bytes());
    BROKEN
}

/// The time that the words give, if they give one.
///
/// # Errors
///
/// `Usage` where it is none.
fn time_of(alloc: Global, since: Option<&str>) -> Result<Option<Time>, WordsFault> {
    let Some(text) = since else {
        return Ok(None);
    };
    match Time::parse(alloc, text)? {
        Some(time) => Ok(Some(time)),
        None => Err(words_not_time(alloc)),
    }
}

/// The form in which denials are told.
fn form_of(json: bool) -> Form {
    if json { Form::Object } else { Form::Text }
}

/// Tells the denials of the log with a name.
fn tell_denials<W: Write, E: Lines>(
    rt: &HostRuntime,
    log: &str,
    since: Option<&Time>,
    form: Form,
    writer: &mut W,
    errors: &mut E,
) -> u8 {
    let alloc = rt.alloc();
    tell_stage(rt, Stage::Reading(log));
    let Ok(file) = File::open(rt, log) else {
        return tell_line(errors, &Failure::Input(InputFault::Read));
    };
    match BufReader::new(alloc, file) {
        Ok(mut reader) => run_denials(alloc, form, since, &mut reader, writer, errors),
        Err(_) => tell_line(errors, &Failure::Input(InputFault::Read)),
    }
}

/// The command `denials`: the log is read line by line, and who was refused what is told.
pub fn denials<W: Write, E: Lines>(
    rt: &HostRuntime,
    log: &str,
    since: Option<&str>,
    json: bool,
    writer: &mut W,
    errors: &mut E,
) -> u8 {
    match time_of(rt.alloc(), since) {
        Ok(since) => tell_denials(rt, log, since.as_ref(), form_of(json), writer, errors),
        Err(fault) => refuse(errors, &fault),
    }
}
