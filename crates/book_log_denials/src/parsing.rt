//! A line of a text, as what it tells.

use crate::faults::Unread;
use crate::values::{
    Members, adoption_of, entry_of, members_of, method_if, number_if, number_of, path_if, path_of,
    privilege_of, status_of, text_if, time_of, touched_of, truth_of,
};
use book_log_lines::{AdoptionLine, Decided, Denied, Line, ReplyLine, Time, Touched};
use book_office_values::{Items, Path, Text};
use book_rights::Method;
use json::{Error, Scratch, Value};
use std::alloc::Global;

/// The value that a line is.
fn value_of<'a>(
    alloc: Global,
    scratch: &'a mut Scratch,
    line: &'a [u8],
) -> Result<Value<'a>, Unread> {
    match Value::from_slice(alloc, line, scratch) {
        Ok(value) => Ok(value),
        Err(Error::OutOfMemory) => Err(Unread::Memory),
        Err(_) => Err(Unread::Bad),
    }
}

/// The entry that decides, if the next member begins one.
fn decided_of(alloc: Global, members: &mut Members<'_, '_>) -> Result<Option<Decided>, Unread> {
    let Some(from) = members.take("from") else {
        return Ok(None);
    };
    Ok(Some(Decided {
        from: path_of(alloc, from)?,
        protected: truth_of(members.take_wanted("protected")?)?,
        place: number_of(members.take_wanted("place")?)?,
        number: number_of(members.take_wanted("number")?)?,
        entry: entry_of(alloc, members.take_wanted("entry")?)?,
    }))
}

/// The denial, if the next member begins one.
fn denied_of(alloc: Global, members: &mut Members<'_, '_>) -> Result<Option<Denied>, Unread> {
    let Some(resource) = members.take("resource") else {
        return Ok(None);
    };
    Ok(Some(Denied {
        resource: path_of(alloc, resource)?,
        privilege: privilege_of(members.take_wanted("privilege")?)?,
        by: decided_of(alloc, members)?,
    }))
}

/// What was asked, and by whom.
#[derive(Drop)]
struct Asked {
    caller: Option<Text>,
    method: Option<Method>,
    path: Option<Path>,
    destination: Option<Path>,
}

/// What the next members say was asked.
fn asked_of(alloc: Global, members: &mut Members<'_, '_>) -> Result<Asked, Unread> {
    Ok(Asked {
        caller: text_if(alloc, members.take("caller"))?,
        method: method_if(members.take("method"))?,
        path: path_if(alloc, members.take("path"))?,
        destination: path_if(alloc, members.take("destination"))?,
    })
}

/// What was answered.
#[derive(Drop)]
struct Answer {
    status: u16,
    error: Option<Text>,
    denied: Option<Denied>,
}

/// What the next members say was answered.
fn answer_of(alloc: Global, members: &mut Members<'_, '_>) -> Result<Answer, Unread> {
    Ok(Answer {
        status: status_of(members.take_wanted("status")?)?,
        error: text_if(alloc, members.take("error"))?,
        denied: denied_of(alloc, members)?,
    })
}

/// The reply whose members follow its time.
fn reply_of(
    alloc: Global,
    members: &mut Members<'_, '_>,
    time: Time,
    connection: &Value<'_>,
) -> Result<ReplyLine, Unread> {
    let connection = number_of(connection)?;
    let asked = asked_of(alloc, members)?;
    let answer = answer_of(alloc, members)?;
    let touched = touched_of(alloc, members.take("touched"))?;
    let epoch = number_if(members.take("epoch"))?;
    Ok(reply_with(time, connection, asked, answer, touched, epoch))
}

/// The reply of these parts.
fn reply_with(
    time: Time,
    connection: u64,
    asked: Asked,
    answer: Answer,
    touched: Items<Touched>,
    epoch: Option<u64>,
) -> ReplyLine {
    let Asked {
        caller,
        method,
        path,
        destination,
    } = asked;
    let Answer {
        status,
        error,
        denied,
    } = answer;
    ReplyLine {
        time,
        connection,
        caller,
        method,
        path,
        destination,
        status,
        error,
        denied,
        touched,
        epoch,
    }
}

/// The adoption whose members follow its time.
fn adoption_line_of(members: &mut Members<'_, '_>, time: Time) -> Result<AdoptionLine, Unread> {
    Ok(AdoptionLine {
        time,
        epoch: number_of(members.take_wanted("epoch")?)?,
        adopted: adoption_of(members.take_wanted("adopted")?)?,
    })
}

/// What members tell.
fn line_of(alloc: Global, members: &mut Members<'_, '_>) -> Result<Line, Unread> {
    let time = time_of(alloc, members.take_wanted("time")?)?;
    match members.take("connection") {
        Some(connection) => Ok(Line::Reply(reply_of(alloc, members, time, connection)?)),
        None => Ok(Line::Adoption(adoption_line_of(members, time)?)),
    }
}

/// What a line tells. The text of it may be another one than a log would have.
pub(crate) fn parse_line(
    alloc: Global,
    scratch: &mut Scratch,
    line: &[u8],
) -> Result<Line, Unread> {
    let value = value_of(alloc, scratch, line)?;
    let mut members = Members::new(members_of(&value)?);
    line_of(alloc, &mut members)
}
