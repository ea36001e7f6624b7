//! A line of a text, as what it tells.

use crate::faults::{Key, LineProblem, ReadFault, line_fault};
use crate::seen::Seen;
use crate::values::{
    Member, Members, card_text_of, entries_of, label_of, number_of, owner_of, principals_of,
    removed_names_of, text_of,
};
use book_dumps::{Line, Removed};
use book_lists::{Entry, Principal};
use book_office_values::{Items, Path, PathFault, Text};
use json::{Error, Scratch, Value};
use std::alloc::Global;

/// What a line after the first tells.
#[derive(Drop)]
pub(crate) enum Told {
    /// A resource.
    Resource(Line),
    /// How many lines stand before it, which is the last.
    Last(u64),
}

/// What reading needs beside a line: room for unescaped strings, and what the lines before told.
#[derive(Drop)]
pub(crate) struct Reading {
    scratch: Scratch,
    seen: Seen,
}

impl Reading {
    pub(crate) fn new(alloc: Global) -> Reading {
        Reading {
            scratch: Scratch::new(alloc),
            seen: Seen::new(alloc),
        }
    }
}

/// The value that a line is.
fn value_of<'a>(
    alloc: Global,
    scratch: &'a mut Scratch,
    line: &'a [u8],
    number: u64,
) -> Result<Value<'a>, ReadFault> {
    match Value::from_slice(alloc, line, scratch) {
        Ok(value) => Ok(value),
        Err(Error::OutOfMemory) => Err(ReadFault::Memory),
        Err(_) => Err(line_fault(number, LineProblem::BadLine)),
    }
}

/// The members of a line that is an object.
fn object_of<'v, 'a>(value: &'v Value<'a>, number: u64) -> Result<&'v [Member<'a>], ReadFault> {
    match value {
        Value::Object(members) => Ok(members.as_slice()),
        _ => Err(line_fault(number, LineProblem::BadLine)),
    }
}

/// The epoch that the first line tells.
pub(crate) fn parse_epoch(
    alloc: Global,
    reading: &mut Reading,
    line: &[u8],
    number: u64,
) -> Result<u64, ReadFault> {
    let value = value_of(alloc, &mut reading.scratch, line, number)?;
    let mut members = Members::new(number, object_of(&value, number)?);
    let epoch = members.take_wanted(Key::Epoch)?;
    let epoch = number_of(epoch, members.spot(Key::Epoch))?;
    members.end()?;
    Ok(epoch)
}

/// What a line after the first tells. The text of it may be another one than a dump would have.
pub(crate) fn parse_line(
    alloc: Global,
    reading: &mut Reading,
    line: &[u8],
    number: u64,
) -> Result<Told, ReadFault> {
    let value = value_of(alloc, &mut reading.scratch, line, number)?;
    let all = object_of(&value, number)?;
    let mut members = Members::new(number, all);
    match all.first() {
        Some(first) if first.0 == Key::Lines.text() => {
            Ok(Told::Last(last_of(&mut members, &reading.seen)?))
        }
        _ => Ok(Told::Resource(resource_of(alloc, &mut members, &mut reading.seen)?)),
    }
}

/// The number of lines before the last line, whose members these are.
fn last_of(members: &mut Members<'_, '_>, seen: &Seen) -> Result<u64, ReadFault> {
    if !seen.has_homes() {
        return Err(members.spot(Key::Path).bad());
    }
    let count = members.take_wanted(Key::Lines)?;
    let count = number_of(count, members.spot(Key::Lines))?;
    members.end()?;
    Ok(count)
}

/// The path of a resource, which may be the next.
fn path_of(
    alloc: Global,
    members: &mut Members<'_, '_>,
    seen: &mut Seen,
) -> Result<Path, ReadFault> {
    let value = members.take_wanted(Key::Path)?;
    let spot = members.spot(Key::Path);
    let text = text_of(value, spot)?;
    let path = match Path::parse(alloc, text) {
        Ok(path) => path,
        Err(PathFault::BadPath) => return Err(spot.fault(LineProblem::BadName)),
        Err(PathFault::Memory) => return Err(ReadFault::Memory),
    };
    if path.text(alloc)?.as_str() != text {
        return Err(spot.fault(LineProblem::BadName));
    }
    seen.add_path(&path, text, spot)?;
    Ok(path)
}

/// The protected list of a resource; a card has none.
fn protected_of(
    alloc: Global,
    members: &mut Members<'_, '_>,
    path: &Path,
) -> Result<Items<Entry>, ReadFault> {
    if let Path::Card(_, _) = path {
        members.take_none(Key::Protected)?;
        return Ok(Items::new(alloc));
    }
    let value = members.take(Key::Protected)?;
    entries_of(alloc, value, members.spot(Key::Protected))
}

/// The members of a group; other resources have none.
fn group_members_of(
    alloc: Global,
    members: &mut Members<'_, '_>,
    path: &Path,
) -> Result<Items<Principal>, ReadFault> {
    if let Path::Group(_) = path {
        let value = members.take(Key::Members)?;
        return principals_of(alloc, value, members.spot(Key::Members));
    }
    members.take_none(Key::Members)?;
    Ok(Items::new(alloc))
}

/// The number of a book or a card; other resources have none.
fn number_told(
    members: &mut Members<'_, '_>,
    seen: &mut Seen,
    path: &Path,
) -> Result<Option<u64>, ReadFault> {
    let spot = members.spot(Key::Number);
    match path {
        Path::Book(_) => Ok(Some(number_of(members.take_wanted(Key::Number)?, spot)?)),
        Path::Card(book, _) => {
            let number = number_of(members.take_wanted(Key::Number)?, spot)?;
            seen.add_number(book, number, spot)?;
            Ok(Some(number))
        }
        _ => {
            members.take_none(Key::Number)?;
            Ok(None)
        }
    }
}

/// The removed names of a book with the number of its last change; other resources have none.
fn removed_told(
    alloc: Global,
    members: &mut Members<'_, '_>,
    seen: &mut Seen,
    path: &Path,
    number: Option<u64>,
) -> Result<Items<Removed>, ReadFault> {
    let spot = members.spot(Key::Removed);
    if let (Path::Book(book), Some(last)) = (path, number) {
        let value = members.take(Key::Removed)?;
        let removed = removed_names_of(alloc, value, last, spot)?;
        seen.add_book(alloc, book, last, removed.as_slice(), spot)?;
        return Ok(removed);
    }
    members.take_none(Key::Removed)?;
    Ok(Items::new(alloc))
}

/// The text of a card; other resources have none.
fn text_told(
    alloc: Global,
    members: &mut Members<'_, '_>,
    path: &Path,
) -> Result<Option<Text>, ReadFault> {
    if let Path::Card(_, _) = path {
        let value = members.take_wanted(Key::Text)?;
        return Ok(Some(card_text_of(alloc, value, members.spot(Key::Text))?));
    }
    members.take_none(Key::Text)?;
    Ok(None)
}

/// The owner of a resource.
fn owner_told(
    alloc: Global,
    members: &mut Members<'_, '_>,
) -> Result<Option<Principal>, ReadFault> {
    let value = members.take(Key::Owner)?;
    owner_of(alloc, value, members.spot(Key::Owner))
}

/// The label of a resource.
fn label_told(alloc: Global, members: &mut Members<'_, '_>) -> Result<Text, ReadFault> {
    let value = members.take(Key::Label)?;
    label_of(alloc, value, members.spot(Key::Label))
}

/// The own list of a resource.
fn own_told(alloc: Global, members: &mut Members<'_, '_>) -> Result<Items<Entry>, ReadFault> {
    let value = members.take(Key::Own)?;
    entries_of(alloc, value, members.spot(Key::Own))
}

/// The lists of a resource.
#[derive(Drop)]
struct Lists {
    protected: Items<Entry>,
    own: Items<Entry>,
    members: Items<Principal>,
}

/// The lists of a resource, key by key.
fn lists_told(
    alloc: Global,
    members: &mut Members<'_, '_>,
    path: &Path,
) -> Result<Lists, ReadFault> {
    let protected = protected_of(alloc, members, path)?;
    let own = own_told(alloc, members)?;
    let principals = group_members_of(alloc, members, path)?;
    Ok(Lists {
        protected,
        own,
        members: principals,
    })
}

/// What the keys between the path and the number tell of a resource.
#[derive(Drop)]
struct Described {
    owner: Option<Principal>,
    label: Text,
    lists: Lists,
}

/// The owner, the label and the lists of a resource, key by key.
fn described_told(
    alloc: Global,
    members: &mut Members<'_, '_>,
    path: &Path,
) -> Result<Described, ReadFault> {
    let owner = owner_told(alloc, members)?;
    let label = label_told(alloc, members)?;
    let lists = lists_told(alloc, members, path)?;
    Ok(Described {
        owner,
        label,
        lists,
    })
}

/// What the last keys of a resource tell.
#[derive(Drop)]
struct Contents {
    number: Option<u64>,
    removed: Items<Removed>,
    text: Option<Text>,
}

/// The number, the removed names and the text of a resource, key by key; no member follows them.
fn contents_told(
    alloc: Global,
    members: &mut Members<'_, '_>,
    seen: &mut Seen,
    path: &Path,
) -> Result<Contents, ReadFault> {
    let number = number_told(members, seen, path)?;
    let removed = removed_told(alloc, members, seen, path, number)?;
    let text = text_told(alloc, members, path)?;
    members.end()?;
    Ok(Contents {
        number,
        removed,
        text,
    })
}

/// A resource, as its keys tell it.
fn line_of(path: Path, described: Described, contents: Contents) -> Line {
    let lists = described.lists;
    Line {
        path,
        owner: described.owner,
        label: described.label,
        protected: lists.protected,
        own: lists.own,
        members: lists.members,
        number: contents.number,
        removed: contents.removed,
        text: contents.text,
    }
}

/// The resource that members tell, key by key.
fn resource_of(
    alloc: Global,
    members: &mut Members<'_, '_>,
    seen: &mut Seen,
) -> Result<Line, ReadFault> {
    let path = path_of(alloc, members, seen)?;
    let described = described_told(alloc, members, &path)?;
    let contents = contents_told(alloc, members, seen, &path)?;
    Ok(line_of(path, described, contents))
}
