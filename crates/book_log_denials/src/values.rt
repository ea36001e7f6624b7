//! The values of a line: times, texts, paths, methods, entries and what an edit changed.

use crate::faults::Unread;
use book_lists::{Entry, Principal, Who};
use book_log_lines::{Adoption, Time, Touched};
use book_office_values::{Items, Path, PathFault, Text};
use book_rights::{LeafSet, Method, Privilege};
use json::Value;
use std::alloc::Global;

/// A member of an object: its key, and its value.
pub(crate) type Member<'a> = (&'a str, Value<'a>);

/// The members of an object, of which the next is taken where it has the key that is asked for.
#[derive(Drop)]
pub(crate) struct Members<'v, 'a> {
    all: &'v [Member<'a>],
    /// How many were taken.
    taken: usize,
}

impl<'v, 'a> Members<'v, 'a> {
    pub(crate) fn new(all: &'v [Member<'a>]) -> Members<'v, 'a> {
        Members { all, taken: 0 }
    }

    /// The value of the next member, where it has this key.
    pub(crate) fn take(&mut self, key: &str) -> Option<&'v Value<'a>> {
        match self.all.get(self.taken) {
            Some(member) if member.0 == key => {
                self.taken = self.taken.saturating_add(1);
                Some(&member.1)
            }
            _ => None,
        }
    }

    /// The value of the next member, which is to have this key.
    pub(crate) fn take_wanted(&mut self, key: &str) -> Result<&'v Value<'a>, Unread> {
        self.take(key).ok_or(Unread::Bad)
    }
}

/// The members of a value that is an object.
pub(crate) fn members_of<'v, 'a>(value: &'v Value<'a>) -> Result<&'v [Member<'a>], Unread> {
    match value {
        Value::Object(members) => Ok(members.as_slice()),
        _ => Err(Unread::Bad),
    }
}

/// The text that a value is.
pub(crate) fn text_of<'a>(value: &Value<'a>) -> Result<&'a str, Unread> {
    value.as_str().ok_or(Unread::Bad)
}

/// The text that a value is, if there is one.
pub(crate) fn text_if(alloc: Global, value: Option<&Value<'_>>) -> Result<Option<Text>, Unread> {
    match value {
        Some(value) => Ok(Some(Text::copy_of(alloc, text_of(value)?)?)),
        None => Ok(None),
    }
}

/// The number that a value is.
pub(crate) fn number_of(value: &Value<'_>) -> Result<u64, Unread> {
    value.as_u64().ok_or(Unread::Bad)
}

/// The number that a value is, if there is one.
pub(crate) fn number_if(value: Option<&Value<'_>>) -> Result<Option<u64>, Unread> {
    match value {
        Some(value) => Ok(Some(number_of(value)?)),
        None => Ok(None),
    }
}

/// The status that a value is.
pub(crate) fn status_of(value: &Value<'_>) -> Result<u16, Unread> {
    match u16::try_from(number_of(value)?) {
        Ok(status) => Ok(status),
        Err(_) => Err(Unread::Bad),
    }
}

/// Whether a value is `true`; it is `false` else.
pub(crate) fn truth_of(value: &Value<'_>) -> Result<bool, Unread> {
    value.as_bool().ok_or(Unread::Bad)
}

/// The time that a value is.
pub(crate) fn time_of(alloc: Global, value: &Value<'_>) -> Result<Time, Unread> {
    Time::parse(alloc, text_of(value)?)?.ok_or(Unread::Bad)
}

/// The path that a value is.
pub(crate) fn path_of(alloc: Global, value: &Value<'_>) -> Result<Path, Unread> {
    match Path::parse(alloc, text_of(value)?) {
        Ok(path) => Ok(path),
        Err(PathFault::BadPath) => Err(Unread::Bad),
        Err(PathFault::Memory) => Err(Unread::Memory),
    }
}

/// The path that a value is, if there is one.
pub(crate) fn path_if(alloc: Global, value: Option<&Value<'_>>) -> Result<Option<Path>, Unread> {
    match value {
        Some(value) => Ok(Some(path_of(alloc, value)?)),
        None => Ok(None),
    }
}

/// The method with a name.
fn method_named(name: &str) -> Option<Method> {
    Some(match name {
        "GET" => Method::Get,
        "HEAD" => Method::Head,
        "OPTIONS" => Method::Options,
        "PUT" => Method::Put,
        "PROPFIND" => Method::Propfind,
        "PROPPATCH" => Method::Proppatch,
        "ACL" => Method::Acl,
        "COPY" => Method::Copy,
        "MOVE" => Method::Move,
        "DELETE" => Method::Delete,
        "MKCOL" => Method::Mkcol,
        "REPORT" => Method::Report,
        _ => return None,
    })
}

/// The method that a value names, if there is one.
pub(crate) fn method_if(value: Option<&Value<'_>>) -> Result<Option<Method>, Unread> {
    match value {
        Some(value) => match method_named(text_of(value)?) {
            Some(method) => Ok(Some(method)),
            None => Err(Unread::Bad),
        },
        None => Ok(None),
    }
}

/// What came of an adoption, by the word that a value is.
pub(crate) fn adoption_of(value: &Value<'_>) -> Result<Adoption, Unread> {
    match text_of(value)? {
        "changed" => Ok(Adoption::Changed),
        "unchanged" => Ok(Adoption::Unchanged),
        "full" => Ok(Adoption::Full),
        "unavailable" => Ok(Adoption::Unavailable),
        _ => Err(Unread::Bad),
    }
}

/// The privilege that a value names.
pub(crate) fn privilege_of(value: &Value<'_>) -> Result<Privilege, Unread> {
    Privilege::from_name(text_of(value)?).ok_or(Unread::Bad)
}

/// The leaves of the privileges that a value lists.
fn set_of(value: &Value<'_>) -> Result<LeafSet, Unread> {
    let Value::Array(names) = value else {
        return Err(Unread::Bad);
    };
    let mut set = LeafSet::empty();
    for name in names {
        set = set.union(privilege_of(name)?.leaves());
    }
    Ok(set)
}

/// The principal form that a text spells.
fn form_of(alloc: Global, text: &str) -> Result<Who, Unread> {
    match text {
        "all" => Ok(Who::Everyone),
        "authenticated" => Ok(Who::Authenticated),
        "unauthenticated" => Ok(Who::Unauthenticated),
        "owner" => Ok(Who::Owner),
        "self" => Ok(Who::Own),
        _ => match Principal::parse(alloc, text)? {
            Some(principal) => Ok(Who::Href(principal)),
            None => Err(Unread::Bad),
        },
    }
}

/// The entry that a value is (RFC 3744, section 5.5). Its keys are looked at by the caller, which compares the text.
pub(crate) fn entry_of(alloc: Global, value: &Value<'_>) -> Result<Entry, Unread> {
    match members_of(value)? {
        [action, form] => Ok(Entry {
            who: form_of(alloc, text_of(&form.1)?)?,
            invert: form.0 == "invert",
            deny: action.0 == "deny",
            set: set_of(&action.1)?,
        }),
        _ => Err(Unread::Bad),
    }
}

/// The change of a resource that a value tells.
fn one_touched(alloc: Global, value: &Value<'_>) -> Result<Touched, Unread> {
    let mut members = Members::new(members_of(value)?);
    Ok(Touched {
        path: path_of(alloc, members.take_wanted("path")?)?,
        number: number_of(members.take_wanted("number")?)?,
    })
}

/// The changes of resources that a value lists; none where there is no value.
pub(crate) fn touched_of(
    alloc: Global,
    value: Option<&Value<'_>>,
) -> Result<Items<Touched>, Unread> {
    let mut touched = Items::new(alloc);
    let Some(value) = value else {
        return Ok(touched);
    };
    let Value::Array(items) = value else {
        return Err(Unread::Bad);
    };
    for item in items {
        touched.push(one_touched(alloc, item)?)?;
    }
    Ok(touched)
}
