//! The values of a line: texts, numbers, principals, entries and removed names.

use crate::faults::{Key, LineProblem, ReadFault, Spot, line_fault};
use book_dumps::Removed;
use book_limits::{LAST_NUMBER, MAX_CARD_BYTES, MAX_ENTRIES, MAX_LABEL_BYTES, MAX_MEMBERS};
use book_lists::{Entry, Name, Principal, Who};
use book_lists_explain::short_privileges;
use book_office_values::{Items, Text};
use book_rights::{LeafSet, Privilege};
use json::Value;
use std::alloc::Global;

/// A member of an object: its key, and its value.
pub(crate) type Member<'a> = (&'a str, Value<'a>);

/// The members of an object that is a line, from which the values of keys are taken in the order of a dump.
#[derive(Drop)]
pub(crate) struct Members<'v, 'a> {
    /// The number of the line, from 1.
    line: u64,
    all: &'v [Member<'a>],
    /// How many members there are up to the last that was taken.
    passed: usize,
    /// How many were taken.
    taken: usize,
}

impl<'v, 'a> Members<'v, 'a> {
    pub(crate) fn new(line: u64, all: &'v [Member<'a>]) -> Members<'v, 'a> {
        Members {
            line,
            all,
            passed: 0,
            taken: 0,
        }
    }

    /// Where the value of a key stands.
    pub(crate) fn spot(&self, key: Key) -> Spot {
        Spot {
            line: self.line,
            key,
        }
    }

    /// The value of a key, if it is there: once, and after the keys that were taken before.
    pub(crate) fn take(&mut self, key: Key) -> Result<Option<&'v Value<'a>>, ReadFault> {
        let mut found = None;
        for (index, member) in self.all.iter().enumerate() {
            if member.0 == key.text() {
                if found.is_some() || index < self.passed {
                    return Err(self.spot(key).bad());
                }
                self.passed = index.saturating_add(1);
                self.taken = self.taken.saturating_add(1);
                found = Some(&member.1);
            }
        }
        Ok(found)
    }

    /// The value of a key that is to be there.
    pub(crate) fn take_wanted(&mut self, key: Key) -> Result<&'v Value<'a>, ReadFault> {
        match self.take(key)? {
            Some(value) => Ok(value),
            None => Err(self.spot(key).bad()),
        }
    }

    /// There is no value of a key.
    pub(crate) fn take_none(&mut self, key: Key) -> Result<(), ReadFault> {
        match self.take(key)? {
            Some(_) => Err(self.spot(key).bad()),
            None => Ok(()),
        }
    }

    /// There is no member that was not taken.
    pub(crate) fn end(&self) -> Result<(), ReadFault> {
        if self.taken < self.all.len() {
            return Err(line_fault(self.line, LineProblem::BadLine));
        }
        Ok(())
    }
}

/// The text that a value is.
pub(crate) fn text_of<'a>(value: &Value<'a>, spot: Spot) -> Result<&'a str, ReadFault> {
    match value.as_str() {
        Some(text) => Ok(text),
        None => Err(spot.bad()),
    }
}

/// The number that a value is, at most the last of an Office.
pub(crate) fn number_of(value: &Value<'_>, spot: Spot) -> Result<u64, ReadFault> {
    match value.as_u64() {
        Some(number) if number <= LAST_NUMBER => Ok(number),
        _ => Err(spot.bad()),
    }
}

/// The items of a value that is an array, of which there is one at least.
fn items_of<'v, 'a>(value: &'v Value<'a>, spot: Spot) -> Result<&'v [Value<'a>], ReadFault> {
    match value {
        Value::Array(items) if !items.is_empty() => Ok(items.as_slice()),
        _ => Err(spot.bad()),
    }
}

/// The members of a value that is an object, of which there is one at least.
fn members_of<'v, 'a>(value: &'v Value<'a>, spot: Spot) -> Result<&'v [Member<'a>], ReadFault> {
    match value {
        Value::Object(members) if !members.is_empty() => Ok(members.as_slice()),
        _ => Err(spot.bad()),
    }
}

/// The principal of which a text is the path.
fn principal_at(alloc: Global, path: &str, spot: Spot) -> Result<Principal, ReadFault> {
    match Principal::parse(alloc, path)? {
        Some(principal) if principal.text() == path => Ok(principal),
        _ => Err(spot.fault(LineProblem::BadName)),
    }
}

/// The name that a text is.
pub(crate) fn name_of(alloc: Global, text: &str, spot: Spot) -> Result<Name, ReadFault> {
    match Name::parse(alloc, text)? {
        Some(name) => Ok(name),
        None => Err(spot.fault(LineProblem::BadName)),
    }
}

/// The principal of which a value is the path.
fn principal_of(alloc: Global, value: &Value<'_>, spot: Spot) -> Result<Principal, ReadFault> {
    let path = text_of(value, spot)?;
    principal_at(alloc, path, spot)
}

/// The principal form that a text spells.
fn who_of(alloc: Global, text: &str, spot: Spot) -> Result<Who, ReadFault> {
    match text {
        "all" => Ok(Who::Everyone),
        "authenticated" => Ok(Who::Authenticated),
        "unauthenticated" => Ok(Who::Unauthenticated),
        "owner" => Ok(Who::Owner),
        "self" => Ok(Who::Own),
        _ => Ok(Who::Href(principal_at(alloc, text, spot)?)),
    }
}

/// The names of privileges that a value lists.
fn privileges_of(
    alloc: Global,
    value: &Value<'_>,
    spot: Spot,
) -> Result<Vec<Privilege>, ReadFault> {
    let Value::Array(names) = value else {
        return Err(spot.bad());
    };
    let mut privileges = Vec::new(alloc);
    for name in names {
        match Privilege::from_name(text_of(name, spot)?) {
            Some(privilege) => privileges.push(privilege)?,
            None => return Err(spot.bad()),
        }
    }
    Ok(privileges)
}

/// The leaves of privileges.
fn leaves_of(privileges: &[Privilege]) -> LeafSet {
    let mut set = LeafSet::empty();
    for privilege in privileges {
        set = set.union(privilege.leaves());
    }
    set
}

/// The set of which a value lists the short names.
fn set_of(alloc: Global, value: &Value<'_>, spot: Spot) -> Result<LeafSet, ReadFault> {
    let privileges = privileges_of(alloc, value, spot)?;
    let set = leaves_of(privileges.as_slice());
    if short_privileges(alloc, set)?.as_slice() != privileges.as_slice() {
        return Err(spot.bad());
    }
    Ok(set)
}

/// Whether a member marks an entry as inverted.
fn is_mark(member: &Member<'_>) -> bool {
    member.0 == "invert" && matches!(member.1, Value::Bool(true))
}

/// Whether an entry with this key denies.
fn denies(key: &str, spot: Spot) -> Result<bool, ReadFault> {
    match key {
        "deny" => Ok(true),
        "grant" => Ok(false),
        _ => Err(spot.bad()),
    }
}

/// The entry of a form, an inversion, and an action with its privileges.
fn entry_with(
    alloc: Global,
    who: &Member<'_>,
    invert: bool,
    action: &Member<'_>,
    spot: Spot,
) -> Result<Entry, ReadFault> {
    if who.0 != "who" {
        return Err(spot.bad());
    }
    let form = text_of(&who.1, spot)?;
    let who = who_of(alloc, form, spot)?;
    let deny = denies(action.0, spot)?;
    let set = set_of(alloc, &action.1, spot)?;
    Ok(Entry {
        who,
        invert,
        deny,
        set,
    })
}

/// The entry that a value is.
fn entry_of(alloc: Global, value: &Value<'_>, spot: Spot) -> Result<Entry, ReadFault> {
    match members_of(value, spot)? {
        [who, action] => entry_with(alloc, who, false, action, spot),
        [who, mark, action] if is_mark(mark) => entry_with(alloc, who, true, action, spot),
        _ => Err(spot.bad()),
    }
}

/// The list of entries that a value is, or none where there is no value.
pub(crate) fn entries_of(
    alloc: Global,
    value: Option<&Value<'_>>,
    spot: Spot,
) -> Result<Items<Entry>, ReadFault> {
    let mut entries = Items::new(alloc);
    let Some(value) = value else {
        return Ok(entries);
    };
    let items = items_of(value, spot)?;
    if items.len() > MAX_ENTRIES {
        return Err(spot.fault(LineProblem::TooMany));
    }
    for item in items {
        entries.push(entry_of(alloc, item, spot)?)?;
    }
    Ok(entries)
}

/// Whether a principal stands behind those of a list, in byte order.
fn is_behind(principals: &[Principal], principal: &Principal) -> bool {
    match principals.last() {
        Some(before) => before < principal,
        None => true,
    }
}

/// The members that a value lists, or none where there is no value.
pub(crate) fn principals_of(
    alloc: Global,
    value: Option<&Value<'_>>,
    spot: Spot,
) -> Result<Items<Principal>, ReadFault> {
    let mut principals = Items::new(alloc);
    let Some(value) = value else {
        return Ok(principals);
    };
    let items = items_of(value, spot)?;
    if items.len() > MAX_MEMBERS {
        return Err(spot.fault(LineProblem::TooMany));
    }
    for item in items {
        let principal = principal_of(alloc, item, spot)?;
        if !is_behind(principals.as_slice(), &principal) {
            return Err(spot.bad());
        }
        principals.push(principal)?;
    }
    Ok(principals)
}

/// The owner that a value is, or none where there is no value.
pub(crate) fn owner_of(
    alloc: Global,
    value: Option<&Value<'_>>,
    spot: Spot,
) -> Result<Option<Principal>, ReadFault> {
    match value {
        Some(value) => Ok(Some(principal_of(alloc, value, spot)?)),
        None => Ok(None),
    }
}

/// The label that a value is, or the empty one where there is no value.
pub(crate) fn label_of(
    alloc: Global,
    value: Option<&Value<'_>>,
    spot: Spot,
) -> Result<Text, ReadFault> {
    let Some(value) = value else {
        return Ok(Text::copy_of(alloc, "")?);
    };
    let label = text_of(value, spot)?;
    if label.is_empty() {
        return Err(spot.bad());
    }
    if label.len() > MAX_LABEL_BYTES {
        return Err(spot.fault(LineProblem::TooLong));
    }
    Ok(Text::copy_of(alloc, label)?)
}

/// The text of a card that a value is.
pub(crate) fn card_text_of(
    alloc: Global,
    value: &Value<'_>,
    spot: Spot,
) -> Result<Text, ReadFault> {
    let text = text_of(value, spot)?;
    if text.len() > MAX_CARD_BYTES {
        return Err(spot.fault(LineProblem::TooLong));
    }
    Ok(Text::copy_of(alloc, text)?)
}

/// The removed name that a member is: its number is above that of the one before, and at most that of the book.
fn removed_of(
    alloc: Global,
    member: &Member<'_>,
    before: u64,
    last: u64,
    spot: Spot,
) -> Result<Removed, ReadFault> {
    let name = name_of(alloc, member.0, spot)?;
    let number = number_of(&member.1, spot)?;
    if number < before {
        return Err(spot.fault(LineProblem::Order));
    }
    if number == before || number > last {
        return Err(spot.bad());
    }
    Ok(Removed { name, number })
}

/// The removed names that a value lists, or none where there is no value. Their numbers are from 1 to that of the book.
pub(crate) fn removed_names_of(
    alloc: Global,
    value: Option<&Value<'_>>,
    last: u64,
    spot: Spot,
) -> Result<Items<Removed>, ReadFault> {
    let mut removed = Items::new(alloc);
    let Some(value) = value else {
        return Ok(removed);
    };
    let mut before = 0;
    for member in members_of(value, spot)? {
        let name = removed_of(alloc, member, before, last, spot)?;
        before = name.number;
        removed.push(name)?;
    }
    Ok(removed)
}
