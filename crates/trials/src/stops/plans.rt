//! Edits as they are written in a table.

use anyhow::{Context, Result};
use book_lists::{Entry, Name, Principal, Who};
use book_office::{Edit, Items, Path, Policy, Text};
use book_policy::read_policy;
use book_rights::LeafSet;
use std::alloc::Global;

/// A card: the name of its book, and its own.
pub(crate) type Place = (&'static str, &'static str);

/// An edit in texts. Who owns what it adds is told here.
#[derive(Clone, Copy)]
pub(crate) enum Plan {
    /// Puts a card with this text, of bob where it is new.
    Put(Place, &'static str),
    /// Removes a card.
    Remove(Place),
    /// Copies a card, of ann where it is new.
    Copy(Place, Place),
    /// Moves a card.
    Move(Place, Place),
    /// Adds a book of the staff.
    AddBook(&'static str),
    /// Removes a book.
    RemoveBook(&'static str),
    /// Gives the resource at a path this label.
    Label(&'static str, &'static str),
    /// Gives the resource at a path an own list, by which bob, and then each whose name is known, is denied everything.
    Deny(&'static str),
    /// Makes a principal the only member of a group.
    SetMember(&'static str, &'static str),
    /// Adopts the policy of this text.
    Adopt(&'static str),
}

fn name(alloc: Global, text: &str) -> Result<Name> {
    Name::parse(alloc, text)?.context("no name")
}

fn path(alloc: Global, text: &str) -> Result<Path> {
    Path::parse(alloc, text).ok().context("no path")
}

fn principal(alloc: Global, text: &str) -> Result<Principal> {
    Principal::parse(alloc, text)?.context("no principal")
}

fn policy(alloc: Global, text: &str) -> Result<Policy> {
    read_policy(alloc, text).ok().context("no policy")
}

fn text(alloc: Global, text: &str) -> Result<Text> {
    Ok(Text::copy_of(alloc, text)?)
}

/// An entry that denies everything.
fn denial(who: Who) -> Entry {
    Entry {
        who,
        invert: false,
        deny: true,
        set: LeafSet::all(),
    }
}

fn denials(alloc: Global) -> Result<Items<Entry>> {
    let mut entries = Items::new(alloc);
    entries.push(denial(Who::Href(principal(alloc, "/people/bob")?)))?;
    entries.push(denial(Who::Authenticated))?;
    Ok(entries)
}

fn put(alloc: Global, card: Place, body: &str) -> Result<Edit> {
    Ok(Edit::PutCard {
        book: name(alloc, card.0)?,
        card: name(alloc, card.1)?,
        owner: Some(principal(alloc, "/people/bob")?),
        text: text(alloc, body)?,
    })
}

fn remove(alloc: Global, card: Place) -> Result<Edit> {
    Ok(Edit::RemoveCard {
        book: name(alloc, card.0)?,
        card: name(alloc, card.1)?,
    })
}

fn copy(alloc: Global, from: Place, to: Place) -> Result<Edit> {
    Ok(Edit::CopyCard {
        from_book: name(alloc, from.0)?,
        from_card: name(alloc, from.1)?,
        to_book: name(alloc, to.0)?,
        to_card: name(alloc, to.1)?,
        owner: Some(principal(alloc, "/people/ann")?),
    })
}

fn move_card(alloc: Global, from: Place, to: Place) -> Result<Edit> {
    Ok(Edit::MoveCard {
        from_book: name(alloc, from.0)?,
        from_card: name(alloc, from.1)?,
        to_book: name(alloc, to.0)?,
        to_card: name(alloc, to.1)?,
    })
}

fn add_book(alloc: Global, book: &str) -> Result<Edit> {
    Ok(Edit::AddBook {
        book: name(alloc, book)?,
        owner: Some(principal(alloc, "/groups/staff")?),
    })
}

fn label(alloc: Global, at: &str, label: &str) -> Result<Edit> {
    Ok(Edit::SetLabel {
        path: path(alloc, at)?,
        label: text(alloc, label)?,
    })
}

fn set_list(alloc: Global, at: &str) -> Result<Edit> {
    Ok(Edit::SetList {
        path: path(alloc, at)?,
        entries: denials(alloc)?,
    })
}

fn set_member(alloc: Global, group: &str, member: &str) -> Result<Edit> {
    let mut members = Items::new(alloc);
    members.push(principal(alloc, member)?)?;
    Ok(Edit::SetMembers {
        group: principal(alloc, group)?,
        members,
    })
}

impl Plan {
    /// The edit.
    pub(crate) fn edit(self, alloc: Global) -> Result<Edit> {
        match self {
            Plan::Put(card, text) => put(alloc, card, text),
            Plan::Remove(card) => remove(alloc, card),
            Plan::Copy(from, to) => copy(alloc, from, to),
            Plan::Move(from, to) => move_card(alloc, from, to),
            Plan::AddBook(book) => add_book(alloc, book),
            Plan::RemoveBook(book) => Ok(Edit::RemoveBook {
                book: name(alloc, book)?,
            }),
            Plan::Label(at, text) => label(alloc, at, text),
            Plan::Deny(at) => set_list(alloc, at),
            Plan::SetMember(group, member) => set_member(alloc, group, member),
            Plan::Adopt(text) => Ok(Edit::Adopt {
                policy: policy(alloc, text)?,
            }),
        }
    }
}
