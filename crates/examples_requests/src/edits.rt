//! Edits, made by a keeper.

use crate::words::{entry, name, owner, path, principal, text, text_named, word};
use book_lists::{Entry, Principal};
use book_office::{Edit, Items, Keeper};
use std::alloc::Global;
use std::process::Abort;

fn put(rt: &impl Abort, alloc: Global, line: &str) -> Edit {
    Edit::PutCard {
        book: name(rt, alloc, word(line, 1)),
        card: name(rt, alloc, word(line, 2)),
        owner: owner(rt, alloc, word(line, 3)),
        text: text(rt, alloc, text_named(word(line, 4))),
    }
}

fn remove(rt: &impl Abort, alloc: Global, line: &str) -> Edit {
    Edit::RemoveCard {
        book: name(rt, alloc, word(line, 1)),
        card: name(rt, alloc, word(line, 2)),
    }
}

fn copy(rt: &impl Abort, alloc: Global, line: &str) -> Edit {
    Edit::CopyCard {
        from_book: name(rt, alloc, word(line, 1)),
        from_card: name(rt, alloc, word(line, 2)),
        to_book: name(rt, alloc, word(line, 3)),
        to_card: name(rt, alloc, word(line, 4)),
        owner: owner(rt, alloc, word(line, 5)),
    }
}

fn move_to(rt: &impl Abort, alloc: Global, line: &str) -> Edit {
    Edit::MoveCard {
        from_book: name(rt, alloc, word(line, 1)),
        from_card: name(rt, alloc, word(line, 2)),
        to_book: name(rt, alloc, word(line, 3)),
        to_card: name(rt, alloc, word(line, 4)),
    }
}

/// A label is one word; none is the empty label.
fn label(rt: &impl Abort, alloc: Global, line: &str) -> Edit {
    Edit::SetLabel {
        path: path(rt, alloc, word(line, 1)),
        label: text(rt, alloc, word(line, 2)),
    }
}

/// The entries of a list at a path, one or none.
fn entries(rt: &impl Abort, alloc: Global, line: &str) -> Items<Entry> {
    let mut entries = Items::new(alloc);
    if word(line, 2) != "" {
        entries.push(entry(rt, alloc, line)).expect(rt, "memory");
    }
    entries
}

fn list(rt: &impl Abort, alloc: Global, line: &str) -> Edit {
    Edit::SetList {
        path: path(rt, alloc, word(line, 1)),
        entries: entries(rt, alloc, line),
    }
}

fn principals(rt: &impl Abort, alloc: Global, line: &str) -> Items<Principal> {
    let mut principals = Items::new(alloc);
    for member in line.split(' ').skip(2) {
        let member = principal(rt, alloc, member);
        principals.push(member).expect(rt, "memory");
    }
    principals
}

fn members(rt: &impl Abort, alloc: Global, line: &str) -> Edit {
    Edit::SetMembers {
        group: principal(rt, alloc, word(line, 1)),
        members: principals(rt, alloc, line),
    }
}

fn edit(rt: &impl Abort, alloc: Global, line: &str) -> Edit {
    match word(line, 0) {
        "put" => put(rt, alloc, line),
        "remove" => remove(rt, alloc, line),
        "copy" => copy(rt, alloc, line),
        "move" => move_to(rt, alloc, line),
        "label" => label(rt, alloc, line),
        "list" => list(rt, alloc, line),
        "members" => members(rt, alloc, line),
        "add" => Edit::AddBook {
            book: name(rt, alloc, word(line, 1)),
            owner: owner(rt, alloc, word(line, 2)),
        },
        _ => Edit::RemoveBook {
            book: name(rt, alloc, word(line, 1)),
        },
    }
}

/// Makes the edit of the line, which has no answer.
pub(crate) fn make<K: Keeper>(
    rt: &impl Abort,
    alloc: Global,
    keeper: &mut K,
    line: &str,
) -> String {
    let edit = edit(rt, alloc, line);
    keeper.act(alloc, &edit).expect(rt, "memory");
    drop(edit);
    String::new(alloc)
}
