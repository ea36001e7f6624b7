//! The Office of the examples of members and audits: it is what a policy makes of the empty one, and then edits in order.

use crate::words::{leaves, name, path, principal, text, who, word};
use book_lists::{Caller, Circle, Entry};
use book_office::{Edit, Items, Keeper, MemoryKeeper};
use book_policy::read_policy;
use std::alloc::Global;
use std::process::Abort;

/// Persons ann, bob and gus; the group staff of ann and bob; the books sales and law of ann.
const OFFICE_POLICY: &str = "version = 1\n\
    [[person]]\nname = \"ann\"\n[[person]]\nname = \"bob\"\n[[person]]\nname = \"gus\"\n\
    [[group]]\nname = \"staff\"\nmembers = [\"/people/ann\", \"/people/bob\"]\n\
    [[book]]\nname = \"sales\"\nlabel = \"Sales\"\nowner = \"/people/ann\"\n\
    [[book]]\nname = \"law\"\nowner = \"/people/ann\"\n\
    [[entry]]\nat = \"/books/sales\"\nwho = \"/people/ann\"\ngrant = [\"all\"]\nprotected = true\n\
    [[entry]]\nat = \"/books/sales\"\nwho = \"/groups/staff\"\ngrant = [\"read\", \"bind\"]\n\
    [[entry]]\nat = \"/books/law\"\nwho = \"owner\"\ngrant = [\"all\"]\nprotected = true\n\
    [[entry]]\nat = \"/books/law\"\nwho = \"/people/bob\"\ngrant = [\"read\", \"unbind\"]\n\
    [[entry]]\nat = \"/groups\"\nwho = \"/people/ann\"\ngrant = [\"read\", \"write-properties\"]\nprotected = true\n";

fn act<K: Keeper>(rt: &impl Abort, alloc: Global, keeper: &mut K, edit: Edit) {
    keeper.act(alloc, &edit).expect(rt, "memory");
    drop(edit);
}

/// The keeper of the empty Office that adopted the policy.
pub(crate) fn keeper(rt: &impl Abort, alloc: Global) -> MemoryKeeper {
    let policy = read_policy(alloc, OFFICE_POLICY).expect(rt, "a policy");
    let mut keeper = MemoryKeeper::new(alloc);
    act(rt, alloc, &mut keeper, Edit::Adopt { policy });
    keeper
}

/// `grant WHO NAME ..` or `deny WHO NAME ..`; `not` before the form inverts it.
fn entry(rt: &impl Abort, alloc: Global, line: &str) -> Entry {
    let invert = word(line, 1) == "not";
    let at = if invert { 2 } else { 1 };
    Entry {
        who: who(rt, alloc, word(line, at)),
        invert,
        deny: word(line, 0) == "deny",
        set: leaves(rt, line, at + 1),
    }
}

/// Puts a card with a text into a book.
pub(crate) fn put<K: Keeper>(
    rt: &impl Abort,
    alloc: Global,
    keeper: &mut K,
    at: (&str, &str),
    owner: &str,
    content: &str,
) {
    let edit = Edit::PutCard {
        book: name(rt, alloc, at.0),
        card: name(rt, alloc, at.1),
        owner: Some(principal(rt, alloc, owner)),
        text: text(rt, alloc, content),
    };
    act(rt, alloc, keeper, edit);
}

/// Gives a resource an own list.
pub(crate) fn set_list<K: Keeper>(
    rt: &impl Abort,
    alloc: Global,
    keeper: &mut K,
    at: &str,
    lines: &[&str],
) {
    let mut entries = Items::new(alloc);
    for line in lines {
        entries.push(entry(rt, alloc, line)).expect(rt, "memory");
    }
    let edit = Edit::SetList {
        path: path(rt, alloc, at),
        entries,
    };
    act(rt, alloc, keeper, edit);
}

/// Makes a book without owner.
pub(crate) fn add_book<K: Keeper>(rt: &impl Abort, alloc: Global, keeper: &mut K, book: &str) {
    let edit = Edit::AddBook {
        book: name(rt, alloc, book),
        owner: None,
    };
    act(rt, alloc, keeper, edit);
}

/// The circle of a person; that of nobody at a dash.
pub(crate) fn circle<K: Keeper>(
    rt: &impl Abort,
    alloc: Global,
    keeper: &mut K,
    caller: &str,
) -> Circle {
    let caller = match caller {
        "-" => Caller::Nobody,
        _ => Caller::Known(principal(rt, alloc, caller)),
    };
    keeper.circle(alloc, &caller).expect(rt, "memory")
}
