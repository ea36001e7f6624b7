//! How the Offices of the examples are made: a policy is adopted, then the book sales gets cards, and these get lists of
//! their own.

use book_lists::{Entry, Name, Principal, Who};
use book_office::{Edit, Items, Keeper, MemoryKeeper, Path, Text};
use book_policy::read_policy;
use book_rights::LeafSet;
use std::alloc::Global;
use std::process::Abort;

pub(crate) fn name(rt: &impl Abort, alloc: Global, word: &str) -> Name {
    let name = Name::parse(alloc, word).expect(rt, "memory");
    name.expect(rt, "a name")
}

fn principal(rt: &impl Abort, alloc: Global, word: &str) -> Principal {
    let principal = Principal::parse(alloc, word).expect(rt, "memory");
    principal.expect(rt, "a principal")
}

pub(crate) fn act<K: Keeper>(rt: &impl Abort, alloc: Global, keeper: &mut K, edit: Edit) {
    keeper.act(alloc, &edit).expect(rt, "memory");
    drop(edit);
}

/// A keeper of the empty Office that adopted a policy.
pub(crate) fn adopted(rt: &impl Abort, alloc: Global, policy: &str) -> MemoryKeeper {
    let policy = read_policy(alloc, policy).expect(rt, "a policy");
    let mut keeper = MemoryKeeper::new(alloc);
    act(rt, alloc, &mut keeper, Edit::Adopt { policy });
    keeper
}

/// Puts a card of an owner into the book sales.
pub(crate) fn put_card<K: Keeper>(
    rt: &impl Abort,
    alloc: Global,
    keeper: &mut K,
    card: &str,
    owner: &str,
) {
    let edit = Edit::PutCard {
        book: name(rt, alloc, "sales"),
        card: name(rt, alloc, card),
        owner: Some(principal(rt, alloc, owner)),
        text: Text::copy_of(alloc, "any").expect(rt, "memory"),
    };
    act(rt, alloc, keeper, edit);
}

/// Adds an entry for a principal to a list.
pub(crate) fn push_entry(
    rt: &impl Abort,
    alloc: Global,
    entries: &mut Items<Entry>,
    principal_path: &str,
    invert: bool,
    deny: bool,
    set: LeafSet,
) {
    let entry = Entry {
        who: Who::Href(principal(rt, alloc, principal_path)),
        invert,
        deny,
        set,
    };
    entries.push(entry).expect(rt, "memory");
}

/// Gives a card of the book sales its own list.
pub(crate) fn set_list<K: Keeper>(
    rt: &impl Abort,
    alloc: Global,
    keeper: &mut K,
    card: &str,
    entries: Items<Entry>,
) {
    let path = Path::Card(name(rt, alloc, "sales"), name(rt, alloc, card));
    act(rt, alloc, keeper, Edit::SetList { path, entries });
}
