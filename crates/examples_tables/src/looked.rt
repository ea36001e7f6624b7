//! Lists of the cards of a book of more than eight, which are looked up only where one has an entry.

use crate::acts::Acts;
use crate::checks::check;
use crate::new_tables::{name, path, tables, text};
use book_lists::{Entry, Name, Who};
use book_office::Keeper;
use book_office_values::Items;
use book_rights::LeafSet;
use book_tables::Tables;
use sqlite::MemStore;
use std::alloc::Global;
use std::process::Abort;

/// The names of ten cards.
const CARDS: &[&str] = &["a", "b", "c", "d", "e", "f", "g", "h", "i", "j"];

/// Tables with the book `law` of these cards, none of which has an entry.
fn law(rt: &impl Abort, alloc: Global, book: &Name) -> Tables<MemStore> {
    let mut tables = tables(rt, alloc);
    tables.add_book(alloc, book, &None).expect(rt, "MKCOL");
    for card in CARDS {
        let (card, content) = (name(rt, alloc, card), text(rt, alloc, "one"));
        let put = tables.put_card(alloc, book, &card, &None, &content);
        put.expect(rt, "PUT");
    }
    tables
}

/// So many own entries at a path.
fn give(rt: &impl Abort, alloc: Global, tables: &mut Tables<MemStore>, at: &str, count: usize) {
    let mut list = Items::new(alloc);
    for _ in 0..count {
        let entry = Entry {
            who: Who::Everyone,
            invert: false,
            deny: false,
            set: LeafSet::all(),
        };
        list.push(entry).expect(rt, "memory");
    }
    let path = path(rt, alloc, at);
    tables.set_list(alloc, &path, &list).expect(rt, "ACL");
}

/// How many own entries each child has, in order of their names.
fn of_children(rt: &impl Abort, alloc: Global, tables: &mut Tables<MemStore>) -> String {
    let mut all = String::new(alloc);
    let path = path(rt, alloc, "/books/law");
    let children = tables.children(alloc, &path).expect(rt, "PROPFIND");
    for child in children.as_slice() {
        let one = format!(in alloc; "{}{} ", child.name.text(), child.own.len());
        let one = one.expect(rt, "memory");
        all.push_str(one.as_str()).expect(rt, "memory");
    }
    all
}

/// How many own entries each card that is told has, in order of their numbers.
fn of_cards(rt: &impl Abort, alloc: Global, tables: &mut Tables<MemStore>, book: &Name) -> String {
    let mut all = String::new(alloc);
    let told = tables
        .cards_after(alloc, book, 0, None)
        .expect(rt, "REPORT");
    for change in told.as_slice() {
        let own = change.card.as_ref().map_or(99, |card| card.own.len());
        let one = format!(in alloc; "{}{own} ", change.name.text());
        let one = one.expect(rt, "memory");
        all.push_str(one.as_str()).expect(rt, "memory");
    }
    all
}

/// A path, how many own entries it gets, and what is told then of the cards.
const TOLD: &[(&str, usize, &str)] = &[
    ("/books/law", 2, "a0 b0 c0 d0 e0 f0 g0 h0 i0 j0 "),
    ("/books/law/j", 1, "a0 b0 c0 d0 e0 f0 g0 h0 i0 j1 "),
    ("/books/law/a", 3, "a3 b0 c0 d0 e0 f0 g0 h0 i0 j1 "),
    ("/books/law/j", 0, "a3 b0 c0 d0 e0 f0 g0 h0 i0 j0 "),
    ("/books/law/a", 0, "a0 b0 c0 d0 e0 f0 g0 h0 i0 j0 "),
];

#[test]
fn lists_of_many_cards_are_told(rt: HostRuntime) {
    let alloc = rt.alloc();
    let book = name(&rt, alloc, "law");
    let mut tables = law(&rt, alloc, &book);
    for (at, count, wanted) in TOLD {
        give(&rt, alloc, &mut tables, at, *count);
        check(&rt, of_children(&rt, alloc, &mut tables), wanted);
        check(&rt, of_cards(&rt, alloc, &mut tables, &book), wanted);
    }
    drop(book);
    drop(tables);
}
