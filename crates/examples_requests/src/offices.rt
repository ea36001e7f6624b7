//! The Office of the examples.
//!
//! It has the persons ann, bob and gus; the group staff of ann and bob, and the group crew of staff; the empty book
//! law of nobody; and the book sales of ann, with the label Sales and two cards: `a.vcf` of ann, with the label A and
//! the text BO, and `b.vcf` of bob, with the label B and the text BELL.
//!
//! Lines give it more: `protected PATH grant WHO NAME ..` and `own PATH grant WHO NAME ..` are entries, `epoch
//! NUMBER` is the epoch, `cards NUMBER` and `books NUMBER` are so many cards more in sales and so many books more,
//! and `b.vcf LABEL TEXT` are another label and text.

use crate::words::{entry, name, number, owner, principal, text, text_named, word};
use book_lists::{Entry, Pairs};
use book_office::{Book, Changes, Items, NameMap, Office, Properties, StoredCard};
use std::alloc::Global;
use std::process::Abort;

/// The rest of the first line that begins with this word; empty where there is none.
fn said<'a>(lines: &[&'a str], first: &str, index: usize) -> &'a str {
    for line in lines {
        if word(line, 0) == first {
            return word(line, index);
        }
    }
    ""
}

/// The number that the lines say; 0 where they say none.
fn number_said(rt: &impl Abort, lines: &[&str], first: &str) -> u64 {
    match said(lines, first, 1) {
        "" => 0,
        word => number(rt, word),
    }
}

/// The entries of a list at a path, in the order of the lines.
fn list(rt: &impl Abort, alloc: Global, lines: &[&str], kind: &str, at: &str) -> Items<Entry> {
    let mut list = Items::new(alloc);
    for line in lines {
        if word(line, 0) == kind && word(line, 1) == at {
            list.push(entry(rt, alloc, line)).expect(rt, "memory");
        }
    }
    list
}

fn properties(
    rt: &impl Abort,
    alloc: Global,
    lines: &[&str],
    at: &str,
    by: &str,
    label: &str,
) -> Properties {
    Properties {
        owner: owner(rt, alloc, by),
        label: text(rt, alloc, label),
        protected: list(rt, alloc, lines, "protected", at),
        own: list(rt, alloc, lines, "own", at),
    }
}

/// The resources of these names in a home.
fn residents(
    rt: &impl Abort,
    alloc: Global,
    lines: &[&str],
    home: &str,
    names: &[&str],
) -> NameMap<Properties> {
    let mut residents = NameMap::new(alloc);
    for resident in names {
        let at = format!(in alloc; "{home}/{resident}").expect(rt, "memory");
        let what = properties(rt, alloc, lines, at.as_str(), "-", "");
        residents
            .insert(name(rt, alloc, resident), what)
            .expect(rt, "memory");
    }
    residents
}

fn card(
    rt: &impl Abort,
    alloc: Global,
    lines: &[&str],
    at: &str,
    by: &str,
    label: &str,
    content: &str,
) -> StoredCard {
    StoredCard {
        owner: owner(rt, alloc, by),
        label: text(rt, alloc, label),
        own: list(rt, alloc, lines, "own", at),
        text: text(rt, alloc, text_named(content)),
    }
}

fn add_card(
    rt: &impl Abort,
    alloc: Global,
    cards: &mut NameMap<StoredCard>,
    changes: &mut Changes,
    named: &str,
    card: StoredCard,
) {
    let key = name(rt, alloc, named);
    assert!(rt; changes.number() < 20_000);
    changes.touch(&key).expect(rt, "memory");
    cards.insert(key, card).expect(rt, "memory");
}

/// So many cards of nobody, with the text BO.
fn add_cards(
    rt: &impl Abort,
    alloc: Global,
    cards: &mut NameMap<StoredCard>,
    changes: &mut Changes,
    count: u64,
) {
    for number in 0..count {
        let named = format!(in alloc; "c{number}").expect(rt, "memory");
        let card = card(rt, alloc, &[], "", "-", "", "BO");
        add_card(rt, alloc, cards, changes, named.as_str(), card);
    }
}

/// The label and the text of the card of bob.
fn card_of_bob(rt: &impl Abort, alloc: Global, lines: &[&str]) -> StoredCard {
    let at = "/books/sales/b.vcf";
    match said(lines, "b.vcf", 1) {
        "" => card(rt, alloc, lines, at, "/people/bob", "B", "BELL"),
        label => {
            let content = said(lines, "b.vcf", 2);
            card(rt, alloc, lines, at, "/people/bob", label, content)
        }
    }
}

fn fill(
    rt: &impl Abort,
    alloc: Global,
    lines: &[&str],
    cards: &mut NameMap<StoredCard>,
    changes: &mut Changes,
) {
    let at = "/books/sales/a.vcf";
    let first = card(rt, alloc, lines, at, "/people/ann", "A", "BO");
    add_card(rt, alloc, cards, changes, "a.vcf", first);
    let second = card_of_bob(rt, alloc, lines);
    add_card(rt, alloc, cards, changes, "b.vcf", second);
    add_cards(rt, alloc, cards, changes, number_said(rt, lines, "cards"));
}

fn sales(rt: &impl Abort, alloc: Global, lines: &[&str]) -> Book {
    let mut cards = NameMap::new(alloc);
    let mut changes = Changes::new(alloc);
    fill(rt, alloc, lines, &mut cards, &mut changes);
    Book {
        properties: properties(rt, alloc, lines, "/books/sales", "/people/ann", "Sales"),
        cards,
        changes,
    }
}

fn empty_book(rt: &impl Abort, alloc: Global, lines: &[&str], at: &str) -> Book {
    Book {
        properties: properties(rt, alloc, lines, at, "-", ""),
        cards: NameMap::new(alloc),
        changes: Changes::new(alloc),
    }
}

fn add_book(rt: &impl Abort, alloc: Global, books: &mut NameMap<Book>, named: &str, book: Book) {
    books
        .insert(name(rt, alloc, named), book)
        .expect(rt, "memory");
}

fn add_books(rt: &impl Abort, alloc: Global, books: &mut NameMap<Book>, count: u64) {
    for number in 0..count {
        let named = format!(in alloc; "b{number}").expect(rt, "memory");
        let book = empty_book(rt, alloc, &[], "");
        add_book(rt, alloc, books, named.as_str(), book);
    }
}

fn books(rt: &impl Abort, alloc: Global, lines: &[&str]) -> NameMap<Book> {
    let mut books = NameMap::new(alloc);
    let law = empty_book(rt, alloc, lines, "/books/law");
    add_book(rt, alloc, &mut books, "law", law);
    add_book(rt, alloc, &mut books, "sales", sales(rt, alloc, lines));
    add_books(rt, alloc, &mut books, number_said(rt, lines, "books"));
    books
}

fn pairs(rt: &impl Abort, alloc: Global) -> Pairs {
    let mut pairs = Pairs::new(alloc);
    for (group, member) in [
        ("/groups/staff", "/people/ann"),
        ("/groups/staff", "/people/bob"),
        ("/groups/crew", "/groups/staff"),
    ] {
        let group = principal(rt, alloc, group);
        let member = principal(rt, alloc, member);
        pairs.add(group, member).expect(rt, "memory");
    }
    pairs
}

/// The Office with these lines.
pub(crate) fn office(rt: &impl Abort, alloc: Global, lines: &[&str]) -> Office {
    Office {
        root: properties(rt, alloc, lines, "/", "-", ""),
        people: properties(rt, alloc, lines, "/people", "-", ""),
        groups_home: properties(rt, alloc, lines, "/groups", "-", ""),
        books_home: properties(rt, alloc, lines, "/books", "-", ""),
        persons: residents(rt, alloc, lines, "/people", &["ann", "bob", "gus"]),
        groups: residents(rt, alloc, lines, "/groups", &["crew", "staff"]),
        books: books(rt, alloc, lines),
        pairs: pairs(rt, alloc),
        epoch: number_said(rt, lines, "epoch"),
    }
}
