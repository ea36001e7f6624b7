//! Lists, texts, maps by name, and change numbers.

ghost use Rattle.std.specs.Prelude.{◌≡◌, IfOk};

use crate::checks::{check_fact, check_text};
use crate::names::named;
use book_lists::Name;
use book_office_values::{Book, Changes, Items, NameMap, Properties, StoredCard, Text};
use std::alloc::{AllocError, Global};
use std::process::Abort;

/// A copy of a list is the list, where a copy of an item is the item.
fn copied_texts(texts: &Items<Text>) -> Result<Items<Text>, AllocError>
    ensures { IfOk result (λ copy. copy ≡ texts.now) }
{
    let copy = texts.clone()?;
    Ok(copy)
}

#[test]
fn lists_keep_their_items(rt: HostRuntime) {
    let mut texts = Items::new(rt.alloc());
    for text in ["Zürich", "", "Zürich"] {
        let text = Text::copy_of(rt.alloc(), text).expect(&rt, "memory");
        texts.push(text).expect(&rt, "memory");
    }
    let copy = copied_texts(&texts).expect(&rt, "memory");
    check_fact(&rt, copy == texts && copy.len() == 3, "a copy");
    for (text, len) in copy.as_slice().iter().zip([7, 0, 7]) {
        check_fact(&rt, text.len() == len, "a length");
    }
}

/// The names of a map, in byte order, found in one pass.
fn names_of(alloc: Global, numbers: &NameMap<u64>) -> Result<Items<Name>, AllocError> {
    let mut names = Items::new(alloc);
    for (name, _) in numbers.iter() {
        names.push(name.clone()?)?;
    }
    Ok(names)
}

fn set(rt: &impl Abort, alloc: Global, map: &mut NameMap<u64>, name: &str, value: u64) {
    map.insert(named(rt, alloc, name), value)
        .expect(rt, "memory");
}

fn check_value(rt: &impl Abort, alloc: Global, map: &NameMap<u64>, name: &str, value: Option<u64>) {
    let found = map.get(&named(rt, alloc, name)).copied();
    check_fact(rt, found == value, name);
}

fn check_names(rt: &impl Abort, alloc: Global, map: &NameMap<u64>, wanted: &[&str]) {
    let names = names_of(alloc, map).expect(rt, "memory");
    check_fact(rt, names.len() == wanted.len(), "names");
    for (name, text) in names.as_slice().iter().zip(wanted) {
        check_text(rt, name.text(), text, "a name");
    }
}

#[test]
fn maps_are_ordered_by_name(rt: HostRuntime) {
    let alloc = rt.alloc();
    let mut map = NameMap::new(alloc);
    for (name, value) in [("b", 2), ("a", 1), ("B", 3), ("b-1", 4), ("b", 5)] {
        set(&rt, alloc, &mut map, name, value);
    }
    check_names(&rt, alloc, &map, ["B", "a", "b", "b-1"].as_slice());
    check_value(&rt, alloc, &map, "b", Some(5));
    let removed = map.remove(&named(&rt, alloc, "a"));
    check_fact(&rt, removed == Some(1), "a removed name");
    check_value(&rt, alloc, &map, "a", None);
}

/// Changes as a text: each number, and its name.
fn told(rt: &impl Abort, alloc: Global, changes: &Items<(u64, Name)>) -> String {
    let mut answer = String::new(alloc);
    for (number, name) in changes.as_slice() {
        let name = name.text();
        write!(answer, "{number} {name} ").expect(rt, "memory");
    }
    answer
}

/// What is asked for: the changes after a number, and at most so many.
type Asked = (u64, Option<u32>);

fn check_told(rt: &impl Abort, alloc: Global, changes: &Changes, asked: Asked, wanted: &str) {
    let after = changes.after(alloc, asked.0, asked.1).expect(rt, "memory");
    check_text(rt, told(rt, alloc, &after).as_str(), wanted, "changes");
}

fn check_cards(rt: &impl Abort, alloc: Global, book: &Book, asked: Asked, wanted: &str) {
    let after = book.card_changes_after(alloc, asked.0, asked.1);
    let after = after.expect(rt, "memory");
    check_text(rt, told(rt, alloc, &after).as_str(), wanted, "cards");
}

fn check_number(
    rt: &impl Abort,
    alloc: Global,
    changes: &Changes,
    name: &str,
    number: Option<u64>,
) {
    let found = changes.get(&named(rt, alloc, name));
    check_fact(rt, found == number, name);
}

/// Touches each of the names once.
fn touch(rt: &impl Abort, alloc: Global, changes: &mut Changes, names: &[&str]) {
    for name in names {
        assert!(rt; changes.number() < 100);
        changes.touch(&named(rt, alloc, name)).expect(rt, "memory");
    }
}

/// The first change has the number 1; a name that changes again leaves its number, in the order of numbers.
#[test]
fn changes_are_numbered_from_1(rt: HostRuntime) {
    let alloc = rt.alloc();
    let mut changes = Changes::new(alloc);
    check_fact(&rt, changes.number() == 0, "no change");
    touch(&rt, alloc, &mut changes, ["b", "a", "c", "b"].as_slice());
    check_fact(&rt, changes.number() == 4, "four changes");
    check_number(&rt, alloc, &changes, "a", Some(2));
    check_number(&rt, alloc, &changes, "d", None);
    for (number, wanted) in [(0, "2 a 3 c 4 b "), (2, "3 c 4 b "), (4, "")] {
        check_told(&rt, alloc, &changes, (number, None), wanted);
    }
    for (most, wanted) in [(0, ""), (1, "3 c "), (2, "3 c 4 b "), (3, "3 c 4 b ")] {
        check_told(&rt, alloc, &changes, (2, Some(most)), wanted);
    }
}

/// A card that has nothing.
fn blank_card(alloc: Global) -> StoredCard {
    StoredCard {
        owner: None,
        label: Text::from_string(String::new(alloc)),
        own: Items::new(alloc),
        text: Text::from_string(String::new(alloc)),
    }
}

/// A book in which each of the names changed once, in this order, and these have a card.
fn book_of(rt: &impl Abort, alloc: Global, names: &[&str], cards: &[&str]) -> Book {
    let mut book = Book {
        properties: Properties::empty(alloc, None),
        cards: NameMap::new(alloc),
        changes: Changes::new(alloc),
    };
    touch(rt, alloc, &mut book.changes, names);
    for name in cards {
        let name = named(rt, alloc, name);
        book.cards
            .insert(name, blank_card(alloc))
            .expect(rt, "memory");
    }
    book
}

/// Checks the answers about a book whose cards q, c and a changed by the numbers 2, 5 and 7.
fn check_cards_of(rt: &impl Abort, alloc: Global, book: &Book) {
    for (number, wanted) in [(0, "2 q 5 c 7 a "), (2, "5 c 7 a "), (6, "7 a "), (7, "")] {
        check_cards(rt, alloc, book, (number, None), wanted);
    }
    for (most, wanted) in [(0, ""), (1, "5 c "), (2, "5 c 7 a "), (3, "5 c 7 a ")] {
        check_cards(rt, alloc, book, (2, Some(most)), wanted);
    }
}

const NAMES: [&str; 25] = [
    "r1", "q", "r3", "r4", "c", "r6", "a", "r8", "r9", "r10", "r11", "r12", "r13", "r14", "r15",
    "r16", "r17", "r18", "r19", "r20", "r21", "r22", "r23", "r24", "r25",
];

/// Removed names are passed over and not counted, where the names that were ever there are at most 8 times the cards,
/// and where they are more.
#[test]
fn cards_are_told_beside_removed_names(rt: HostRuntime) {
    let alloc = rt.alloc();
    for len in [7, 24, 25] {
        let names = NAMES.as_slice().get(..len).expect(&rt, "so many");
        let book = book_of(&rt, alloc, names, ["c", "q", "a"].as_slice());
        check_cards_of(&rt, alloc, &book);
        drop(book);
    }
}

/// Touches b and a in one book, and then b in that and a in another.
fn touch_together(rt: &impl Abort, alloc: Global, changes: &mut Changes, others: &mut Changes) {
    let b = named(rt, alloc, "b");
    let a = named(rt, alloc, "a");
    assert!(rt; changes.number() < 100 && others.number() < 100);
    changes.touch_both(&b, &a).expect(rt, "memory");
    changes.touch_with(&b, others, &a).expect(rt, "memory");
}

/// Two changes take two numbers, in their order; in two books one each.
#[test]
fn changes_are_made_together(rt: HostRuntime) {
    let alloc = rt.alloc();
    let mut changes = Changes::new(alloc);
    let mut others = Changes::new(alloc);
    touch_together(&rt, alloc, &mut changes, &mut others);
    check_told(&rt, alloc, &changes, (0, None), "2 a 3 b ");
    check_told(&rt, alloc, &others, (0, None), "1 a ");
}

/// A number is raised and never lowered; the names keep theirs, and the next change takes the one after it.
#[test]
fn a_number_is_raised(rt: HostRuntime) {
    let alloc = rt.alloc();
    let mut changes = Changes::new(alloc);
    touch(&rt, alloc, &mut changes, ["a", "b"].as_slice());
    changes.raise(9);
    changes.raise(3);
    check_fact(&rt, changes.number() == 9, "raised");
    check_number(&rt, alloc, &changes, "b", Some(2));
    touch(&rt, alloc, &mut changes, ["a"].as_slice());
    check_told(&rt, alloc, &changes, (0, None), "2 b 10 a ");
}
