//! Sync reports over a keeper in memory, and a replica that they keep (RFC 6578, section 3).
//!
//! The Office has the persons ann and bob, the epoch 4, and the books law, which is empty, and sales with two cards of
//! bob: `a.vcf` with the label A and the text one, and `b.vcf` with the label B and the text two. Everyone may read the
//! books, but ann not `b.vcf`: its own list denies it, before the list of `/books` grants it.

ghost use Rattle.book_office_sync.specs.Copies.{IsLimit};

use crate::checks::{check_fact, check_text};
use crate::entry_lines::word;
use crate::names::named;
use book_lists::{Caller, Entry, Pairs, Principal, Who};
use book_office::{
    Book, Changes, Edit, Items, Keeper, MemoryKeeper, NameMap, Office, Properties, StoredCard, Text,
};
use book_office_sync::{
    Item, Limit, Replica, Report, Token, apply_report, edits_lead_on, sync_report,
};
use book_rights::{Leaf, Privilege};
use std::alloc::Global;
use std::process::Abort;

fn text(rt: &impl Abort, alloc: Global, text: &str) -> Text {
    Text::copy_of(alloc, text).expect(rt, "memory")
}

fn person(rt: &impl Abort, alloc: Global, text: &str) -> Principal {
    Principal::person(alloc, &named(rt, alloc, text)).expect(rt, "memory")
}

fn reading(who: Who, deny: bool) -> Entry {
    Entry {
        who,
        invert: false,
        deny,
        set: Privilege::Read.leaves(),
    }
}

fn card(rt: &impl Abort, alloc: Global, label: &str, content: &str) -> StoredCard {
    StoredCard {
        owner: Some(person(rt, alloc, "bob")),
        label: text(rt, alloc, label),
        own: Items::new(alloc),
        text: text(rt, alloc, content),
    }
}

fn empty_book(alloc: Global) -> Book {
    Book {
        properties: Properties::empty(alloc, None),
        cards: NameMap::new(alloc),
        changes: Changes::new(alloc),
    }
}

fn add(rt: &impl Abort, alloc: Global, book: &mut Book, key: &str, card: StoredCard) {
    let key = named(rt, alloc, key);
    assert!(rt; book.changes.number() < 10);
    book.changes.touch(&key).expect(rt, "memory");
    book.cards.insert(key, card).expect(rt, "memory");
}

fn sales(rt: &impl Abort, alloc: Global) -> Book {
    let mut book = empty_book(alloc);
    add(rt, alloc, &mut book, "a.vcf", card(rt, alloc, "A", "one"));
    let mut denied = card(rt, alloc, "B", "two");
    let who = Who::Href(person(rt, alloc, "ann"));
    denied.own.push(reading(who, true)).expect(rt, "memory");
    add(rt, alloc, &mut book, "b.vcf", denied);
    book
}

fn books(rt: &impl Abort, alloc: Global) -> NameMap<Book> {
    let mut books = NameMap::new(alloc);
    for (key, book) in [("law", empty_book(alloc)), ("sales", sales(rt, alloc))] {
        books
            .insert(named(rt, alloc, key), book)
            .expect(rt, "memory");
    }
    books
}

fn persons(rt: &impl Abort, alloc: Global) -> NameMap<Properties> {
    let mut persons = NameMap::new(alloc);
    for key in ["ann", "bob"] {
        persons
            .insert(named(rt, alloc, key), Properties::empty(alloc, None))
            .expect(rt, "memory");
    }
    persons
}

fn office(rt: &impl Abort, alloc: Global) -> Office {
    let mut books_home = Properties::empty(alloc, None);
    let everyone = reading(Who::Everyone, false);
    books_home.own.push(everyone).expect(rt, "memory");
    Office {
        root: Properties::empty(alloc, None),
        people: Properties::empty(alloc, None),
        groups_home: Properties::empty(alloc, None),
        books_home,
        persons: persons(rt, alloc),
        groups: NameMap::new(alloc),
        books: books(rt, alloc),
        pairs: Pairs::new(alloc),
        epoch: 4,
    }
}

/// `put CARD TEXT`, `remove CARD`, `copy CARD CARD` and `move CARD CARD`, all in sales, and `take BOOK`.
fn edit(rt: &impl Abort, alloc: Global, line: &str) -> Edit {
    let first = named(rt, alloc, word(line, 1));
    let book = named(rt, alloc, "sales");
    match word(line, 0) {
        "put" => Edit::PutCard {
            book,
            card: first,
            owner: None,
            text: text(rt, alloc, word(line, 2)),
        },
        "remove" => Edit::RemoveCard { book, card: first },
        "copy" => Edit::CopyCard {
            from_book: book,
            from_card: first,
            to_book: named(rt, alloc, "sales"),
            to_card: named(rt, alloc, word(line, 2)),
            owner: None,
        },
        "move" => Edit::MoveCard {
            from_book: book,
            from_card: first,
            to_book: named(rt, alloc, "sales"),
            to_card: named(rt, alloc, word(line, 2)),
        },
        _ => Edit::RemoveBook { book: first },
    }
}

/// The limit that a word says; none where there is no word.
fn limit(rt: &impl Abort, word: &str) -> Option<u32>
    ensures { IsLimit result }
{
    if word.is_empty() {
        return None;
    }
    let count = word.parse::<u64>().ok().expect(rt, "a number");
    let limit = Limit::new(count).expect(rt, "a limit");
    Some(limit.count())
}

fn tell(rt: &impl Abort, answer: &mut String, item: &Item) {
    let number = item.number;
    let name = item.name.text();
    match &item.found {
        Some(found) => {
            let label = found.label.as_str();
            let text = found.text.as_str();
            write!(answer, "{number} {name} [{label}] {text}\n").expect(rt, "memory");
        }
        None => write!(answer, "{number} {name} removed\n").expect(rt, "memory"),
    }
}

/// What a report says: a line for each item, and its token.
fn report_text(rt: &impl Abort, alloc: Global, report: &Report) -> String {
    let mut answer = String::new(alloc);
    for item in report.items.as_slice() {
        tell(rt, &mut answer, item);
    }
    let token = report.token.text(alloc).expect(rt, "memory");
    answer.push_str(token.as_str()).expect(rt, "memory");
    if report.truncated {
        answer.push_str(" more").expect(rt, "memory");
    }
    answer
}

/// What a report says, which the replica takes over; none where the token is not valid.
fn taken_over(
    rt: &impl Abort,
    alloc: Global,
    replica: &mut Replica,
    report: Option<Report>,
) -> String {
    let Some(report) = report else {
        return String::from_str(alloc, "not valid").expect(rt, "memory");
    };
    apply_report(replica, &report).expect(rt, "memory");
    let answer = report_text(rt, alloc, &report);
    drop(report);
    answer
}

/// The report of a line `sync CALLER BOOK TOKEN LIMIT`, where `-` is nobody and no token, and the limit may be left out; the
/// replica takes it over.
fn sync<K: Keeper>(
    rt: &impl Abort,
    alloc: Global,
    keeper: &mut K,
    replica: &mut Replica,
    line: &str,
) -> String {
    let caller = match word(line, 1) {
        "-" => Caller::Nobody,
        caller => Caller::Known(person(rt, alloc, caller)),
    };
    let circle = keeper.circle(alloc, &caller).expect(rt, "memory");
    drop(caller);
    let book = named(rt, alloc, word(line, 2));
    let token = Token::parse(alloc, word(line, 3)).expect(rt, "memory");
    let limit = limit(rt, word(line, 4));
    let report = sync_report(alloc, keeper, &circle, &book, token.as_ref(), limit);
    drop(circle);
    drop(book);
    drop(token);
    taken_over(rt, alloc, replica, report.expect(rt, "memory"))
}

/// What the replica has at the name of a line `has CARD`.
fn has(rt: &impl Abort, alloc: Global, replica: &Replica, line: &str) -> String {
    match replica.get(&named(rt, alloc, word(line, 1))) {
        Some(seen) => {
            let number = seen.number;
            let label = seen.label.as_str();
            let text = seen.text.as_str();
            format!(in alloc; "{number} [{label}] {text}").expect(rt, "memory")
        }
        None => String::from_str(alloc, "nothing").expect(rt, "memory"),
    }
}

fn act<K: Keeper>(rt: &impl Abort, alloc: Global, keeper: &mut K, edit: Edit) {
    keeper.act(alloc, &edit).expect(rt, "memory");
    drop(edit);
}

fn answer<K: Keeper>(
    rt: &impl Abort,
    alloc: Global,
    keeper: &mut K,
    replica: &mut Replica,
    line: &str,
) -> String {
    match word(line, 0) {
        "sync" => sync(rt, alloc, keeper, replica, line),
        "has" => has(rt, alloc, replica, line),
        "cards" => {
            let count = replica.len();
            format!(in alloc; "{count}").expect(rt, "memory")
        }
        _ => {
            act(rt, alloc, keeper, edit(rt, alloc, line));
            String::new(alloc)
        }
    }
}

fn take<K: Keeper>(
    rt: &impl Abort,
    alloc: Global,
    keeper: &mut K,
    replica: &mut Replica,
    line: &str,
    wanted: &str,
) {
    let told = answer(rt, alloc, keeper, replica, line);
    check_text(rt, told.as_str(), wanted, line);
}

fn follow(rt: &impl Abort, alloc: Global, steps: &[(&str, &str)]) {
    let mut keeper = MemoryKeeper::from_office(office(rt, alloc));
    let mut replica = Replica::new(alloc);
    for (line, wanted) in steps {
        take(rt, alloc, &mut keeper, &mut replica, line, wanted);
    }
    drop(keeper);
    drop(replica);
}

/// A name that may not be read is left out at first, and later told as removed; a name is told once, with the number of
/// its last change, also where it was removed and made again.
const COPY_OF_ANN: &[(&str, &str)] = &[
    ("sync ann sales -", "1 a.vcf [A] one\ndata:,sales/4/2"),
    ("has a.vcf", "1 [A] one"),
    ("has b.vcf", "nothing"),
    ("put b.vcf TWO", ""),
    ("put c.vcf three", ""),
    ("remove a.vcf", ""),
    ("put d.vcf four", ""),
    ("remove d.vcf", ""),
    (
        "sync ann sales data:,sales/4/2",
        "3 b.vcf removed\n4 c.vcf [] three\n5 a.vcf removed\n7 d.vcf removed\ndata:,sales/4/7",
    ),
    ("has a.vcf", "nothing"),
    ("has c.vcf", "4 [] three"),
    ("sync ann sales data:,sales/4/7", "data:,sales/4/7"),
    ("cards", "1"),
    ("put a.vcf five", ""),
    ("copy c.vcf a.vcf", ""),
    (
        "sync ann sales data:,sales/4/7",
        "9 a.vcf [] three\ndata:,sales/4/9",
    ),
    ("move c.vcf e.vcf", ""),
    (
        "sync ann sales data:,sales/4/9",
        "10 c.vcf removed\n11 e.vcf [] three\ndata:,sales/4/11",
    ),
    ("cards", "2"),
    ("move b.vcf e.vcf", ""),
    (
        "sync ann sales data:,sales/4/11",
        "12 b.vcf removed\n13 e.vcf removed\ndata:,sales/4/13",
    ),
    ("has a.vcf", "9 [] three"),
    ("has e.vcf", "nothing"),
    ("cards", "1"),
];

#[test]
fn a_replica_is_what_ann_may_read(rt: HostRuntime) {
    follow(&rt, rt.alloc(), COPY_OF_ANN);
    edits_lead_on();
}

/// The initial report tells no removed name; the report after the number 0 tells them.
const COPIES_OF_BOB_AND_NOBODY: &[(&str, &str)] = &[
    (
        "sync bob sales -",
        "1 a.vcf [A] one\n2 b.vcf [B] two\ndata:,sales/4/2",
    ),
    ("remove a.vcf", ""),
    ("sync - sales -", "2 b.vcf [B] two\ndata:,sales/4/3"),
    (
        "sync bob sales data:,sales/4/0",
        "2 b.vcf [B] two\n3 a.vcf removed\ndata:,sales/4/3",
    ),
    ("has b.vcf", "2 [B] two"),
    ("cards", "1"),
    ("sync bob law -", "data:,law/4/0"),
];

#[test]
fn bob_and_nobody_may_read_every_card(rt: HostRuntime) {
    follow(&rt, rt.alloc(), COPIES_OF_BOB_AND_NOBODY);
}

/// Another book, another epoch, a number one past the book's, and a book that is not there. The removal of a book
/// raises the epoch, and every token ends.
const TOKENS: &[(&str, &str)] = &[
    ("sync ann sales data:,sales/4/3", "not valid"),
    ("sync ann sales data:,sales/3/2", "not valid"),
    ("sync ann sales data:,sales/5/2", "not valid"),
    ("sync ann sales data:,law/4/0", "not valid"),
    ("sync ann law data:,sales/4/0", "not valid"),
    ("sync ann none -", "not valid"),
    ("sync ann sales data:,sales/4/2", "data:,sales/4/2"),
    ("cards", "0"),
    ("take law", ""),
    ("sync ann sales data:,sales/4/2", "not valid"),
    ("sync ann sales -", "1 a.vcf [A] one\ndata:,sales/5/2"),
    ("sync ann law -", "not valid"),
];

#[test]
fn tokens_name_a_book_an_epoch_and_a_number(rt: HostRuntime) {
    follow(&rt, rt.alloc(), TOKENS);
}

/// A limit counts items: the initial report leaves out what may not be read before it counts, and a later one counts what is
/// told as removed. A report of as many items as its limit is whole. Others edit between two pages.
const PAGES_OF_ANN: &[(&str, &str)] = &[
    ("put c.vcf three", ""),
    ("put d.vcf four", ""),
    ("remove d.vcf", ""),
    (
        "sync ann sales - 1",
        "1 a.vcf [A] one\ndata:,sales/4/1 more",
    ),
    (
        "sync ann sales - 2",
        "1 a.vcf [A] one\n3 c.vcf [] three\ndata:,sales/4/5",
    ),
    (
        "sync bob sales - 2",
        "1 a.vcf [A] one\n2 b.vcf [B] two\ndata:,sales/4/2 more",
    ),
    (
        "sync ann sales data:,sales/4/1 1",
        "2 b.vcf removed\ndata:,sales/4/2 more",
    ),
    ("put a.vcf five", ""),
    (
        "sync ann sales data:,sales/4/2 2",
        "3 c.vcf [] three\n5 d.vcf removed\ndata:,sales/4/5 more",
    ),
    (
        "sync ann sales data:,sales/4/5 1",
        "6 a.vcf [A] five\ndata:,sales/4/6",
    ),
    ("has a.vcf", "6 [A] five"),
    ("has c.vcf", "3 [] three"),
    ("cards", "2"),
];

#[test]
fn pages_make_the_replica_that_ann_may_read(rt: HostRuntime) {
    follow(&rt, rt.alloc(), PAGES_OF_ANN);
}

/// A limit is from 1 to 10,000.
#[test]
fn limits_have_a_range(rt: HostRuntime) {
    check_fact(&rt, Limit::new(0).is_none(), "0");
    check_fact(&rt, Limit::new(1).is_some(), "1");
    check_fact(&rt, Limit::new(10_000).is_some(), "10,000");
    check_fact(&rt, Limit::new(10_001).is_none(), "10,001");
}
