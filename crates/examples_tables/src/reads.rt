//! Reads of an Office over tables: the changes of a book, those of its cards alone, and the members of one group.

use crate::acts::Acts;
use crate::checks::check;
use crate::new_tables::{name, path, principal, tables, text};
use crate::row_texts::store;
use book_lists::{Entry, Name, Who};
use book_office::{Changed, Keeper};
use book_office_values::Items;
use book_rights::LeafSet;
use book_tables::Tables;
use book_tables_opening::open;
use sqlite::MemStore;
use std::alloc::Global;
use std::process::Abort;

/// Number, name and text of each change, and how many own entries its card has; `-` of a removed name.
fn told(rt: &impl Abort, alloc: Global, changes: Items<Changed>) -> String {
    let mut all = String::new(alloc);
    for change in changes.as_slice() {
        let (number, name) = (change.number, change.name.text());
        let one = match &change.card {
            Some(card) => {
                let (text, own) = (card.text.as_str(), card.own.len());
                format!(in alloc; "{number} {name} {text} {own};")
            }
            None => format!(in alloc; "{number} {name} -;"),
        };
        let one = one.expect(rt, "memory");
        all.push_str(one.as_str()).expect(rt, "memory");
    }
    drop(changes);
    all
}

fn check_changes(
    rt: &impl Abort,
    alloc: Global,
    tables: &mut Tables<MemStore>,
    book: &Name,
    asked: (u64, Option<u32>),
    wanted: &str,
) {
    let changes = tables.changes_after(alloc, book, asked.0, asked.1);
    let changes = changes.expect(rt, wanted);
    check(rt, told(rt, alloc, changes), wanted);
}

fn check_cards(
    rt: &impl Abort,
    alloc: Global,
    tables: &mut Tables<MemStore>,
    book: &Name,
    asked: (u64, Option<u32>),
    wanted: &str,
) {
    let changes = tables.cards_after(alloc, book, asked.0, asked.1);
    let changes = changes.expect(rt, wanted);
    check(rt, told(rt, alloc, changes), wanted);
}

fn put(
    rt: &impl Abort,
    alloc: Global,
    tables: &mut Tables<MemStore>,
    book: &Name,
    card: &str,
    body: &str,
) {
    let card = name(rt, alloc, card);
    let body = text(rt, alloc, body);
    let put = tables.put_card(alloc, book, &card, &None, &body);
    put.expect(rt, "PUT");
}

#[test]
fn changes_of_cards_leave_removed_names_out(rt: HostRuntime) {
    let alloc = rt.alloc();
    let mut tables = tables(&rt, alloc);
    let (law, other) = (name(&rt, alloc, "law"), name(&rt, alloc, "other"));
    tables.add_book(alloc, &law, &None).expect(&rt, "MKCOL");
    put(&rt, alloc, &mut tables, &law, "a.vcf", "one");
    put(&rt, alloc, &mut tables, &law, "b.vcf", "two");
    put(&rt, alloc, &mut tables, &law, "c.vcf", "three");
    let b = name(&rt, alloc, "b.vcf");
    tables.remove_card(alloc, &law, &b).expect(&rt, "DELETE");
    put(&rt, alloc, &mut tables, &law, "a.vcf", "four");
    for (asked, wanted) in [
        ((0, None), "3 c.vcf three 0;4 b.vcf -;5 a.vcf four 0;"),
        ((0, Some(2)), "3 c.vcf three 0;4 b.vcf -;"),
        ((4, None), "5 a.vcf four 0;"),
    ] {
        check_changes(&rt, alloc, &mut tables, &law, asked, wanted);
    }
    for (asked, wanted) in [
        ((0, None), "3 c.vcf three 0;5 a.vcf four 0;"),
        ((0, Some(2)), "3 c.vcf three 0;5 a.vcf four 0;"),
        ((0, Some(1)), "3 c.vcf three 0;"),
        ((3, None), "5 a.vcf four 0;"),
        ((5, None), ""),
    ] {
        check_cards(&rt, alloc, &mut tables, &law, asked, wanted);
    }
    check_cards(&rt, alloc, &mut tables, &other, (0, None), "");
    drop((law, other, b));
    drop(tables);
}

/// Own entries for everyone, so many.
fn list_of(rt: &impl Abort, alloc: Global, count: usize) -> Items<Entry> {
    let mut list = Items::new(alloc);
    for _ in 0..count {
        let entry = Entry {
            who: Who::Everyone,
            invert: false,
            deny: false,
            set: LeafSet::all(),
        };
        list.push(entry).expect(rt, "memory");
    }
    list
}

/// Of the nine changes more than an eighth are looked up at once, and one alone by itself.
#[test]
fn own_lists_are_those_of_their_cards(rt: HostRuntime) {
    let alloc = rt.alloc();
    let mut tables = tables(&rt, alloc);
    let law = name(&rt, alloc, "law");
    tables.add_book(alloc, &law, &None).expect(&rt, "MKCOL");
    for card in ["a", "b", "c", "d", "e", "f", "g", "h", "i"] {
        put(&rt, alloc, &mut tables, &law, card, "x");
    }
    for (card, count) in [("/books/law/b", 1), ("/books/law/i", 2)] {
        let at = path(&rt, alloc, card);
        let list = list_of(&rt, alloc, count);
        tables.set_list(alloc, &at, &list).expect(&rt, "a list");
        drop((at, list));
    }
    let whole = "1 a x 0;2 b x 1;3 c x 0;4 d x 0;5 e x 0;6 f x 0;7 g x 0;8 h x 0;9 i x 2;";
    for (asked, wanted) in [
        ((0, None), whole),
        ((0, Some(9)), whole),
        ((8, None), "9 i x 2;"),
        ((1, Some(1)), "2 b x 1;"),
    ] {
        check_changes(&rt, alloc, &mut tables, &law, asked, wanted);
        check_cards(&rt, alloc, &mut tables, &law, asked, wanted);
    }
    drop(law);
    drop(tables);
}

/// The pairs of a group, as the paths of group and member.
fn check_members(
    rt: &impl Abort,
    alloc: Global,
    tables: &mut Tables<MemStore>,
    group: &str,
    wanted: &str,
) {
    let asked = principal(rt, alloc, group);
    let pairs = tables.members(alloc, &asked).expect(rt, group);
    let list = pairs.list().expect(rt, "memory");
    let mut all = String::new(alloc);
    for pair in &list {
        let (group, member) = (pair.group.text(), pair.member.text());
        let one = format!(in alloc; "{group} {member};").expect(rt, "memory");
        all.push_str(one.as_str()).expect(rt, "memory");
    }
    drop(list);
    drop(pairs);
    check(rt, all, wanted);
}

#[test]
fn members_are_those_of_one_group(rt: HostRuntime) {
    let alloc = rt.alloc();
    let mut connection = store(&rt, alloc);
    for sql in [
        "INSERT INTO node (path, parent, kind, label, number) VALUES ('/groups/legal', 3, 3, '', 0)",
        "INSERT INTO member VALUES ('/groups/staff', '/people/ann')",
        "INSERT INTO member VALUES ('/groups/legal', '/people/bob')",
        "INSERT INTO member VALUES ('/groups/staff', '/groups/legal')",
        "INSERT INTO member VALUES ('/groups/legal', '/people/ann')",
    ] {
        connection.execute_batch(sql).expect(&rt, sql);
    }
    let mut tables = open(alloc, connection).ok().expect(&rt, "an Office");
    for (group, wanted) in [
        (
            "/groups/staff",
            "/groups/staff /groups/legal;/groups/staff /people/ann;",
        ),
        (
            "/groups/legal",
            "/groups/legal /people/ann;/groups/legal /people/bob;",
        ),
        ("/groups/sales", ""),
    ] {
        check_members(&rt, alloc, &mut tables, group, wanted);
    }
    drop(tables);
}
