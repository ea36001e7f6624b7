//! The edits, each as one transaction.

use crate::acts::Acts;
use crate::checks::{check, check_fact, check_number};
use crate::new_tables::{check_epoch, found, name, path, principal, tables, text};
use crate::row_texts::entries_at;
use book_lists::{Entry, Who};
use book_office::{Keeper, StoreFault};
use book_office_values::Items;
use book_rights::{Leaf, LeafSet};
use std::process::Abort;

#[test]
fn cards_and_books_are_edited(rt: HostRuntime) {
    let alloc = rt.alloc();
    let mut tables = tables(&rt, alloc);
    let (law, a) = (name(&rt, alloc, "law"), name(&rt, alloc, "a.vcf"));
    let (b, c) = (name(&rt, alloc, "b.vcf"), name(&rt, alloc, "c.vcf"));
    tables.add_book(alloc, &law, &None).expect(&rt, "a book");
    check(
        &rt,
        found(&rt, alloc, &mut tables, "/books/law"),
        "\"\" - 0",
    );
    for put in ["one", "two"] {
        let put = text(&rt, alloc, put);
        tables
            .put_card(alloc, &law, &a, &None, &put)
            .expect(&rt, "a card");
    }
    let label = text(&rt, alloc, "Ann");
    let path_of_a = path(&rt, alloc, "/books/law/a.vcf");
    tables
        .set_label(alloc, &path_of_a, &label)
        .expect(&rt, "a label");
    drop(path_of_a);
    check(
        &rt,
        found(&rt, alloc, &mut tables, "/books/law/a.vcf"),
        "\"Ann\" two 3",
    );
    tables
        .copy_card(alloc, &law, &a, &law, &b, &None)
        .expect(&rt, "a copy");
    tables
        .move_card(alloc, &law, &b, &law, &c)
        .expect(&rt, "a move");
    tables.remove_card(alloc, &law, &a).expect(&rt, "removed");
    for (at, wanted) in [
        ("/books/law/a.vcf", "none"),
        ("/books/law/b.vcf", "none"),
        ("/books/law/c.vcf", "\"Ann\" two 6"),
        ("/books/law", "\"\" - 7"),
    ] {
        check(&rt, found(&rt, alloc, &mut tables, at), wanted);
    }
    check_epoch(&rt, &mut tables, 0);
    tables.remove_book(alloc, &law).expect(&rt, "removed");
    drop((law, a, b, c, label));
    check(
        &rt,
        found(&rt, alloc, &mut tables, "/books/law/c.vcf"),
        "none",
    );
    check_epoch(&rt, &mut tables, 1);
    check_number(&rt, tables.failures(), 0);
    drop(tables);
}

#[test]
fn own_lists_are_written_in_order(rt: HostRuntime) {
    let alloc = rt.alloc();
    let mut tables = tables(&rt, alloc);
    let books = path(&rt, alloc, "/books");
    let mut list = Items::new(alloc);
    for (who, invert, deny) in [
        (Who::Own, true, true),
        (Who::Everyone, false, false),
        (Who::Authenticated, false, true),
        (Who::Unauthenticated, true, false),
        (Who::Owner, false, false),
    ] {
        let set = LeafSet::empty().with(Leaf::ReadTexts).with(Leaf::WriteAcl);
        let entry = Entry {
            who,
            invert,
            deny,
            set,
        };
        list.push(entry).expect(&rt, "memory");
    }
    tables.set_list(alloc, &books, &list).expect(&rt, "a list");
    check_epoch(&rt, &mut tables, 1);
    let eve = Entry {
        who: Who::Href(principal(&rt, alloc, "/people/eve")),
        invert: false,
        deny: false,
        set: LeafSet::all(),
    };
    list.push(eve).expect(&rt, "memory");
    let unknown = tables.set_list(alloc, &books, &list);
    drop((books, list));
    check_fact(&rt, unknown == Err(StoreFault::Store), "nobody is eve");
    check_number(&rt, tables.failures(), 1);
    check_epoch(&rt, &mut tables, 1);
    let mut connection = tables.release();
    check(
        &rt,
        entries_at(&rt, alloc, &mut connection, "/books"),
        "4 0 5 - 1 1 65; 4 0 1 - 0 0 65; 4 0 2 - 0 1 65; 4 0 3 - 1 0 65; 4 0 4 - 0 0 65",
    );
    drop(connection);
}

#[test]
fn members_must_be_there(rt: HostRuntime) {
    let alloc = rt.alloc();
    let mut tables = tables(&rt, alloc);
    let staff = principal(&rt, alloc, "/groups/staff");
    let mut members = Items::new(alloc);
    let none = tables.set_members(alloc, &staff, &members);
    check_fact(&rt, none == Ok(()), "no members");
    members
        .push(principal(&rt, alloc, "/people/ann"))
        .expect(&rt, "memory");
    let unknown = tables.set_members(alloc, &staff, &members);
    drop((staff, members));
    check_fact(&rt, unknown == Err(StoreFault::Store), "nobody is ann");
    check_number(&rt, tables.failures(), 1);
    check_epoch(&rt, &mut tables, 1);
    drop(tables);
}
