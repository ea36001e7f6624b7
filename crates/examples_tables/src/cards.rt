//! Books and cards: MKCOL, PUT, DELETE, PROPPATCH, COPY and MOVE (RFC 4918, section 9; RFC 6578, section 3).

use crate::checks::{check, check_number};
use crate::committed::{
    add_book, copy_card, label_card, label_node, move_card, put_card, remove_book, remove_card,
};
use crate::row_texts::{changed, children, epoch, gone, node, store};
use sqlite::{Connection, MemStore};
use std::alloc::Global;
use std::process::Abort;

/// A store with the books law and sales of ann; sales is empty, and law has a card of bob.
fn books(rt: &impl Abort, alloc: Global) -> Connection<MemStore> {
    let mut connection = store(rt, alloc);
    for path in ["/books/law", "/books/sales"] {
        add_book(&mut connection, "/books", path, Some("/people/ann")).expect(rt, path);
    }
    put(rt, &mut connection, "one");
    connection
}

fn put(rt: &impl Abort, connection: &mut Connection<MemStore>, text: &str) {
    let owner = Some("/people/bob");
    put_card(
        connection,
        "/books/law",
        "/books/law/a.vcf",
        "a.vcf",
        owner,
        text,
    )
    .expect(rt, text);
}

#[test]
fn cards_are_put(rt: HostRuntime) {
    let alloc = rt.alloc();
    let mut connection = books(&rt, alloc);
    check(
        &rt,
        node(&rt, alloc, &mut connection, "/books/law"),
        "4 /people/ann \"\" - 1",
    );
    check(
        &rt,
        node(&rt, alloc, &mut connection, "/books/law/a.vcf"),
        "5 /people/bob \"\" one 1",
    );
    put(&rt, &mut connection, "two");
    check(
        &rt,
        node(&rt, alloc, &mut connection, "/books/law/a.vcf"),
        "5 /people/bob \"\" two 2",
    );
    check(
        &rt,
        changed(&rt, alloc, &mut connection, "/books/law", 1),
        "10 /books/law/a.vcf /people/bob . two 2",
    );
    check(
        &rt,
        changed(&rt, alloc, &mut connection, "/books/law", 2),
        "",
    );
    drop(connection);
}

#[test]
fn cards_are_removed_and_made_again(rt: HostRuntime) {
    let alloc = rt.alloc();
    let mut connection = books(&rt, alloc);
    remove_card(&mut connection, "/books/law", "/books/law/a.vcf", "a.vcf").expect(&rt, "DELETE");
    check(
        &rt,
        node(&rt, alloc, &mut connection, "/books/law/a.vcf"),
        "none",
    );
    check(
        &rt,
        gone(&rt, alloc, &mut connection, "/books/law", 0),
        "a.vcf 2",
    );
    put(&rt, &mut connection, "again");
    check(&rt, gone(&rt, alloc, &mut connection, "/books/law", 0), "");
    check(
        &rt,
        node(&rt, alloc, &mut connection, "/books/law/a.vcf"),
        "5 /people/bob \"\" again 3",
    );
    drop(connection);
}

#[test]
fn labels_are_set(rt: HostRuntime) {
    let alloc = rt.alloc();
    let mut connection = books(&rt, alloc);
    label_card(&mut connection, "/books/law", "/books/law/a.vcf", "A").expect(&rt, "PROPPATCH");
    label_node(&mut connection, "/books/law", "Law").expect(&rt, "PROPPATCH");
    check(
        &rt,
        node(&rt, alloc, &mut connection, "/books/law/a.vcf"),
        "5 /people/bob \"A\" one 2",
    );
    check(
        &rt,
        children(&rt, alloc, &mut connection, "/books"),
        "8 /books/law 4 /people/ann Law 2; 9 /books/sales 4 /people/ann . 0",
    );
    drop(connection);
}

#[test]
fn cards_are_copied_and_moved(rt: HostRuntime) {
    let alloc = rt.alloc();
    let mut connection = books(&rt, alloc);
    let (law, sales) = ("/books/law", "/books/sales");
    let (source, copy, moved) = (
        "/books/law/a.vcf",
        "/books/sales/b.vcf",
        "/books/sales/c.vcf",
    );
    let owner = Some("/people/ann");
    copy_card(&mut connection, source, sales, copy, "b.vcf", owner).expect(&rt, "COPY");
    check(
        &rt,
        node(&rt, alloc, &mut connection, copy),
        "5 /people/ann \"\" one 1",
    );
    move_card(&mut connection, law, source, "a.vcf", sales, moved, "c.vcf").expect(&rt, "MOVE");
    check(
        &rt,
        node(&rt, alloc, &mut connection, moved),
        "5 /people/bob \"\" one 2",
    );
    check(&rt, gone(&rt, alloc, &mut connection, law, 0), "a.vcf 2");
    check(&rt, node(&rt, alloc, &mut connection, source), "none");
    drop(connection);
}

#[test]
fn books_are_removed(rt: HostRuntime) {
    let alloc = rt.alloc();
    let mut connection = books(&rt, alloc);
    remove_book(&mut connection, "/books/law").expect(&rt, "DELETE");
    check(
        &rt,
        node(&rt, alloc, &mut connection, "/books/law/a.vcf"),
        "none",
    );
    check(
        &rt,
        children(&rt, alloc, &mut connection, "/books"),
        "9 /books/sales 4 /people/ann . 0",
    );
    check_number(&rt, epoch(&rt, &mut connection), 1);
    drop(connection);
}
